//! Keys, their order and their points.
use crate::items::read;
use coset::iana::{Algorithm, EllipticCurve, EnumI64};
use coset::{CborOrdering, CborSerializable, CoseKey, CoseKeyBuilder, MlDsaVariant};
use std::fmt::Display;
use test_tools::{NoAnswer, Out};

/// The order with this name.
fn order(to: &mut Out, name: &str) -> CborOrdering {
    match name {
        "bytewise" => CborOrdering::Lexicographic,
        "length-first" => CborOrdering::LengthFirstLexicographic,
        _ => {
            to.refuse(NoAnswer::NoArgument);
            CborOrdering::Lexicographic
        }
    }
}

/// Whether two orders are the same.
pub fn are_same_orders(to: &mut Out, first: &str, second: &str) {
    let (first, second) = (order(to, first), order(to, second));
    to.yes_or_no(first == second);
}

/// A key with its params in canonical order.
pub fn canonical(to: &mut Out, ordering: &str, key: &str) {
    let ordering = order(to, ordering);
    if let Some(mut key) = read::<CoseKey>(to, key) {
        match key.canonicalize(to.alloc(), ordering) {
            Ok(()) => to.made(key.to_vec(to.alloc())),
            Err(error) => to.failure(&error),
        }
    }
}

/// The octet string of a key's point (SEC 1, section 2.3.3).
pub fn point_of_key(to: &mut Out, key: &str) {
    if let Some(key) = read::<CoseKey>(to, key) {
        to.made(key.to_sec1_octet_string(to.alloc()));
    }
}

/// The curve with this number.
fn curve(to: &mut Out, number: &str) -> EllipticCurve {
    match EllipticCurve::from_i64(to.number(number)) {
        Some(curve) => curve,
        None => {
            to.refuse(NoAnswer::NoArgument);
            EllipticCurve::P_256
        }
    }
}

/// What is written of a key that was built.
fn built<E: Display + Drop>(to: &mut Out, builder: Result<CoseKeyBuilder, E>) {
    if let Some(builder) = to.value(builder) {
        to.made(builder.build().to_vec(to.alloc()));
    }
}

/// The key of a point's octet string.
pub fn key_of_point(to: &mut Out, on: &str, octets: &str) {
    let on = curve(to, on);
    let octets = to.bytes(octets);
    let builder = CoseKeyBuilder::new_ec2_pub_key_sec1_octet_string(to.alloc(), on, &octets);
    built(to, builder);
}

/// A public key by both coordinates.
pub fn public(to: &mut Out, on: &str, x: &str, y: &str) {
    let on = curve(to, on);
    let x = to.bytes(x);
    let y = to.bytes(y);
    built(to, CoseKeyBuilder::new_ec2_pub_key(to.alloc(), on, x, y));
}

/// A public key by x and the sign of y, which is 0 or 1.
pub fn public_by_sign(to: &mut Out, on: &str, x: &str, sign: &str) {
    if sign != "0" && sign != "1" {
        to.refuse(NoAnswer::NoArgument);
    }
    let on = curve(to, on);
    let x = to.bytes(x);
    let builder = CoseKeyBuilder::new_ec2_pub_key_y_sign(to.alloc(), on, x, sign == "1");
    built(to, builder);
}

/// A private key.
pub fn private(to: &mut Out, on: &str, x: &str, y: &str, d: &str) {
    let on = curve(to, on);
    let x = to.bytes(x);
    let y = to.bytes(y);
    let d = to.bytes(d);
    built(
        to,
        CoseKeyBuilder::new_ec2_priv_key(to.alloc(), on, x, y, d),
    );
}

/// A symmetric key.
pub fn symmetric(to: &mut Out, secret: &str) {
    let secret = to.bytes(secret);
    built(to, CoseKeyBuilder::new_symmetric_key(to.alloc(), secret));
}

/// An octet key pair of nothing but its type.
pub fn octet_pair(to: &mut Out) {
    let builder = CoseKeyBuilder::new_okp_key(to.alloc());
    to.made(builder.build().to_vec(to.alloc()));
}

/// The variant of ML-DSA with this number.
fn variant(to: &mut Out, number: &str) -> MlDsaVariant {
    match number {
        "44" => MlDsaVariant::MlDsa44,
        "65" => MlDsaVariant::MlDsa65,
        "87" => MlDsaVariant::MlDsa87,
        _ => {
            to.refuse(NoAnswer::NoArgument);
            MlDsaVariant::MlDsa44
        }
    }
}

/// Whether two variants of ML-DSA are the same.
pub fn are_same_variants(to: &mut Out, first: &str, second: &str) {
    let (first, second) = (variant(to, first), variant(to, second));
    to.yes_or_no(first == second);
}

/// A public key of ML-DSA.
pub fn ml_dsa(to: &mut Out, of: &str, public: &str) {
    let of = variant(to, of);
    let public = to.bytes(public);
    built(
        to,
        CoseKeyBuilder::new_mldsa_pub_key(to.alloc(), of, public),
    );
}

/// The number of the algorithm of a variant.
pub fn ml_dsa_algorithm(to: &mut Out, of: &str) {
    let algorithm = Algorithm::from(variant(to, of));
    to.show(&algorithm.to_i64());
}

/// The variant of the algorithm with this number.
pub fn ml_dsa_variant(to: &mut Out, algorithm: &str) {
    match Algorithm::from_i64(to.number(algorithm)) {
        Some(algorithm) => match MlDsaVariant::try_from(algorithm) {
            Ok(MlDsaVariant::MlDsa44) => to.text("44"),
            Ok(MlDsaVariant::MlDsa65) => to.text("65"),
            Ok(MlDsaVariant::MlDsa87) => to.text("87"),
            Err(error) => to.failure(&error),
        },
        None => to.refuse(NoAnswer::NoArgument),
    }
}
