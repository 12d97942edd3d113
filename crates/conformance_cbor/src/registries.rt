//! Entries of registries.
use cose_iana::{
    ALGORITHM_PRIVATE_USE_MAX, AkpKeyParameter, Algorithm, CWT_CLAIM_PRIVATE_USE_MAX, CborTag,
    CoapContentFormat, CwtClaimName, ELLIPTIC_CURVE_PRIVATE_USE_MAX, Ec2KeyParameter,
    EllipticCurve, EnumI64, HEADER_PARAMETER_PRIVATE_USE_MAX, HeaderAlgorithmParameter,
    HeaderParameter, HssLmsKeyParameter, KeyOperation, KeyParameter, KeyType, OkpKeyParameter,
    RsaKeyParameter, SymmetricKeyParameter, WalnutDsaKeyParameter, WithPrivateRange,
};
use std::fmt::Debug;
use test_tools::{NoAnswer, Out};

/// The name of the registry's entry with the number that an argument is, and the number again.
pub fn named(to: &mut Out, registry: &str, word: &str) {
    let number = to.number(word);
    entry(to, registry, Some(number));
}

/// The name of the registry's entry with this number, and the number again; with no number, how
/// many entries it has from -70,000 to 70,000.
pub fn entry(to: &mut Out, registry: &str, number: Option<i64>) {
    match registry {
        "header-parameter" => told::<HeaderParameter>(to, number),
        "header-algorithm-parameter" => told::<HeaderAlgorithmParameter>(to, number),
        "algorithm" => told::<Algorithm>(to, number),
        "key-parameter" => told::<KeyParameter>(to, number),
        "okp" => told::<OkpKeyParameter>(to, number),
        "ec2" => told::<Ec2KeyParameter>(to, number),
        "rsa" => told::<RsaKeyParameter>(to, number),
        "symmetric" => told::<SymmetricKeyParameter>(to, number),
        "hss-lms" => told::<HssLmsKeyParameter>(to, number),
        "akp" => told::<AkpKeyParameter>(to, number),
        "walnut-dsa" => told::<WalnutDsaKeyParameter>(to, number),
        "key-type" => told::<KeyType>(to, number),
        "curve" => told::<EllipticCurve>(to, number),
        "key-operation" => told::<KeyOperation>(to, number),
        "tag" => told::<CborTag>(to, number),
        "content-format" => told::<CoapContentFormat>(to, number),
        "claim" => told::<CwtClaimName>(to, number),
        _ => to.refuse(NoAnswer::NoCall),
    }
}

fn told<T: EnumI64 + Debug>(to: &mut Out, number: Option<i64>) {
    match number {
        Some(number) => tell_entry::<T>(to, number),
        None => {
            let count = (-70_000..=70_000)
                .filter(|i| T::from_i64(*i).is_some())
                .count();
            to.show(&count);
        }
    }
}

fn tell_entry<T: EnumI64 + Debug>(to: &mut Out, number: i64) {
    match T::from_i64(number) {
        Some(entry) => {
            to.debug(&entry);
            to.text(" ");
            to.show(&entry.to_i64());
        }
        None => to.text("none"),
    }
}

/// An entry, and the number that `as` makes of it.
macro_rules! tell_cast {
    ($to:expr, $entry:expr) => {
        told_cast($to, &$entry, $entry as i64)
    };
}

/// One entry of the registry, and the number that `as` makes of it.
pub fn cast(to: &mut Out, registry: &str) {
    match registry {
        "header-parameter" => tell_cast!(to, HeaderParameter::CounterSignature0),
        "header-algorithm-parameter" => tell_cast!(to, HeaderAlgorithmParameter::StaticKeyId),
        "algorithm" => tell_cast!(to, Algorithm::A128GCM),
        "key-parameter" => tell_cast!(to, KeyParameter::BaseIv),
        "okp" => tell_cast!(to, OkpKeyParameter::D),
        "ec2" => tell_cast!(to, Ec2KeyParameter::Y),
        "rsa" => tell_cast!(to, RsaKeyParameter::QInv),
        "symmetric" => tell_cast!(to, SymmetricKeyParameter::K),
        "hss-lms" => tell_cast!(to, HssLmsKeyParameter::Pub),
        "akp" => tell_cast!(to, AkpKeyParameter::Pub),
        "walnut-dsa" => tell_cast!(to, WalnutDsaKeyParameter::N),
        "key-type" => tell_cast!(to, KeyType::AKP),
        "curve" => tell_cast!(to, EllipticCurve::BrainpoolP256R1),
        "key-operation" => tell_cast!(to, KeyOperation::MacVerify),
        "tag" => tell_cast!(to, CborTag::CoseSign),
        "content-format" => tell_cast!(to, CoapContentFormat::Cbor),
        "claim" => tell_cast!(to, CwtClaimName::PsaClientId),
        _ => to.refuse(NoAnswer::NoCall),
    }
}

fn told_cast<T: Debug>(to: &mut Out, entry: &T, number: i64) {
    to.debug(entry);
    to.text(" ");
    to.show(&number);
}

/// Whether the number is for private use, and the bound that such numbers lie below.
pub fn private(to: &mut Out, registry: &str, word: &str) {
    let n = to.number(word);
    match registry {
        "header-parameter" => tell_private(
            to,
            HeaderParameter::is_private(n),
            HEADER_PARAMETER_PRIVATE_USE_MAX,
        ),
        "algorithm" => tell_private(to, Algorithm::is_private(n), ALGORITHM_PRIVATE_USE_MAX),
        "curve" => tell_private(
            to,
            EllipticCurve::is_private(n),
            ELLIPTIC_CURVE_PRIVATE_USE_MAX,
        ),
        "claim" => tell_private(to, CwtClaimName::is_private(n), CWT_CLAIM_PRIVATE_USE_MAX),
        _ => to.refuse(NoAnswer::NoCall),
    }
}

fn tell_private(to: &mut Out, is_private: bool, bound: i64) {
    to.text(if is_private { "yes" } else { "no" });
    to.text(" below ");
    to.show(&bound);
}

/// The entry with the number that an argument is.
pub fn found<T: EnumI64>(to: &mut Out, word: &str) -> Option<T> {
    let entry = T::from_i64(to.number(word));
    if entry.is_none() {
        to.refuse(NoAnswer::NotItem);
    }
    entry
}
