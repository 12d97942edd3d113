//! A builder of keys.
ghost use Rattle.std.specs.Prelude.{◌≡◌, ◌⊎◌, false, Some, MatchResult, IfOk};
ghost use Rattle.std.specs.BTreeSet.{insert_key};
ghost use Rattle.cose_iana.specs.Algorithms.{algorithm_number};
ghost use Rattle.cose_iana.specs.Keys.{key_types, key_operations, elliptic_curves};
ghost use Rattle.ciborium_value.specs.Tree.{bytes};
ghost use Rattle.ciborium_value.specs.View.{view};
ghost use Rattle.coset_labels.specs.Fields.{number, assigned};
ghost use Rattle.coset_labels.specs.Orders.{named_cmp};
ghost use Rattle.coset_labels.specs.View.{registered_view};
ghost use Rattle.coset_labels.specs.declared.error.CoseError.TheVariants.{Memory};
ghost use Rattle.coset_keys.specs.Builders.{so_far, is_common, with_param, symmetric_key};
ghost use Rattle.coset_keys.specs.Builders.{ml_dsa_key, okp_key};
ghost use Rattle.coset_keys.specs.Fields.{no_key};
ghost use Rattle.coset_keys.specs.Points as spec;
ghost use Rattle.coset_keys.specs.Points.{IsSec1, ec2_key, ec2_params, signed, both, d_label};
ghost use Rattle.coset_keys.specs.View.{key_view};
ghost use Rattle.coset_keys.specs.declared.sec1.ParseSec1OctetStringError.TheVariants as sec1_code;

use crate::key::CoseKey;
use crate::ml_dsa::MlDsaVariant;
use crate::sec1::{ParseSec1OctetStringError, Point, X, Y, parse_point};
use ciborium_value::{Integer, Value};
use coset_labels::iana::EnumI64;
use coset_labels::{CoseError, KeyType, Label, RegisteredLabel, RegisteredLabelWithPrivate, iana};
use std::alloc::{AllocError, Global};

/// The label of the curve of a key over an elliptic curve, and of the key itself of some other
/// types (RFC 9053, section 7).
const FIRST: i64 = -1;

/// The label of the private key of a key over an elliptic curve (RFC 9053, section 7.1.1).
const D: i64 = -4;

/// A key while it is built (RFC 9052, section 7). The setters take no memory.
#[derive(Drop)]
pub struct CoseKeyBuilder {
    key: CoseKey,
}

impl CoseKeyBuilder {
    /// A builder of a key of the reserved type with no other field. It takes no memory.
    pub fn new(alloc: Global) -> CoseKeyBuilder
        ensures { so_far result ≡ no_key }
    {
        CoseKeyBuilder {
            key: CoseKey::new(alloc),
        }
    }

    /// The key.
    pub fn build(self) -> CoseKey
        ensures { key_view result ≡ so_far self }
    {
        self.key
    }

    /// A public key over an elliptic curve, by x and y (RFC 9053, section 7.1.1).
    ///
    /// # Errors
    /// Only if out of memory.
    pub fn new_ec2_pub_key(
        alloc: Global,
        curve: iana::EllipticCurve,
        x: Vec<u8>,
        y: Vec<u8>,
    ) -> Result<CoseKeyBuilder, CoseError>
        ensures { MatchResult result
            (λ b. so_far b ≡ ec2_key (elliptic_curves.number curve) (both x.items y.items))
            (λ e. e ≡ Memory) }
    {
        Ok(ec2_builder(alloc, curve, x, Value::Bytes(y))?)
    }

    /// A public key over an elliptic curve, by x and the sign of y (RFC 9053, section 7.1.1).
    ///
    /// # Errors
    /// Only if out of memory.
    pub fn new_ec2_pub_key_y_sign(
        alloc: Global,
        curve: iana::EllipticCurve,
        x: Vec<u8>,
        y_sign: bool,
    ) -> Result<CoseKeyBuilder, CoseError>
        ensures { MatchResult result
            (λ b. so_far b ≡ ec2_key (elliptic_curves.number curve) (signed x.items y_sign))
            (λ e. e ≡ Memory) }
    {
        Ok(ec2_builder(alloc, curve, x, Value::Bool(y_sign))?)
    }

    /// A public key over an elliptic curve, by the octet string of its point (SEC 1, section
    /// 2.3.3). The coordinates may have any length.
    ///
    /// # Errors
    /// `Malformed` for an octet string of no point, or `Memory`.
    pub fn new_ec2_pub_key_sec1_octet_string(
        alloc: Global,
        curve: iana::EllipticCurve,
        sec1: &[u8],
    ) -> Result<CoseKeyBuilder, ParseSec1OctetStringError>
        ensures { MatchResult result
            (λ b. (p : spec.Point) × IsSec1 sec1.now p
            × (so_far b ≡ ec2_key (elliptic_curves.number curve) p))
            (λ e. (e ≡ sec1_code.Memory)
            ⊎ ((e ≡ sec1_code.Malformed) × ((p : spec.Point) → IsSec1 sec1.now p → ⊥))) }
    {
        match parse_point(sec1) {
            Some(Point::Signed(x, sign)) => {
                let x = x.to_vec(alloc)?;
                Ok(ec2_builder(alloc, curve, x, Value::Bool(sign))?)
            }
            Some(Point::Both(x, y)) => {
                let x = x.to_vec(alloc)?;
                let y = y.to_vec(alloc)?;
                Ok(ec2_builder(alloc, curve, x, Value::Bytes(y))?)
            }
            None => Err(ParseSec1OctetStringError::Malformed),
        }
    }

    /// A private key over an elliptic curve, by x, y and d (RFC 9053, section 7.1.1).
    ///
    /// # Errors
    /// Only if out of memory.
    pub fn new_ec2_priv_key(
        alloc: Global,
        curve: iana::EllipticCurve,
        x: Vec<u8>,
        y: Vec<u8>,
        d: Vec<u8>,
    ) -> Result<CoseKeyBuilder, CoseError>
        ensures { MatchResult result (λ b. so_far b
            ≡ with_param d_label (bytes d.items)
            (ec2_key (elliptic_curves.number curve) (both x.items y.items)))
            (λ e. e ≡ Memory) }
    {
        let mut builder = ec2_builder(alloc, curve, x, Value::Bytes(y))?;
        builder.push(D, Value::Bytes(d))?;
        Ok(builder)
    }

    /// A public key of ML-DSA (FIPS 204): a key of the type AKP, by the registry "COSE Key Types".
    ///
    /// # Errors
    /// Only if out of memory.
    pub fn new_mldsa_pub_key(
        alloc: Global,
        variant: MlDsaVariant,
        k: Vec<u8>,
    ) -> Result<CoseKeyBuilder, CoseError>
        ensures { MatchResult result (λ b. so_far b ≡ ml_dsa_key variant k.items)
            (λ e. e ≡ Memory) }
    {
        let mut builder = CoseKeyBuilder::new(alloc)
            .key_type(iana::KeyType::AKP)
            .algorithm(variant.into());
        builder.push(FIRST, Value::Bytes(k))?;
        Ok(builder)
    }

    /// A symmetric key (RFC 9053, section 7.3).
    ///
    /// # Errors
    /// Only if out of memory.
    pub fn new_symmetric_key(alloc: Global, k: Vec<u8>) -> Result<CoseKeyBuilder, CoseError>
        ensures { MatchResult result (λ b. so_far b ≡ symmetric_key k.items) (λ e. e ≡ Memory) }
    {
        let mut builder = CoseKeyBuilder::new(alloc).key_type(iana::KeyType::Symmetric);
        builder.push(FIRST, Value::Bytes(k))?;
        Ok(builder)
    }

    /// An octet key pair with no other field (RFC 9053, section 7.2). It takes no memory.
    pub fn new_okp_key(alloc: Global) -> CoseKeyBuilder
        ensures { so_far result ≡ okp_key }
    {
        CoseKeyBuilder::new(alloc).key_type(iana::KeyType::OKP)
    }

    /// Sets the type of the key.
    pub fn key_type(mut self, key_type: iana::KeyType) -> CoseKeyBuilder
        ensures { so_far result
            ≡ record (so_far self) { kty = assigned (key_types.number key_type) } }
    {
        self.key.kty = RegisteredLabel::Assigned(key_type);
        self
    }

    /// Sets the type of the key, which may be a text.
    pub fn kty(mut self, kty: KeyType) -> CoseKeyBuilder
        ensures { so_far result
            ≡ record (so_far self) { kty = registered_view key_types.number kty } }
    {
        self.key.kty = kty;
        self
    }

    /// Sets the algorithm.
    pub fn algorithm(mut self, alg: iana::Algorithm) -> CoseKeyBuilder
        ensures { so_far result
            ≡ record (so_far self) { alg = Some (assigned (algorithm_number alg)) } }
    {
        self.key.alg = Some(RegisteredLabelWithPrivate::Assigned(alg));
        self
    }

    /// Sets the key id.
    pub fn key_id(mut self, key_id: Vec<u8>) -> CoseKeyBuilder
        ensures { so_far result ≡ record (so_far self) { key_id = key_id.items } }
    {
        self.key.key_id = key_id;
        self
    }

    /// Sets the base IV.
    pub fn base_iv(mut self, base_iv: Vec<u8>) -> CoseKeyBuilder
        ensures { so_far result ≡ record (so_far self) { base_iv = base_iv.items } }
    {
        self.key.base_iv = base_iv;
        self
    }

    /// Adds an operation; one that is there already changes nothing.
    ///
    /// # Errors
    /// Only if out of memory.
    pub fn add_key_op(mut self, op: iana::KeyOperation) -> Result<CoseKeyBuilder, CoseError>
        ensures { MatchResult result (λ b. so_far b
            ≡ record (so_far self) {
              key_ops = insert_key named_cmp (so_far self).key_ops
                  (assigned (key_operations.number op));
            })
            (λ e. e ≡ Memory) }
    {
        self.key.key_ops.insert(RegisteredLabel::Assigned(op))?;
        Ok(self)
    }

    /// Appends an entry with a label outside 0 to 5: 0 is reserved, and the others have fields of
    /// their own (RFC 9052, section 7.1).
    ///
    /// # Errors
    /// Only if out of memory.
    pub fn param(mut self, label: i64, value: Value) -> Result<CoseKeyBuilder, CoseError>
        requires { is_common (number label) ≡ false }
        ensures { MatchResult result
            (λ b. so_far b ≡ with_param (number label) (view value) (so_far self))
            (λ e. e ≡ Memory) }
    {
        self.push(label, value)?;
        Ok(self)
    }

    fn push(&mut self, label: i64, value: Value) -> Result<(), AllocError>
        ensures { IfOk result
            (λ _. so_far self.new ≡ with_param (number label) (view value) (so_far self.old)) }
    {
        self.key.params.push((Label::Int(label), value))?;
        Ok(())
    }
}

/// A public key over an elliptic curve, if y may be a sign.
fn ec2_builder(
    alloc: Global,
    curve: iana::EllipticCurve,
    x: Vec<u8>,
    y: Value,
) -> Result<CoseKeyBuilder, AllocError>
    ensures { IfOk result
        (λ b. so_far b ≡ ec2_params (elliptic_curves.number curve) (bytes x.items) (view y)) }
{
    let mut builder = CoseKeyBuilder::new(alloc).key_type(iana::KeyType::EC2);
    builder.push(FIRST, Value::Integer(Integer::from(curve.to_i64())))?;
    builder.push(X, Value::Bytes(x))?;
    builder.push(Y, y)?;
    Ok(builder)
}
