//! The keys of a set that are candidates.
ghost use Rattle.std.specs.Prelude.{◌≡◌, option_map, option_copied, map};
ghost use Rattle.std.specs.List.{list_any};
ghost use Rattle.cose_iana.specs.Algorithms.{algorithm_number};
ghost use Rattle.cose_iana.specs.Keys.{key_types, key_operations};
ghost use Rattle.cose_iana.specs.Registry.{neg};
ghost use Rattle.ciborium_value.specs.Folding.{without_zeros};
ghost use Rattle.ciborium_value.specs.View.{view, number_of};
ghost use Rattle.coset_headers.specs.View.{entry_view};
ghost use Rattle.coset_labels.specs.View.{registered_view, named_view};
ghost use Rattle.coset_keys.specs.View.{key_view};
ghost use Rattle.cose_rules.specs.Keys as spec;
ghost use Rattle.cose_rules.specs.Labels.{value_at};

use crate::algorithms::{Curves, Scheme};
use crate::labels::value_of;
use ciborium_value::bignum::stripped;
use ciborium_value::{Integer, Value};
use coset_keys::{CoseKey, KeyOperation};
use coset_labels::iana::EnumI64;
use coset_labels::{Algorithm, KeyType, Label, RegisteredLabel, RegisteredLabelWithPrivate};
use std::collections::BTreeSet;
use std::fmt;

/// Why a key isn't one for an algorithm.
#[derive(Debug, Clone, Copy, PartialEq, Eq)]
pub enum KeyFault {
    /// It is of another type.
    OtherType,
    /// It is on another curve, or has none.
    OtherCurve,
    /// It is for another algorithm alone.
    OtherAlgorithm,
    /// Its operations don't have this one.
    OtherOperation,
    /// It names no algorithm, and tags of 64 bits are taken only under a key that does.
    NoAlgorithm,
    /// Its x, of a key on a curve, isn't there, is empty or isn't a byte string.
    MissingX,
    /// Its y isn't there, is empty, or is neither a byte string nor a bool.
    MissingY,
    /// Its n, the modulus of an RSA key, isn't there, is empty or isn't a byte string.
    MissingN,
    /// Its e, the exponent of an RSA key, isn't there, is empty or isn't a byte string.
    MissingE,
    /// Its k, the secret of a symmetric key, isn't there, is empty or isn't a byte string.
    MissingK,
    /// Its n has fewer than 2,048 bits.
    ShortModulus,
}

impl fmt::Display for KeyFault {
    ghost use Rattle.std.specs.Prelude.{Some};
    ghost use Rattle.cose_rules.specs.RefusalTexts.{key_text};

    ghost output = { λ why. Some (key_text why) };

    fn fmt<W: fmt::Write>(&self, f: &mut fmt::Formatter<W>) -> fmt::Result {
        match self {
            KeyFault::OtherType => f.write_str("the key is of another type"),
            KeyFault::OtherCurve => f.write_str("the key is on another curve"),
            KeyFault::OtherAlgorithm => f.write_str("the key is for another algorithm"),
            KeyFault::OtherOperation => f.write_str("the key is for other operations"),
            KeyFault::NoAlgorithm => {
                f.write_str("the key names no algorithm, which tags of 64 bits need")
            }
            KeyFault::MissingX => f.write_str("the key has no x"),
            KeyFault::MissingY => f.write_str("the key has no y"),
            KeyFault::MissingN => f.write_str("the key has no n"),
            KeyFault::MissingE => f.write_str("the key has no e"),
            KeyFault::MissingK => f.write_str("the key has no k"),
            KeyFault::ShortModulus => f.write_str("the key has a modulus of fewer than 2,048 bits"),
        }
    }
}

impl std::error::Error for KeyFault {}

/// The integer that a value is.
fn integer_of(value: &Value) -> Option<Integer>
    ensures { option_map number_of result ≡ spec.integer_of (view value.now) }
{
    value.as_integer()
}

/// The curve among the entries of a key (RFC 9053, sections 7.1.1 and 7.2).
fn curve_in(params: &[(Label, Value)]) -> Option<Integer>
    ensures { option_map number_of result ≡ spec.curve_in (map entry_view params.now) }
{
    match value_of(params, -1) {
        Some(value) => integer_of(value),
        None => None,
    }
}

fn is_curve(curve: i64, found: Option<Integer>) -> bool
    ensures { result ≡ spec.is_curve curve (option_map number_of found) }
{
    match found {
        Some(found) => i128::from(found) == i128::from(curve),
        None => false,
    }
}

fn are_curves(curves: Curves, found: Option<Integer>) -> bool
    ensures { result ≡ spec.are_curves curves (option_map number_of found) }
{
    match curves {
        Curves::Any => true,
        Curves::One(curve) => is_curve(curve, found),
        Curves::Either(one, other) => is_curve(one, found) || is_curve(other, found),
    }
}

/// Whether a key is of this type.
pub fn is_type(kty: &KeyType, number: i64) -> bool
    ensures { result ≡ spec.is_entry number (registered_view key_types.number kty.now) }
{
    match kty {
        RegisteredLabel::Assigned(entry) => entry.to_i64() == number,
        RegisteredLabel::Text(_) => false,
    }
}

/// Whether a key is for this algorithm, or for any.
pub fn allows(algorithm: &Option<Algorithm>, number: i64) -> bool
    ensures { result ≡ spec.allows number (option_map (named_view algorithm_number) algorithm.now) }
{
    match algorithm {
        Some(RegisteredLabelWithPrivate::Assigned(entry)) => entry.to_i64() == number,
        Some(RegisteredLabelWithPrivate::PrivateUse(_) | RegisteredLabelWithPrivate::Text(_)) => {
            false
        }
        None => true,
    }
}

/// Whether a key names an algorithm, or this one isn't HMAC 256/64.
fn is_named(algorithm: &Option<Algorithm>, number: i64) -> bool
    ensures { result
        ≡ spec.is_named number (option_map (named_view algorithm_number) algorithm.now) }
{
    match algorithm {
        Some(_) => true,
        None => number != 4,
    }
}

fn is_operation(operation: &KeyOperation, number: i64) -> bool
    ensures { result ≡ spec.is_entry number (registered_view key_operations.number operation.now) }
{
    match operation {
        RegisteredLabel::Assigned(entry) => entry.to_i64() == number,
        RegisteredLabel::Text(_) => false,
    }
}

fn any_operation(operations: &BTreeSet<KeyOperation>, number: i64) -> bool
    ensures { result ≡ list_any
        (λ k. spec.is_entry number (registered_view key_operations.number k)) operations.now.keys }
{
    operations
        .iter()
        .any(|operation| is_operation(operation, number))
}

/// Whether a key is for this operation, or for any (RFC 9052, section 7.1).
pub fn permits(operations: &BTreeSet<KeyOperation>, number: i64) -> bool
    ensures { result ≡ spec.permits number
        (map (registered_view key_operations.number) operations.now.keys) }
{
    if operations.is_empty() {
        return true;
    }
    any_operation(operations, number)
}

fn bytes_of(value: &Value) -> Option<&[u8]>
    ensures { option_copied result ≡ spec.bytes_of (view value.now) }
{
    match value {
        Value::Bytes(content) => Some(content.as_slice()),
        _ => None,
    }
}

fn bytes_at(params: &[(Label, Value)], label: i64) -> Option<&[u8]>
    ensures { option_copied result ≡ spec.bytes_at label (map entry_view params.now) }
{
    match value_of(params, label) {
        Some(value) => bytes_of(value),
        None => None,
    }
}

/// The byte string under this label of a key, as its k or n (-1), its x or e (-2), its y (-3).
pub fn part_of(key: &CoseKey, label: i64) -> Option<&[u8]>
    ensures { option_copied result ≡ spec.bytes_at label (key_view key.now).params }
{
    bytes_at(&key.params, label)
}

/// Whether a value is a byte string that isn't empty.
fn has_bytes(value: &Value) -> bool
    ensures { result ≡ spec.has_bytes (view value.now) }
{
    match value {
        Value::Bytes(content) => !content.is_empty(),
        _ => false,
    }
}

fn is_part(value: Option<&Value>) -> bool
    ensures { result ≡ spec.is_part (option_map view (option_copied value.entry)) }
{
    match value {
        Some(value) => has_bytes(value),
        None => false,
    }
}

fn is_y(value: Option<&Value>) -> bool
    ensures { result ≡ spec.is_y (option_map view (option_copied value.entry)) }
{
    match value {
        Some(value) => has_bytes(value) || value.is_bool(),
        None => false,
    }
}

/// Whether a number has at least 2,048 bits, by its bytes without zeros in front.
fn is_long(digits: &[u8]) -> bool
    ensures { result ≡ spec.is_long digits.now }
{
    match digits {
        [first, rest @ ..] => rest.len() > 255 || (rest.len() == 255 && *first >= 128),
        [] => false,
    }
}

fn is_long_number(bytes: &[u8]) -> bool
    ensures { result ≡ spec.is_long (without_zeros bytes.now) }
{
    is_long(stripped(bytes))
}

fn has_long(value: &Value) -> bool
    ensures { result ≡ spec.has_long (view value.now) }
{
    match value {
        Value::Bytes(content) => is_long_number(content),
        _ => false,
    }
}

fn is_modulus(value: Option<&Value>) -> bool
    ensures { result ≡ spec.is_modulus (option_map view (option_copied value.entry)) }
{
    match value {
        Some(value) => has_long(value),
        None => false,
    }
}

/// Whether a key has this part.
fn has_part(params: &[(Label, Value)], label: i64) -> bool
    ensures { result ≡ spec.is_part (value_at label (map entry_view params.now)) }
{
    is_part(value_of(params, label))
}

fn has_y(params: &[(Label, Value)]) -> bool
    ensures { result ≡ spec.is_y (value_at (neg 3) (map entry_view params.now)) }
{
    is_y(value_of(params, -3))
}

fn has_modulus(params: &[(Label, Value)]) -> bool
    ensures { result ≡ spec.is_modulus (value_at (neg 1) (map entry_view params.now)) }
{
    is_modulus(value_of(params, -1))
}

fn okp_fault(params: &[(Label, Value)]) -> Option<KeyFault>
    ensures { result ≡ spec.okp_fault (map entry_view params.now) }
{
    if has_part(params, -2) {
        None
    } else {
        Some(KeyFault::MissingX)
    }
}

fn ec2_fault(params: &[(Label, Value)]) -> Option<KeyFault>
    ensures { result ≡ spec.ec2_fault (map entry_view params.now) }
{
    if !has_part(params, -2) {
        Some(KeyFault::MissingX)
    } else if has_y(params) {
        None
    } else {
        Some(KeyFault::MissingY)
    }
}

fn rsa_fault(params: &[(Label, Value)]) -> Option<KeyFault>
    ensures { result ≡ spec.rsa_fault (map entry_view params.now) }
{
    if !has_part(params, -1) {
        Some(KeyFault::MissingN)
    } else if !has_part(params, -2) {
        Some(KeyFault::MissingE)
    } else if has_modulus(params) {
        None
    } else {
        Some(KeyFault::ShortModulus)
    }
}

fn symmetric_fault(params: &[(Label, Value)]) -> Option<KeyFault>
    ensures { result ≡ spec.symmetric_fault (map entry_view params.now) }
{
    if has_part(params, -1) {
        None
    } else {
        Some(KeyFault::MissingK)
    }
}

/// Which part a key of this type hasn't.
fn part_fault(kty: i64, params: &[(Label, Value)]) -> Option<KeyFault>
    ensures { result ≡ spec.part_fault kty (map entry_view params.now) }
{
    if kty == 1 {
        okp_fault(params)
    } else if kty == 2 {
        ec2_fault(params)
    } else if kty == 3 {
        rsa_fault(params)
    } else {
        symmetric_fault(params)
    }
}

fn parts_fault(key: &CoseKey, kty: i64) -> Option<KeyFault>
    ensures { result ≡ spec.part_fault kty (key_view key.now).params }
{
    part_fault(kty, &key.params)
}

fn has_curve(key: &CoseKey, curves: Curves) -> bool
    ensures { result ≡ spec.are_curves curves (spec.curve_in (key_view key.now).params) }
{
    are_curves(curves, curve_in(&key.params))
}

/// Why a key of the type and on a curve of this scheme isn't one for it.
fn use_fault(key: &CoseKey, scheme: Scheme) -> Option<KeyFault>
    ensures { result ≡ spec.use_fault scheme (key_view key.now) }
{
    if !allows(&key.alg, scheme.number) {
        Some(KeyFault::OtherAlgorithm)
    } else if !permits(&key.key_ops, scheme.operation) {
        Some(KeyFault::OtherOperation)
    } else if !is_named(&key.alg, scheme.number) {
        Some(KeyFault::NoAlgorithm)
    } else {
        parts_fault(key, scheme.kty)
    }
}

/// Why a key isn't one for this scheme; none if it is: it is of its type and on a curve of it, for
/// its algorithm or any, for its operation or any, and has the parts that verifying takes.
pub fn key_fault(key: &CoseKey, scheme: Scheme) -> Option<KeyFault>
    ensures { result ≡ spec.key_fault scheme (key_view key.now) }
{
    if !is_type(&key.kty, scheme.kty) {
        Some(KeyFault::OtherType)
    } else if !has_curve(key, scheme.curves) {
        Some(KeyFault::OtherCurve)
    } else {
        use_fault(key, scheme)
    }
}

/// Whether a key has this id, which is empty if there is none.
pub fn has_id(key: &CoseKey, id: &[u8]) -> bool
    ensures { result ≡ spec.has_id id.now (key_view key.now) }
{
    key.key_id.as_slice() == id
}

/// Whether a key is a candidate for messages with this key id.
pub fn fits(key: &CoseKey, scheme: Scheme, id: &[u8]) -> bool
    ensures { result ≡ spec.fits scheme id.now (key_view key.now) }
{
    has_id(key, id) && key_fault(key, scheme).is_none()
}
