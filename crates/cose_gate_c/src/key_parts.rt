//! The parts of the keys of a set, for crypto that takes them as they are.
ghost use Rattle.std.specs.Prelude.{◌≡◌, ◌++◌, IfOk, OnOk, flat_map, map, option_map, option_copied};
ghost use Rattle.std.specs.Int.{w64, cast_unsigned};
ghost use Rattle.std.specs.List.{find};
ghost use Rattle.ciborium_value.specs.View.{view};
ghost use Rattle.cose_iana.specs.Algorithms.{algorithm_number};
ghost use Rattle.cose_iana.specs.Keys.{key_types};
ghost use Rattle.coset_headers.specs.View.{entry_view};
ghost use Rattle.coset_keys.specs.View.{key_view};
ghost use Rattle.coset_labels.specs.Fields.{number};
ghost use Rattle.coset_labels.specs.Labels.{label_of};
ghost use Rattle.coset_labels.specs.View.{label_view, named_view, registered_view};
ghost use Rattle.cose_gate_records.specs.Framing.{eight};
ghost use Rattle.cose_rules.specs.Labels.{same_label};
ghost use Rattle.cose_gate_c.specs.KeyParts as spec;
ghost use Rattle.cose_gate_c.specs.KeyParts.{IsListed, ListsKeys, PlacesAlone, key_text};

use ciborium_value::Value;
use cose_gate::{CborSerializable, CoseError, CoseKeySet};
use cose_gate_records::{Answer, append, place, place_none};
use cose_rules::{is_type, part_of};
use coset_keys::CoseKey;
use coset_labels::iana::EnumI64;
use coset_labels::{Algorithm, KeyType, Label, RegisteredLabel, RegisteredLabelWithPrivate};
use std::alloc::{AllocError, Global};

/// The number of a type of keys; 0 for a text.
fn type_number(kty: &KeyType) -> i64
    ensures { result ≡ spec.type_number (registered_view key_types.number kty.now) }
{
    match kty {
        RegisteredLabel::Assigned(entry) => entry.to_i64(),
        RegisteredLabel::Text(_) => 0,
    }
}

/// The number of an algorithm; 0 for a text and for none.
fn algorithm_number(algorithm: &Option<Algorithm>) -> i64
    ensures { result
        ≡ spec.algorithm_number (option_map (named_view algorithm_number) algorithm.now) }
{
    match algorithm {
        Some(RegisteredLabelWithPrivate::Assigned(entry)) => entry.to_i64(),
        Some(RegisteredLabelWithPrivate::PrivateUse(number)) => *number,
        Some(RegisteredLabelWithPrivate::Text(_)) | None => 0,
    }
}

/// The integer of 64 bits that a value is; 0 for another.
fn number_of(value: &Value) -> i64
    ensures { result ≡ spec.number_in (label_of (view value.now)) }
{
    match value {
        Value::Integer(integer) => match i64::try_from(*integer) {
            Ok(number) => number,
            Err(_) => 0,
        },
        _ => 0,
    }
}

/// Whether a label is -1.
fn is_curve(label: &Label) -> bool
    ensures { result ≡ same_label (label_view label.now) spec.curve }
{
    match label {
        Label::Int(number) => *number == -1,
        Label::Text(_) => false,
    }
}

/// The first entry under -1.
fn curve_entry(params: &[(Label, Value)]) -> Option<&(Label, Value)>
    ensures { option_copied result
        ≡ find (λ e. same_label (label_view e.0) spec.curve) params.now }
{
    params.iter().find(|entry| is_curve(&entry.0))
}

/// The number of a curve; 0 if there is none.
fn curve_in(params: &[(Label, Value)]) -> i64
    ensures { result ≡ spec.curve_in (map entry_view params.now) }
{
    match curve_entry(params) {
        Some(entry) => number_of(&entry.1),
        None => 0,
    }
}

/// Whether a key is on a curve: OKP or EC2.
fn is_on_curve(kty: &KeyType) -> bool
    ensures { result ≡ spec.is_on_curve (registered_view key_types.number kty.now) }
{
    is_type(kty, 1) || is_type(kty, 2)
}

/// The number of the curve of a key; 0 if it is on none.
fn curve_number(key: &CoseKey) -> i64
    ensures { result ≡ spec.curve_number (key_view key.now) }
{
    if is_on_curve(&key.kty) {
        curve_in(&key.params)
    } else {
        0
    }
}

/// n of an RSA key, or k of a symmetric one.
fn n_or_k(key: &CoseKey) -> Option<&[u8]>
    ensures { option_copied result ≡ spec.n_or_k (key_view key.now) }
{
    if is_type(&key.kty, 3) || is_type(&key.kty, 4) {
        part_of(key, -1)
    } else {
        None
    }
}

/// x of a key on a curve, or e of an RSA key.
fn x_or_e(key: &CoseKey) -> Option<&[u8]>
    ensures { option_copied result ≡ spec.x_or_e (key_view key.now) }
{
    if is_on_curve(&key.kty) || is_type(&key.kty, 3) {
        part_of(key, -2)
    } else {
        None
    }
}

/// y of an EC2 key.
fn y_of(key: &CoseKey) -> Option<&[u8]>
    ensures { option_copied result ≡ spec.y_of (key_view key.now) }
{
    if is_type(&key.kty, 2) {
        part_of(key, -3)
    } else {
        None
    }
}

/// Appends a number in eight bytes, in two's complement, the lowest first.
fn append_number(text: &mut Vec<u8>, number: i64) -> Result<(), AllocError>
    ensures { OnOk result (text.new.items
        ≡ text.old.items ++ eight (cast_unsigned w64 number)) }
{
    text.extend_from_slice(&number.to_le_bytes())
}

/// Appends a byte string, or none, after its length.
fn append_part(text: &mut Vec<u8>, part: Option<&[u8]>) -> Result<(), AllocError>
    ensures { OnOk result (text.new.items
        ≡ text.old.items ++ spec.part_text (option_copied part.entry)) }
{
    match part {
        Some(part) => append(text, part),
        None => append(text, &[]),
    }
}

/// Appends the numbers of a key.
fn append_numbers(text: &mut Vec<u8>, key: &CoseKey) -> Result<(), AllocError>
    ensures { OnOk result (text.new.items
        ≡ text.old.items ++ spec.numbers_text (key_view key.now)) }
{
    append_number(text, type_number(&key.kty))?;
    append_number(text, algorithm_number(&key.alg))?;
    append_number(text, curve_number(key))
}

/// Appends the byte strings of a key.
fn append_strings(text: &mut Vec<u8>, key: &CoseKey) -> Result<(), AllocError>
    ensures { OnOk result (text.new.items
        ≡ text.old.items ++ spec.strings_text (key_view key.now)) }
{
    append_part(text, n_or_k(key))?;
    append_part(text, x_or_e(key))?;
    append_part(text, y_of(key))
}

/// Appends the parts of a key, after their length.
fn append_key(alloc: Global, parts: &mut Vec<u8>, key: &CoseKey) -> Result<(), AllocError>
    ensures { OnOk result (parts.new.items ≡ parts.old.items ++ key_text (key_view key.now)) }
{
    let mut text = Vec::new(alloc);
    append_numbers(&mut text, key)?;
    append_strings(&mut text, key)?;
    append(parts, &text)
}

/// The parts of these keys.
fn parts_of(alloc: Global, keys: &[CoseKey]) -> Result<Vec<u8>, AllocError>
    ensures { IfOk result (λ parts. parts.items ≡ flat_map key_text (map key_view keys.now)) }
{
    let mut parts = Vec::new(alloc);
    for key in keys {
        append_key(alloc, &mut parts, key)?;
    }
    Ok(parts)
}

/// Writes the parts of these keys, if there is room.
fn place_parts(alloc: Global, keys: &[CoseKey], parts: &mut [u8]) -> Answer
    ensures { PlacesAlone (IsListed (map key_view keys.now)) «parts».old «parts».new result }
{
    match parts_of(alloc, keys) {
        Ok(text) => place(parts, &text, 0, 0),
        Err(AllocError) => place_none(parts, 4, 0),
    }
}

/// Writes the parts of the keys of the set that the bytes `keys` are, if there is room.
pub(crate) fn list_keys(alloc: Global, keys: &[u8], parts: &mut [u8]) -> Answer
    ensures { ListsKeys keys.now «parts».old «parts».new result }
{
    match CoseKeySet::from_slice(alloc, keys) {
        Ok(set) => place_parts(alloc, set.0.as_slice(), parts),
        Err(error) => match error {
            CoseError::Memory => place_none(parts, 4, 0),
            _ => place_none(parts, 3, 0),
        },
    }
}
