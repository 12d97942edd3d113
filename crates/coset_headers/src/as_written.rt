//! Whether the value of a header or a signature is already the one that would be written.
ghost use Rattle.std.specs.Prelude.{◌≡◌, refl};
ghost use Rattle.ciborium_value.specs.View.{view, views, view_pairs};
ghost use Rattle.coset_labels.specs.Limits.{nesting, layers};
ghost use Rattle.coset_headers.specs.AsWritten.{place_of, is_canonical_header};
ghost use Rattle.coset_headers.specs.AsWritten.{are_canonical_entries};
ghost use Rattle.coset_headers.specs.AsWritten.{are_canonical_counter_signatures};
ghost use Rattle.coset_headers.specs.AsWritten.{are_canonical_signatures, is_canonical_signature};
ghost use Rattle.coset_headers.specs.AsWritten.{are_canonical_elements};
ghost use Rattle.coset_headers.specs.Fields.{HeaderFields, SignatureFields};
ghost use Rattle.coset_headers.specs.Headers.{HasHeader, HasSignature};
ghost use Rattle.coset_headers.specs.Written.{header_tree, signature_tree};

use crate::header::{CoseSignature, Header};
use crate::values::is_one_signature;
use ciborium_value::Value;
use coset_labels::AsWritten;

/// The labels 1 to 7 come first, in this order, and counter signatures are one by itself or two and
/// more in a list.
impl AsWritten for Header {
    ghost Content = { HeaderFields };

    ghost has = { HasHeader };

    ghost tree_of = { header_tree };

    fn is_as_written(value: &Value) -> bool {
        is_canonical_header(value)
    }

    ghost read = { λ t x s. (nesting, layers, x, s, refl) };
}

/// The unprotected header is as written; a protected one always is.
impl AsWritten for CoseSignature {
    ghost Content = { SignatureFields };

    ghost has = { HasSignature };

    ghost tree_of = { signature_tree };

    fn is_as_written(value: &Value) -> bool {
        is_canonical_signature(value)
    }

    ghost read = { λ t x s. (nesting, layers, x, s, refl) };
}

#[cycle(canonical)]
fn is_canonical_header(value: &Value) -> bool
    ensures { result ≡ is_canonical_header (view value.now) }
{
    match value {
        Value::Map(entries) => are_canonical_entries(entries),
        _ => false,
    }
}

#[cycle(canonical)]
fn are_canonical_entries(entries: &[(Value, Value)]) -> bool
    ensures { result ≡ are_canonical_entries 1 (view_pairs entries.now) }
{
    let mut last = 1;
    'entries: for entry in entries {
        let place = place_of(&entry.0);
        if place < last {
            return false;
        }
        if place == 7 && !are_canonical_counter_signatures(&entry.1) {
            return false;
        }
        last = place;
    }
    true
}

/// The place of an entry in a header, by its key: 1 to 7 for a label with a field of its own, and 8
/// for all others.
fn place_of(key: &Value) -> u8
    ensures { result ≡ place_of (view key.now) }
{
    match key {
        Value::Integer(label) => match u8::try_from(*label) {
            Ok(place @ 1..=7) => place,
            _ => 8,
        },
        _ => 8,
    }
}

/// Counter signatures: one by itself, or a list of two and more.
#[cycle(canonical)]
fn are_canonical_counter_signatures(value: &Value) -> bool
    ensures { result ≡ are_canonical_counter_signatures (view value.now) }
{
    match value {
        Value::Array(items) => {
            if is_one_signature(items) {
                are_canonical_elements(items)
            } else {
                items.len() > 1 && are_canonical_signatures(items)
            }
        }
        _ => false,
    }
}

/// Whether the values of signatures are as they would be written.
#[cycle(canonical)]
pub fn are_canonical_signatures(items: &[Value]) -> bool
    ensures { result ≡ are_canonical_signatures (views items.now) }
{
    'items: for item in items {
        if !is_canonical_signature(item) {
            return false;
        }
    }
    true
}

/// Whether the value of a signature, or another array whose second element is an unprotected
/// header, is as it would be written.
#[cycle(canonical)]
pub fn is_canonical_signature(value: &Value) -> bool
    ensures { result ≡ is_canonical_signature (view value.now) }
{
    match value {
        Value::Array(items) => are_canonical_elements(items),
        _ => false,
    }
}

/// Whether the second of the elements of a signature or a message, its unprotected header, is as it
/// would be written.
#[cycle(canonical)]
pub fn are_canonical_elements(items: &[Value]) -> bool
    ensures { result ≡ are_canonical_elements (views items.now) }
{
    match items {
        [_, unprotected, ..] => is_canonical_header(unprotected),
        _ => false,
    }
}
