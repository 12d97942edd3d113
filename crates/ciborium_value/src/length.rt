//! The lengths of encodings, which are never made.
ghost use Rattle.std.specs.Prelude.{◌≡◌};
ghost use Rattle.ciborium_value.specs.Canonical.{counted};
ghost use Rattle.ciborium_value.specs.Encoding.{int_head, enc, enc_all, enc_pairs};
ghost use Rattle.ciborium_value.specs.Facts.Heads.{Sized, SizedAll, SizedPairs};
ghost use Rattle.ciborium_value.specs.View.{number_of, view, views, view_pairs};

use crate::integer::Integer;
use crate::value::Value;
use ciborium_ll::laws::header_fits;
use ciborium_ll::{Header, simple};

/// The head of an integer.
pub(crate) fn integer_header(integer: Integer) -> Header
    ensures { result ≡ int_head (number_of integer) }
{
    let number = i128::from(integer);
    if number < 0 {
        Header::Negative((-1 - number) as u64)
    } else {
        Header::Positive(number as u64)
    }
}

/// The length of a value's encoding in bytes, counted to the greatest `usize`.
#[cycle(lengths)]
pub(crate) fn encoded_len(value: &Value) -> usize
    ensures len { result ≡ counted (enc (view value.now)) }
    ensures sized { Sized (view value.now) }
{
    match value {
        Value::Integer(integer) => {
            let header = integer_header(*integer);
            header_fits(header);
            header.title_len()
        }
        Value::Bytes(content) => Header::Bytes(Some(content.len()))
            .title_len()
            .saturating_add(content.len()),
        Value::Float(float) => {
            header_fits(Header::Float(*float));
            Header::Float(*float).title_len()
        }
        Value::Text(content) => Header::Text(Some(content.len()))
            .title_len()
            .saturating_add(content.len()),
        Value::Bool(false) => Header::Simple(simple::FALSE).title_len(),
        Value::Bool(true) => Header::Simple(simple::TRUE).title_len(),
        Value::Null => Header::Simple(simple::NULL).title_len(),
        Value::Tag(tag, content) => Header::Tag(*tag)
            .title_len()
            .saturating_add(encoded_len(content)),
        Value::Array(items) => Header::Array(Some(items.len()))
            .title_len()
            .saturating_add(items_len(items)),
        Value::Map(entries) => Header::Map(Some(entries.len()))
            .title_len()
            .saturating_add(entries_len(entries)),
    }
}

#[cycle(lengths)]
fn items_len(items: &[Value]) -> usize
    ensures len { result ≡ counted (enc_all (views items.now)) }
    ensures sized { SizedAll (views items.now) }
{
    let mut total: usize = 0;
    for item in items {
        total = total.saturating_add(encoded_len(item));
    }
    total
}

#[cycle(lengths)]
fn entries_len(entries: &[(Value, Value)]) -> usize
    ensures len { result ≡ counted (enc_pairs (view_pairs entries.now)) }
    ensures sized { SizedPairs (view_pairs entries.now) }
{
    let mut total: usize = 0;
    for entry in entries {
        total = total
            .saturating_add(encoded_len(&entry.0))
            .saturating_add(encoded_len(&entry.1));
    }
    total
}
