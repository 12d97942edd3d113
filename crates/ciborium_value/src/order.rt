//! The orders of encodings, which are never made (RFC 8949, section 4.2).
ghost use Rattle.std.specs.Prelude.{◌≡◌};
ghost use Rattle.std.specs.Ordering.{ordering_then};
ghost use Rattle.ciborium_value.specs.Tree.{integer};
ghost use Rattle.ciborium_value.specs.Canonical.{length_first, canonical, canonical_cmp};
ghost use Rattle.ciborium_value.specs.Facts.Heads.{int_place, int_number, place, number, head_cmp};
ghost use Rattle.ciborium_value.specs.Facts.Heads.{heads_cmp, all_cmp, each_cmp};
ghost use Rattle.ciborium_value.specs.View.{number_of, view, views, view_pairs};

use crate::integer::Integer;
use crate::length::{encoded_len, integer_header};
use crate::value::Value;
use ciborium_ll::{Float, simple};
use std::cmp::Ordering;

/// The place of an integer's head among heads, and its number.
fn integer_title(integer: Integer) -> (u8, u64)
    ensures place { result.0 ≡ int_place (number_of integer) }
    ensures number { result.1 ≡ int_number (number_of integer) }
{
    let number = i128::from(integer);
    if number < 0 {
        (1, (-1 - number) as u64)
    } else {
        (0, number as u64)
    }
}

/// The place of a value's head among heads, and its number.
fn title(value: &Value) -> (u8, u64)
    ensures place { result.0 ≡ place (view value.now) }
    ensures number { result.1 ≡ number (view value.now) }
{
    match value {
        Value::Integer(integer) => integer_title(*integer),
        Value::Bytes(content) => (2, content.len() as u64),
        Value::Text(content) => (3, content.len() as u64),
        Value::Array(items) => (4, items.len() as u64),
        Value::Map(entries) => (5, entries.len() as u64),
        Value::Tag(tag, _) => (6, *tag),
        Value::Bool(false) => (7, u64::from(simple::FALSE)),
        Value::Bool(true) => (7, u64::from(simple::TRUE)),
        Value::Null => (7, u64::from(simple::NULL)),
        Value::Float(Float::Half(bits)) => (8, *bits as u64),
        Value::Float(Float::Single(bits)) => (9, *bits as u64),
        Value::Float(Float::Double(bits)) => (10, *bits),
    }
}

/// The order of the encodings' heads.
fn cmp_heads(a: &Value, b: &Value) -> Ordering
    ensures { result ≡ head_cmp (view a.now) (view b.now) }
{
    let (a_place, a_number) = title(a);
    let (b_place, b_number) = title(b);
    a_place.cmp(&b_place).then(a_number.cmp(&b_number))
}

/// The order of the encodings' bytes.
#[cycle(texts)]
fn cmp_texts(a: &Value, b: &Value) -> Ordering
    ensures { result ≡ heads_cmp (view a.now) (view b.now) }
{
    match cmp_heads(a, b) {
        Ordering::Equal => match a {
            Value::Integer(_) => Ordering::Equal,
            Value::Float(_) => Ordering::Equal,
            Value::Bool(_) => Ordering::Equal,
            Value::Null => Ordering::Equal,
            Value::Bytes(x) => match b {
                Value::Bytes(y) => x.cmp(y),
                _ => Ordering::Equal,
            },
            Value::Text(x) => match b {
                Value::Text(y) => x.cmp(y),
                _ => Ordering::Equal,
            },
            Value::Tag(_, x) => match b {
                Value::Tag(_, y) => cmp_texts(x, y),
                _ => Ordering::Equal,
            },
            Value::Array(x) => match b {
                Value::Array(y) => cmp_items(x, y),
                _ => Ordering::Equal,
            },
            Value::Map(x) => match b {
                Value::Map(y) => cmp_entries(x, y),
                _ => Ordering::Equal,
            },
        },
        order => order,
    }
}

#[cycle(texts)]
fn cmp_items(a: &[Value], b: &[Value]) -> Ordering
    ensures { result ≡ all_cmp (views a.now) (views b.now) }
{
    for (x, y) in a.iter().zip(b) {
        match cmp_texts(x, y) {
            Ordering::Equal => {}
            order => return order,
        }
    }
    Ordering::Equal
}

#[cycle(texts)]
fn cmp_entries(a: &[(Value, Value)], b: &[(Value, Value)]) -> Ordering
    ensures { result ≡ each_cmp (view_pairs a.now) (view_pairs b.now) }
{
    for (x, y) in a.iter().zip(b) {
        match cmp_entry(x, y) {
            Ordering::Equal => {}
            order => return order,
        }
    }
    Ordering::Equal
}

/// The order of the entries' keys, and then of their values.
#[cycle(texts)]
fn cmp_entry(a: &(Value, Value), b: &(Value, Value)) -> Ordering
    ensures { result ≡ ordering_then (heads_cmp (view a.now.0) (view b.now.0))
        (heads_cmp (view a.now.1) (view b.now.1)) }
{
    match cmp_texts(&a.0, &b.0) {
        Ordering::Equal => cmp_texts(&a.1, &b.1),
        order => order,
    }
}

/// The order of the values' encodings: the shorter first, with lengths counted to `u64::MAX`, and
/// then byte by byte (RFC 8949, section 4.2.3). Nothing is encoded and no memory is taken: one pass
/// finds each length, and one more compares.
pub fn cmp_value(v1: &Value, v2: &Value) -> Ordering
    ensures by_texts { result ≡ canonical (view v1.now) (view v2.now) }
    ensures total { result ≡ canonical_cmp (view v1.now) (view v2.now) }
{
    match encoded_len(v1).cmp(&encoded_len(v2)) {
        Ordering::Equal => cmp_texts(v1, v2),
        order => order,
    }
}

impl Integer {
    /// The order of the integers' encodings: the shorter first, and then byte by byte (RFC 8949,
    /// section 4.2.3).
    pub fn canonical_cmp(&self, other: &Integer) -> Ordering
        ensures { result ≡ length_first (integer (number_of self.now))
            (integer (number_of other.now)) }
    {
        let (place, number) = integer_title(*self);
        let (other_place, other_number) = integer_title(*other);
        integer_header(*self)
            .title_len()
            .cmp(&integer_header(*other).title_len())
            .then(place.cmp(&other_place))
            .then(number.cmp(&other_number))
    }
}
