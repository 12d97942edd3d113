//! Whole numbers of 128 bits. Writing them takes no memory.
ghost use Rattle.std.specs.Prelude.{◌≡◌, pos, OnOk, OnErr, Some, option_map, false};
ghost use Rattle.ciborium_value.specs.Numbers.{number_tree, fewest_bytes};
ghost use Rattle.ciborium_value.specs.Tree as spec;
ghost use Rattle.ciborium_value.specs.View.{view};
ghost use Rattle.ciborium_traits.specs.Events.{events, Puts, Stops};
ghost use Rattle.ciborium_traits.specs.Ranges.{fits_unsigned, fits_signed, within};
ghost use Rattle.ciborium_traits.specs.Wide.{wide_number, whole};

use crate::de::Deserialize;
use crate::error::Error;
use crate::ser::{Serialize, Sink};
use ciborium_value::bignum::{number, stripped};
use ciborium_value::{Integer, Kind, Value};
use std::alloc::Global;

/// A number by its sign.
enum Whole {
    /// n.
    Positive(u128),
    /// -1 - n.
    Negative(u128),
}

/// A signed number by its sign.
fn whole_of(n: i128) -> Whole
    ensures { whole result ≡ n }
{
    if n < 0 {
        return Whole::Negative(n.unsigned_abs() - 1);
    }
    Whole::Positive(n.unsigned_abs())
}

/// The number of a tag over bytes.
fn bignum_number(tag: u64, bytes: &[u8]) -> Option<Whole>
    ensures { option_map whole result ≡ wide_number (spec.tag tag (spec.bytes bytes.now)) }
{
    let n = number(bytes)?;
    match tag {
        2 => Some(Whole::Positive(n)),
        3 => Some(Whole::Negative(n)),
        _ => None,
    }
}

/// The number of an integer, or of tag 2 or 3 over at most 16 bytes (RFC 8949, section 3.4.3),
/// whatever other tags are around it.
fn whole_number(value: Value) -> Option<Whole>
    ensures { option_map whole result ≡ wide_number (view value) }
{
    match value {
        Value::Integer(i) => Some(whole_of(i128::from(i))),
        Value::Tag(tag, content) => match Box::into_inner(content) {
            Value::Bytes(bytes) => bignum_number(tag, &bytes),
            other => whole_number(other),
        },
        _ => None,
    }
}

/// Writes a tag over a byte string.
fn put_tagged<S: Sink>(sink: &mut S, tag: u64, bytes: &[u8]) -> Result<(), S::Error>
    ensures ok { OnOk result (Puts S.due sink.old
        (events (spec.tag tag (spec.bytes bytes.now))) sink.new) }
    ensures err { OnErr result (Stops S.due S.torn sink.old
        (events (spec.tag tag (spec.bytes bytes.now))) sink.new) }
{
    sink.tag(tag)?;
    sink.bytes(bytes)
}

/// Writes a tag over the fewest bytes of a number, the highest first.
fn put_bignum<S: Sink>(sink: &mut S, tag: u64, n: u128) -> Result<(), S::Error>
    ensures ok { OnOk result (Puts S.due sink.old
        (events (spec.tag tag (spec.bytes (fewest_bytes n)))) sink.new) }
    ensures err { OnErr result (Stops S.due S.torn sink.old
        (events (spec.tag tag (spec.bytes (fewest_bytes n)))) sink.new) }
{
    put_tagged(sink, tag, stripped(&n.to_be_bytes()))
}

/// Writes an integer if its head can say the number, else a bignum (RFC 8949, section 3.4.3).
fn put_whole<S: Sink>(sink: &mut S, number: Whole) -> Result<(), S::Error>
    ensures ok { OnOk result (Puts S.due sink.old
        (events (number_tree (whole number))) sink.new) }
    ensures err { OnErr result (Stops S.due S.torn sink.old
        (events (number_tree (whole number))) sink.new) }
{
    match number {
        Whole::Positive(n) => match u64::try_from(n) {
            Ok(short) => sink.integer(Integer::from(short)),
            Err(_) => put_bignum(sink, 2, n),
        },
        Whole::Negative(n) => match u64::try_from(n) {
            Ok(short) => sink.integer(Integer::negative(short)),
            Err(_) => put_bignum(sink, 3, n),
        },
    }
}

impl Serialize for u128 {
    ghost put = { λ n. number_tree (pos n) };

    fn serialize<S: Sink>(&self, sink: &mut S) -> Result<(), S::Error> {
        put_whole(sink, Whole::Positive(*self))
    }
}

impl Deserialize for u128 {
    ghost refusal = { λ t. within (fits_unsigned 128) (wide_number t) };

    ghost takes = { λ t n. wide_number t ≡ Some (pos n) };

    ghost grows = { false };

    fn take(_alloc: Global, value: Value) -> Result<u128, Error> {
        match whole_number(value) {
            Some(Whole::Positive(n)) => Ok(n),
            Some(Whole::Negative(_)) => Err(Error::Kind(Kind::Range)),
            None => Err(Error::Kind(Kind::WrongType)),
        }
    }
}

impl Serialize for i128 {
    ghost put = { number_tree };

    fn serialize<S: Sink>(&self, sink: &mut S) -> Result<(), S::Error> {
        put_whole(sink, whole_of(*self))
    }
}

impl Deserialize for i128 {
    ghost refusal = { λ t. within (fits_signed 128) (wide_number t) };

    ghost takes = { λ t n. wide_number t ≡ Some n };

    ghost grows = { false };

    fn take(_alloc: Global, value: Value) -> Result<i128, Error> {
        match whole_number(value) {
            Some(Whole::Positive(n)) => Ok(i128::try_from(n)?),
            Some(Whole::Negative(n)) => Ok(-1 - i128::try_from(n)?),
            None => Err(Error::Kind(Kind::WrongType)),
        }
    }
}
