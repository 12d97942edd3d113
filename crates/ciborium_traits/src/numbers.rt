//! Whole numbers of up to 64 bits.
ghost use Rattle.std.specs.Prelude.{◌≡◌, pos, None, MatchResult, false};
ghost use Rattle.ciborium_value.specs.Tree.{integer as integer_tree};
ghost use Rattle.ciborium_value.specs.View.{view, number_of};
ghost use Rattle.ciborium_value.specs.declared.kind.Kind.TheVariants as kind;
ghost use Rattle.ciborium_traits.specs.declared.error.Error.TheVariants as error;
ghost use Rattle.ciborium_traits.specs.Ranges.{fits_unsigned, fits_signed, integer_number};
ghost use Rattle.ciborium_traits.specs.Ranges.{number_refusal};
ghost use Rattle.ciborium_traits.specs.Reading.{bare};

use crate::de::Deserialize;
use crate::error::Error;
use crate::ser::{Serialize, Sink};
use crate::untagged::bare;
use ciborium_value::{Integer, Kind, Value};
use std::alloc::Global;

/// The integer without the tags around it.
fn integer(value: Value) -> Result<Integer, Error>
    ensures { MatchResult result (λ i. bare (view value) ≡ integer_tree (number_of i))
        (λ e. (integer_number (bare (view value)) ≡ None) × (e ≡ error.Kind kind.WrongType)) }
{
    match bare(value) {
        Value::Integer(number) => Ok(number),
        _ => Err(Error::Kind(Kind::WrongType)),
    }
}

impl Serialize for u8 {
    ghost put = { λ n. integer_tree (pos n) };

    fn serialize<S: Sink>(&self, sink: &mut S) -> Result<(), S::Error> {
        sink.integer(Integer::from(*self))
    }
}

impl Deserialize for u8 {
    ghost refusal = { number_refusal (fits_unsigned 8) };

    ghost takes = { λ t n. bare t ≡ integer_tree (pos n) };

    ghost grows = { false };

    fn take(_alloc: Global, value: Value) -> Result<u8, Error> {
        Ok(u8::try_from(integer(value)?)?)
    }
}

impl Serialize for u16 {
    ghost put = { λ n. integer_tree (pos n) };

    fn serialize<S: Sink>(&self, sink: &mut S) -> Result<(), S::Error> {
        sink.integer(Integer::from(*self))
    }
}

impl Deserialize for u16 {
    ghost refusal = { number_refusal (fits_unsigned 16) };

    ghost takes = { λ t n. bare t ≡ integer_tree (pos n) };

    ghost grows = { false };

    fn take(_alloc: Global, value: Value) -> Result<u16, Error> {
        Ok(u16::try_from(integer(value)?)?)
    }
}

impl Serialize for u32 {
    ghost put = { λ n. integer_tree (pos n) };

    fn serialize<S: Sink>(&self, sink: &mut S) -> Result<(), S::Error> {
        sink.integer(Integer::from(*self))
    }
}

impl Deserialize for u32 {
    ghost refusal = { number_refusal (fits_unsigned 32) };

    ghost takes = { λ t n. bare t ≡ integer_tree (pos n) };

    ghost grows = { false };

    fn take(_alloc: Global, value: Value) -> Result<u32, Error> {
        Ok(u32::try_from(integer(value)?)?)
    }
}

impl Serialize for u64 {
    ghost put = { λ n. integer_tree (pos n) };

    fn serialize<S: Sink>(&self, sink: &mut S) -> Result<(), S::Error> {
        sink.integer(Integer::from(*self))
    }
}

impl Deserialize for u64 {
    ghost refusal = { number_refusal (fits_unsigned 64) };

    ghost takes = { λ t n. bare t ≡ integer_tree (pos n) };

    ghost grows = { false };

    fn take(_alloc: Global, value: Value) -> Result<u64, Error> {
        Ok(u64::try_from(integer(value)?)?)
    }
}

impl Serialize for usize {
    ghost put = { λ n. integer_tree (pos n) };

    fn serialize<S: Sink>(&self, sink: &mut S) -> Result<(), S::Error> {
        sink.integer(Integer::from(*self))
    }
}

impl Deserialize for usize {
    ghost refusal = { number_refusal (fits_unsigned 64) };

    ghost takes = { λ t n. bare t ≡ integer_tree (pos n) };

    ghost grows = { false };

    fn take(_alloc: Global, value: Value) -> Result<usize, Error> {
        Ok(usize::try_from(integer(value)?)?)
    }
}

impl Serialize for i8 {
    ghost put = { integer_tree };

    fn serialize<S: Sink>(&self, sink: &mut S) -> Result<(), S::Error> {
        sink.integer(Integer::from(*self))
    }
}

impl Deserialize for i8 {
    ghost refusal = { number_refusal (fits_signed 8) };

    ghost takes = { λ t n. bare t ≡ integer_tree n };

    ghost grows = { false };

    fn take(_alloc: Global, value: Value) -> Result<i8, Error> {
        Ok(i8::try_from(integer(value)?)?)
    }
}

impl Serialize for i16 {
    ghost put = { integer_tree };

    fn serialize<S: Sink>(&self, sink: &mut S) -> Result<(), S::Error> {
        sink.integer(Integer::from(*self))
    }
}

impl Deserialize for i16 {
    ghost refusal = { number_refusal (fits_signed 16) };

    ghost takes = { λ t n. bare t ≡ integer_tree n };

    ghost grows = { false };

    fn take(_alloc: Global, value: Value) -> Result<i16, Error> {
        Ok(i16::try_from(integer(value)?)?)
    }
}

impl Serialize for i32 {
    ghost put = { integer_tree };

    fn serialize<S: Sink>(&self, sink: &mut S) -> Result<(), S::Error> {
        sink.integer(Integer::from(*self))
    }
}

impl Deserialize for i32 {
    ghost refusal = { number_refusal (fits_signed 32) };

    ghost takes = { λ t n. bare t ≡ integer_tree n };

    ghost grows = { false };

    fn take(_alloc: Global, value: Value) -> Result<i32, Error> {
        Ok(i32::try_from(integer(value)?)?)
    }
}

impl Serialize for i64 {
    ghost put = { integer_tree };

    fn serialize<S: Sink>(&self, sink: &mut S) -> Result<(), S::Error> {
        sink.integer(Integer::from(*self))
    }
}

impl Deserialize for i64 {
    ghost refusal = { number_refusal (fits_signed 64) };

    ghost takes = { λ t n. bare t ≡ integer_tree n };

    ghost grows = { false };

    fn take(_alloc: Global, value: Value) -> Result<i64, Error> {
        Ok(i64::try_from(integer(value)?)?)
    }
}

impl Serialize for isize {
    ghost put = { integer_tree };

    fn serialize<S: Sink>(&self, sink: &mut S) -> Result<(), S::Error> {
        sink.integer(Integer::from(*self))
    }
}

impl Deserialize for isize {
    ghost refusal = { number_refusal (fits_signed 64) };

    ghost takes = { λ t n. bare t ≡ integer_tree n };

    ghost grows = { false };

    fn take(_alloc: Global, value: Value) -> Result<isize, Error> {
        Ok(isize::try_from(integer(value)?)?)
    }
}
