//! Integers, and values: their kinds, what they are made of, and bignums.
use crate::items::item_of;
use crate::notation::note;
use ciborium_value::{Integer, Value, bignum, fold_tag};
use std::alloc::AllocError;
use std::num::TryFromIntError;
use test_tools::{NoAnswer, Out};

/// The kinds that a value says it is of.
pub fn kinds(to: &mut Out, item: &str) {
    let value = item_of(to, item);
    tell_kind(to, value.is_integer(), "integer");
    tell_kind(to, value.is_bytes(), "bytes");
    tell_kind(to, value.is_float(), "float");
    tell_kind(to, value.is_text(), "text");
    tell_kind(to, value.is_bool(), "bool");
    tell_kind(to, value.is_null(), "null");
    tell_kind(to, value.is_tag(), "tag");
    tell_kind(to, value.is_array(), "array");
    tell_kind(to, value.is_map(), "map");
}

fn tell_kind(to: &mut Out, is_so: bool, name: &str) {
    if is_so {
        to.apart(" ");
        to.text(name);
    }
}

/// The value that is made of a number, a text, a character or bytes, in diagnostic notation.
pub fn made_from(to: &mut Out, kind: &str, word: &str) {
    let alloc = to.alloc();
    match kind {
        "i128" => {
            let value = Value::from_i128(alloc, to.number(word));
            tell_made(to, value);
        }
        "u128" => {
            let value = Value::from_u128(alloc, to.number(word));
            tell_made(to, value);
        }
        "str" => tell_made(to, Value::from_str(alloc, word)),
        "char" => of_character(to, word),
        "bytes" => {
            let bytes = to.bytes(word);
            tell_made(to, Value::from_byte_slice(alloc, &bytes));
        }
        _ => to.refuse(NoAnswer::NoCall),
    }
}

fn of_character(to: &mut Out, word: &str) {
    match word.chars().next() {
        Some(character) => tell_made(to, Value::from_char(to.alloc(), character)),
        None => to.refuse(NoAnswer::NoCall),
    }
}

fn tell_made(to: &mut Out, value: Result<Value, AllocError>) {
    match value {
        Ok(value) => note(to, &value),
        Err(_) => to.refuse(NoAnswer::Memory),
    }
}

/// What a tag over this value becomes, in diagnostic notation.
pub fn folded(to: &mut Out, tag: &str, item: &str) {
    let tag = to.number(tag);
    let content = item_of(to, item);
    match fold_tag(to.alloc(), tag, content) {
        Ok(Some(value)) => note(to, &value),
        Ok(None) => to.text("none"),
        Err(_) => to.refuse(NoAnswer::Memory),
    }
}

/// The number of which these are the bytes, and the bytes without zeros in front.
pub fn bignum(to: &mut Out, bytes: &[u8]) {
    match bignum::number(bytes) {
        Some(number) => to.show(&number),
        None => to.text("none"),
    }
    to.text(" ");
    to.hex(bignum::stripped(bytes));
}

/// The integer that is made of a number of this type, as a number.
pub fn integer(to: &mut Out, kind: &str, word: &str) {
    match kind {
        "i128" => {
            let integer = Integer::try_from(to.number::<i128>(word));
            tell_integer(to, integer);
        }
        "u128" => {
            let integer = Integer::try_from(to.number::<u128>(word));
            tell_integer(to, integer);
        }
        _ => to.refuse(NoAnswer::NoCall),
    }
}

fn tell_integer(to: &mut Out, integer: Result<Integer, TryFromIntError>) {
    match integer {
        Ok(integer) => to.show(&i128::from(integer)),
        Err(_) => to.text("out of range"),
    }
}
