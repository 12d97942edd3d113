//! Labels, and values that are taken by kind.
use crate::items::item_of;
use crate::notation::note;
use ciborium::Value;
use coset_labels::{
    Algorithm, AsCborValue, CborSerializable, ContentType, CoseError, KeyType, Label,
    RegisteredLabel, ValueTryAs, iana, to_cbor_array,
};
use std::fmt::Debug;
use test_tools::{NoAnswer, Out};

/// The label that these bytes are, as Rust shows it, and as it is written.
pub fn label(to: &mut Out, kind: &str, bytes: &[u8]) {
    match kind {
        "label" => read::<Label>(to, bytes),
        "algorithm" => read::<Algorithm>(to, bytes),
        "content-type" => read::<ContentType>(to, bytes),
        "key-type" => read::<KeyType>(to, bytes),
        "curve" => read::<RegisteredLabel<iana::EllipticCurve>>(to, bytes),
        _ => to.refuse(NoAnswer::NoCall),
    }
}

fn read<T: CborSerializable + Debug>(to: &mut Out, bytes: &[u8]) {
    match T::from_slice(to.alloc(), bytes) {
        Ok(label) => {
            to.debug(&label);
            to.text(" written ");
            let written = label.to_vec(to.alloc());
            to.made(written);
        }
        Err(error) => to.failure(&error),
    }
}

/// The value that the label of these bytes is made, in diagnostic notation.
pub fn item(to: &mut Out, kind: &str, bytes: &[u8]) {
    match kind {
        "label" => through_value::<Label>(to, bytes),
        "algorithm" => through_value::<Algorithm>(to, bytes),
        "content-type" => through_value::<ContentType>(to, bytes),
        "key-type" => through_value::<KeyType>(to, bytes),
        _ => to.refuse(NoAnswer::NoCall),
    }
}

fn through_value<T: CborSerializable>(to: &mut Out, bytes: &[u8]) {
    match T::from_slice(to.alloc(), bytes) {
        Ok(label) => {
            let value = label.to_cbor_value(to.alloc());
            told(to, value);
        }
        Err(error) => to.failure(&error),
    }
}

fn told(to: &mut Out, value: Result<Value, CoseError>) {
    match value {
        Ok(value) => note(to, &value),
        Err(error) => to.failure(&error),
    }
}

/// What an item is as one of this kind, in diagnostic notation.
pub fn taken(to: &mut Out, kind: &str, item: &str) {
    let value = item_of(to, item);
    match kind {
        "integer" => told(to, value.try_as_integer().map(Value::Integer)),
        "bytes" => told(to, value.try_as_bytes().map(Value::Bytes)),
        "nonempty-bytes" => told(to, value.try_as_nonempty_bytes().map(Value::Bytes)),
        "bytes-or-nil" => told(to, value.try_as_bytes_or_nil("bstr or nil").map(or_null)),
        "array" => told(to, value.try_as_array().map(Value::Array)),
        "map" => told(to, value.try_as_map().map(Value::Map)),
        "tag" => told(to, value.try_as_tag().map(tagged)),
        "text" => told(to, value.try_as_string().map(Value::Text)),
        "labels" => labels(to, value),
        _ => to.refuse(NoAnswer::NoCall),
    }
}

fn or_null(bytes: Option<Vec<u8>>) -> Value {
    match bytes {
        Some(bytes) => Value::Bytes(bytes),
        None => Value::Null,
    }
}

fn tagged(tag: (u64, Box<Value>)) -> Value {
    let (number, content) = tag;
    Value::Tag(number, content)
}

/// The array that is made of the labels in an array.
fn labels(to: &mut Out, value: Value) {
    let alloc = to.alloc();
    match value.try_as_array_then_convert(alloc, move |item| Label::from_cbor_value(alloc, item)) {
        Ok(labels) => told(to, to_cbor_array(alloc, labels)),
        Err(error) => to.failure(&error),
    }
}
