//! Protected headers. An item stands for each: a byte string for one that was received, and a map
//! for one that was not.
use crate::items;
use coset::cbor::Value;
use coset::{AsCborValue, CoseError, ProtectedHeader};
use std::alloc::Global;
use test_tools::Out;

/// The protected header that an item stands for, or none after the text of its error.
pub fn read(to: &mut Out, item: &str) -> Option<ProtectedHeader> {
    match items::read::<Value>(to, item) {
        Some(value) => {
            let header = of_value(to.alloc(), value);
            to.value(header)
        }
        None => None,
    }
}

fn of_value(alloc: Global, value: Value) -> Result<ProtectedHeader, CoseError> {
    if matches!(&value, Value::Map(_)) {
        ProtectedHeader::from_cbor_value(alloc, value)
    } else {
        ProtectedHeader::from_cbor_bstr(alloc, value)
    }
}

/// The byte string that a copy of a protected header is written as.
pub fn bstr(to: &mut Out, item: &str) {
    if let Some(value) = items::read::<Value>(to, item) {
        let header = of_value(to.alloc(), value);
        items::copied(to, header, ProtectedHeader::clone, written);
    }
}

/// The byte string that a protected header is written as.
pub fn written(to: &mut Out, header: ProtectedHeader) {
    let value = header.cbor_bstr(to.alloc());
    if let Some(value) = to.value(value) {
        items::written(to, value);
    }
}

/// Whether a protected header has no field.
pub fn is_empty(to: &mut Out, item: &str) {
    if let Some(header) = read(to, item) {
        to.yes_or_no(header.is_empty());
    }
}

/// The bytes that were received, or `none`.
pub fn received(to: &mut Out, item: &str) {
    if let Some(header) = read(to, item) {
        match &header.original_data {
            Some(bytes) => to.hex(bytes.as_slice()),
            None => to.text("none"),
        }
    }
}

/// Whether two protected headers are the same.
pub fn are_same(to: &mut Out, first: &str, second: &str) {
    if let Some(first) = read(to, first) {
        if let Some(second) = read(to, second) {
            to.yes_or_no(first == second);
        }
    }
}
