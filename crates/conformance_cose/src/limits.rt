//! Reading within limits.
use crate::items::{copied, read, written};
use crate::protected;
use coset::cbor::Value;
use coset::{
    CborSerializable, CoseEncrypt, CoseEncrypt0, CoseMac, CoseMac0, CoseRecipient, CoseSign,
    CoseSign1, CoseSignature, Header, Limits, ProtectedHeader,
};
use test_tools::{NoAnswer, Out};

/// The limits that two arguments are.
pub fn limits(to: &mut Out, nesting: &str, layers: &str) -> Option<Limits> {
    let nesting = to.number(nesting);
    let layers = to.number(layers);
    Limits::new(nesting, layers)
}

/// The nesting and the layers, or `none` if they are no limits.
pub fn new(to: &mut Out, nesting: &str, layers: &str) {
    match limits(to, nesting, layers) {
        Some(limits) => {
            to.show(&limits.nesting());
            to.text(" ");
            to.show(&limits.layers());
        }
        None => to.text("none"),
    }
}

/// What is written of a copy of what an item of some kind is read as, within a nesting and layers.
pub fn written_back(to: &mut Out, [nesting, layers, kind, item]: [&str; 4]) {
    match limits(to, nesting, layers) {
        Some(limits) => {
            if let Some(value) = read::<Value>(to, item) {
                of_kind(to, kind, value, limits);
            }
        }
        None => to.refuse(NoAnswer::NoArgument),
    }
}

/// What is written of a copy of a value that is read as this type within limits.
macro_rules! within {
    ($to:ident, $value:ident, $limits:ident, $kind:ident) => {
        copied(
            $to,
            $kind::from_cbor_value_with($to.alloc(), $value, $limits),
            $kind::clone,
            written,
        )
    };
}

/// What is written of a copy of what a value of some kind is read as, within limits.
pub fn of_kind(to: &mut Out, kind: &str, value: Value, limits: Limits) {
    match kind {
        "header" => within!(to, value, limits, Header),
        "signature" => within!(to, value, limits, CoseSignature),
        "recipient" => within!(to, value, limits, CoseRecipient),
        "protected-header" => {
            let read = ProtectedHeader::from_cbor_bstr_with(to.alloc(), value, limits);
            copied(to, read, ProtectedHeader::clone, protected::written);
        }
        _ => of_message(to, kind, value, limits),
    }
}

fn of_message(to: &mut Out, kind: &str, value: Value, limits: Limits) {
    match kind {
        "sign1" => within!(to, value, limits, CoseSign1),
        "sign" => within!(to, value, limits, CoseSign),
        "mac0" => within!(to, value, limits, CoseMac0),
        "mac" => within!(to, value, limits, CoseMac),
        "encrypt0" => within!(to, value, limits, CoseEncrypt0),
        "encrypt" => within!(to, value, limits, CoseEncrypt),
        _ => to.refuse(NoAnswer::NoArgument),
    }
}
