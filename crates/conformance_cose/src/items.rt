//! Items that are read and written back.
use crate::protected;
use coset::cbor::Value;
use coset::cwt::ClaimsSet;
use coset::{
    CborSerializable, CoseEncrypt, CoseEncrypt0, CoseError, CoseKdfContext, CoseKey, CoseKeySet,
    CoseMac, CoseMac0, CoseRecipient, CoseSign, CoseSign1, CoseSignature, Header, Label, Limits,
    PartyInfo, ProtectedHeader, SuppPubInfo, TaggedCborSerializable, ValueTryAs,
};
use coset_labels::tuples::three;
use coset_recipients::{PartValues, Parts};
use std::alloc::{AllocError, Global};
use test_tools::{NoAnswer, Out};

/// What an item is read as, or none after the text of its error.
pub fn read<T: CborSerializable>(to: &mut Out, item: &str) -> Option<T> {
    let item = to.bytes(item);
    let read = T::from_slice(to.alloc(), &item);
    to.value(read)
}

/// The item that is written of a copy of what this item of some kind is read as.
pub fn written_back(to: &mut Out, kind: &str, item: &str) {
    match kind {
        "label" => back(to, item, Label::clone),
        "header" => back(to, item, Header::clone),
        "protected-map" => back(to, item, ProtectedHeader::clone),
        "signature" => back(to, item, CoseSignature::clone),
        "recipient" => back(to, item, CoseRecipient::clone),
        "key" => back(to, item, CoseKey::clone),
        "key-set" => back(to, item, CoseKeySet::clone),
        "claims" => back(to, item, ClaimsSet::clone),
        "kdf-context" => back(to, item, CoseKdfContext::clone),
        "party-info" => back(to, item, PartyInfo::clone),
        "supp-pub-info" => back(to, item, SuppPubInfo::clone),
        _ => message_back(to, kind, item),
    }
}

/// As `written_back`, of messages.
fn message_back(to: &mut Out, kind: &str, item: &str) {
    match kind {
        "sign1" => back(to, item, CoseSign1::clone),
        "sign" => back(to, item, CoseSign::clone),
        "mac0" => back(to, item, CoseMac0::clone),
        "mac" => back(to, item, CoseMac::clone),
        "encrypt0" => back(to, item, CoseEncrypt0::clone),
        "encrypt" => back(to, item, CoseEncrypt::clone),
        "sign1-tagged" => tagged_back(to, item, CoseSign1::clone),
        "sign-tagged" => tagged_back(to, item, CoseSign::clone),
        "mac0-tagged" => tagged_back(to, item, CoseMac0::clone),
        "mac-tagged" => tagged_back(to, item, CoseMac::clone),
        "encrypt0-tagged" => tagged_back(to, item, CoseEncrypt0::clone),
        "encrypt-tagged" => tagged_back(to, item, CoseEncrypt::clone),
        _ => to.refuse(NoAnswer::NoCall),
    }
}

/// What is written of a copy of what an item is read as.
fn back<T, C>(to: &mut Out, item: &str, copy: C)
where
    T: CborSerializable + PartialEq,
    C: FnOnce(&T, Global) -> Result<T, AllocError>,
    requires { C.IsAlwaysCallable copy }
{
    let item = to.bytes(item);
    let read = T::from_slice(to.alloc(), &item);
    copied(to, read, copy, written);
}

/// As `back`, with its tag.
fn tagged_back<T, C>(to: &mut Out, item: &str, copy: C)
where
    T: TaggedCborSerializable + PartialEq,
    C: FnOnce(&T, Global) -> Result<T, AllocError>,
    requires { C.IsAlwaysCallable copy }
{
    let item = to.bytes(item);
    let read = T::from_tagged_slice(to.alloc(), &item);
    copied(
        to,
        read,
        copy,
        |to, value| to.made(value.to_tagged_vec(to.alloc())),
    );
}

/// What is written of a copy of what was read, and what is written of the value itself, if that is
/// something else. Nothing is in front of it.
pub fn copied<T, C, W>(to: &mut Out, read: Result<T, CoseError>, copy: C, write: W)
where
    T: PartialEq + Drop,
    C: FnOnce(&T, Global) -> Result<T, AllocError>,
    W: Fn(&mut Out, T),
    requires copies { C.IsAlwaysCallable copy }
    requires writes { W.IsAlwaysCallable write }
{
    let Some(value) = to.value(read) else {
        return;
    };
    let made = copy(&value, to.alloc());
    let Some(made) = to.kept(made) else {
        return;
    };
    if made != value {
        to.text("another copy");
        return;
    }
    let mut of_value = Out::new(to.alloc());
    write(&mut of_value, value);
    write(to, made);
    if to.as_str() != of_value.as_str() {
        to.text(" of the copy, of the value ");
        to.append(&of_value);
    }
}

/// The item that is written of a new value of some kind.
pub fn new(to: &mut Out, kind: &str) {
    let alloc = to.alloc();
    match kind {
        "header" => written(to, Header::new(alloc)),
        "protected-header" => protected::written(to, ProtectedHeader::new(alloc)),
        "signature" => written(to, CoseSignature::new(alloc)),
        "recipient" => written(to, CoseRecipient::new(alloc)),
        "key-set" => written(to, CoseKeySet::new(alloc)),
        "claims" => written(to, ClaimsSet::new(alloc)),
        "kdf-context" => written(to, CoseKdfContext::new(alloc)),
        "party-info" => written(to, PartyInfo::new(alloc)),
        "supp-pub-info" => written(to, SuppPubInfo::new(alloc)),
        _ => new_message(to, kind),
    }
}

/// As `new`, of messages.
fn new_message(to: &mut Out, kind: &str) {
    let alloc = to.alloc();
    match kind {
        "sign1" => written(to, CoseSign1::new(alloc)),
        "sign" => written(to, CoseSign::new(alloc)),
        "mac0" => written(to, CoseMac0::new(alloc)),
        "mac" => written(to, CoseMac::new(alloc)),
        "encrypt0" => written(to, CoseEncrypt0::new(alloc)),
        "encrypt" => written(to, CoseEncrypt::new(alloc)),
        _ => to.refuse(NoAnswer::NoArgument),
    }
}

/// The item that is written of a value.
pub fn written<T: CborSerializable>(to: &mut Out, value: T) {
    to.made(value.to_vec(to.alloc()));
}

/// What is written of a message of this kind after a value is read into it; after a fault its text,
/// and then that item.
macro_rules! refill {
    ($to:ident, $message:ident, $value:ident, $kind:ident) => {
        if let Some(mut message) = read::<$kind>($to, $message) {
            let filled = message.fill($to.alloc(), $value, Limits::default());
            show_filled($to, filled, message);
        }
    };
}

/// What is written of a message of some kind after another item is read into it.
pub fn refilled(to: &mut Out, kind: &str, message: &str, item: &str) {
    let Some(value) = read::<Value>(to, item) else {
        return;
    };
    match kind {
        "sign1" => refill!(to, message, value, CoseSign1),
        "sign" => refill!(to, message, value, CoseSign),
        "mac0" => refill!(to, message, value, CoseMac0),
        "mac" => refill!(to, message, value, CoseMac),
        _ => to.refuse(NoAnswer::NoArgument),
    }
}

fn show_filled<T: CborSerializable>(to: &mut Out, filled: Result<(), CoseError>, message: T) {
    if let Err(error) = filled {
        to.failure(&error);
        to.text(", then ");
    }
    written(to, message);
}

/// Whether a header has no field.
pub fn is_empty_header(to: &mut Out, item: &str) {
    if let Some(header) = read::<Header>(to, item) {
        to.yes_or_no(header.is_empty());
    }
}

/// Whether what two items are read as is the same, for the kind that the call names.
pub fn same(to: &mut Out, call: &str, first: &str, second: &str) {
    match call {
        "same-header" => are_same::<Header>(to, first, second),
        "same-signature" => are_same::<CoseSignature>(to, first, second),
        "same-parts" => are_same_parts(to, first, second),
        "same-recipient" => are_same::<CoseRecipient>(to, first, second),
        "same-sign1" => are_same::<CoseSign1>(to, first, second),
        "same-sign" => are_same::<CoseSign>(to, first, second),
        "same-mac0" => are_same::<CoseMac0>(to, first, second),
        "same-mac" => are_same::<CoseMac>(to, first, second),
        "same-encrypt0" => are_same::<CoseEncrypt0>(to, first, second),
        "same-encrypt" => are_same::<CoseEncrypt>(to, first, second),
        "same-key-set" => are_same::<CoseKeySet>(to, first, second),
        "same-claims" => are_same::<ClaimsSet>(to, first, second),
        "same-kdf-context" => are_same::<CoseKdfContext>(to, first, second),
        _ => to.refuse(NoAnswer::NoCall),
    }
}

/// Whether two lists of the parts that messages begin with are the same.
fn are_same_parts(to: &mut Out, first: &str, second: &str) {
    if let Some(first) = parts(to, first) {
        if let Some(second) = parts(to, second) {
            to.yes_or_no(first == second);
        }
    }
}

/// The parts that messages begin with, or none after the text of their error.
fn parts(to: &mut Out, item: &str) -> Option<Parts> {
    match read::<Value>(to, item) {
        Some(value) => {
            let parts = parts_of(to.alloc(), value);
            to.value(parts)
        }
        None => None,
    }
}

fn parts_of(alloc: Global, value: Value) -> Result<Parts, CoseError> {
    match three(value.try_as_array()?) {
        Some((protected, unprotected, content)) => {
            let values = PartValues {
                protected,
                unprotected,
                content,
            };
            values.read(alloc, Limits::default(), "bstr")
        }
        None => Err(CoseError::UnexpectedItem("array", "array with 3 items")),
    }
}

/// Whether what two items are read as is the same.
fn are_same<T: CborSerializable + PartialEq>(to: &mut Out, first: &str, second: &str) {
    if let Some(first) = read::<T>(to, first) {
        if let Some(second) = read::<T>(to, second) {
            to.yes_or_no(first == second);
        }
    }
}
