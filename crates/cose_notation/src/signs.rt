//! Which maps are keys, and which of their values are secrets.
use crate::key_labels::{KeyPart, Label, key_label};
use crate::parts::{are_labels, entries, integer, is_bytes, is_label, items};
use cbor_diag::{NotWritten, View, head_of};
use ciborium_ll::Header;
use cose_iana::{EnumI64, KeyType};
use std::alloc::Global;

/// Labels from this one to -1 are those that the registry gives to types of keys.
pub const LOWEST: i64 = -256;

/// A map that is a key.
#[derive(Debug, Clone, Copy, PartialEq, Eq)]
pub struct KeyMap {
    /// Its type, if it has one that is registered.
    pub kty: Option<KeyType>,
}

/// What was seen of the entries of a map, to tell whether it is a key.
#[derive(Debug, Clone, Copy, PartialEq, Eq)]
pub struct Signs {
    /// Label 1, the type, is there.
    pub has_type: bool,
    /// Its value, if it is there once and is registered.
    pub kty: Option<KeyType>,
    /// Label 2 is there, with a byte string.
    pub has_id: bool,
    /// A label below 0 is there, and one not below -256.
    pub below_zero: bool,
    pub of_type: bool,
    /// A label is there that is a bignum, and may be any of these.
    pub has_bignum: bool,
}

impl Signs {
    /// The signs before any entry was seen.
    pub fn new() -> Signs {
        Signs {
            has_type: false,
            kty: None,
            has_id: false,
            below_zero: false,
            of_type: false,
            has_bignum: false,
        }
    }

    /// Takes an entry.
    pub fn note(&mut self, label: Label, value: &[u8]) {
        match label {
            Label::Number(1) => {
                self.kty = if self.has_type {
                    None
                } else {
                    registered_type(value)
                };
                self.has_type = true;
            }
            Label::Number(2) => self.has_id = self.has_id || is_bytes(value),
            Label::Number(number) if number < 0 => {
                self.below_zero = true;
                self.of_type = self.of_type || number >= LOWEST;
            }
            Label::Bignum => self.has_bignum = true,
            _ => {}
        }
    }

    /// The key that the map is: it has a registered type, and beside it a label below 0 or a key
    /// id, or another type, or one that can't be read, and beside it a label from -256 to -1. A
    /// bignum counts as either of the two labels.
    pub fn key(self) -> Option<KeyMap> {
        let kty = self.kty();
        let is_key = match kty {
            Some(_) => self.below_zero || self.has_id,
            None => self.has_bignum || (self.has_type && self.of_type),
        };
        if is_key { Some(KeyMap { kty }) } else { None }
    }

    /// The key that a map is that is cut off, and may have a private string.
    pub fn cut_key(self, has_private_string: bool) -> Option<KeyMap> {
        let kty = self.kty();
        let is_key = kty.is_some() && (self.below_zero || self.has_id);
        if is_key || has_private_string {
            Some(KeyMap { kty })
        } else {
            None
        }
    }

    /// The registered type, unless another may be there.
    pub fn kty(self) -> Option<KeyType> {
        if self.has_bignum { None } else { self.kty }
    }
}

fn registered_type(value: &[u8]) -> Option<KeyType> {
    match integer(value) {
        Some(number) if number > 0 => KeyType::from_i64(number),
        _ => None,
    }
}

/// What was seen of the entries of a map; nothing of another item.
fn signs_of(alloc: Global, item: &[u8]) -> Result<Signs, NotWritten> {
    let mut signs = Signs::new();
    let Some(mut parts) = entries(alloc, View::open(item)) else {
        return Ok(signs);
    };
    for _ in 0..u64::MAX {
        let Some(label) = parts.next()? else {
            break;
        };
        let Some(value) = parts.next()? else {
            break;
        };
        signs.note(Label::of(label.bytes()), value.bytes());
    }
    Ok(signs)
}

/// The key that an item is, as the entries of the map say.
///
/// # Errors
/// `Memory`.
pub fn key_in(alloc: Global, item: &[u8]) -> Result<Option<KeyMap>, NotWritten> {
    Ok(signs_of(alloc, item)?.key())
}

/// The type that a map has as a key, if it has a registered one.
///
/// # Errors
/// `Memory`.
pub fn type_in(alloc: Global, item: &[u8]) -> Result<Option<KeyType>, NotWritten> {
    Ok(signs_of(alloc, item)?.kty())
}

/// Whether an item is an array with a key in it.
///
/// # Errors
/// `Memory`.
pub fn is_key_set(alloc: Global, item: &[u8]) -> Result<bool, NotWritten> {
    let Some(mut list) = items(alloc, View::open(item)) else {
        return Ok(false);
    };
    for _ in 0..u64::MAX {
        match list.next()? {
            Some(one) if key_in(alloc, one.bytes())?.is_some() => return Ok(true),
            Some(_) => {}
            None => break,
        }
    }
    Ok(false)
}

/// Whether a value in a key is no secret. The type, the algorithm, the curve and the operations are
/// numbers and texts.
///
/// # Errors
/// `Memory`.
pub fn is_open(alloc: Global, part: KeyPart, value: &[u8]) -> Result<bool, NotWritten> {
    match part {
        KeyPart::Type => Ok(is_label(value)),
        KeyPart::Alg => Ok(is_label(value)),
        KeyPart::Curve => Ok(is_label(value)),
        KeyPart::Operations => are_labels(alloc, value),
        KeyPart::Public => Ok(true),
        KeyPart::Secret => Ok(false),
    }
}

/// Whether an item is a byte string as long as a secret of a key mostly is.
pub fn is_long_as_key(item: &[u8]) -> bool {
    match head_of(item) {
        Ok(head) => matches!(
            head.header,
            Header::Bytes(Some(16 | 24 | 32 | 48 | 56 | 57 | 64 | 66))
        ),
        Err(_) => false,
    }
}
