//! Parts of claims and of contexts of key derivation.
use crate::items::read;
use coset::cbor::{Float, Value};
use coset::cwt::{ClaimsSet, Timestamp};
use coset::{AsCborValue, Nonce, PartyInfo, SuppPubInfo};
use std::cmp::Ordering;
use test_tools::Out;

/// When a token expires.
pub fn expiration(to: &mut Out, claims: &str) {
    if let Some(claims) = read::<ClaimsSet>(to, claims) {
        match &claims.expiration_time {
            Some(time) => of_time(to, time),
            None => to.text("none"),
        }
    }
}

fn of_time(to: &mut Out, time: &Timestamp) {
    match time {
        Timestamp::WholeSeconds(seconds) => to.show(seconds),
        Timestamp::FractionalSeconds(seconds) => of_float(to, *seconds),
    }
}

/// A float by its width and its bits.
fn of_float(to: &mut Out, float: Float) {
    match float {
        Float::Half(bits) => {
            to.text("half ");
            to.hex(&bits.to_be_bytes());
        }
        Float::Single(bits) => {
            to.text("single ");
            to.hex(&bits.to_be_bytes());
        }
        Float::Double(bits) => {
            to.text("double ");
            to.hex(&bits.to_be_bytes());
        }
    }
}

/// A copy of a time, and the value that it is made.
pub fn time(to: &mut Out, item: &str) {
    if let Some(value) = read::<Value>(to, item) {
        let time = Timestamp::from_cbor_value(to.alloc(), value);
        if let Some(time) = to.value(time) {
            copied_time(to, &time);
        }
    }
}

fn copied_time(to: &mut Out, time: &Timestamp) {
    let copy = time.clone(to.alloc());
    if let Some(copy) = to.kept(copy) {
        if copy != *time {
            to.text("another copy");
            return;
        }
        of_time(to, &copy);
        to.text(", value ");
        let value = copy.to_cbor_value(to.alloc());
        if let Some(value) = to.value(value) {
            of_value(to, &value);
        }
    }
}

fn of_value(to: &mut Out, value: &Value) {
    match value {
        Value::Integer(number) => to.show(&i128::from(*number)),
        Value::Float(float) => of_float(to, *float),
        _ => to.text("no time"),
    }
}

/// How a time compares with a number of seconds.
pub fn against(to: &mut Out, item: &str, seconds: &str) {
    let seconds = to.number(seconds);
    if let Some(value) = read::<Value>(to, item) {
        let time = Timestamp::from_cbor_value(to.alloc(), value);
        if let Some(time) = to.value(time) {
            to.text(match time.partial_cmp_seconds(seconds) {
                Some(Ordering::Less) => "less",
                Some(Ordering::Equal) => "equal",
                Some(Ordering::Greater) => "greater",
                None => "none",
            });
        }
    }
}

/// The nonce of a party.
pub fn nonce(to: &mut Out, party: &str) {
    if let Some(party) = read::<PartyInfo>(to, party) {
        match &party.nonce {
            Some(nonce) => of_nonce(to, nonce),
            None => to.text("none"),
        }
    }
}

fn of_nonce(to: &mut Out, nonce: &Nonce) {
    let copy = nonce.clone(to.alloc());
    if let Some(copy) = to.kept(copy) {
        if copy != *nonce {
            to.text("another copy");
            return;
        }
        match &copy {
            Nonce::Bytes(bytes) => {
                to.text("bytes ");
                to.hex(bytes.as_slice());
            }
            Nonce::Integer(number) => to.show(number),
        }
    }
}

/// The length of a derived key in bits.
pub fn key_data_length(to: &mut Out, info: &str) {
    if let Some(info) = read::<SuppPubInfo>(to, info) {
        to.show(&info.key_data_length);
    }
}
