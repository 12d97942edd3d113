//! Items that are read and written.
use ciborium::de::{from_decoder, from_decoder_strict};
use ciborium::{Decoder, Value};
use coset_labels::{read_to_value, write_to_vec};
use test_tools::{NoAnswer, Out};

/// The nesting limit if a call names none.
const LIMIT: usize = 256;

/// The item that all of these bytes are.
pub fn whole(to: &mut Out, bytes: &[u8]) -> Value {
    match read_to_value(to.alloc(), bytes, LIMIT) {
        Ok(value) => value,
        Err(_) => {
            to.refuse(NoAnswer::NotItem);
            Value::Null
        }
    }
}

/// The item whose bytes in hex are these.
pub fn item_of(to: &mut Out, word: &str) -> Value {
    let bytes = to.bytes(word);
    whole(to, &bytes)
}

/// The canonical encoding of the front item and how many bytes it took, or the fault.
pub fn item(to: &mut Out, bytes: &[u8], limit: usize) {
    let mut decoder = Decoder::from(bytes);
    match from_decoder(to.alloc(), &mut decoder, limit) {
        Ok(value) => written(to, &value, " taken ", decoder.offset()),
        Err(error) => to.failure(&error),
    }
}

fn written(to: &mut Out, value: &Value, word: &str, offset: usize) {
    let bytes = write_to_vec(to.alloc(), value);
    to.made(bytes);
    to.text(word);
    to.show(&offset);
}

/// Whether the bytes of the front item are its one encoding, and how many they are, or the fault.
pub fn exact(to: &mut Out, bytes: &[u8]) {
    let mut decoder = Decoder::from(bytes);
    match from_decoder_strict(to.alloc(), &mut decoder, LIMIT) {
        Ok((_, is_exact)) => {
            to.show(&is_exact);
            to.text(" ");
            to.show(&decoder.offset());
        }
        Err(error) => to.failure(&error),
    }
}

/// Each item of a sequence (RFC 8742) with the offset after it, and at last the fault with the
/// offset there.
pub fn sequence(to: &mut Out, bytes: &[u8]) {
    let mut decoder = Decoder::from(bytes);
    for _ in 0..=bytes.len() {
        if !tell_next(to, &mut decoder) {
            break;
        }
    }
}

/// Whether there is a next item.
fn tell_next(to: &mut Out, decoder: &mut Decoder<&[u8]>) -> bool {
    match from_decoder(to.alloc(), decoder, LIMIT) {
        Ok(value) => {
            written(to, &value, " ", decoder.offset());
            to.text(", ");
            true
        }
        Err(error) => {
            to.failure(&error);
            to.text(" ");
            to.show(&decoder.offset());
            false
        }
    }
}
