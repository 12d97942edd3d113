//! Strings of many lengths, read from bytes that were put together here.
use crate::checks::{holds, same};
use ciborium::de::{Error, RECURSION_LIMIT, from_decoder};
use ciborium::{Decoder, End, Value};
use std::alloc::Global;
use std::process::Abort;

/// About the step of the UTF-8 test (64 bytes), the widths of a head's length (255 and 65,535), a
/// piece (4,096 bytes), and one that grows several times.
const LENGTHS: &[usize] = &[63, 64, 65, 255, 256, 4095, 4096, 4097, 65_536, 1_048_577];

/// A character of three bytes, so that pieces and steps end inside one.
const EURO: &str = "€";

/// So many bytes in each body of an open string: whole characters.
const BODY: usize = 999;

/// So many bytes of one kind.
fn filled(rt: &impl Abort, alloc: Global, n: usize, byte: u8) -> Vec<u8> {
    vec![in alloc; byte; n].expect(rt, "memory")
}

/// A text of so many bytes, most of which are of longer characters.
fn euros(rt: &impl Abort, alloc: Global, n: usize) -> Vec<u8> {
    let mut bytes = Vec::new(alloc);
    for _ in 0..n / 3 {
        bytes
            .extend_from_slice(EURO.as_bytes())
            .expect(rt, "memory");
    }
    for _ in 0..n % 3 {
        bytes.push(b'a').expect(rt, "memory");
    }
    bytes
}

/// Appends a definite string: the initial byte `first` with its length in four bytes, and the body.
fn add_string(rt: &impl Abort, into: &mut Vec<u8>, first: u8, body: &[u8]) {
    let length = u32::try_from(body.len()).expect(rt, "a length of 32 bits");
    into.push(first).expect(rt, "memory");
    into.extend_from_slice(&length.to_be_bytes())
        .expect(rt, "memory");
    into.extend_from_slice(body).expect(rt, "memory");
}

/// The string as a definite one.
fn definite(rt: &impl Abort, alloc: Global, first: u8, body: &[u8]) -> Vec<u8> {
    let mut text = Vec::new(alloc);
    add_string(rt, &mut text, first, body);
    text
}

/// The string as an open one of several bodies.
fn open(rt: &impl Abort, alloc: Global, first: u8, body: &[u8]) -> Vec<u8> {
    let mut text = Vec::new(alloc);
    text.push(first | 31).expect(rt, "memory");
    for part in body.chunks(BODY) {
        add_string(rt, &mut text, first, part);
    }
    text.push(255).expect(rt, "memory");
    text
}

/// What reading an item of all these bytes returns.
fn read(alloc: Global, text: &[u8]) -> Result<Value, Error<End>> {
    from_decoder(alloc, &mut Decoder::from(text), RECURSION_LIMIT)
}

/// How many bytes a string has, and how many it is held in.
fn sizes(value: &Value) -> (usize, usize) {
    match value {
        Value::Bytes(bytes) => (bytes.len(), bytes.capacity()),
        Value::Text(text) => (text.len(), text.capacity()),
        _ => (0, usize::MAX),
    }
}

/// The bytes read as this value, held in at most that many bytes; without their last they end.
fn is_read(rt: &impl Abort, alloc: Global, text: &[u8], want: &Value, most: usize, at: &str) {
    let value = read(alloc, text).expect(rt, at);
    same(rt, &value, want, at);
    holds(rt, sizes(&value).1 <= most, at);
    let cut = text.split_last().expect(rt, at).1;
    same(rt, &read(alloc, cut).err(), &Some(Error::Io(End)), at);
}

/// A string is read, as a definite one and as an open one. A definite one is held in its own size.
fn both(rt: &impl Abort, alloc: Global, first: u8, body: &[u8], want: &Value, at: &str) {
    let n = body.len();
    let whole = definite(rt, alloc, first, body);
    is_read(rt, alloc, whole.as_slice(), want, n, at);
    let parts = open(rt, alloc, first, body);
    let most = n.saturating_mul(2).saturating_add(4096);
    is_read(rt, alloc, parts.as_slice(), want, most, at);
}

/// The bytes as a text.
fn text_of(rt: &impl Abort, bytes: Vec<u8>) -> Value {
    Value::Text(String::from_utf8(bytes).ok().expect(rt, "UTF-8"))
}

#[test]
fn byte_strings_of_many_lengths_are_read(rt: HostRuntime) {
    for n in LENGTHS {
        let body = filled(&rt, rt.alloc(), *n, 0xff);
        let want = Value::Bytes(filled(&rt, rt.alloc(), *n, 0xff));
        both(
            &rt,
            rt.alloc(),
            0x5a,
            body.as_slice(),
            &want,
            "a byte string",
        );
    }
}

#[test]
fn texts_of_many_lengths_are_read(rt: HostRuntime) {
    for n in LENGTHS {
        let body = filled(&rt, rt.alloc(), *n, b'x');
        let want = text_of(&rt, filled(&rt, rt.alloc(), *n, b'x'));
        both(
            &rt,
            rt.alloc(),
            0x7a,
            body.as_slice(),
            &want,
            "a text of ASCII",
        );
        let longer = euros(&rt, rt.alloc(), *n);
        let wanted = text_of(&rt, euros(&rt, rt.alloc(), *n));
        both(
            &rt,
            rt.alloc(),
            0x7a,
            longer.as_slice(),
            &wanted,
            "a text of longer characters",
        );
    }
}

/// A text that is no UTF-8 in its last byte is refused, with the place of its head.
fn is_refused(rt: &impl Abort, alloc: Global, n: usize) {
    let mut body = filled(rt, alloc, n, b'x');
    if let Some(last) = body.last_mut() {
        *last = 0xff;
    }
    let text = definite(rt, alloc, 0x7a, body.as_slice());
    let fault = read(alloc, text.as_slice()).err();
    same(rt, &fault, &Some(Error::Syntax(0)), "no UTF-8");
}

#[test]
fn texts_of_many_lengths_are_refused(rt: HostRuntime) {
    for n in LENGTHS {
        is_refused(&rt, rt.alloc(), *n);
    }
}
