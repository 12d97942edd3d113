//! Writers that are full.
use crate::checks::{holds, same};
use ciborium_ll::{Decoder, Encoder, Full, Mem, RecodeError, recode};
use std::process::Abort;

/// The byte string 1, 2, 3 in pieces of 2 bytes.
const PAIRS: &[u8] = &[0x5f, 0x42, 1, 2, 0x41, 3, 0xff];

/// The text "aé日" in pieces of whole characters, of 4 bytes at most.
const CUT: &[u8] = &[0x7f, 0x63, 0x61, 0xc3, 0xa9, 0x63, 0xe6, 0x97, 0xa5, 0xff];

/// In a buffer of this length only a beginning of this is written of the byte string in pairs, or
/// of the text in pieces of 4 bytes.
fn is_begun(rt: &impl Abort, is_text: bool, room: usize, whole: &[u8]) {
    let mut bytes = [0u8; 9];
    let mut out = Mem::new(&mut bytes[..room.min(9)]);
    let mut encoder = Encoder::from(&mut out);
    let answer = if is_text {
        encoder.text("aé日", Some(4))
    } else {
        encoder.bytes(&[1, 2, 3], Some(2))
    };
    holds(rt, answer == Err(Full), "a writer that is full");
    holds(rt, whole.starts_with(out.as_written()), "a beginning");
}

#[test]
fn a_string_in_a_writer_that_is_full_has_a_beginning(rt: HostRuntime) {
    for room in 0..10 {
        is_begun(&rt, true, room, CUT);
    }
    for room in 0..7 {
        is_begun(&rt, false, room, PAIRS);
    }
}

/// A number, and a string in two pieces.
const LONG: &[u8] = &[0x18, 1, 0x5f, 0x41, 7, 0x42, 8, 9, 0xff];

#[test]
fn a_copy_in_a_writer_that_is_full_has_a_beginning(rt: HostRuntime) {
    let mut decoder = Decoder::from(LONG);
    let mut room = [0u8; 5];
    let mut out = Mem::new(&mut room[..]);
    let mut encoder = Encoder::from(&mut out);
    let mut buffer = [0u8; 4];
    let copied = recode(&mut decoder, &mut encoder, 2, &mut buffer);
    let is_full = copied == Err(RecodeError::Write(Full));
    holds(&rt, is_full, "a writer that is full");
    let want = [0x01, 0x5f, 0x41, 7, 0x42];
    same(&rt, &out.as_written(), &want.as_slice(), "a beginning");
}
