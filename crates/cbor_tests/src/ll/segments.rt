//! Strings that are read in pieces.
use crate::checks::holds;
use crate::ll::devices::broken;
use crate::ll::heads::behind;
use ciborium_ll::{Bytes, End, Error, Header, Io, IoFault, Read, Segment, Segments, StringKind};
use std::process::Abort;
use test_tools::OneByOne;

/// The next segment, with so many bytes left.
fn next<'s, 'r, R: Read, P: StringKind>(
    rt: &impl Abort,
    segments: &'s mut Segments<'r, R, P>,
    left: usize,
) -> Segment<'s, 'r, R, P> {
    let pulled = segments.pull().ok().expect(rt, "no fault");
    let segment = pulled.expect(rt, "a segment");
    holds(rt, segment.left() == left, "the bytes of a segment");
    segment
}

/// Pulls of the segment, which has 2 bytes, return a fault of the reader.
fn fails(rt: &impl Abort, segment: &mut Segment<'_, '_, Io<OneByOne<'_>>, Bytes>) {
    let mut buffer = [0u8; 4];
    for _ in 0..2 {
        let answer = segment.pull(&mut buffer);
        let is_fault = matches!(answer, Err(Error::Io(IoFault::Io(_))));
        holds(rt, is_fault, "a fault of a device");
        holds(rt, segment.left() == 2, "what is left after a fault");
    }
}

#[test]
fn a_device_that_fails_inside_a_segment_is_told(rt: HostRuntime) {
    let reader = Io::new(broken(&[0x42, 1]));
    let mut decoder = behind(&rt, reader, Header::Bytes(Some(2)));
    let mut segments = decoder.bytes(Some(2));
    fails(&rt, &mut next(&rt, &mut segments, 2));
}

#[test]
fn a_segment_that_is_dropped_leaves_its_bytes(rt: HostRuntime) {
    let bytes: &[u8] = &[0x5f, 0x42, 1, 2, 0xff];
    let mut decoder = behind(&rt, bytes, Header::Bytes(None));
    let _dropped = next(&rt, &mut decoder.bytes(None), 2);
    holds(&rt, decoder.offset() == 2, "where the decoder is");
    let is_byte = decoder.pull() == Ok(Header::Positive(1));
    holds(&rt, is_byte, "the first byte that was left");
}

/// A pull of the only segment of a byte string, which has 1 byte, returns this.
fn gives(
    rt: &impl Abort,
    segments: &mut Segments<'_, &[u8], Bytes>,
    want: Result<Option<&[u8]>, Error<End>>,
) {
    let mut buffer = [0u8; 4];
    let is_so = next(rt, segments, 1).pull(&mut buffer) == want;
    holds(rt, is_so, "a piece of bytes");
}

#[test]
fn a_header_that_waits_is_the_first_of_a_string(rt: HostRuntime) {
    let bytes: &[u8] = &[0x5f, 0x41, 1, 0xff];
    let mut decoder = behind(&rt, bytes, Header::Bytes(None));
    if decoder.pull() != Ok(Header::Bytes(Some(1))) {
        panic!(rt; "another header");
    }
    decoder.push(Header::Bytes(Some(1)));
    // a definite string gives no byte while a header waits, and an open string takes that header
    // for its own
    gives(&rt, &mut decoder.bytes(Some(1)), Err(Error::Waiting));
    let mut segments = decoder.bytes(None);
    gives(&rt, &mut segments, Ok(Some(&[1])));
    for _ in 0..2 {
        let is_end = matches!(segments.pull(), Ok(None));
        holds(&rt, is_end, "the end of an open string");
    }
}
