//! Headers that wait, and the texts of faults.
use crate::checks::{holds, prints, same};
use ciborium_ll::{Decoder, End, Error, Full, Header, IoFault, Read, RecodeError};
use std::io;
use std::process::Abort;

/// A decoder after the first title of these bytes, which is this.
pub fn behind<R: Read>(rt: &impl Abort, reader: R, head: Header) -> Decoder<R> {
    let mut decoder = Decoder::from(reader);
    let is_head = matches!(decoder.pull(), Ok(first) if first == head);
    holds(rt, is_head, "the first title");
    decoder
}

/// The decoder is at this place, and a header waits or not.
fn stands(rt: &impl Abort, decoder: &Decoder<&[u8]>, offset: usize, is_waiting: bool) {
    let place = (decoder.offset(), decoder.is_waiting());
    holds(rt, place == (offset, is_waiting), "where a decoder stands");
}

/// Reading a byte into a buffer that holds 7 returns this, and leaves this byte there.
fn reads_a_byte(
    rt: &impl Abort,
    decoder: &mut Decoder<&[u8]>,
    answer: Result<(), Error<End>>,
    byte: u8,
) {
    let mut buffer = [7u8; 1];
    let is_so = decoder.read_exact(&mut buffer) == answer;
    holds(rt, is_so, "a byte is read");
    same(rt, &buffer, &[byte], "a byte");
}

/// A number in two bytes, and another byte.
const WAITING: &[u8] = &[0x18, 1, 0x40];

#[test]
fn a_header_that_was_pushed_back_waits(rt: HostRuntime) {
    let mut decoder = Decoder::from(WAITING);
    if decoder.pull() != Ok(Header::Positive(1)) {
        panic!(rt; "another header");
    }
    stands(&rt, &decoder, 2, false);
    decoder.push(Header::Positive(1));
    stands(&rt, &decoder, 1, true);
    reads_a_byte(&rt, &mut decoder, Err(Error::Waiting), 7);
    stands(&rt, &decoder, 1, true);
    let is_same = decoder.pull() == Ok(Header::Positive(1));
    holds(&rt, is_same, "the header that waited");
    stands(&rt, &decoder, 2, false);
    reads_a_byte(&rt, &mut decoder, Ok(()), 0x40);
}

#[test]
fn faults_have_plain_words(rt: HostRuntime) {
    let alloc = rt.alloc();
    prints(&rt, alloc, &Error::<End>::TooLong, "TooLong");
    prints(&rt, alloc, &Error::<End>::Waiting, "Waiting");
    let read = RecodeError::<End, Full>::Read(Error::TooLong);
    prints(&rt, alloc, &read, "TooLong");
    let read = RecodeError::<End, Full>::Read(Error::Waiting);
    prints(&rt, alloc, &read, "Waiting");
    prints(&rt, alloc, &Full, "full");
    let write = RecodeError::<End, Full>::Write(Full);
    prints(&rt, alloc, &write, "full");
    let failure = IoFault::Io(io::Error::from(io::ErrorKind::Other));
    prints(&rt, alloc, &IoFault::End, "end");
    prints(&rt, alloc, &Error::Io(failure), "device");
}
