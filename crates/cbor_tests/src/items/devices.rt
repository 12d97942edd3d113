//! Readers that end or fail in mid-stream.
use crate::checks::{holds, of_hex, same};
use ciborium::de::{Error, RECURSION_LIMIT, from_decoder};
use ciborium::{Decoder, End, Io, IoFault, Read, Value};
use std::alloc::Global;
use std::process::Abort;
use test_tools::{Broken, OneByOne, Source};

/// A reader that gives these bytes, and then an end.
#[derive(Drop)]
struct Device<'a> {
    bytes: &'a [u8],
    /// the largest request so far
    largest: usize,
}

impl<'a> Read for Device<'a> {
    ghost use Rattle.std.specs.Prelude.{◌≡◌, Some, true};

    type Error = End;

    ghost left = { λ d. Some d.bytes.now };

    ghost failed = { λ _. 0 };

    ghost ends = { λ _. true };

    fn read_exact(&mut self, data: &mut [u8]) -> Result<(), End> {
        self.largest = self.largest.max(data.len());
        self.bytes.read_exact(data)
    }

    fn is_end(_error: &End) -> bool
        ensures { result ≡ true }
    {
        true
    }
}

/// What reading an item returns. It takes all, and no request is large.
fn read_in_pieces(
    rt: &impl Abort,
    alloc: Global,
    text: &[u8],
    at: &str,
) -> Result<Value, Error<End>> {
    let mut device = Device {
        bytes: text,
        largest: 0,
    };
    let answer = from_decoder(alloc, &mut Decoder::from(&mut device), RECURSION_LIMIT);
    holds(rt, device.bytes.is_empty() && device.largest <= 4096, at);
    answer
}

/// Heads that claim 2^64 - 1 bytes, items or entries, or 1 GiB, also inside open strings.
const CLAIMS: &[&str] = &[
    "5bffffffffffffffff",
    "7bffffffffffffffff",
    "9bffffffffffffffff",
    "bbffffffffffffffff",
    "5a40000000",
    "7a40000000",
    "5f5a40000000",
    "7f7a40000000",
];

/// A byte string of 10,000 bytes as an item.
fn long(rt: &impl Abort, alloc: Global) -> Vec<u8> {
    let mut text = of_hex(rt, alloc, "592710");
    text.extend_from_slice(&[7; 10_000]).expect(rt, "memory");
    text
}

#[test]
fn claims_are_not_believed(rt: HostRuntime) {
    for head in CLAIMS {
        let text = of_hex(&rt, rt.alloc(), head);
        let fault = read_in_pieces(&rt, rt.alloc(), text.as_slice(), head).err();
        same(&rt, &fault, &Some(Error::Io(End)), head);
    }
    let text = long(&rt, rt.alloc());
    let read = read_in_pieces(&rt, rt.alloc(), text.as_slice(), "a byte string");
    let want = [7; 10_000].to_vec(rt.alloc()).expect(&rt, "memory");
    same(&rt, &read, &Ok(Value::Bytes(want)), "a byte string");
}

/// A tagged array of 14 bytes: 18([h'a10126', {}, 'hi', h'010203']).
const MESSAGE: &str = "d28443a10126a042686943010203";

#[test]
fn a_failure_in_mid_stream_is_the_answer(rt: HostRuntime) {
    let message = of_hex(&rt, rt.alloc(), MESSAGE);
    for count in 0..message.len() {
        let mut decoder = Decoder::from(Source::fail_at(&message, count));
        let fault = from_decoder(rt.alloc(), &mut decoder, RECURSION_LIMIT).err();
        same(&rt, &fault, &Some(Error::Io(Broken)), "a failure");
        let mut decoder = Decoder::from(&message[..count]);
        let fault = from_decoder(rt.alloc(), &mut decoder, RECURSION_LIMIT).err();
        same(&rt, &fault, &Some(Error::Io(End)), "an end");
    }
}

/// A reader of std gives this value of these bytes, and then an end.
fn gives(rt: &impl Abort, alloc: Global, message: &[u8], want: &Value) {
    let reader = OneByOne {
        bytes: message,
        is_broken: false,
    };
    let mut decoder = Decoder::from(Io::new(reader));
    let value = from_decoder(alloc, &mut decoder, RECURSION_LIMIT).ok();
    same(rt, &value.expect(rt, "an item"), want, "an item");
    same(rt, &decoder.offset(), &message.len(), "its end");
    let answer = from_decoder(alloc, &mut decoder, RECURSION_LIMIT);
    let is_end = matches!(answer, Err(Error::Io(IoFault::End)));
    holds(rt, is_end, "an end");
}

#[test]
fn reads_from_a_reader_of_std(rt: HostRuntime) {
    let message = of_hex(&rt, rt.alloc(), MESSAGE);
    let mut decoder = Decoder::from(message.as_slice());
    let want = from_decoder(rt.alloc(), &mut decoder, RECURSION_LIMIT);
    gives(
        &rt,
        rt.alloc(),
        message.as_slice(),
        &want.expect(&rt, "an item"),
    );
}
