//! Tests of `callers`, by its public names, of what isn't in the rows of `conformance_gate`: values
//! made by a macro, relays within limits and strict ones, and both roads.
use callers::gatings::{relay_strict, relay_strict_with, relay_with};
use callers::items::{named, push_into, read_encoded, read_whole, text_of, value_of};
use callers::judging::KeyIds;
use callers::roads::both_roads;
use callers::tally::Tally;
use ciborium::cbor;
use ciborium::value::Value;
use cose_gate::{Counts, Limits};
use std::alloc::Global;
use std::process::Abort;

/// 18([h'', {4: h'11'}, 'hi', h'01']), and the same with wide and open heads,
/// 18([_ h'', {_ 4: h'11'}, (_ 'h', 'i'), h'01']), and 1.
const INPUT: [u8; 31] = [
    0xd2, 0x84, 0x40, 0xa1, 0x04, 0x41, 0x11, 0x42, 0x68, 0x69, 0x41, 0x01, 0xd8, 0x12, 0x9f, 0x40,
    0xbf, 0x04, 0x41, 0x11, 0xff, 0x5f, 0x41, 0x68, 0x41, 0x69, 0xff, 0x41, 0x01, 0xff, 0x01,
];

/// The id that the judge knows.
const KNOWN: [&[u8]; 1] = [&[0x11]];

/// The list [{1: "a"}, 7, true].
fn list(rt: &impl Abort, alloc: Global) -> Value {
    let name = named(alloc, "a").expect(rt, "a map");
    let mut list = cbor!(alloc, [name, 7]).expect(rt, "a list");
    let more = value_of(alloc, &true).expect(rt, "a value");
    assert!(rt; push_into(&mut list, more).expect(rt, "no memory"));
    list
}

#[test]
fn values_are_made_and_written(rt: HostRuntime) {
    let alloc = rt.alloc();
    let list = list(&rt, alloc);
    let text = text_of(alloc, &list).expect(&rt, "no memory");
    let want = [0x83, 0xa1, 0x01, 0x61, 0x61, 0x07, 0xf5];
    assert_eq!(rt; text.as_slice(), want.as_slice());
    let read = read_whole::<Value>(alloc, &text).expect(&rt, "an item");
    assert_eq!(rt; read, Some(list));
}

#[test]
fn one_encoding_alone_is_read(rt: HostRuntime) {
    let alloc = rt.alloc();
    let one = cbor!(alloc, 1).expect(&rt, "a number");
    let read = read_encoded(alloc, &[0x01]).expect(&rt, "an item");
    assert_eq!(rt; read, Some(one));
    let wide = read_encoded(alloc, &[0x18, 0x01]).expect(&rt, "an item");
    assert!(rt; wide.is_none());
    let two = read_encoded(alloc, &[0x01, 0x01]).expect(&rt, "an item");
    assert!(rt; two.is_none());
}

#[test]
fn both_roads_agree(rt: HostRuntime) {
    let alloc = rt.alloc();
    let mut judge = KeyIds::new(alloc, &KNOWN);
    let mut buffer = [0; 1];
    let roads = both_roads(alloc, &INPUT, &mut buffer, b"", &mut judge);
    let counts = Counts {
        passed: 2,
        refused: 1,
    };
    assert_eq!(rt; roads, Ok(Some((true, counts))));
}

#[test]
fn relays_are_strict_or_within_limits(rt: HostRuntime) {
    let alloc = rt.alloc();
    let mut judge = KeyIds::new(alloc, &KNOWN);
    let mut tally = Tally::new();
    let limits = Limits::default();
    let strict = relay_strict(alloc, &INPUT, b"", &mut judge, &mut tally);
    let (one, _) = strict.expect(&rt, "no fault");
    assert_eq!(rt; one.as_slice(), &INPUT[..12]);
    let strict = relay_strict_with(alloc, limits, &INPUT, b"", &mut judge, &mut tally);
    let (one, _) = strict.expect(&rt, "no fault");
    assert_eq!(rt; one.as_slice(), &INPUT[..12]);
    let within = relay_with(alloc, limits, &INPUT, b"", &mut judge, &mut tally);
    let (two, _) = within.expect(&rt, "no fault");
    assert_eq!(rt; two.len(), 24);
}
