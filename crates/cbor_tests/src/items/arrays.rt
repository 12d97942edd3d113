//! Arrays of many items, definite and open, as values and as lists of numbers.
use crate::checks::{holds, same};
use ciborium::de::{RECURSION_LIMIT, from_decoder, from_reader};
use ciborium::{Decoder, Value};
use std::alloc::Global;
use std::process::Abort;

/// One item more than the first head's length in two bytes, a thousand, and more than 65,535.
const COUNTS: &[u32] = &[257, 1_000, 100_000];

/// The items: the numbers 0 to 22 in turn, each in one byte.
fn items(rt: &impl Abort, alloc: Global, count: u32) -> Vec<u8> {
    let mut items = Vec::new(alloc);
    for index in 0..count {
        items.push((index % 23) as u8).expect(rt, "memory");
    }
    items
}

/// These bytes, one after another.
fn joined(rt: &impl Abort, alloc: Global, parts: &[&[u8]]) -> Vec<u8> {
    let mut all = Vec::new(alloc);
    for part in parts {
        all.extend_from_slice(part).expect(rt, "memory");
    }
    all
}

/// Each byte as a number.
fn numbers(rt: &impl Abort, alloc: Global, items: &[u8]) -> Vec<u64> {
    let mut all = Vec::new(alloc);
    for item in items {
        all.push(u64::from(*item)).expect(rt, "memory");
    }
    all
}

/// The array is read, as a value and as a list of numbers.
fn is_read(rt: &impl Abort, alloc: Global, array: &[u8], items: &[u8], at: &str) {
    let value = from_decoder(alloc, &mut Decoder::from(array), RECURSION_LIMIT).expect(rt, at);
    let mut values = Vec::new(alloc);
    for item in items {
        values
            .push(Value::from(u64::from(*item)))
            .expect(rt, "memory");
    }
    holds(rt, value == Value::Array(values), at);
    let mut input = array;
    let list: Vec<u64> = from_reader(alloc, &mut input).expect(rt, at);
    same(rt, &list, &numbers(rt, alloc, items), at);
}

#[test]
fn arrays_of_many_items_are_read(rt: HostRuntime) {
    let alloc = rt.alloc();
    for count in COUNTS {
        let items = items(&rt, alloc, *count);
        let length = count.to_be_bytes();
        let whole = joined(&rt, alloc, &[&[0x9a], &length, items.as_slice()]);
        is_read(&rt, alloc, whole.as_slice(), items.as_slice(), "definite");
        let open = joined(&rt, alloc, &[&[0x9f], items.as_slice(), &[0xff]]);
        is_read(&rt, alloc, open.as_slice(), items.as_slice(), "open");
    }
}
