//! How the tests compare.
use cose_gate::{Entry, Verdict};
use std::alloc::Global;
use std::fmt::{Debug, Display};
use std::process::Abort;

/// Both are the same.
pub fn same<T: PartialEq + Debug>(rt: &impl Abort, left: &T, right: &T, at: &impl Display) {
    assert_eq!(rt; *left, *right, "{at}");
}

/// Each value is equal to itself, and to no other one of the list.
pub fn all_differ<T: PartialEq>(rt: &impl Abort, values: &[T], what: &str) {
    for (index, one) in values.iter().enumerate() {
        for (other_index, other) in values.iter().enumerate() {
            let is_same = index == other_index;
            let is_so = (*one == *other) == is_same && (*one != *other) != is_same;
            assert!(rt; is_so, "{what} {index} and {other_index}");
        }
    }
}

/// What is noted of an item.
pub fn entry(number: usize, offset: usize, verdict: Verdict) -> Entry {
    Entry {
        number,
        offset,
        verdict,
    }
}

/// The bytes that this is in hex.
pub fn unhex(rt: &impl Abort, alloc: Global, text: &str) -> Vec<u8> {
    hex::decode(alloc, text).expect(rt, "bytes in hex")
}
