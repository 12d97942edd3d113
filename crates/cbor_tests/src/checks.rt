//! How the tests compare, and what is written of a value.
use ciborium::ser::Serialize;
use ciborium::{Mem, into_writer};
use std::alloc::Global;
use std::fmt::{Debug, Display};
use std::process::Abort;

/// Ends the test unless this is so.
pub fn holds(rt: &impl Abort, is_so: bool, what: &str) {
    assert!(rt; is_so, "{what}");
}

/// Ends the test unless both are the same.
pub fn same<T: PartialEq + Debug>(rt: &impl Abort, got: &T, want: &T, at: &str) {
    assert_eq!(rt; *got, *want, "at {at}");
}

/// The value prints like this.
pub fn prints<T: Display>(rt: &impl Abort, alloc: Global, value: &T, want: &str) {
    let text = format!(in alloc; "{value}").expect(rt, "memory");
    same(rt, &text.as_str(), &want, want);
}

/// The bytes of which this is the hex.
pub fn of_hex(rt: &impl Abort, alloc: Global, text: &str) -> Vec<u8> {
    hex::decode(alloc, text).expect(rt, "hex")
}

/// The encoding of a value in hex.
fn written<T: Serialize>(rt: &impl Abort, alloc: Global, value: &T) -> String {
    let mut out = Mem::new(Vec::new(alloc));
    into_writer(value, &mut out).expect(rt, "memory");
    hex::encode(alloc, out.as_written()).expect(rt, "memory")
}

/// The encoding of a value is this in hex.
pub fn is_written<T: Serialize>(rt: &impl Abort, alloc: Global, value: &T, want: &str, at: &str) {
    let text = written(rt, alloc, value);
    same(rt, &text.as_str(), &want, at);
}
