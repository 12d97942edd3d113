//! Copies, and the texts of errors.
use crate::checks::{holds, prints};
use ciborium_typed::tag::{Accepted, Captured, Required};
use ciborium_typed::{ByteBuf, Error, Value};
use std::alloc::AllocError;
use std::process::Abort;

/// The copy is the same.
fn is_copied<T: PartialEq + Drop>(rt: &impl Abort, it: &T, copy: Result<T, AllocError>) {
    let copy = copy.expect(rt, "memory");
    holds(rt, copy == *it, "a copy");
}

#[test]
fn values_are_copied(rt: HostRuntime) {
    let alloc = rt.alloc();
    let content = ByteBuf([1u8, 2].to_vec(alloc).expect(&rt, "memory"));
    is_copied(&rt, &content, content.clone(alloc));
    let captured = Captured(Some(5), Value::Bool(true));
    is_copied(&rt, &captured, captured.clone(alloc));
    let other = Captured(Some(6), Value::Bool(true));
    holds(&rt, captured != other, "another tag");
    let required = Required::<Value, 5>(Value::Null);
    is_copied(&rt, &required, required.clone(alloc));
    let text = Value::from_str(alloc, "a").expect(&rt, "memory");
    let accepted = Accepted::<Value, 5>(text);
    is_copied(&rt, &accepted, accepted.clone(alloc));
}

#[test]
fn a_refusal_of_memory_prints(rt: HostRuntime) {
    prints(&rt, rt.alloc(), &Error::Memory, "out of memory");
}
