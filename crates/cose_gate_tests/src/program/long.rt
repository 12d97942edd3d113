//! Output and records of many times what a first allocation holds.
use crate::messages::{KEYS, MESSAGE, TAGGED, many};
use cose_gate_records::{Choice, ask, check};
use std::alloc::Global;

const CHOICE: Choice = Choice {
    nesting: 256,
    layers: 16,
    strict: false,
};

/// The status and the length of the output. It has no contract: so those of the call are not proved
/// over again in its caller.
fn checked(alloc: Global, input: &[u8], out: &mut [u8]) -> (u32, usize) {
    let answer = check(alloc, CHOICE, KEYS, &[1], input, out, &mut []);
    (answer.status, answer.length)
}

/// The status and the length of the records.
fn asked(alloc: Global, input: &[u8], questions: &mut [u8]) -> (u32, usize) {
    let answer = ask(alloc, CHOICE, &[], input, questions, &mut []);
    (answer.status, answer.length)
}

#[test]
fn a_long_output_is_written(rt: HostRuntime) {
    let input = many(&rt, rt.alloc(), TAGGED, 2000);
    let mut out = Vec::from_elem(rt.alloc(), 0, input.len()).expect(&rt, "memory");
    let answer = checked(rt.alloc(), &input, out.as_mut_slice());
    assert_eq!(rt; answer, (0, input.len()));
    assert!(rt; out == input);
}

/// A record of `MESSAGE` has 100 bytes.
#[test]
fn long_records_are_told(rt: HostRuntime) {
    let input = many(&rt, rt.alloc(), MESSAGE, 2000);
    let mut questions = Vec::from_elem(rt.alloc(), 0, 200000).expect(&rt, "memory");
    let answer = asked(rt.alloc(), &input, questions.as_mut_slice());
    assert_eq!(rt; answer, (0, 200000));
    let records = questions.as_slice();
    let is_same = match (records.get(..100), records.get(199900..)) {
        (Some(first), Some(last)) => first == last,
        _ => false,
    };
    assert!(rt; is_same);
}
