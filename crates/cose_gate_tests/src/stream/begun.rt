//! A judge begins no question about a message that isn't streamed.
use crate::checks::unhex;
use crate::judges::Counting;
use crate::stream::checks::checked;
use std::alloc::Global;
use std::process::Abort;

/// A message that carries no payload, one whose length isn't stated, and one with another item in
/// its place; one with another header, and one with another tag.
const UNSTREAMED: [&str; 5] = [
    "d28440a0f640",
    "d28440a05f41684169ff40",
    "d28440a00040",
    "d28440f64040",
    "d08340a040",
];

/// No question is begun about this one.
fn is_unbegun(rt: &impl Abort, alloc: Global, text: &str) {
    let message = unhex(rt, alloc, text);
    let mut buffer = [0; 8];
    let mut judge = Counting::new();
    let reader = message.as_slice();
    let answer = checked(alloc, None, reader, &mut buffer, &[], &mut judge);
    assert!(rt; answer.is_err());
    assert_eq!(rt; (judge.begun, judge.decided), (0, 0), "{text}");
}

#[test]
fn no_question_is_begun_in_vain(rt: HostRuntime) {
    for text in &UNSTREAMED {
        is_unbegun(&rt, rt.alloc(), text);
    }
}
