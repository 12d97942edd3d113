//! Memory that is refused to the judge.
use crate::judges::Nth;
use crate::messages::MESSAGE;
use crate::stream::checks::checked;
use cose_gate::{End, Limits, Recorder, StreamFault};
use std::alloc::Global;
use std::process::Abort;

/// A judge that has answered a question, and is then refused memory once, after so many calls.
fn judge(rt: &impl Abort, alloc: Global, calls: usize) -> Nth<Recorder> {
    let mut buffer = [0; 1];
    let mut inner = Recorder::new(alloc, None);
    let answer = checked(alloc, None, MESSAGE, &mut buffer, &[], &mut inner);
    assert!(rt; answer == Ok(true));
    Nth { inner, calls }
}

/// The next message has this answer, within limits if there are some, and so many questions were
/// asked then.
fn is_answered(
    rt: &impl Abort,
    alloc: Global,
    limits: Option<Limits>,
    calls: usize,
    want: (Result<bool, StreamFault<End>>, usize),
) {
    let mut buffer = [0; 1];
    let mut judge = judge(rt, alloc, calls);
    let answer = checked(alloc, limits, MESSAGE, &mut buffer, &[], &mut judge);
    let found = (answer, judge.inner.asked().len());
    assert!(rt; found == want, "{calls}");
}

/// The judge has answered a question. It gets no memory at each of the next message's calls in
/// turn: `begin`, six pieces of the structure in front of the payload, and two of the payload. What
/// it was told stays.
#[test]
fn memory_refused_to_the_judge_is_the_answer(rt: HostRuntime) {
    for limits in [None, Some(Limits::default())] {
        for calls in 0..9 {
            let want = (Err(StreamFault::Memory), 1);
            is_answered(&rt, rt.alloc(), limits, calls, want);
        }
        is_answered(&rt, rt.alloc(), limits, 9, (Ok(true), 2));
    }
}
