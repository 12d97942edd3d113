//! Memory that is refused to the judge, to the report, and to the run.
use crate::checks::{entry, same};
use crate::gate::seen::{Answer, Observed, WAYS, Way, answered, reached, whole};
use crate::judges::Nth;
use cose_gate::{Asked, End, Entry, GateFault, Mem, MessageKind, Recorder, Refusal, Verdict};
use std::alloc::Global;
use std::process::Abort;

/// Two messages with an integer between them.
pub const INPUT: &[u8] = &[
    0xd2, 0x84, 0x43, 0xa1, 1, 0x26, 0xa0, 0x42, 0x68, 0x69, 0x43, 1, 2, 3, 1, 0xd2, 0x84, 0x43,
    0xa1, 1, 0x26, 0xa0, 0x42, 0x68, 0x69, 0x43, 1, 2, 3,
];

/// The two messages.
pub const OUTPUT: &[u8] = &[
    0xd2, 0x84, 0x43, 0xa1, 1, 0x26, 0xa0, 0x42, 0x68, 0x69, 0x43, 1, 2, 3, 0xd2, 0x84, 0x43, 0xa1,
    1, 0x26, 0xa0, 0x42, 0x68, 0x69, 0x43, 1, 2, 3,
];

/// What the signature of each covers.
const STRUCTURE: &[u8] = b"\x84\x6aSignature1\x43\xa1\x01\x26\x40\x42hi";

/// What is noted of them.
fn noted() -> [Entry; 3] {
    [
        entry(1, 0, Verdict::Passed),
        entry(2, 14, Verdict::Refused(Refusal::NotTagged)),
        entry(3, 15, Verdict::Passed),
    ]
}

/// Whether the question is the one about each of the messages.
fn is_expected(asked: &Asked) -> bool {
    asked.kind == MessageKind::Sign1
        && asked.structure.as_slice() == STRUCTURE
        && asked.tag_len == 3
        && asked.tag == [1, 2, 3, 0, 0, 0, 0, 0]
}

/// What was asked, written and noted is the beginning of what a whole run asks, writes and notes.
fn is_front(rt: &impl Abort, asked: &[Asked], written: &[u8], entries: &[Entry]) {
    for question in asked {
        assert!(rt; is_expected(question), "{question:?}");
    }
    assert!(rt; OUTPUT.starts_with(written), "{written:?}");
    assert!(rt; noted().starts_with(entries), "{entries:?}");
}

/// How far a run can be when there is no memory: how many questions, bytes and entries there are.
/// At the last one it is whole.
const PLACES: [(usize, usize, usize); 8] = [
    (0, 0, 0),
    (1, 0, 0),
    (1, 14, 0),
    (1, 14, 1),
    (1, 14, 2),
    (2, 14, 2),
    (2, 28, 2),
    (2, 28, 3),
];

/// The run ended for being out of memory at one of the places, or whole.
fn ends_at(rt: &impl Abort, answer: &Answer<End>, place: (usize, usize, usize)) {
    let want = if place.2 == 3 {
        whole(2, 1)
    } else {
        Err(GateFault::Memory)
    };
    same(rt, answer, &want, &"two messages");
    assert!(rt; PLACES.contains(&place), "{place:?}");
}

/// Where the item after so many items begins and ends; after the last one, where the input ends.
fn item_after(noted: usize) -> (usize, usize) {
    match noted {
        0 => (0, 14),
        1 => (14, 15),
        2 => (15, 29),
        _ => (29, 29),
    }
}

/// Of the input no more was taken than the item at hand when there was no memory.
fn ends_inside(rt: &impl Abort, alloc: Global, way: Way) {
    let mut memory = [0u8; 28];
    let mut out = Mem::new(&mut memory[..]);
    let mut notes = Vec::new(alloc);
    let mut judge = Recorder::new(alloc, None);
    let mut rest = INPUT;
    let answer = answered(alloc, way, &mut rest, &mut out, &mut notes, &[], &mut judge);
    let taken = INPUT.len().saturating_sub(rest.len());
    let asked = judge.asked();
    let written = out.as_written();
    ends_at(rt, &answer, (asked.len(), written.len(), notes.len()));
    is_front(rt, asked, written, &notes);
    let (begin, end) = item_after(notes.len());
    assert!(rt; begin <= taken && taken <= end, "{way:?}: {taken}");
}

/// All memory here is asked for by the runs. So this holds also if one allocation is refused,
/// whichever it is (`scripts/fail-alloc.sh`).
#[test]
fn refused_memory_ends_the_run(rt: HostRuntime) {
    for way in WAYS {
        ends_inside(&rt, rt.alloc(), way);
    }
}

/// A run by this call over this input, and how many bytes of it were taken; the judge and the
/// report are each refused memory once, after so many calls.
fn refused(alloc: Global, way: Way, input: &[u8], calls: (usize, usize)) -> (Observed<End>, usize) {
    let mut judge = Nth {
        inner: Recorder::new(alloc, None),
        calls: calls.0,
    };
    let mut notes = Nth {
        inner: Vec::new(alloc),
        calls: calls.1,
    };
    let mut out = Mem::new(Vec::new(alloc));
    let mut rest = input;
    let answer = answered(alloc, way, &mut rest, &mut out, &mut notes, &[], &mut judge);
    let seen = Observed {
        recorder: judge.inner,
        output: out.into_inner(),
        entries: notes.inner,
        answer,
    };
    (seen, input.len().saturating_sub(rest.len()))
}

/// How many calls of the judge and of the report come before there is no memory, and how far the
/// run comes. A question takes eight calls of the judge: it begins, and is fed the prefix, and of
/// three byte strings the title and the bytes.
const REFUSALS: [((usize, usize), (usize, usize, usize)); 11] = [
    ((0, 3), (0, 0, 0)),
    ((1, 3), (0, 0, 0)),
    ((3, 3), (0, 0, 0)),
    ((7, 3), (0, 0, 0)),
    ((8, 3), (1, 14, 2)),
    ((15, 3), (1, 14, 2)),
    ((16, 0), (1, 14, 0)),
    ((16, 1), (1, 14, 1)),
    ((16, 2), (2, 28, 2)),
    ((16, 3), (2, 28, 3)),
    ((17, 3), (2, 28, 3)),
];

/// A run by this call over two messages with an integer between them comes so far, if there is no
/// memory after so many calls. Of the input the items up to the one at hand were taken.
fn is_refused(
    rt: &impl Abort,
    alloc: Global,
    way: Way,
    calls: (usize, usize),
    want: (usize, usize, usize),
) {
    let (seen, taken) = refused(alloc, way, INPUT, calls);
    assert_eq!(rt; (way, calls, reached(&seen)), (way, calls, want));
    assert_eq!(rt; taken, item_after(want.2).1);
    ends_at(rt, &seen.answer, want);
    is_front(rt, seen.recorder.asked(), &seen.output, &seen.entries);
}

#[test]
fn memory_refused_to_the_judge_or_the_report_is_the_answer_of_each_call(rt: HostRuntime) {
    for way in WAYS {
        for (calls, want) in &REFUSALS {
            is_refused(&rt, rt.alloc(), way, *calls, *want);
        }
    }
}

/// 98([h'', {}, 'hi', [[h'a10126', {}, h'00'], [h'a10126', {}, h'01']]]).
const TWO: &[u8] = &[
    0xd8, 98, 0x84, 0x40, 0xa0, 0x42, 0x68, 0x69, 0x82, 0x83, 0x43, 0xa1, 1, 0x26, 0xa0, 0x41, 0,
    0x83, 0x43, 0xa1, 1, 0x26, 0xa0, 0x41, 1,
];

/// What its first signature covers: ['Signature', h'', h'a10126', h'', 'hi'].
const COVERED: &[u8] = b"\x85\x69Signature\x40\x43\xa1\x01\x26\x40\x42hi";

/// Whether the question is the one about its first signature, h'00'.
fn is_first(asked: &Asked) -> bool {
    asked.kind == MessageKind::Sign
        && asked.structure.as_slice() == COVERED
        && asked.tag_len == 1
        && asked.tag == [0; 8]
}

/// A run over it in which there is no memory to the judge after so many calls asks so many
/// questions, the first at most, and writes nothing.
fn is_left(rt: &impl Abort, alloc: Global, calls: usize, asked: usize) {
    let (seen, taken) = refused(alloc, Way::Plain, TWO, (calls, 3));
    assert_eq!(rt; taken, TWO.len());
    same(rt, &seen.answer, &Err(GateFault::Memory), &calls);
    same(rt, &reached(&seen), &(asked, 0, 0), &calls);
    for question in seen.recorder.asked() {
        assert!(rt; is_first(question), "{question:?}");
    }
}

/// A question about a signature takes ten calls of the judge: it begins, and is fed the prefix, and
/// of four byte strings the title and the bytes. If there is no memory to the judge, the questions
/// before were asked, and nothing is written.
#[test]
fn memory_may_be_refused_between_signatures(rt: HostRuntime) {
    for (calls, asked) in [(0, 0), (1, 0), (9, 0), (10, 1), (19, 1)] {
        is_left(&rt, rt.alloc(), calls, asked);
    }
}
