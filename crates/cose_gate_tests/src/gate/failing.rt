//! Readers and writers that fail in mid-stream.
use crate::gate::memory::{INPUT, OUTPUT};
use crate::gate::seen::{Answer, WAYS, Way, answered, reached, run, whole};
use cose_gate::{Counts, End, GateFault, Io, Recorder, Write, de};
use std::alloc::Global;
use std::process::Abort;
use test_tools::{Broken, OneByOne, Sink, Source};

/// A run over the two messages stops when this reader fails, after so many bytes: what was whole
/// before has passed.
fn stops(rt: &impl Abort, alloc: Global, way: Way, source: Source, count: usize) {
    let seen = run(alloc, way, source);
    let passed = count / 14;
    let want = (passed, passed.saturating_mul(14), passed);
    assert!(rt;
        seen.answer == Err(GateFault::Decode(de::Error::Io(Broken))),
        "{count}"
    );
    assert_eq!(rt; (count, reached(&seen)), (count, want));
    assert!(rt; OUTPUT.starts_with(&seen.output));
}

#[test]
fn a_failed_read_is_the_answer(rt: HostRuntime) {
    let alloc = rt.alloc();
    assert_eq!(rt; OUTPUT.len(), 28);
    for way in WAYS {
        for count in 0..29 {
            stops(&rt, alloc, way, Source::fail_at(OUTPUT, count), count);
            // a reader that would give the rest after its fault
            let (front, rest) = OUTPUT.split_at(count);
            stops(&rt, alloc, way, Source::new(front, rest), count);
        }
    }
}

/// A run over the two messages, whose bytes come one by one, passes both.
fn comes_one_by_one(rt: &impl Abort, alloc: Global, way: Way) {
    let reader = Io::new(OneByOne {
        bytes: OUTPUT,
        is_broken: false,
    });
    let seen = run(alloc, way, reader);
    let counts = Counts {
        passed: 2,
        refused: 0,
    };
    assert!(rt; matches!(&seen.answer, Ok(found) if *found == counts));
    assert_eq!(rt; reached(&seen), (2, 28, 2));
    assert!(rt; seen.output.as_slice() == OUTPUT);
}

#[test]
fn bytes_may_come_one_by_one(rt: HostRuntime) {
    for way in WAYS {
        comes_one_by_one(&rt, rt.alloc(), way);
    }
}

/// What a run returns, and how many questions and entries there are then.
type Ended = (Answer<End>, (usize, usize));

/// How a run ends over two messages with a value between them, to this writer.
fn ended<W: Write>(alloc: Global, way: Way, out: &mut W) -> Ended {
    let mut entries = Vec::new(alloc);
    let mut recorder = Recorder::new(alloc, None);
    let answer = answered(alloc, way, INPUT, out, &mut entries, &[], &mut recorder);
    (answer, (recorder.asked().len(), entries.len()))
}

/// How it ends if so many bytes were written.
fn want_of(written: usize) -> Ended {
    match written {
        // all was written; a flush would fail, but the gate doesn't flush
        28 => (whole(2, 1), (2, 3)),
        // the first message was written whole: it was noted, and so was the value after it
        14.. => (Err(GateFault::Write), (2, 2)),
        _ => (Err(GateFault::Write), (1, 0)),
    }
}

/// The run stopped where the writer failed, or took all if it didn't.
fn stops_at(rt: &impl Abort, ended: &Ended, written: &[u8]) {
    assert_eq!(rt; *ended, want_of(written.len()));
    assert!(rt; OUTPUT.starts_with(written));
}

/// A writer that takes so many bytes.
fn is_full(rt: &impl Abort, alloc: Global, way: Way, room: usize) {
    let mut out = Sink::of_room(alloc, room);
    let ended = ended(alloc, way, &mut out);
    stops_at(rt, &ended, &out.bytes);
    assert_eq!(rt; out.bytes.len(), room);
}

#[test]
fn a_full_writer_is_the_answer(rt: HostRuntime) {
    for way in WAYS {
        for room in 0..29 {
            is_full(&rt, rt.alloc(), way, room);
        }
    }
}

/// Whether a writer that fails at one call, the one after so many, takes all.
fn takes_all(rt: &impl Abort, alloc: Global, way: Way, calls: usize) -> bool {
    let mut out = Sink::new(alloc, calls);
    let ended = ended(alloc, way, &mut out);
    stops_at(rt, &ended, &out.bytes);
    out.bytes.len() == 28
}

/// A run whose writer fails at any of its calls stops there, and one whose writer fails at none
/// takes all.
fn any_call_may_fail(rt: &impl Abort, alloc: Global, way: Way) {
    let mut is_whole = false;
    for calls in 0..60 {
        let was_whole = is_whole;
        is_whole = takes_all(rt, alloc, way, calls);
        assert!(rt; is_whole || !was_whole);
    }
    assert!(rt; is_whole);
}

#[test]
fn a_failed_write_is_the_answer(rt: HostRuntime) {
    for way in WAYS {
        any_call_may_fail(&rt, rt.alloc(), way);
    }
}
