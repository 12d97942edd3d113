//! The program over readers, writers and judges that fail.
use crate::judges::{Counting, Nth};
use crate::messages::{KEYS, TAGGED};
use cose_gate::{Limits, Mem, Read, Terms, Write, run, run_judged, run_over, run_with};
use std::alloc::Global;
use std::process::Abort;
use test_tools::{Sink, Source};

/// Which of the program's calls makes a run: `run`, or a strict `run_with` or `run_over`.
#[derive(Debug, Clone, Copy, PartialEq, Eq)]
pub enum Call {
    Run,
    With,
    Over,
}

/// Each of these calls.
pub const CALLS: [Call; 3] = [Call::Run, Call::With, Call::Over];

/// The default limits, and strict.
fn strict() -> Terms {
    Terms {
        limits: Limits::default(),
        strict: true,
    }
}

/// The status of a run by this call with the key and the external data 01. It has no contract: so
/// the program's clauses are not proved over again in each test.
pub fn status<R: Read, W: Write, E: Write>(
    alloc: Global,
    call: Call,
    input: &mut R,
    out: &mut W,
    err: &mut E,
) -> u8 {
    let (keys, aad) = (Some(KEYS), Some("01"));
    match call {
        Call::Run => run(alloc, keys, aad, input, out, err),
        Call::With => run_with(alloc, strict(), keys, aad, input, out, err),
        Call::Over => run_over(alloc, strict(), KEYS, &[1], input, out, err),
    }
}

/// A run by this call over this reader, to a writer that takes so many bytes, stops with these
/// lines, and has written this.
fn stops<R: Read>(
    rt: &impl Abort,
    alloc: Global,
    call: Call,
    input: &mut R,
    room: usize,
    (lines, output): (&str, &[u8]),
) {
    let mut out = Sink::of_room(alloc, room);
    let mut err = Mem::new(Vec::new(alloc));
    let status = status(alloc, call, input, &mut out, &mut err);
    assert_eq!(rt; (call, status), (call, 4));
    assert_eq!(rt; err.as_written(), lines.as_bytes());
    assert_eq!(rt; out.bytes.as_slice(), output);
}

#[test]
fn a_failed_read_is_told(rt: HostRuntime) {
    let alloc = rt.alloc();
    let passed = "item 1 at 0: passed\nstopped: decode: Io\n";
    let none = "stopped: decode: Io\n";
    for call in CALLS {
        let mut after = Source::new(TAGGED, TAGGED);
        stops(&rt, alloc, call, &mut after, 44, (passed, TAGGED));
        let mut inside = Source::fail_at(TAGGED, 3);
        stops(&rt, alloc, call, &mut inside, 44, (none, &[]));
    }
}

#[test]
fn a_full_writer_is_told(rt: HostRuntime) {
    for call in CALLS {
        let want = ("stopped: write\n", &TAGGED[..3]);
        stops(&rt, rt.alloc(), call, &mut { TAGGED }, 3, want);
    }
}

/// The status of a run whose judge gets no memory at its first call.
fn refused_status(alloc: Global, out: &mut Mem<Vec<u8>>, err: &mut Mem<Vec<u8>>) -> u8 {
    let mut judge = Nth {
        inner: Counting::new(),
        calls: 0,
    };
    let mut input = TAGGED;
    run_judged(alloc, strict(), &[1], &mut input, out, err, &mut judge)
}

#[test]
fn memory_that_a_judge_is_refused_is_told(rt: HostRuntime) {
    let alloc = rt.alloc();
    let mut out = Mem::new(Vec::new(alloc));
    let mut err = Mem::new(Vec::new(alloc));
    assert_eq!(rt; refused_status(alloc, &mut out, &mut err), 4);
    assert_eq!(rt; err.as_written(), b"stopped: memory\n".as_slice());
    assert_eq!(rt; out.as_written(), [].as_slice());
}

#[test]
fn a_fault_of_the_lines_is_passed_over(rt: HostRuntime) {
    let alloc = rt.alloc();
    let mut out = Mem::new(Vec::new(alloc));
    let mut err = Sink::new(alloc, 2);
    let mut input = TAGGED;
    let status = status(alloc, Call::Run, &mut input, &mut out, &mut err);
    assert_eq!(rt; status, 0);
    assert_eq!(rt; out.as_written(), TAGGED);
}
