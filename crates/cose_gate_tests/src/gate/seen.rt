//! What a run asks, writes, notes and returns, and the checks of it that tests share.
use cose_gate::{
    Counts, Decoder, Entry, GateFault, Judge, Limits, Mem, Read, Recorder, Report, Write, gate,
    gate_strict, gate_strict_with, gate_with,
};
use std::alloc::Global;

/// What a run returns.
pub type Answer<E> = Result<Counts, GateFault<E>>;

/// The result of a run that went through its input.
pub fn whole<E>(passed: usize, refused: usize) -> Answer<E> {
    Ok(Counts { passed, refused })
}

/// Which of the four calls of the gate makes a run. Those that take limits get the default ones.
#[derive(Debug, Clone, Copy, PartialEq, Eq)]
pub enum Way {
    Plain,
    Within,
    Strict,
    StrictWithin,
}

/// Each of the four calls.
pub const WAYS: [Way; 4] = [Way::Plain, Way::Within, Way::Strict, Way::StrictWithin];

/// What a run by this call over this reader returns. It has no contract: so the gate's clauses are
/// not proved over again in each test.
pub fn answered<R: Read + Drop, W: Write, P: Report, J: Judge>(
    alloc: Global,
    way: Way,
    reader: R,
    out: &mut W,
    report: &mut P,
    aad: &[u8],
    judge: &mut J,
) -> Answer<R::Error> {
    let limits = Limits::default();
    let mut decoder = Decoder::from(reader);
    match way {
        Way::Plain => gate(alloc, &mut decoder, out, report, aad, judge),
        Way::Within => gate_with(alloc, limits, &mut decoder, out, report, aad, judge),
        Way::Strict => gate_strict(alloc, &mut decoder, out, report, aad, judge),
        Way::StrictWithin => {
            gate_strict_with(alloc, limits, &mut decoder, out, report, aad, judge)
        }
    }
}

/// What a run asked, wrote, noted and returned.
#[derive(Drop)]
pub struct Observed<E> {
    pub recorder: Recorder,
    pub output: Vec<u8>,
    pub entries: Vec<Entry>,
    pub answer: Answer<E>,
}

/// A run by this call over what this reader gives, with a judge that says yes to each signature.
pub fn run<R: Read + Drop>(alloc: Global, way: Way, reader: R) -> Observed<R::Error> {
    let mut judge = Recorder::new(alloc, None);
    let mut out = Mem::new(Vec::new(alloc));
    let mut entries = Vec::new(alloc);
    let answer = answered(alloc, way, reader, &mut out, &mut entries, &[], &mut judge);
    Observed {
        recorder: judge,
        output: out.into_inner(),
        entries,
        answer,
    }
}

/// How far a run came: its questions, bytes and entries.
pub fn reached<E>(seen: &Observed<E>) -> (usize, usize, usize) {
    (
        seen.recorder.asked().len(),
        seen.output.len(),
        seen.entries.len(),
    )
}
