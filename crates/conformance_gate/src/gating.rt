//! Runs of the gate with a judge that records its questions.
use crate::out::Out;
use crate::words;
use cose_gate::{
    Asked, Counts, Decoder, End, Entry, GateFault, Judge, Limits, Mem, Recorder, Refusal, Report,
    Silent, Verdict, Write, gate, gate_strict, gate_strict_with, gate_with,
};
use std::alloc::Global;

/// How a run ends.
pub type Ended = Result<Counts, GateFault<End>>;

/// Which of the four calls of the gate makes a run.
#[derive(Clone, Copy)]
pub enum Way {
    Plain,
    Within(Limits),
    Strict,
    StrictWithin(Limits),
}

/// A run by one of these calls. It has no contract: so the gate's many clauses are not proved over
/// again in its callers.
pub fn gated<W: Write, P: Report, J: Judge>(
    alloc: Global,
    way: Way,
    input: &[u8],
    aad: &[u8],
    out: &mut W,
    report: &mut P,
    judge: &mut J,
) -> Ended {
    let mut decoder = Decoder::from(input);
    match way {
        Way::Plain => gate(alloc, &mut decoder, out, report, aad, judge),
        Way::Within(limits) => gate_with(alloc, limits, &mut decoder, out, report, aad, judge),
        Way::Strict => gate_strict(alloc, &mut decoder, out, report, aad, judge),
        Way::StrictWithin(limits) => {
            gate_strict_with(alloc, limits, &mut decoder, out, report, aad, judge)
        }
    }
}

/// A run of `gate`.
pub fn run(to: &mut Out, row: &mut &str) {
    run_by(to, Way::Plain, row);
}

/// A run of `gate_with`.
pub fn run_within(to: &mut Out, row: &mut &str) {
    let limits = words::limits(to, row);
    run_by(to, Way::Within(limits), row);
}

/// A run of `gate_strict`.
pub fn run_strict(to: &mut Out, row: &mut &str) {
    run_by(to, Way::Strict, row);
}

/// A run of `gate_strict_with`.
pub fn run_strict_within(to: &mut Out, row: &mut &str) {
    let limits = words::limits(to, row);
    run_by(to, Way::StrictWithin(limits), row);
}

/// A run over this input with this external data, if the judge says no to the signature that may
/// come after them: its questions, its output, what was noted of each item, and how it ended.
fn run_by(to: &mut Out, way: Way, row: &mut &str) {
    let input = words::bytes(to, row);
    let aad = words::bytes(to, row);
    let no = words::last(to, row);
    let alloc = to.alloc();
    let mut judge = Recorder::new(alloc, no);
    let mut out = Mem::new(Vec::new(alloc));
    let mut entries = Vec::new(alloc);
    let ended = gated(alloc, way, &input, &aad, &mut out, &mut entries, &mut judge);
    add_questions(to, judge.asked());
    add_output(to, out.as_written());
    add_entries(to, entries.as_slice());
    add_end(to, ended);
}

/// A run whose output has space for so many bytes, 64 at most, and whose report keeps nothing: its
/// output, and how it ended.
pub fn run_in_room(to: &mut Out, row: &mut &str) {
    let room = words::number(to, row);
    let input = words::bytes(to, row);
    let mut memory = [0; 64];
    let mut out = Mem::new(&mut memory[..room.min(64)]);
    let (alloc, way) = (to.alloc(), Way::Plain);
    let mut judge = Recorder::new(alloc, None);
    let ended = gated(alloc, way, &input, &[], &mut out, &mut Silent, &mut judge);
    add_output(to, out.as_written());
    add_end(to, ended);
}

/// What a run asks and writes.
#[derive(Drop)]
struct Trace {
    asked: Out,
    output: Vec<u8>,
}

fn traced(alloc: Global, input: &[u8], aad: &[u8]) -> Trace {
    let mut judge = Recorder::new(alloc, None);
    let mut out = Mem::new(Vec::new(alloc));
    let way = Way::Plain;
    let _ = gated(alloc, way, input, aad, &mut out, &mut Silent, &mut judge);
    let mut asked = Out::new(alloc);
    add_questions(&mut asked, judge.asked());
    Trace {
        asked,
        output: out.into_inner(),
    }
}

/// The output of a run, and whether a run over it asks and writes the same.
pub fn run_again(to: &mut Out, row: &mut &str) {
    let input = words::bytes(to, row);
    let aad = words::bytes(to, row);
    let once = traced(to.alloc(), &input, &aad);
    let again = traced(to.alloc(), &once.output, &aad);
    to.refuse_as(&once.asked);
    to.refuse_as(&again.asked);
    compare(to, &once, &again);
}

fn compare(to: &mut Out, once: &Trace, again: &Trace) {
    to.hex(&once.output);
    if once.asked.as_str() == again.asked.as_str() && once.output == again.output {
        to.text(", and the same again");
    } else {
        to.text(", and then ");
        to.hex(&again.output);
        to.text(" with ");
        to.text(again.asked.as_str());
    }
}

/// Appends the questions that were asked: the kind, the covered bytes, and the length and the first
/// eight bytes of the signature or tag.
pub fn add_questions(to: &mut Out, asked: &[Asked]) {
    for question in asked {
        add_question(to, question);
    }
}

fn add_question(to: &mut Out, asked: &Asked) {
    to.apart("; ");
    to.debug(&asked.kind);
    to.text(" ");
    to.hex(&asked.structure);
    to.text(" ");
    to.show(&asked.tag_len);
    to.text(" ");
    to.hex(asked.tag.as_slice());
}

/// Appends an output.
pub fn add_output(to: &mut Out, output: &[u8]) {
    to.apart("; ");
    to.text("out ");
    to.hex(output);
}

fn add_entries(to: &mut Out, entries: &[Entry]) {
    for entry in entries {
        add_entry(to, *entry);
    }
}

/// Appends the number, the offset and the verdict, and what a refusal holds that its text doesn't
/// show.
fn add_entry(to: &mut Out, entry: Entry) {
    to.apart("; ");
    to.show(&entry.number);
    to.text(" at ");
    to.show(&entry.offset);
    to.text(" ");
    to.show(&entry.verdict);
    add_held(to, entry.verdict);
}

fn add_held(to: &mut Out, verdict: Verdict) {
    match verdict {
        Verdict::Refused(Refusal::OtherTag(tag)) => {
            to.text(" ");
            to.show(&tag);
        }
        Verdict::Refused(Refusal::Judged(index)) => {
            to.text(" ");
            to.show(&index);
        }
        _ => {}
    }
}

/// Appends how a run ended.
pub fn add_end(to: &mut Out, ended: Ended) {
    to.apart("; ");
    match ended {
        Ok(counts) => {
            to.text("passed ");
            to.show(&counts.passed);
            to.text(", refused ");
            to.show(&counts.refused);
        }
        Err(fault) => {
            to.text("stopped ");
            to.debug(&fault);
        }
    }
}
