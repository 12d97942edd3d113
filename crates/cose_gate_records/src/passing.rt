//! The messages whose questions were accepted.
ghost use Rattle.std.specs.Prelude.{◌≡◌, ℕ, List};
ghost use Rattle.cose_gate_core.specs.Terms.{limits_of};
ghost use Rattle.cose_gate_records.specs.Calls.{PassTold, PassedDigests, PassesWithin};
ghost use Rattle.cose_gate_records.specs.Calls.{PassesDigests};
ghost use Rattle.cose_gate_records.specs.Calls.{Places, RanBy, buffers};

use crate::accepted::Accepted;
use crate::answer::{Answer, no_limits};
use crate::choice::Choice;
use crate::digested::Digested;
use crate::growing::Growing;
use crate::lines::{STOPPED, lone_line, stop_for_memory};
use crate::placing::{place, place_none};
use crate::running::{RunTerms, run_with_judge};
use cose_gate_core::Judge;
use std::alloc::Global;

/// Passes what this judge accepts.
fn pass_by<J: Judge>(
    alloc: Global,
    run: RunTerms<'_>,
    judge: &mut J,
    input: &[u8],
    out: &mut [u8],
    lines: &mut [u8],
) -> Answer
    ensures { (written : List ℕ) × (status : ℕ)
        × RanBy (limits_of run.entry.terms) (J.yes (J.who judge.old)) run.entry.aad.now input.now
        «lines».new result.lines written status
        × Places written status «out».old «out».new result }
{
    let mut reader = input;
    let mut output = Growing::new(alloc);
    let ended = run_with_judge(alloc, run, &mut reader, &mut output, lines, judge);
    if output.is_refused() {
        return place_none(out, 4, stop_for_memory(lines, ended.last));
    }
    place(out, output.as_written(), ended.status, ended.end)
}

/// Passes what was accepted, by these terms.
fn pass_within(
    alloc: Global,
    run: RunTerms<'_>,
    accepted: &[u8],
    input: &[u8],
    out: &mut [u8],
    lines: &mut [u8],
) -> Answer
    ensures { (written : List ℕ) × (status : ℕ)
        × PassTold (limits_of run.entry.terms) accepted.now run.entry.aad.now input.now
        «lines».new result.lines written status
        × Places written status «out».old «out».new result }
{
    let Ok(judge) = Accepted::new(alloc, accepted) else {
        return place_none(out, 4, lone_line(lines, STOPPED));
    };
    match judge {
        Some(mut judge) => pass_by(alloc, run, &mut judge, input, out, lines),
        None => place_none(out, 3, lone_line(lines, b"accepted: no records\n")),
    }
}

/// Passes the messages all of whose questions are among the records `accepted`: some of those that
/// `ask` told of this input, or of another, copied as they are, one after another, in any order.
/// The external data and the choice are those of that call. A record counts for each question that
/// it is the record of. `out`, `lines` and the result are those of `check`.
///
/// If `accepted` is no such records, the status is 3, and nothing is read.
pub fn pass(
    alloc: Global,
    choice: Choice,
    accepted: &[u8],
    aad: &[u8],
    input: &[u8],
    out: &mut [u8],
    lines: &mut [u8],
) -> Answer
    ensures { PassesWithin choice.nesting choice.layers choice.strict accepted.now aad.now input.now
        (buffers «out».old «lines».old) (buffers «out».new «lines».new) result }
{
    match choice.terms() {
        Some(terms) => pass_within(alloc, RunTerms { terms, aad }, accepted, input, out, lines),
        None => no_limits(),
    }
}

/// Passes what has these digests, by these terms.
fn pass_digests_within(
    alloc: Global,
    run: RunTerms<'_>,
    accepted: &[u8],
    input: &[u8],
    out: &mut [u8],
    lines: &mut [u8],
) -> Answer
    ensures { (written : List ℕ) × (status : ℕ)
        × PassedDigests (limits_of run.entry.terms) accepted.now run.entry.aad.now input.now
        «lines».new result.lines written status
        × Places written status «out».old «out».new result }
{
    let Ok(judge) = Digested::new(alloc, accepted) else {
        return place_none(out, 4, lone_line(lines, STOPPED));
    };
    match judge {
        Some(mut judge) => pass_by(alloc, run, &mut judge, input, out, lines),
        None => place_none(out, 3, lone_line(lines, b"accepted: no digests\n")),
    }
}

/// As `pass`, with the digests of the questions that were accepted, 32 bytes each, in place of
/// their records.
pub fn pass_digests(
    alloc: Global,
    choice: Choice,
    accepted: &[u8],
    aad: &[u8],
    input: &[u8],
    out: &mut [u8],
    lines: &mut [u8],
) -> Answer
    ensures { PassesDigests choice.nesting choice.layers choice.strict accepted.now aad.now
        input.now (buffers «out».old «lines».old) (buffers «out».new «lines».new) result }
{
    match choice.terms() {
        Some(terms) => {
            pass_digests_within(alloc, RunTerms { terms, aad }, accepted, input, out, lines)
        }
        None => no_limits(),
    }
}
