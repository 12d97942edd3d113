//! The questions of a run, for a caller who checks signatures with code of his own.
ghost use Rattle.std.specs.Prelude.{◌≡◌, ℕ, List};
ghost use Rattle.cose_gate_core.specs.Terms.{limits_of};
ghost use Rattle.cose_gate_records.specs.Calls.{AsksWithin, Places, AskTold, buffers};

use crate::answer::{Answer, no_limits};
use crate::asker::Asker;
use crate::choice::Choice;
use crate::lines::stop_for_memory;
use crate::nowhere::Nowhere;
use crate::placing::{place, place_none};
use crate::running::{RunTerms, run_with_judge};
use std::alloc::Global;

/// Asks by these terms.
fn ask_within(
    alloc: Global,
    run: RunTerms<'_>,
    input: &[u8],
    questions: &mut [u8],
    lines: &mut [u8],
) -> Answer
    ensures { (written : List ℕ) × (status : ℕ)
        × AskTold (limits_of run.entry.terms) run.entry.aad.now input.now
        «lines».new result.lines written status
        × Places written status «questions».old «questions».new result }
{
    let mut reader = input;
    let mut nowhere = Nowhere;
    let mut asker = Asker::new(alloc);
    let ended = run_with_judge(alloc, run, &mut reader, &mut nowhere, lines, &mut asker);
    match asker.records() {
        Some(records) => place(questions, records, ended.status, ended.end),
        None => place_none(questions, 4, stop_for_memory(lines, ended.last)),
    }
}

/// Tells the questions of the input: the gate runs over it as `check` does, and of each signature
/// and tag that it would ask a judge about, the record is in `questions`, one after another. The
/// caller finds the key by what a record shows, checks the signature over the covered bytes, and
/// hands the records that he accepts to `pass`. `include/cose_gate.h` says how a record is written.
///
/// `lines` takes the lines of a run in which every signature is good: it names each item that is
/// refused for its form. With the statuses 0 and 1 all questions are told. With 4 they are those up
/// to where the run stopped: all before an item that can't be read; if out of memory at an item,
/// all before it, and some about it. If it is out of memory for the records, there are none, and
/// `stopped: memory` replaces the whole last line.
///
/// If the records are longer than `questions`, and only then, the status is 5: `questions` stays as
/// it was, and `length` is the length that it needs.
pub fn ask(
    alloc: Global,
    choice: Choice,
    aad: &[u8],
    input: &[u8],
    questions: &mut [u8],
    lines: &mut [u8],
) -> Answer
    ensures { AsksWithin choice.nesting choice.layers choice.strict aad.now input.now
        (buffers «questions».old «lines».old) (buffers «questions».new «lines».new) result }
{
    match choice.terms() {
        Some(terms) => ask_within(alloc, RunTerms { terms, aad }, input, questions, lines),
        None => no_limits(),
    }
}
