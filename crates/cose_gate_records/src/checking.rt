//! The program's run over buffers.
ghost use Rattle.std.specs.Prelude.{◌≡◌, ℕ, List};
ghost use Rattle.cose_gate_core.specs.Terms.{limits_of};
ghost use Rattle.cose_gate_records.specs.Calls.{CheckTold, Checks, Places, buffers};

use crate::answer::{Answer, no_limits};
use crate::choice::Choice;
use crate::growing::Growing;
use crate::lines::stop_for_memory;
use crate::placing::{place, place_none};
use crate::running::{RunTerms, run_with_keys};
use std::alloc::Global;

/// Runs the gate by these terms.
fn check_within(
    alloc: Global,
    run: RunTerms<'_>,
    keys: &[u8],
    input: &[u8],
    out: &mut [u8],
    lines: &mut [u8],
) -> Answer
    ensures { (written : List ℕ) × (status : ℕ)
        × CheckTold (limits_of run.entry.terms) keys.now run.entry.aad.now input.now
        «lines».new result.lines written status
        × Places written status «out».old «out».new result }
{
    let mut reader = input;
    let mut output = Growing::new(alloc);
    let ended = run_with_keys(alloc, run, keys, &mut reader, &mut output, lines);
    if output.is_refused() {
        return place_none(out, 4, stop_for_memory(lines, ended.last));
    }
    place(out, output.as_written(), ended.status, ended.end)
}

/// Runs `cose-gate` over buffers: the gate over `input` with the judge by HMAC and the key set of
/// the bytes `keys`, with `aad` as external data, by this choice; the program's limits are 256 and
/// 16.
///
/// The messages that passed are written to the front of `out`, each in canonical encoding; the
/// lines of the program's standard error are written to `lines`, as far as they fit. Memory that is
/// taken is given back before it returns. If it runs out for the output, nothing is written, the
/// status is 4, and `stopped: memory` replaces the whole last line.
///
/// If what would be written is longer than `out`, and only then, the status is 5: `out` stays as it
/// was, and `length` is the length that it needs.
pub fn check(
    alloc: Global,
    choice: Choice,
    keys: &[u8],
    aad: &[u8],
    input: &[u8],
    out: &mut [u8],
    lines: &mut [u8],
) -> Answer
    ensures { Checks choice.nesting choice.layers choice.strict keys.now aad.now input.now
        (buffers «out».old «lines».old) (buffers «out».new «lines».new) result }
{
    match choice.terms() {
        Some(terms) => check_within(alloc, RunTerms { terms, aad }, keys, input, out, lines),
        None => no_limits(),
    }
}
