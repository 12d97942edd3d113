//! What to check of each item, by the rules for headers and keys.
ghost use Rattle.std.specs.Prelude.{◌≡◌, ℕ, List, [], ◌∷◌, map, option_map};
ghost use Rattle.coset_keys.specs.View.{key_view};
ghost use Rattle.cose_gate_core.specs.Terms.{limits_of};
ghost use Rattle.cose_gate_program.specs.declared.telling.Notice.TheVariants as notice;
ghost use Rattle.cose_gate_records.specs.Calls.{Places, buffers};
ghost use Rattle.cose_gate_records.specs.Lines.{AreLinesOf, AreLinesWithLast};
ghost use Rattle.cose_rules.specs.TokenView.{terms_view};
ghost use Rattle.cose_ruled.specs.Running.{reading_into};
ghost use Rattle.cose_gate_c.specs.RuledAsking.{AsksRuled, ToldRuled, ToldUnder, WroteBlocks};

use ciborium_ll::{Read, Write};
use cose_gate_core::Terms;
use cose_gate_program::{NotBegun, Notice, Teller, begin};
use cose_gate_records::{
    Answer, Choice, Ended, Growing, Lines, RunTerms, no_limits, place, place_none, stop_for_memory,
};
use cose_ruled::{Rules, TokenTerms, ask_ruled};
use std::alloc::Global;

/// What a call reads.
#[derive(Clone, Copy)]
pub(crate) struct Given<'a> {
    /// The key set, encoded.
    pub keys: &'a [u8],
    /// The external data.
    pub aad: &'a [u8],
    /// The input.
    pub input: &'a [u8],
}

/// The run by these rules, with its blocks in `out` and its lines in a buffer.
fn ask_told<R: Read, W: Write>(
    alloc: Global,
    run: RunTerms<'_>,
    rules: Rules<'_>,
    input: &mut R,
    out: &mut W,
    lines: &mut [u8],
) -> Ended
    ensures { WroteBlocks W.Write (limits_of run.entry.terms)
        (option_map terms_view rules.entry.token) (map key_view rules.entry.keys.now)
        run.entry.aad.now
        (reading_into R.Read W.Write input.old out.old)
        (reading_into R.Read W.Write input.new out.new) out.old out.new result.status
        (AreLinesWithLast «lines».new result.last result.end) }
{
    let mut told = Lines::new(lines);
    let status = ask_ruled(alloc, run.terms, rules, run.aad, input, out, &mut told);
    Ended {
        status,
        last: told.last(),
        end: told.end(),
    }
}

/// Asks by these rules.
fn ask_under(
    alloc: Global,
    run: RunTerms<'_>,
    rules: Rules<'_>,
    input: &[u8],
    blocks: &mut [u8],
    lines: &mut [u8],
) -> Answer
    ensures { (written : List ℕ) × (status : ℕ)
        × ToldUnder (limits_of run.entry.terms) (option_map terms_view rules.entry.token)
        (map key_view rules.entry.keys.now) run.entry.aad.now input.now
        «lines».new result.lines written status
        × Places written status «blocks».old «blocks».new result }
{
    let mut reader = input;
    let mut output = Growing::new(alloc);
    let ended = ask_told(alloc, run, rules, &mut reader, &mut output, lines);
    if output.is_refused() {
        return place_none(blocks, 4, stop_for_memory(lines, ended.last));
    }
    place(blocks, output.as_written(), ended.status, ended.end)
}

/// Says why the run doesn't begin, and returns how long the line is.
fn tell_unbegun(lines: &mut [u8], why: NotBegun) -> usize
    ensures { AreLinesOf «lines».new result (notice.NotBegun why ∷ []) }
{
    let mut told = Lines::new(lines);
    told.tell(&Notice::NotBegun(why));
    told.end()
}

/// Asks under the key set of these bytes.
fn ask_within(
    alloc: Global,
    terms: Terms,
    given: Given<'_>,
    token: Option<TokenTerms<'_>>,
    blocks: &mut [u8],
    lines: &mut [u8],
) -> Answer
    ensures { (written : List ℕ) × (status : ℕ)
        × ToldRuled (limits_of terms) (option_map terms_view token.entry) given.entry.keys.now
        given.entry.aad.now given.entry.input.now «lines».new result.lines written status
        × Places written status «blocks».old «blocks».new result }
{
    match begin(alloc, Some(given.keys), None) {
        Ok(beginning) => {
            let run = RunTerms {
                terms,
                aad: given.aad,
            };
            let rules = Rules {
                keys: beginning.keys.0.as_slice(),
                token,
            };
            ask_under(alloc, run, rules, given.input, blocks, lines)
        }
        Err(why) => place_none(blocks, why.status(), tell_unbegun(lines, why)),
    }
}

/// Asks, by the rules and under the key set of these bytes, about the items of the input, and
/// writes the block of each to `blocks`: `ask_ruled` of `cose_ruled`.
pub(crate) fn ask_items(
    alloc: Global,
    choice: Choice,
    given: Given<'_>,
    token: Option<TokenTerms<'_>>,
    blocks: &mut [u8],
    lines: &mut [u8],
) -> Answer
    ensures { AsksRuled choice.nesting choice.layers choice.strict
        (option_map terms_view token.entry) given.entry.keys.now given.entry.aad.now
        given.entry.input.now
        (buffers «blocks».old «lines».old) (buffers «blocks».new «lines».new) result }
{
    match choice.terms() {
        Some(terms) => ask_within(alloc, terms, given, token, blocks, lines),
        None => no_limits(),
    }
}
