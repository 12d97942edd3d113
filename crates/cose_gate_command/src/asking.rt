//! The run of `cose-ask`.
ghost use Rattle.std.specs.Prelude.{◌≡◌, ◌<◌, [], IfOk, MatchResult, OnOk, Ok, false, is_ok};
ghost use Rattle.std.specs.Prelude.{map, option_copied, option_map, string_bytes};
ghost use Rattle.std.specs.Result.{result_ok};
ghost use Rattle.coset_keys.specs.View.{key_set_view};
ghost use Rattle.cose_gate_command.specs.Arguments as spec;
ghost use Rattle.cose_gate_command.specs.Asking.{AskEnds, RanAsks, AsksByRules, RanThrough};
ghost use Rattle.cose_gate_command.specs.Asking.{or_status, reading, with_failures};
ghost use Rattle.cose_gate_command.specs.Ends.{bounds_by};
ghost use Rattle.cose_gate_command.specs.TokenArguments.{needed_by, token_view};
ghost use Rattle.cose_gate_command.specs.Waiting.{last_line};
ghost use Rattle.cose_gate_core.specs.Terms.{limits_of};
ghost use Rattle.cose_gate_program.specs.Beginning.{aad_of, BeginsWith, BeginsNot};
ghost use Rattle.cose_gate_program.specs.Telling.{writes};
ghost use Rattle.cose_gate_program.specs.Writing.{Wrote, HandedOn};
ghost use Rattle.cose_rules.specs.TokenView.{terms_view};
ghost use Rattle.coset_labels.specs.View.{label_view};
ghost use Rattle.cose_ruled.specs.Running.{RanAsking};

use crate::arguments::Arguments;
use crate::ending::{Ending, end};
use crate::key_file::KeyFile;
use crate::not_run::NotRun;
use crate::options::{AskArguments, Form, RunTerms, ask_arguments, read_aad, run_terms};
use crate::question_writer::{Begun, QuestionWriter};
use crate::tokens::{needed_claims, token_terms};
use crate::verbose::end_unbegun;
use ciborium_ll::log::Log;
use ciborium_ll::{Read, Write};
use cose_gate_program::{Beginning, CoseKeySet, NotBegun, Notice, begin, run_told};
use cose_gate_records::Nowhere;
use cose_ruled::{Rules, TokenTerms, ask_ruled};
use coset_labels::Label;
use std::alloc::{AllocError, Global};

/// Runs the gate as these arguments ask, with a judge that says yes to each question, and writes
/// its record to `out` and hands it on before the next one is asked. The lines go to `err`. The
/// status is that of the run.
///
/// With `--keys` it asks by the rules under the keys of the file KEYS, and writes a block for each
/// item (`ask_ruled`), with `--cwt` of items that have to be tokens. `keys` is what the file holds,
/// or `fault` says why it can't be read. If KEYS can't be used, lines and status are those of
/// `program`.
///
/// # Errors
/// `Usage`, and without `--keys` `NotHex` and `Memory`, before anything is read. `Output` if a
/// record can't be written, and `Memory` if it was out of memory for one: those before it are
/// written, no later one is asked for, and the lines have no last one.
pub fn ask<'a, R: Read, W: Write, E: Write>(
    alloc: Global,
    words: &'a [String],
    keys: Option<&'a [u8]>,
    fault: &'a str,
    input: &mut R,
    out: &mut W,
    err: &mut E,
) -> Result<u8, NotRun>
    ensures ran { AskEnds W.Write E.Write
        (result_ok (spec.ask_arguments (map string_bytes words.now)))
        (option_copied keys.entry) fault.now
        (reading R.Read input.old) (reading R.Read input.new)
        out.old out.new err.old err.new result }
    ensures kept { R.handle input.new ≡ R.handle input.old }
    ensures lent { W.handle out.new ≡ W.handle out.old }
    ensures handed { W.held out.old ≡ [] → IfOk result (λ status.
        RanThrough (result_ok (spec.ask_arguments (map string_bytes words.now))) status
        → W.held out.new ≡ []) }
    ensures lines { IfOk result (λ status.
        RanThrough (result_ok (spec.ask_arguments (map string_bytes words.now))) status
        → HandedOn E.Write err.old err.new) }
{
    let arguments = match ask_arguments(words) {
        Ok(arguments) => arguments,
        Err(_) => return Err(NotRun::Usage),
    };
    if let Some(name) = arguments.keys {
        let file = KeyFile {
            name,
            bytes: keys,
            fault,
        };
        return Ok(ask_keys(alloc, arguments, file, input, out, err));
    }
    let aad = read_aad(alloc, arguments.aad)?;
    let run = run_terms(arguments.strict, aad.as_slice());
    ask_by(alloc, run, arguments.form(), input, out, err)
}

/// Asks by the rules, under the keys of this file.
fn ask_keys<'a, R: Read, W: Write, E: Write>(
    alloc: Global,
    asked: AskArguments<'a>,
    file: KeyFile<'a>,
    input: &mut R,
    out: &mut W,
    err: &mut E,
) -> u8
    ensures ran { AsksByRules W.Write E.Write (bounds_by asked.entry.strict)
        (option_map token_view asked.entry.token)
        (option_copied file.entry.bytes) file.entry.fault.now
        (aad_of (option_copied asked.entry.aad))
        (reading R.Read input.old) (reading R.Read input.new)
        out.old out.new err.old err.new result }
    ensures kept { R.handle input.new ≡ R.handle input.old }
    ensures lent { W.handle out.new ≡ W.handle out.old }
    ensures handed { result < 2 → W.held out.new ≡ [] }
    ensures lines { result < 2 → HandedOn E.Write err.old err.new }
{
    match begin_rules(alloc, file.bytes, asked) {
        Ok((beginning, needed)) => {
            let run = run_terms(asked.strict, beginning.aad.as_slice());
            let token = token_terms(asked.token, needed.as_slice());
            ask_blocks(alloc, run, &beginning.keys, token, input, out, err)
        }
        Err(why) => {
            let plain = Arguments {
                strict: asked.strict,
                verbose: false,
                quiet: false,
                summary: false,
                keys: file.name,
                aad: asked.aad,
                file: None,
            };
            end_unbegun(alloc, plain, why, file, err)
        }
    }
}

/// What the run begins with, and the claims that tokens need.
fn begin_rules(
    alloc: Global,
    keys: Option<&[u8]>,
    asked: AskArguments<'_>,
) -> Result<(Beginning, Vec<Label>), NotBegun>
    ensures begun { MatchResult result (λ begun. BeginsWith (option_copied keys.entry)
        (aad_of (option_copied asked.entry.aad)) (Ok begun.0))
        (λ why. BeginsNot (option_copied keys.entry) (aad_of (option_copied asked.entry.aad)) why) }
    ensures needed { IfOk result (λ begun.
        map label_view begun.1.items ≡ needed_by asked.entry.token) }
{
    match begin(alloc, keys, asked.aad) {
        Ok(beginning) => match needed_claims(alloc, asked.token) {
            Ok(needed) => Ok((beginning, needed)),
            Err(AllocError) => Err(NotBegun::Memory),
        },
        Err(why) => Err(why),
    }
}

/// Asks by the rules and these terms under these keys, and writes the blocks and the lines.
fn ask_blocks<R: Read, W: Write, E: Write>(
    alloc: Global,
    run: RunTerms<'_>,
    keys: &CoseKeySet,
    token: Option<TokenTerms<'_>>,
    input: &mut R,
    out: &mut W,
    err: &mut E,
) -> u8
    ensures ran { RanAsking W.Write (limits_of run.entry.terms)
        (option_map terms_view token.entry) (key_set_view keys.now) run.entry.aad.now
        (with_failures W.Write out.old (reading R.Read input.old))
        (with_failures W.Write out.new (reading R.Read input.new)) out.old out.new result
        (writes E.Write err.old err.new) }
    ensures kept { R.handle input.new ≡ R.handle input.old }
    ensures lent { W.handle out.new ≡ W.handle out.old }
    ensures handed { result < 2 → W.held out.new ≡ [] }
    ensures lines { HandedOn E.Write err.old err.new }
{
    let mut last = None;
    let mut said = Log::new();
    let mut ending = Ending::new(err, &mut last, &mut said);
    let rules = Rules {
        keys: keys.0.as_slice(),
        token,
    };
    let status = ask_ruled(alloc, run.terms, rules, run.aad, input, out, &mut ending);
    end(true, &last, err);
    status
}

/// Asks by these terms, and writes the questions in this form.
fn ask_by<R: Read, W: Write, E: Write>(
    alloc: Global,
    run: RunTerms<'_>,
    form: Form,
    input: &mut R,
    out: &mut W,
    err: &mut E,
) -> Result<u8, NotRun>
    ensures ran { RanAsks W.Write E.Write (limits_of run.entry.terms) form run.entry.aad.now
        (reading R.Read input.old) (reading R.Read input.new)
        out.old out.new err.old err.new result }
    ensures kept { R.handle input.new ≡ R.handle input.old }
    ensures lent { W.handle out.new ≡ W.handle out.old }
    ensures handed { W.held out.old ≡ [] → OnOk result (W.held out.new ≡ []) }
    ensures lines { OnOk result (HandedOn E.Write err.old err.new) }
{
    let mut begun = Begun::new(alloc);
    let mut told = Log::new();
    let mut writer = QuestionWriter::new(alloc, form, &mut begun, out, &mut told);
    let mut last = None;
    let mut said = Log::new();
    let mut ending = Ending::new(err, &mut last, &mut said);
    let status = run_told(
        alloc,
        run.terms,
        run.aad,
        input,
        &mut Nowhere,
        &mut ending,
        &mut writer,
    );
    finish(status, writer.written, &last, err)
}

/// Writes the last line of a run, if its output was written, and returns its status then.
fn finish<E: Write>(
    status: u8,
    written: Result<(), NotRun>,
    last: &Option<Notice>,
    err: &mut E,
) -> Result<u8, NotRun>
    ensures status { result ≡ or_status status written }
    ensures lines { Wrote E.Write err.old err.new (last_line (is_ok result) last.now) }
    ensures handed { HandedOn E.Write err.old err.new }
{
    end(written.is_ok(), last, err);
    match written {
        Ok(()) => Ok(status),
        Err(why) => Err(why),
    }
}
