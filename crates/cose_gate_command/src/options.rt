//! The arguments of `cose-ask`, and what a run goes by.
ghost use Rattle.std.specs.Prelude.{◌≡◌, None, Some, Ok, Err, map, option_copied};
ghost use Rattle.std.specs.Prelude.{string_bytes, MatchResult};
ghost use Rattle.cose_gate_core.specs.Terms.{limits_of};
ghost use Rattle.cose_gate_program.specs.Beginning.{aad_of};
ghost use Rattle.cose_gate_command.specs.Arguments as spec;
ghost use Rattle.cose_gate_command.specs.Arguments.{ask_view};
ghost use Rattle.cose_gate_command.specs.Asking.{IsNoHexAad};
ghost use Rattle.cose_gate_command.specs.CommandLine.{line_view, others, wrong_view};
ghost use Rattle.cose_gate_command.specs.Ends.{bounds_by};
ghost use Rattle.cose_gate_command.specs.Lines.{form_of};

use crate::arguments::file_in;
use crate::command_line::{CommandLine, Options, Wrong};
use crate::not_run::NotRun;
use crate::tokens::{TokenArguments, has_terms, token_in};
use cose_gate_program::{Limits, Terms};
use hex::FromHexError;
use std::alloc::Global;

/// The arguments of `cose-ask`.
#[derive(Clone, Copy)]
pub struct AskArguments<'a> {
    /// The file with the key set, if it asks by the rules.
    pub keys: Option<&'a str>,
    /// Which tokens pass, if items have to be tokens.
    pub token: Option<TokenArguments<'a>>,
    /// Only messages in canonical encoding pass.
    pub strict: bool,
    /// The questions are written as lines of text.
    pub lines: bool,
    /// The lines say what the headers say of the key, too.
    pub fields: bool,
    /// The external data in hex.
    pub aad: Option<&'a str>,
    /// The file with the input; none is standard input.
    pub file: Option<&'a str>,
}

/// What is written of a question.
#[derive(Debug, Clone, Copy, PartialEq, Eq)]
pub enum Form {
    /// Its record.
    Records,
    /// A line of text.
    Lines,
    /// A line of text that says what the headers say of the key, too.
    Fields,
}

impl<'a> AskArguments<'a> {
    /// What is written of a question: with `--fields` it is a line, too.
    pub(crate) fn form(&self) -> Form
        ensures { result ≡ form_of self.now.lines self.now.fields }
    {
        if self.fields {
            Form::Fields
        } else if self.lines {
            Form::Lines
        } else {
            Form::Records
        }
    }
}

const ASK: Options<'static> = Options {
    alone: &["--strict", "--lines", "--fields", "--cwt", "--any-aud"],
    named: &["--keys", "--aad", "--at", "--leeway", "--iss", "--aud"],
    last: &["--need"],
};

/// What the arguments of `cose-ask` after its name ask for: `--strict`, `--lines` and `--fields`,
/// anywhere, and `[AADHEX]` or `--aad AADHEX [FILE]`; or `--keys KEYS`, `--strict`, `--aad AADHEX`
/// and, with `--cwt`, what is asked of tokens, anywhere, and `[FILE]`.
///
/// # Errors
/// What is wrong with them.
pub fn ask_arguments(all: &[String]) -> Result<AskArguments<'_>, Wrong<'_>>
    ensures { MatchResult result
        (λ a. spec.ask_arguments (map string_bytes all.now) ≡ Ok (ask_view a))
        (λ w. spec.ask_arguments (map string_bytes all.now) ≡ Err (wrong_view w)) }
{
    let line = CommandLine::new(ASK, all);
    match line.check() {
        Ok(()) => asked_in(line),
        Err(wrong) => Err(wrong),
    }
}

fn asked_in<'a>(line: CommandLine<'a>) -> Result<AskArguments<'a>, Wrong<'a>>
    ensures { MatchResult result (λ a. spec.asked_in (line_view line.entry) ≡ Ok (ask_view a))
        (λ w. spec.asked_in (line_view line.entry) ≡ Err (wrong_view w)) }
{
    match line.value("--keys") {
        Some(keys) => blocks_in(keys, line),
        None => questions_in(line),
    }
}

/// What is asked without keys.
fn questions_in<'a>(line: CommandLine<'a>) -> Result<AskArguments<'a>, Wrong<'a>>
    ensures { MatchResult result (λ a. spec.questions_in (line_view line.entry) ≡ Ok (ask_view a))
        (λ w. spec.questions_in (line_view line.entry) ≡ Err (wrong_view w)) }
{
    if line.has("--cwt") || has_terms(line) {
        return Err(Wrong::Says("--keys KEYS is missing: what is asked of tokens is for it"));
    }
    let (aad, file) = question_inputs(line, line.value("--aad"))?;
    Ok(AskArguments {
        keys: None,
        token: None,
        strict: line.has("--strict"),
        lines: line.has("--lines"),
        fields: line.has("--fields"),
        aad,
        file,
    })
}

/// The external data, and FILE if that is given by name.
fn question_inputs<'a>(
    line: CommandLine<'a>,
    aad: Option<&'a str>,
) -> Result<(Option<&'a str>, Option<&'a str>), Wrong<'a>>
    ensures { MatchResult result
        (λ s. spec.question_inputs (option_copied aad.entry) (others (line_view line.entry))
        ≡ Ok (option_copied s.0, option_copied s.1))
        (λ w. spec.question_inputs (option_copied aad.entry) (others (line_view line.entry))
        ≡ Err (wrong_view w)) }
{
    match aad {
        Some(_) => Ok((aad, file_in(line)?)),
        None => Ok((aad_in(line)?, None)),
    }
}

/// AADHEX, if it is the only other word.
fn aad_in<'a>(line: CommandLine<'a>) -> Result<Option<&'a str>, Wrong<'a>>
    ensures { MatchResult result
        (λ a. spec.aad_in (others (line_view line.entry)) ≡ Ok (option_copied a))
        (λ w. spec.aad_in (others (line_view line.entry)) ≡ Err (wrong_view w)) }
{
    let Some((aad, line)) = line.next_other() else {
        return Ok(None);
    };
    match line.next_other() {
        Some((word, _)) => Err(Wrong::TooMany(word)),
        None => Ok(Some(aad)),
    }
}

/// What is asked by the rules.
fn blocks_in<'a>(keys: &'a str, line: CommandLine<'a>) -> Result<AskArguments<'a>, Wrong<'a>>
    ensures { MatchResult result
        (λ a. spec.blocks_in keys.now (line_view line.entry) ≡ Ok (ask_view a))
        (λ w. spec.blocks_in keys.now (line_view line.entry) ≡ Err (wrong_view w)) }
{
    if line.has("--lines") || line.has("--fields") {
        return Err(Wrong::Says("--lines and --fields aren't for --keys"));
    }
    let token = token_in(line)?;
    let file = file_in(line)?;
    Ok(AskArguments {
        keys: Some(keys),
        token,
        strict: line.has("--strict"),
        lines: false,
        fields: false,
        aad: line.value("--aad"),
        file,
    })
}

/// The external data that AADHEX encodes; none without it.
///
/// # Errors
/// `NotHex` if it is not hex, and `Memory`.
pub(crate) fn read_aad(alloc: Global, aad: Option<&str>) -> Result<Vec<u8>, NotRun>
    ensures { MatchResult result (λ d. aad_of (option_copied aad.entry) ≡ Some d.items)
        (λ why. IsNoHexAad (option_copied aad.entry) why) }
{
    let Some(text) = aad else {
        return Ok(Vec::new(alloc));
    };
    match hex::decode(alloc, text) {
        Ok(bytes) => Ok(bytes),
        Err(FromHexError::OutOfMemory) => Err(NotRun::Memory),
        Err(_) => Err(NotRun::NotHex),
    }
}

/// What a run goes by.
#[derive(Clone, Copy)]
pub(crate) struct RunTerms<'a> {
    /// The limits, and whether the gate is strict.
    pub(crate) terms: Terms,
    /// The external data.
    pub(crate) aad: &'a [u8],
}

/// The limits that no arguments choose, whether the gate is strict, and this external data.
pub(crate) fn run_terms(strict: bool, aad: &[u8]) -> RunTerms<'_>
    ensures terms { limits_of result.terms ≡ bounds_by strict }
    ensures aad { result.aad.now ≡ aad.now }
{
    let terms = Terms {
        limits: Limits::default(),
        strict,
    };
    RunTerms { terms, aad }
}
