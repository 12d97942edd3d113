//! The arguments of the programs.
ghost use Rattle.std.specs.Prelude.{◌≡◌, ◌∷◌, [], None, Some, Ok, Err, MatchResult, map};
ghost use Rattle.std.specs.Prelude.{option_copied, string_bytes};
ghost use Rattle.cose_gate_command.specs.Arguments as spec;
ghost use Rattle.cose_gate_command.specs.Arguments.{arguments_view, pass_view, inputs_view};
ghost use Rattle.cose_gate_command.specs.CommandLine.{line_view, others, wrong_view, options_view};

use crate::command_line::{CommandLine, Options, Wrong};

/// The files that a run reads, and its external data.
#[derive(Debug, Clone, Copy, PartialEq, Eq)]
pub struct Inputs<'a> {
    /// The file with the keys, or with what was accepted.
    pub keys: &'a str,
    /// The external data in hex.
    pub aad: Option<&'a str>,
    /// The file with the input; none is standard input.
    pub file: Option<&'a str>,
}

/// What the arguments of `cose-gate` ask for.
#[derive(Debug, Clone, Copy, PartialEq, Eq)]
pub struct Arguments<'a> {
    /// Only messages in canonical encoding pass.
    pub strict: bool,
    /// More is said of refusals and stops.
    pub verbose: bool,
    /// Nothing is said of an item that passed.
    pub quiet: bool,
    /// Nothing is said of any item.
    pub summary: bool,
    /// The file with the key set.
    pub keys: &'a str,
    /// The external data in hex.
    pub aad: Option<&'a str>,
    /// The file with the input; none is standard input.
    pub file: Option<&'a str>,
}

/// What the arguments of `cose-pass` ask for.
#[derive(Debug, Clone, Copy, PartialEq, Eq)]
pub struct PassArguments<'a> {
    /// The file has digests of questions, in place of their records.
    pub digests: bool,
    /// Only messages in canonical encoding pass.
    pub strict: bool,
    /// The file with what was accepted.
    pub accepted: &'a str,
    /// The external data in hex.
    pub aad: Option<&'a str>,
    /// The file with the input; none is standard input.
    pub file: Option<&'a str>,
}

const GATE: Options<'static> = Options {
    alone: &["--strict", "--verbose", "--quiet", "--summary"],
    named: &["--keys", "--aad"],
    last: &[],
};

const PASS: Options<'static> = Options {
    alone: &["--digests", "--strict"],
    named: &["--accepted", "--aad"],
    last: &[],
};

/// What is said if KEYS is missing.
pub const NO_KEYS: &str = "KEYS is missing: a file with a key set, which cose-key makes";

const NO_ACCEPTED: &str = "ACCEPTED is missing: a file with the records that were accepted";

/// What the arguments of `cose-gate` after its name ask for: `--strict`, `--verbose`, `--quiet` and
/// `--summary`, anywhere, and `KEYS [AADHEX]`, or `--keys KEYS [--aad AADHEX] [FILE]`. After `--`
/// no word is an option.
///
/// # Errors
/// What is wrong with them: with the first word that is wrong, or with their number.
pub fn read_arguments(all: &[String]) -> Result<Arguments<'_>, Wrong<'_>>
    ensures { MatchResult result
        (λ a. spec.arguments (map string_bytes all.now) ≡ Ok (arguments_view a))
        (λ w. spec.arguments (map string_bytes all.now) ≡ Err (wrong_view w)) }
{
    let line = CommandLine::new(GATE, all);
    match line.check() {
        Ok(()) => gate_in(line),
        Err(wrong) => Err(wrong),
    }
}

fn gate_in<'a>(line: CommandLine<'a>) -> Result<Arguments<'a>, Wrong<'a>>
    ensures { MatchResult result
        (λ a. spec.gate_in (line_view line.entry) ≡ Ok (arguments_view a))
        (λ w. spec.gate_in (line_view line.entry) ≡ Err (wrong_view w)) }
{
    let inputs = read_inputs(line, "--keys", NO_KEYS)?;
    Ok(Arguments {
        strict: line.has("--strict"),
        verbose: line.has("--verbose"),
        quiet: line.has("--quiet"),
        summary: line.has("--summary"),
        keys: inputs.keys,
        aad: inputs.aad,
        file: inputs.file,
    })
}

/// What the arguments of `cose-pass` after its name ask for: `--digests` and `--strict`, anywhere,
/// and `ACCEPTED [AADHEX]`, or `--accepted ACCEPTED [--aad AADHEX] [FILE]`.
///
/// # Errors
/// What is wrong with them.
pub fn pass_arguments(all: &[String]) -> Result<PassArguments<'_>, Wrong<'_>>
    ensures { MatchResult result
        (λ a. spec.pass_arguments (map string_bytes all.now) ≡ Ok (pass_view a))
        (λ w. spec.pass_arguments (map string_bytes all.now) ≡ Err (wrong_view w)) }
{
    let line = CommandLine::new(PASS, all);
    match line.check() {
        Ok(()) => pass_in(line),
        Err(wrong) => Err(wrong),
    }
}

fn pass_in<'a>(line: CommandLine<'a>) -> Result<PassArguments<'a>, Wrong<'a>>
    ensures { MatchResult result
        (λ a. spec.pass_in (line_view line.entry) ≡ Ok (pass_view a))
        (λ w. spec.pass_in (line_view line.entry) ≡ Err (wrong_view w)) }
{
    let inputs = read_inputs(line, "--accepted", NO_ACCEPTED)?;
    Ok(PassArguments {
        digests: line.has("--digests"),
        strict: line.has("--strict"),
        accepted: inputs.keys,
        aad: inputs.aad,
        file: inputs.file,
    })
}

/// KEYS, the external data and FILE. If KEYS is given by this option the other word is FILE; else
/// the other words are KEYS, and AADHEX if `--aad` isn't there.
///
/// # Errors
/// What is wrong with the number of other words.
pub fn read_inputs<'a>(
    line: CommandLine<'a>,
    option: &str,
    missing: &'static str,
) -> Result<Inputs<'a>, Wrong<'a>>
    ensures { MatchResult result
        (λ s. spec.inputs option.now missing.now (line_view line.entry) ≡ Ok (inputs_view s))
        (λ w. spec.inputs option.now missing.now (line_view line.entry) ≡ Err (wrong_view w)) }
{
    let aad = line.value("--aad");
    match line.value(option) {
        Some(keys) => by_name(line, keys, aad),
        None => by_place(line, missing, aad),
    }
}

fn by_name<'a>(
    line: CommandLine<'a>,
    keys: &'a str,
    aad: Option<&'a str>,
) -> Result<Inputs<'a>, Wrong<'a>>
    ensures { MatchResult result
        (λ s. spec.by_name keys.now (option_copied aad.entry) (others (line_view line.entry))
        ≡ Ok (inputs_view s))
        (λ w. spec.by_name keys.now (option_copied aad.entry) (others (line_view line.entry))
        ≡ Err (wrong_view w)) }
{
    let file = file_in(line)?;
    Ok(Inputs { keys, aad, file })
}

/// FILE, if it is the only other word.
pub fn file_in<'a>(line: CommandLine<'a>) -> Result<Option<&'a str>, Wrong<'a>>
    ensures { MatchResult result
        (λ f. spec.file_in (others (line_view line.entry)) ≡ Ok (option_copied f))
        (λ w. spec.file_in (others (line_view line.entry)) ≡ Err (wrong_view w)) }
{
    let Some((file, line)) = line.next_other() else {
        return Ok(None);
    };
    match line.next_other() {
        Some((word, _)) => Err(Wrong::TooMany(word)),
        None => Ok(file_of(file)),
    }
}

fn file_of(file: &str) -> Option<&str>
    ensures { option_copied result ≡ spec.file_of file.now }
{
    if file == "-" { None } else { Some(file) }
}

/// KEYS, and AADHEX if `--aad` isn't there.
fn by_place<'a>(
    line: CommandLine<'a>,
    missing: &'static str,
    aad: Option<&'a str>,
) -> Result<Inputs<'a>, Wrong<'a>>
    ensures { MatchResult result
        (λ s. spec.by_place missing.now (option_copied aad.entry) (others (line_view line.entry))
        ≡ Ok (inputs_view s))
        (λ w. spec.by_place missing.now (option_copied aad.entry) (others (line_view line.entry))
        ≡ Err (wrong_view w)) }
{
    let Some((keys, line)) = line.next_other() else {
        return Err(Wrong::Says(missing));
    };
    let Some((word, line)) = line.next_other() else {
        return Ok(Inputs {
            keys,
            aad,
            file: None,
        });
    };
    if aad.is_some() {
        return Err(Wrong::TooMany(word));
    }
    match line.next_other() {
        Some((word, _)) => Err(Wrong::TooMany(word)),
        None => Ok(Inputs {
            keys,
            aad: Some(word),
            file: None,
        }),
    }
}
