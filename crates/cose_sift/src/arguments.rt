//! The arguments.
ghost use Rattle.std.specs.Prelude.{◌≡◌, Ok, Err, MatchResult, map, option_copied, string_bytes};
ghost use Rattle.cose_gate_command.specs.CommandLine.{line_view, wrong_view};
ghost use Rattle.cose_sift.specs.Arguments as spec;
ghost use Rattle.cose_sift.specs.Arguments.{sift_view};

use cose_gate_command::{CommandLine, Options, Wrong, file_in, number_in};

/// What the arguments ask for.
#[derive(Debug, Clone, Copy, PartialEq, Eq)]
pub struct SiftArguments<'a> {
    /// Whether the tags around an item come off.
    pub untag: bool,
    /// An item of more bytes is left out.
    pub max: usize,
    /// The file with the input; none is standard input.
    pub file: Option<&'a str>,
}

const SIFT: Options<'static> = Options {
    alone: &["--untag"],
    named: &["--max"],
    last: &[],
};

/// What the arguments after the program's name ask for: `--untag` and `--max BYTES`, anywhere, and
/// FILE, if it is there. After `--` no word is an option.
///
/// # Errors
/// What is wrong with them.
pub fn sift_arguments(all: &[String]) -> Result<SiftArguments<'_>, Wrong<'_>>
    ensures { MatchResult result
        (λ a. spec.sift_arguments (map string_bytes all.now) ≡ Ok (sift_view a))
        (λ w. spec.sift_arguments (map string_bytes all.now) ≡ Err (wrong_view w)) }
{
    let line = CommandLine::new(SIFT, all);
    match line.check() {
        Ok(()) => sift_in(line),
        Err(wrong) => Err(wrong),
    }
}

fn sift_in<'a>(line: CommandLine<'a>) -> Result<SiftArguments<'a>, Wrong<'a>>
    ensures { MatchResult result (λ a. spec.sift_in (line_view line.entry) ≡ Ok (sift_view a))
        (λ w. spec.sift_in (line_view line.entry) ≡ Err (wrong_view w)) }
{
    let max = max_in(line.value("--max"))?;
    let file = file_in(line)?;
    Ok(SiftArguments {
        untag: line.has("--untag"),
        max,
        file,
    })
}

/// BYTES, 1 MiB without it.
fn max_in(word: Option<&str>) -> Result<usize, Wrong<'static>>
    ensures { MatchResult result (λ n. spec.max_in (option_copied word.entry) ≡ Ok n)
        (λ w. spec.max_in (option_copied word.entry) ≡ Err (wrong_view w)) }
{
    let Some(word) = word else {
        return Ok(1_048_576);
    };
    match number_in(word) {
        Some(number) => Ok(number as usize),
        None => Err(Wrong::Says("--max: not in digits, or not below 10^16")),
    }
}
