//! The arguments.
ghost use Rattle.std.specs.Prelude.{◌≡◌, Ok, Err, MatchResult, map, string_bytes};
ghost use Rattle.cose_gate_command.specs.CommandLine.{line_view, wrong_view};
ghost use Rattle.cose_stream.specs.Arguments as spec;
ghost use Rattle.cose_stream.specs.Arguments.{stream_view};

use cose_gate_command::{CommandLine, NO_KEYS, Options, Wrong, read_inputs};

/// What the arguments ask for.
#[derive(Debug, Clone, Copy, PartialEq, Eq)]
pub struct StreamArguments<'a> {
    /// The file that the payload goes to; none if it is only checked.
    pub payload: Option<&'a str>,
    /// More is said of a refusal and of a stop.
    pub verbose: bool,
    /// The name of the file with the key set.
    pub keys: &'a str,
    /// The external data in hex.
    pub aad: Option<&'a str>,
    /// The file with the message; none is standard input.
    pub file: Option<&'a str>,
}

const STREAM: Options<'static> = Options {
    alone: &["--stream", "--verbose"],
    named: &["--payload", "--keys", "--aad"],
    last: &[],
};

/// What the arguments after the program's name ask for: `--stream`, and `--payload PAYLOAD` and
/// `--verbose` if they are there, anywhere, and `KEYS [AADHEX]`, or `--keys KEYS [--aad AADHEX]
/// [FILE]`. After `--` no word is an option.
///
/// # Errors
/// What is wrong with them.
pub fn stream_arguments(all: &[String]) -> Result<StreamArguments<'_>, Wrong<'_>>
    ensures { MatchResult result
        (λ a. spec.stream_arguments (map string_bytes all.now) ≡ Ok (stream_view a))
        (λ w. spec.stream_arguments (map string_bytes all.now) ≡ Err (wrong_view w)) }
{
    let line = CommandLine::new(STREAM, all);
    match line.check() {
        Ok(()) => stream_in(line),
        Err(wrong) => Err(wrong),
    }
}

fn stream_in<'a>(line: CommandLine<'a>) -> Result<StreamArguments<'a>, Wrong<'a>>
    ensures { MatchResult result (λ a. spec.stream_in (line_view line.entry) ≡ Ok (stream_view a))
        (λ w. spec.stream_in (line_view line.entry) ≡ Err (wrong_view w)) }
{
    if !line.has("--stream") {
        return Err(Wrong::Says("--payload is for --stream"));
    }
    let inputs = read_inputs(line, "--keys", NO_KEYS)?;
    Ok(StreamArguments {
        payload: line.value("--payload"),
        verbose: line.has("--verbose"),
        keys: inputs.keys,
        aad: inputs.aad,
        file: inputs.file,
    })
}
