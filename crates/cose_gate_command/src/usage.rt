//! What is said of wrong arguments.
ghost use Rattle.std.specs.Prelude.{◌≡◌};
ghost use Rattle.std.specs.List.{list_all};
ghost use Rattle.cose_gate_command.specs.CommandLine.{wrong_view};
ghost use Rattle.cose_gate_command.specs.KeyFiles.{indented};
ghost use Rattle.cose_gate_command.specs.Usage as spec;
ghost use Rattle.cose_gate_program.specs.Writing.{HandedOn, Wrote};

use crate::command_line::Wrong;
use crate::more::write_indented;
use crate::starting::write;
use ciborium_ll::Write;
use cose_gate_program::hand_on;

/// Wrong arguments of a program.
#[derive(Debug, Clone, Copy, PartialEq, Eq)]
pub struct Usage<'a> {
    /// The first line.
    pub line: &'a str,
    /// The name of the program.
    pub program: &'a str,
    /// What is wrong.
    pub wrong: Wrong<'a>,
}

/// Writes the usage, what is wrong with the arguments, and where all options are, and flushes the
/// writer. A fault of the writer is ignored.
pub fn say_wrong<E: Write>(usage: Usage<'_>, err: &mut E)
    ensures said { Wrote E.Write err.old err.new (spec.lines_of usage.entry) }
    ensures handed { HandedOn E.Write err.old err.new }
{
    write(usage.line, err);
    write_wrong(usage.wrong, err);
    write_indented(usage.program, " --help has all options", err);
    hand_on(err);
}

/// Writes what is wrong with arguments.
fn write_wrong<E: Write>(wrong: Wrong<'_>, err: &mut E)
    ensures { Wrote E.Write err.old err.new
        (indented (spec.wrong_text (wrong_view wrong.entry))) }
{
    match wrong {
        Wrong::NoOption(word) => {
            write_indented(visible_or("an option", word), ": no such option", err);
        }
        Wrong::NoWord(word) => {
            write_indented(visible_or("an option", word), ": no word is after it", err);
        }
        Wrong::Twice(word) => {
            write_indented(visible_or("an option", word), " is there twice", err);
        }
        Wrong::TooMany(word) => {
            write_indented(visible_or("a word", word), " is one word too many", err);
        }
        Wrong::Says(text) => write_indented(text, "", err),
    }
}

/// The word as a line has it: the other in its place if it is empty, or has characters that aren't
/// visible ASCII or blanks, which could steer a terminal, or look like another line.
pub fn visible_or<'a>(other: &'a str, word: &'a str) -> &'a str
    ensures { result.now ≡ spec.visible_or other.now word.now }
{
    if word.is_empty() {
        return other;
    }
    if is_visible(word) { word } else { other }
}

fn is_visible(text: &str) -> bool
    ensures { result ≡ list_all spec.is_visible text.now }
{
    text.as_bytes().iter().all(|byte| is_seen(*byte))
}

fn is_seen(byte: u8) -> bool
    ensures { result ≡ spec.is_visible byte }
{
    matches!(byte, b' '..=b'~')
}
