//! The input of a run: standard input, or FILE.
ghost use Rattle.std.specs.Prelude.{◌≡◌, ◌++◌, MatchOption, MatchResult, Ok, codes};
ghost use Rattle.std.specs.Prelude.{option_copied};
ghost use Rattle.cose_gate_command.specs.Input.{IsFile, TellsNoInput, input_remaining, is_memory};
ghost use Rattle.cose_gate_command.specs.Input.{no_input_lines, no_input_status};
ghost use Rattle.cose_gate_command.specs.KeyFiles.{indented};
ghost use Rattle.cose_gate_command.specs.Starting as spec;
ghost use Rattle.cose_gate_command.specs.declared.input.Input.TheVariants.{Standard};
ghost use Rattle.cose_gate_program.specs.Writing.{Wrote};

use crate::more::write_indented;
use crate::starting::{file_fault, write};
use crate::usage::visible_or;
use ciborium_ll::Write;
use std::fs::{File, Files};
use std::io::{self, ErrorKind};

/// Standard input, or a file.
#[derive(Drop)]
pub enum Input<S, F> {
    /// Standard input.
    Standard(S),
    /// A file.
    File(F),
}

impl<S: io::Read, F: io::Read> io::Read for Input<S, F> {
    ghost remaining = { input_remaining S.Read.remaining F.Read.remaining };

    fn read(&mut self, buf: &mut [u8]) -> io::Result<usize> {
        match self {
            Input::Standard(input) => input.read(buf),
            Input::File(input) => input.read(buf),
        }
    }
}

/// FILE, or standard input if no FILE is named.
///
/// # Errors
/// FILE can't be opened: this is told on `err`, and the status is 3, or 4 out of memory.
pub fn open_input<R: Files, S: Drop, E: Write>(
    files: &R,
    standard: S,
    name: Option<&str>,
    err: &mut E,
) -> Result<Input<S, R::File>, u8>
    ensures none { MatchOption (option_copied name.entry)
        ((result ≡ Ok (Standard standard)) × (err.new ≡ err.old))
        (λ file. MatchResult result (λ input. IsFile input × (err.new ≡ err.old))
        (λ status. TellsNoInput E.Write file status err.old err.new)) }
{
    let Some(name) = name else {
        return Ok(Input::Standard(standard));
    };
    match File::open(files, name) {
        Ok(file) => Ok(Input::File(file)),
        Err(error) => Err(say_no_input(name, error.kind(), err)),
    }
}

/// Says why FILE can't be opened, and returns the status.
fn say_no_input<E: Write>(name: &str, kind: ErrorKind, err: &mut E) -> u8
    ensures status { result ≡ no_input_status kind }
    ensures said { Wrote E.Write err.old err.new (no_input_lines name.now kind) }
{
    if is_memory(kind) {
        write("stopped: memory\n", err);
        return 4;
    }
    write("input: cannot be read\n", err);
    write_fault(visible_or("FILE", name), file_fault(kind), err);
    3
}

fn is_memory(kind: ErrorKind) -> bool
    ensures { result ≡ is_memory kind }
{
    matches!(kind, ErrorKind::OutOfMemory)
}

/// Writes the name of a file and its fault.
fn write_fault<E: Write>(name: &str, fault: &str, err: &mut E)
    ensures { Wrote E.Write err.old err.new (indented (name.now ++ (codes ": " ++ fault.now))) }
{
    write("  ", err);
    write(name, err);
    write_tail(fault, err);
}

fn write_tail<E: Write>(fault: &str, err: &mut E)
    ensures { Wrote E.Write err.old err.new ((codes ": " ++ fault.now) ++ codes "\n") }
{
    write(": ", err);
    write(fault, err);
    write("\n", err);
}
