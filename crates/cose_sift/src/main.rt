//! `cose-sift [--untag] [--max BYTES] [FILE]`: reads a CBOR sequence from FILE or standard input,
//! and writes the items that the gate can read to standard output, byte for byte, so that one that
//! it can't read doesn't stop it.
#![tactic(auto)]

mod arguments;
mod items;
mod laws;
mod lines;
mod reading;
mod sifting;
mod taking;
mod untagging;

use crate::arguments::{SiftArguments, sift_arguments};
use crate::sifting::{Options, sift_told};
use ciborium_ll::{Decoder, Io};
use cose_gate_command::{
    NOT_UTF8, NotRun, Usage, ended, open_input, page_for, read_in_blocks, words_of,
    write_in_blocks, write_page,
};
use cose_gate_program::Blocks;
use std::env;
use std::process::ExitCode;

/// What `--version` prints.
const VERSION: &str = "cose-sift 0.8\n";

/// What `-h` and `--help` print. `scripts/run.sh` takes it from here.
const HELP: &str = "\
usage: cose-sift [--untag] [--max BYTES] [FILE] < INPUT > SIFTED
Reads a CBOR sequence, and writes the items that cose-gate can read, byte for byte.
Any other item is left out, and so is one of more than BYTES bytes (1048576 if it is
left out), of which nothing is held.
--untag takes the tags 61 and 55799 around an item off, and writes what is in them.
FILE: the input; it is standard input if it is left out. Options may be anywhere.
On standard error: a line for each item that is left out, and at the end how many were
written and left out. What is written is out before the program waits for input.
Status 0: no item was left out. 1: some were. 2: wrong arguments. 3: FILE can't be read.
4: some bytes begin no item or end inside one, input or output failed, or it is out of
memory.
";

fn main(rt: HostRuntime) -> ExitCode {
    match words_of(rt.alloc(), env::args(&rt)) {
        Ok(words) => finish(&rt, start(&rt, words.as_slice()), Some(words.as_slice())),
        Err(why) => finish(&rt, Err(why), None),
    }
}

/// Says why a run with these arguments, if they can be read, didn't come to its end.
fn finish(rt: &HostRuntime, end: Result<u8, NotRun>, words: Option<&[String]>) -> ExitCode {
    let usage = Usage {
        line: "usage: cose-sift [--untag] [--max BYTES] [FILE]\n",
        program: "cose-sift",
        wrong: match words.map(sift_arguments) {
            Some(Err(wrong)) => wrong,
            _ => NOT_UTF8,
        },
    };
    ExitCode::from(ended(end, usage, &mut Io::new(rt.stderr())))
}

/// Runs the program, and returns its status.
fn start(rt: &HostRuntime, words: &[String]) -> Result<u8, NotRun> {
    if let Some(page) = page_for(words, HELP, VERSION) {
        return write_page(page, &mut Io::new(rt.stdout()));
    }
    match sift_arguments(words) {
        Ok(asked) => run(rt, asked),
        Err(_) => Err(NotRun::Usage),
    }
}

/// The run over FILE or standard input, and the other standard streams.
fn run(rt: &HostRuntime, asked: SiftArguments<'_>) -> Result<u8, NotRun> {
    let alloc = rt.alloc();
    let input = match open_input(rt, rt.stdin(), asked.file, &mut Io::new(rt.stderr())) {
        Ok(input) => read_in_blocks(alloc, input)?,
        Err(status) => return Ok(status),
    };
    let options = Options {
        untag: asked.untag,
        max: asked.max,
    };
    let mut out = write_in_blocks(alloc, rt.stdout())?;
    let mut lines = write_in_blocks(alloc, rt.stderr())?;
    let mut decoder = Decoder::from(Blocks::new(input));
    Ok(sift_told(alloc, options, &mut decoder, &mut out, &mut lines))
}
