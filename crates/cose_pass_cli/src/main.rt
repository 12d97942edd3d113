//! `cose-pass [--digests] [--strict] ACCEPTED [AADHEX]`, or with `--accepted ACCEPTED
//! [--aad AADHEX] [FILE]`: reads a CBOR sequence from FILE or standard input, and writes the
//! messages all of whose signatures were accepted to standard output. ACCEPTED is a file with the accepted records, or
//! digests, AADHEX the external data in hex.
#![tactic(auto)]

use ciborium_ll::Io;
use cose_gate_command::{
    Content, NOT_UTF8, NotRun, Usage, Wrong, ended, open_input, page_for, pass, pass_arguments,
    read_in_blocks, words_of, write_in_blocks, write_page,
};
use cose_gate_program::Blocks;
use std::process::ExitCode;
use std::{env, fs};

/// What `--version` prints.
const VERSION: &str = "cose-pass 0.8\n";

/// What `-h` and `--help` print. `scripts/run.sh` takes it from here.
const HELP: &str = "\
usage: cose-pass [--digests] [--strict] ACCEPTED [AADHEX] < INPUT > PASSED
       cose-pass [OPTION..] --accepted ACCEPTED [--aad AADHEX] [FILE] > PASSED
Reads a CBOR sequence, and writes the messages that pass, in canonical encoding.
A message passes if each signature or MAC of it has its record in ACCEPTED.
ACCEPTED: a file with records of cose-ask, run on the same input with the same
AADHEX, in any order. If its eighth byte is 0 they are binary, one after another.
Else it is text: the last field of each line is a record in hex, as cose-ask
--lines writes it; other fields and blank lines don't count. Each line accepts its
record, so a check writes no line for a bad signature. (The eighth byte of a
record is the highest byte of its length, and always 0.) An empty file accepts
nothing.
AADHEX: the external data in hex, empty if it is left out. FILE: the input; it is
standard input if it is left out. Options may be anywhere; after -- no word is one.
  --digests  ACCEPTED has digests of questions in place of records, 32 bytes each,
             binary: see cose-pass(1)
  --strict   refuse messages that are not in canonical encoding
Standard error has a line for each item, and at the end how many passed and were
refused.
Status 0: no item was refused. 1: some were. 2: wrong arguments, or AADHEX is not
hex. 3: ACCEPTED or FILE can't be read, or ACCEPTED has no records or digests. 4: the
input is not CBOR, input or output failed, or out of memory.
";

fn main(rt: HostRuntime) -> ExitCode {
    match words_of(rt.alloc(), env::args(&rt)) {
        Ok(words) => finish(&rt, start(&rt, words.as_slice()), Some(words.as_slice())),
        Err(why) => finish(&rt, Err(why), None),
    }
}

/// Says why a run with these arguments, if they can be read, didn't come to its end.
fn finish(rt: &HostRuntime, end: Result<u8, NotRun>, words: Option<&[String]>) -> ExitCode {
    let usage = Usage {
        line: "usage: cose-pass ACCEPTED [AADHEX]\n",
        program: "cose-pass",
        wrong: wrong_of(words),
    };
    ExitCode::from(ended(end, usage, &mut Io::new(rt.stderr())))
}

/// What is wrong with these arguments, or that they can't be read.
fn wrong_of(words: Option<&[String]>) -> Wrong<'_> {
    let Some(words) = words else {
        return NOT_UTF8;
    };
    match pass_arguments(words) {
        Err(wrong) => wrong,
        Ok(_) => NOT_UTF8,
    }
}

/// Runs the program, and returns its status.
fn start(rt: &HostRuntime, words: &[String]) -> Result<u8, NotRun> {
    if let Some(page) = page_for(words, HELP, VERSION) {
        return write_page(page, &mut Io::new(rt.stdout()));
    }
    let Ok(asked) = pass_arguments(words) else {
        return Err(NotRun::Usage);
    };
    let accepted = Content::of_file(fs::read(rt, asked.accepted))?;
    run(rt, words, asked.file, accepted)
}

/// Runs it over the file ACCEPTED, FILE or standard input, and the other standard streams.
fn run(
    rt: &HostRuntime,
    words: &[String],
    file: Option<&str>,
    accepted: Content,
) -> Result<u8, NotRun> {
    let alloc = rt.alloc();
    let input = match open_input(rt, rt.stdin(), file, &mut Io::new(rt.stderr())) {
        Ok(input) => read_in_blocks(alloc, input)?,
        Err(status) => return Ok(status),
    };
    let mut output = write_in_blocks(alloc, rt.stdout())?;
    let mut lines = write_in_blocks(alloc, rt.stderr())?;
    pass(
        alloc,
        words,
        accepted.bytes,
        &mut Blocks::new(input),
        &mut output,
        &mut lines,
    )
}
