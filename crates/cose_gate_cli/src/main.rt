//! `cose-gate [--strict] [--verbose] [--quiet] [--summary] KEYS [AADHEX]`, or with `--keys KEYS
//! [--aad AADHEX] [FILE]`: reads a CBOR sequence from FILE or standard input, and writes the
//! messages whose tags are good under the keys of the file KEYS to standard output. AADHEX is the
//! external data in hex. With `--strict` only messages in canonical encoding pass; with `--verbose`
//! standard error says more, with `--quiet` nothing of what passed, with `--summary` nothing of any
//! item.
//!
//! `cose-gate --stream [--payload PAYLOAD] [--verbose] KEYS [AADHEX]`, or with `--keys KEYS
//! [--aad AADHEX] [FILE]`: checks that the input is one such message, as it comes, and puts its
//! payload into PAYLOAD if its tag is good.
#![tactic(auto)]

mod folder;
mod streaming;

use crate::streaming::{is_for_stream, start_stream};
use ciborium_ll::Io;
use cose_gate_command::{
    Content, NOT_UTF8, NotRun, ended, gate_usage, open_input, page_for, program, read_arguments,
    read_in_blocks, words_of, write_in_blocks, write_page,
};
use cose_gate_program::Blocks;
use std::process::ExitCode;
use std::{env, fs};

/// What `--version` prints.
const VERSION: &str = "cose-gate 0.8\n";

/// What `-h` and `--help` print. `scripts/run.sh` takes it from here.
const HELP: &str = "\
usage: cose-gate [--strict] [--verbose] [--quiet] [--summary] KEYS [AADHEX] < INPUT > PASSED
       cose-gate [OPTION..] --keys KEYS [--aad AADHEX] [FILE] > PASSED
       cose-gate --stream [--payload PAYLOAD] [--verbose] KEYS [AADHEX] < MESSAGE
       cose-gate --stream [OPTION..] --keys KEYS [--aad AADHEX] [FILE]
Reads a CBOR sequence, and writes the messages that pass, each in canonical encoding.
What passes: a COSE_Mac0 in its tag 17, whose MAC is HMAC with SHA-256 under its first matching key.
KEYS: a file with a COSE_KeySet. AADHEX: the external data in hex, empty if it is left out.
FILE: the input; it is standard input if it is left out. Options may be anywhere; after -- no word
is one.
With --strict a message that isn't in canonical encoding already is refused: NotShortest.
On standard error: a line for each item, and at the end how many passed and were refused.
With --verbose indented lines say by which key an item passes, why it is refused, or the run stops.
With --quiet an item that passed has no line, with --summary no item has: only the last line is.
With --stream the input is one such message, of any size: it is checked as it comes, and
nothing is written to standard output. PAYLOAD, which is a regular file or not there yet, gets
its payload once its MAC is found to be good.
Status 0: no item was refused. 1: some were. 2: wrong arguments, or AADHEX is not hex.
3: KEYS or FILE can't be read, or KEYS isn't a key set. 4: the input isn't CBOR, input or output
failed, or it is out of memory.
";

fn main(rt: HostRuntime) -> ExitCode {
    let end = start(&rt);
    let mut err = Io::new(rt.stderr());
    ExitCode::from(ended(end, gate_usage(NOT_UTF8), &mut err))
}

/// Runs the program, and returns its status.
fn start(rt: &HostRuntime) -> Result<u8, NotRun> {
    let words = words_of(rt.alloc(), env::args(rt))?;
    if let Some(page) = page_for(words.as_slice(), HELP, VERSION) {
        return write_page(page, &mut Io::new(rt.stdout()));
    }
    let words = words.as_slice();
    if is_for_stream(words) {
        return start_stream(rt, words);
    }
    match read_arguments(words) {
        Ok(asked) => run(
            rt,
            words,
            asked.file,
            Content::of_file(fs::read(rt, asked.keys))?,
        ),
        Err(_) => run(rt, words, None, Content::none("")),
    }
}

/// The run over FILE or standard input, and the other standard streams.
fn run(
    rt: &HostRuntime,
    words: &[String],
    file: Option<&str>,
    keys: Content,
) -> Result<u8, NotRun> {
    let alloc = rt.alloc();
    let input = match open_input(rt, rt.stdin(), file, &mut Io::new(rt.stderr())) {
        Ok(input) => read_in_blocks(alloc, input)?,
        Err(status) => return Ok(status),
    };
    let mut output = write_in_blocks(alloc, rt.stdout())?;
    let mut lines = write_in_blocks(alloc, rt.stderr())?;
    Ok(program(
        alloc,
        words,
        keys.bytes.as_deref(),
        keys.fault,
        &mut Blocks::new(input),
        &mut output,
        &mut lines,
    ))
}
