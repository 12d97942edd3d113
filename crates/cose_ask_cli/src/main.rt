//! `cose-ask [--strict] [--lines] [--fields] [AADHEX]`, or with `--aad AADHEX [FILE]`: reads a CBOR
//! sequence from FILE or standard input, and writes the records of all questions that the gate asks
//! about it to standard output. AADHEX is the external data in hex. `cose-ask --keys KEYS`, with
//! `[--strict] [--aad AADHEX] [--cwt TERMS] [FILE]`: writes a block for each item, with the
//! questions that the rules allow under the keys of the file KEYS, and with `--cwt` of tokens that
//! pass by TERMS.
#![tactic(auto)]

use ciborium_ll::Io;
use cose_gate_command::{
    Content, NOT_UTF8, NotRun, Usage, Wrong, ask, ask_arguments, ended, open_input, page_for,
    read_in_blocks, words_of, write_in_blocks, write_page,
};
use cose_gate_program::Blocks;
use std::process::ExitCode;
use std::{env, fs};

/// What `--version` prints.
const VERSION: &str = "cose-ask 0.8\n";

/// What `-h` and `--help` print. `scripts/run.sh` takes it from here.
const HELP: &str = "\
usage: cose-ask [--strict] [--lines] [--fields] [AADHEX] < INPUT > QUESTIONS
       cose-ask [OPTION..] --aad AADHEX [FILE] > QUESTIONS
       cose-ask --keys KEYS [--strict] [--aad AADHEX] [--cwt TERMS] [FILE] > BLOCKS
Reads a CBOR sequence, and writes a record for each signature and MAC that has to
be checked. Check them, and give the records of the good ones to cose-pass.
AADHEX: the external data in hex, empty if it is left out. FILE: the input; it is
standard input if it is left out. Options may be anywhere; after -- no word is one.
  --lines   a line of text for each record, with these fields:
            KIND PROTECTED UNPROTECTED SIGNER_PROTECTED SIGNER_UNPROTECTED
            RECIPIENTS COVERED SIGNATURE RECORD
            KIND is Sign1, Mac0, Sign or Mac; the others are hex, - if empty.
            SIGNATURE is over the bytes COVERED. Of a line only RECORD has to
            be given to cose-pass, as the last field.
  --fields  lines that have three fields more, after KIND: ALG=-7, the number of
            the protected algorithm; KID=, the key id in hex; CRIT=unknown if a
            critical label isn't 1, 2 or 4. ALG=tstr is no number, - is for none.
  --keys    a block for each item, binary, with what to check of it by
            the rules for headers and keys: see cose-ask(1). KEYS: a file with a
            COSE_KeySet. Check the signatures under the keys that a block names,
            and give the digests of good ones to cose-pass --digests.
  --cwt     a block has nothing to check if the payload isn't a claims set that passes
            by TERMS:
            --at SECONDS [--leeway SECONDS] [--iss ISS] [--aud AUD | --any-aud]
            [--need CLAIM..]
            SECONDS are since 1970. --need comes last: each word after it is a claim
            that has to be there. CLAIM is iss, sub, aud, exp, nbf, iat or cti,
            or a claim whose label is this text.
  --strict  refuse messages that are not in canonical encoding
Standard error has a line for each item, as if every signature were good.
Status 0: no item was refused. 1: some were. 2: wrong arguments, or AADHEX is not
hex. 3: KEYS or FILE can't be read, or KEYS is no key set. 4: the input is not CBOR,
input or output failed, or out of memory.
";

fn main(rt: HostRuntime) -> ExitCode {
    match words_of(rt.alloc(), env::args(&rt)) {
        Ok(words) => finish(&rt, start(&rt, words.as_slice()), Some(words.as_slice())),
        Err(why) => finish(&rt, Err(why), None),
    }
}

/// Says why a run with these arguments, if they can be read, didn't come to its end.
fn finish(rt: &HostRuntime, end: Result<u8, NotRun>, words: Option<&[String]>) -> ExitCode {
    let usage = Usage {
        line: "usage: cose-ask [AADHEX]\n",
        program: "cose-ask",
        wrong: wrong_of(words),
    };
    ExitCode::from(ended(end, usage, &mut Io::new(rt.stderr())))
}

/// What is wrong with these arguments, or that they can't be read.
fn wrong_of(words: Option<&[String]>) -> Wrong<'_> {
    let Some(words) = words else {
        return NOT_UTF8;
    };
    match ask_arguments(words) {
        Err(wrong) => wrong,
        Ok(_) => NOT_UTF8,
    }
}

/// Runs the program, and returns its status.
fn start(rt: &HostRuntime, words: &[String]) -> Result<u8, NotRun> {
    if let Some(page) = page_for(words, HELP, VERSION) {
        return write_page(page, &mut Io::new(rt.stdout()));
    }
    let Ok(asked) = ask_arguments(words) else {
        return Err(NotRun::Usage);
    };
    let keys = match asked.keys {
        Some(keys) => Content::of_file(fs::read(rt, keys))?,
        None => Content::none(""),
    };
    run(rt, words, asked.file, keys)
}

/// Runs it over the file KEYS, FILE or standard input, and the other standard streams.
fn run(
    rt: &HostRuntime,
    words: &[String],
    file: Option<&str>,
    keys: Content,
) -> Result<u8, NotRun> {
    let alloc = rt.alloc();
    let input = match open_input(rt, rt.stdin(), file, &mut Io::new(rt.stderr())) {
        Ok(input) => read_in_blocks(alloc, input)?,
        Err(status) => return Ok(status),
    };
    let mut output = write_in_blocks(alloc, rt.stdout())?;
    let mut lines = write_in_blocks(alloc, rt.stderr())?;
    ask(
        alloc,
        words,
        keys.bytes.as_deref(),
        keys.fault,
        &mut Blocks::new(input),
        &mut output,
        &mut lines,
    )
}
