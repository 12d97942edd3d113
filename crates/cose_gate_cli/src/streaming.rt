//! `cose-gate --stream`: one message, and the file that its payload goes to.
use crate::folder::HostFolder;
use ciborium_ll::{Io, Read};
use cose_gate::Nowhere;
use cose_gate_command::{
    Content, KeyFile, NotRun, Note, open_input, read_in_blocks, write_in_blocks,
};
use cose_stream::{
    EndTeller, StreamArguments, StreamEnd, StreamTerms, end_status, end_wrong, stream,
    stream_arguments, stream_into, tell_end,
};
use std::cell::RefCell;
use std::fs;

/// Whether `--stream` or `--payload` is among the words before `--`.
pub fn is_for_stream(words: &[String]) -> bool {
    for word in words {
        match word.as_str() {
            "--stream" | "--payload" => return true,
            "--" => return false,
            _ => {}
        }
    }
    false
}

/// Checks the message, and returns the status.
pub fn start_stream(rt: &HostRuntime, words: &[String]) -> Result<u8, NotRun> {
    match stream_arguments(words) {
        Ok(asked) => check(rt, asked),
        Err(why) => Ok(end_wrong(why, &mut Io::new(rt.stderr()))),
    }
}

/// The check that the arguments ask for.
fn check(rt: &HostRuntime, asked: StreamArguments<'_>) -> Result<u8, NotRun> {
    let alloc = rt.alloc();
    let keys = Content::of_file(fs::read(rt, asked.keys))?;
    let input = match open_input(rt, rt.stdin(), asked.file, &mut Io::new(rt.stderr())) {
        Ok(input) => read_in_blocks(alloc, input)?,
        Err(status) => return Ok(status),
    };
    let mut lines = write_in_blocks(alloc, rt.stderr())?;
    let note = RefCell::new(Note::new(alloc, asked.verbose));
    let teller = EndTeller {
        verbose: asked.verbose,
        file: key_file(asked.keys, keys.bytes.as_deref(), keys.fault),
        aad: asked.aad,
        payload: asked.payload,
        note: &note,
    };
    // Another reader than the gate's: with one type of fault the compiler would no longer put what
    // both call into the gate, and each of its messages would take 4 % more instructions.
    let ended = check_input(rt, asked, teller, &mut Io::new(input));
    tell_end(alloc, &ended, teller, &mut lines);
    Ok(end_status(&ended.end))
}

/// The file KEYS.
fn key_file<'a>(name: &'a str, bytes: Option<&'a [u8]>, fault: &'a str) -> KeyFile<'a> {
    KeyFile { name, bytes, fault }
}

/// The check of this input.
fn check_input<R: Read>(
    rt: &HostRuntime,
    asked: StreamArguments<'_>,
    teller: EndTeller<'_>,
    input: &mut R,
) -> StreamEnd {
    let alloc = rt.alloc();
    let terms = StreamTerms {
        keys: teller.file.bytes,
        aad: asked.aad,
        note: if asked.verbose {
            Some(teller.note)
        } else {
            None
        },
    };
    match asked.payload {
        Some(name) => stream_into(alloc, terms, input, &mut HostFolder::new(rt), name),
        None => StreamEnd {
            end: stream(alloc, terms, input, &mut Nowhere),
            others: 0,
        },
    }
}
