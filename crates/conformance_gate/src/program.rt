//! Runs of the program over memory.
use crate::out::{NoAnswer, Out};
use crate::words;
use ciborium_ll::Io;
use cose_gate::{Mem, Write};
use cose_gate_command::{
    KeyFile, NOT_UTF8, NotRun, Note, Usage, Wrong, ask, ask_arguments, ended, pass, pass_arguments,
};
use cose_stream::{
    EndTeller, StreamEnd, StreamTerms, end_status, end_wrong, stream, stream_arguments, tell_end,
};
use std::alloc::Global;
use std::cell::RefCell;
use std::io::{BufWriter, Cursor};
use test_tools::Sink;

/// A run with these keys and this AADHEX: its status, its output, and its lines.
pub fn run(to: &mut Out, row: &mut &str) {
    run_flushed(to, usize::MAX, row);
}

/// The same, if the output can be flushed so many times; and how many bytes of the input are left.
pub fn run_held(to: &mut Out, row: &mut &str) {
    let flushes = words::number(to, row);
    let left = run_flushed(to, flushes, row);
    add_left(to, left);
}

fn run_flushed(to: &mut Out, flushes: usize, row: &mut &str) -> usize {
    let keys = words::optional(to, row);
    let aad = aad_word(words::word(to, row));
    let input = words::bytes(to, row);
    let mut out = Sink::flushed(to.alloc(), flushes);
    let mut err = shown_writer(to);
    let mut reader = input.as_slice();
    let keys = keys.as_deref();
    let status = cose_gate::run(to.alloc(), keys, aad, &mut reader, &mut out, &mut err);
    add_ended(to, status, shown(&out), shown(&err));
    reader.len()
}

/// The same as `command`, if the output has space for so many bytes, 64 at most.
pub fn command_in_room(to: &mut Out, row: &mut &str) {
    let room = words::number(to, row);
    let keys = words::optional(to, row);
    let input = words::bytes(to, row);
    let all = words::owned(to, row);
    let mut memory = [0; 64];
    let mut out = Mem::new(&mut memory[..room.min(64)]);
    let mut err = Mem::new(Vec::new(to.alloc()));
    let status = commanded(
        to.alloc(),
        &all,
        keys.as_deref(),
        &input,
        &mut out,
        &mut err,
    );
    add_ended(to, status, out.as_written(), err.as_written());
}

/// The program by the arguments of a command line, over what the file KEYS holds: its status, its
/// output, and its lines.
pub fn command(to: &mut Out, row: &mut &str) {
    let keys = words::optional(to, row);
    let input = words::bytes(to, row);
    let all = words::owned(to, row);
    let mut out = shown_writer(to);
    let mut err = shown_writer(to);
    let status = commanded(
        to.alloc(),
        &all,
        keys.as_deref(),
        &input,
        &mut out,
        &mut err,
    );
    add_ended(to, status, shown(&out), shown(&err));
}

/// A writer that shows what was flushed, and can always be flushed.
pub fn shown_writer(to: &Out) -> Sink {
    Sink::flushed(to.alloc(), usize::MAX)
}

/// What was flushed.
pub fn shown(held: &Sink) -> &[u8] {
    held.bytes.get(..held.shown).unwrap_or(&[])
}

/// The program `cose-ask` by the arguments of a command line.
pub fn ask_command(to: &mut Out, row: &mut &str) {
    asked(to, None, row);
}

/// The same over what the file KEYS holds.
pub fn ask_keys_command(to: &mut Out, row: &mut &str) {
    let keys = words::optional(to, row);
    asked(to, keys.as_deref(), row);
}

fn asked(to: &mut Out, keys: Option<&[u8]>, row: &mut &str) {
    let input = words::bytes(to, row);
    let all = words::owned(to, row);
    let mut out = shown_writer(to);
    let mut err = shown_writer(to);
    let mut reader = input.as_slice();
    let end = ask(
        to.alloc(),
        &all,
        keys,
        "no such file",
        &mut reader,
        &mut out,
        &mut err,
    );
    let usage = usage_of("cose-ask", ask_arguments(&all));
    add_end(to, end, usage, shown(&out), shown(&err));
}

/// The same, if the output takes four bytes, in blocks of 256.
pub fn ask_command_full(to: &mut Out, row: &mut &str) {
    let input = words::bytes(to, row);
    let all = words::owned(to, row);
    let mut err = shown_writer(to);
    let Ok(out) = BufWriter::with_capacity(to.alloc(), 256, Cursor::new([0; 4])) else {
        to.refuse(NoAnswer::Memory);
        return;
    };
    let mut out = Io::new(out);
    let mut reader = input.as_slice();
    let end = ask(to.alloc(), &all, None, "", &mut reader, &mut out, &mut err);
    let (taken, _) = out.into_inner().into_parts();
    let usage = usage_of("cose-ask", ask_arguments(&all));
    add_end(to, end, usage, &taken.into_inner(), shown(&err));
}

/// The program `cose-pass` by the arguments of a command line, over what the file ACCEPTED holds.
pub fn pass_command(to: &mut Out, row: &mut &str) {
    let accepted = words::optional(to, row);
    let input = words::bytes(to, row);
    let all = words::owned(to, row);
    let mut out = shown_writer(to);
    let mut err = shown_writer(to);
    let end = pass(
        to.alloc(),
        &all,
        accepted,
        &mut input.as_slice(),
        &mut out,
        &mut err,
    );
    let usage = usage_of("cose-pass", pass_arguments(&all));
    add_end(to, end, usage, shown(&out), shown(&err));
}

/// Wrong arguments of a program.
fn usage_of<'a, T: Copy>(program: &'a str, asked: Result<T, Wrong<'a>>) -> Usage<'a> {
    Usage {
        line: "usage\n",
        program,
        wrong: match asked {
            Err(wrong) => wrong,
            Ok(_) => NOT_UTF8,
        },
    }
}

/// The program `cose-gate` by the arguments of a command line with `--stream`: its status, the
/// payload that was flushed, and its lines.
pub fn stream_command(to: &mut Out, row: &mut &str) {
    stream_flushed(to, usize::MAX, row);
}

/// The same, if the payload can be flushed so many times.
pub fn stream_held(to: &mut Out, row: &mut &str) {
    let flushes = words::number(to, row);
    stream_flushed(to, flushes, row);
}

fn stream_flushed(to: &mut Out, flushes: usize, row: &mut &str) {
    let mut out = Sink::flushed(to.alloc(), flushes);
    let (status, err) = streamed(to, row, &mut out);
    add_ended(to, status, shown(&out), shown(&err));
}

/// The same, if the payload has space for so many bytes, 64 at most.
pub fn stream_in_room(to: &mut Out, row: &mut &str) {
    let room = words::number(to, row);
    let mut memory = [0; 64];
    let mut out = Mem::new(&mut memory[..room.min(64)]);
    let (status, err) = streamed(to, row, &mut out);
    add_ended(to, status, out.as_written(), shown(&err));
}

/// The check of a message: the status, and the lines.
fn streamed<W: Write>(to: &mut Out, row: &mut &str, out: &mut W) -> (u8, Sink) {
    let keys = words::optional(to, row);
    let input = words::bytes(to, row);
    let all = words::owned(to, row);
    let mut err = shown_writer(to);
    let asked = match stream_arguments(&all) {
        Ok(asked) => asked,
        Err(why) => return (end_wrong(why, &mut err), err),
    };
    let alloc = to.alloc();
    let note = RefCell::new(Note::new(alloc, asked.verbose));
    let teller = EndTeller {
        verbose: asked.verbose,
        file: key_file(asked.keys, keys.as_deref()),
        aad: asked.aad,
        payload: asked.payload,
        note: &note,
    };
    let terms = StreamTerms {
        keys: keys.as_deref(),
        aad: asked.aad,
        note: if asked.verbose { Some(&note) } else { None },
    };
    let mut reader = input.as_slice();
    let ended = StreamEnd {
        end: stream(alloc, terms, &mut reader, out),
        others: 0,
    };
    tell_end(alloc, &ended, teller, &mut err);
    (end_status(&ended.end), err)
}

fn key_file<'a>(name: &'a str, bytes: Option<&'a [u8]>) -> KeyFile<'a> {
    KeyFile {
        name,
        bytes,
        fault: "no such file",
    }
}

/// Appends how a program ended, with the lines of why it didn't run.
fn add_end(to: &mut Out, end: Result<u8, NotRun>, usage: Usage<'_>, out: &[u8], err: &[u8]) {
    let mut line = Mem::new(Vec::new(to.alloc()));
    let status = ended(end, usage, &mut line);
    add_ended(to, status, out, err);
    match std::str::from_utf8(line.as_written()) {
        Ok(said) => to.lines(said),
        Err(_) => to.hex(line.as_written()),
    }
}

/// The program by its arguments. It has no contract: so the program's clauses are not proved over
/// again in its callers.
fn commanded<W: Write, E: Write>(
    alloc: Global,
    all: &[String],
    keys: Option<&[u8]>,
    input: &[u8],
    out: &mut W,
    err: &mut E,
) -> u8 {
    let mut reader = input;
    cose_gate_command::program(alloc, all, keys, "no such file", &mut reader, out, err)
}

/// The argument AADHEX. `-` is the empty one, and `none` is none.
pub fn aad_word(word: &str) -> Option<&str> {
    match word {
        "none" => None,
        "-" => Some(""),
        _ => Some(word),
    }
}

/// Appends how a run ended.
pub fn add_ended(to: &mut Out, status: u8, out: &[u8], err: &[u8]) {
    to.show(&status);
    to.text("; out ");
    to.hex(out);
    to.text("; ");
    match std::str::from_utf8(err) {
        Ok(lines) => to.lines(lines),
        Err(_) => to.hex(err),
    }
}

/// Appends how many bytes of the input are left.
pub fn add_left(to: &mut Out, left: usize) {
    to.text("; ");
    to.show(&left);
    to.text(" left");
}

/// KEYS and AADHEX of the arguments of a command line.
pub fn arguments(to: &mut Out, row: &mut &str) {
    let all = words::owned(to, row);
    match cose_gate::words(all.as_slice()) {
        Some((keys, Some(aad))) => {
            to.text("KEYS ");
            to.text(keys);
            to.text(" AADHEX ");
            to.text(aad);
        }
        Some((keys, None)) => {
            to.text("KEYS ");
            to.text(keys);
        }
        None => to.text("usage"),
    }
}
