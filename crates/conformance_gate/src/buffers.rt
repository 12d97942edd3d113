//! Calls over buffers of so many bytes: those that `cose_gate_c` exports to C.
use crate::out::{NoAnswer, Out};
use crate::words;
use cose_gate_records::{Answer, Choice, ask, check, pass, pass_digests};

/// What each byte of an output is before a call, and each byte of the lines.
const UNWRITTEN: u8 = 0xee;

const NO_LINE: u8 = b'.';

/// The limits that the next two arguments are, allowed or not, and whether the gate is strict.
fn read_choice(to: &mut Out, row: &mut &str) -> Choice {
    Choice {
        nesting: words::number(to, row),
        layers: words::number(to, row),
        strict: words::word(to, row) == "strict",
    }
}

/// A buffer of as many bytes as the next argument says, each of them this one.
fn buffer(to: &mut Out, row: &mut &str, byte: u8) -> Vec<u8> {
    let len = words::number(to, row);
    match Vec::from_elem(to.alloc(), byte, len) {
        Ok(buffer) => buffer,
        Err(_) => {
            to.refuse(NoAnswer::Memory);
            Vec::new(to.alloc())
        }
    }
}

/// The program's run with these keys.
pub fn check_into(to: &mut Out, row: &mut &str) {
    let mut out = buffer(to, row, UNWRITTEN);
    let mut lines = buffer(to, row, NO_LINE);
    let choice = read_choice(to, row);
    let keys = words::bytes(to, row);
    let aad = words::bytes(to, row);
    let input = words::bytes(to, row);
    let answer = check(
        to.alloc(),
        choice,
        &keys,
        &aad,
        &input,
        out.as_mut_slice(),
        lines.as_mut_slice(),
    );
    add_answer(to, answer, &out, &lines);
}

/// The records of the questions.
pub fn ask_into(to: &mut Out, row: &mut &str) {
    let mut questions = buffer(to, row, UNWRITTEN);
    let mut lines = buffer(to, row, NO_LINE);
    let choice = read_choice(to, row);
    let aad = words::bytes(to, row);
    let input = words::bytes(to, row);
    let answer = ask(
        to.alloc(),
        choice,
        &aad,
        &input,
        questions.as_mut_slice(),
        lines.as_mut_slice(),
    );
    add_answer(to, answer, &questions, &lines);
}

/// The messages whose records, or digests, were accepted.
pub fn pass_into(to: &mut Out, row: &mut &str, digests: bool) {
    let mut out = buffer(to, row, UNWRITTEN);
    let mut lines = buffer(to, row, NO_LINE);
    let choice = read_choice(to, row);
    let accepted = words::bytes(to, row);
    let aad = words::bytes(to, row);
    let input = words::bytes(to, row);
    let answer = if digests {
        pass_digests(
            to.alloc(),
            choice,
            &accepted,
            &aad,
            &input,
            out.as_mut_slice(),
            lines.as_mut_slice(),
        )
    } else {
        pass(
            to.alloc(),
            choice,
            &accepted,
            &aad,
            &input,
            out.as_mut_slice(),
            lines.as_mut_slice(),
        )
    };
    add_answer(to, answer, &out, &lines);
}

/// Appends the status and the two lengths, and each buffer whole.
fn add_answer(to: &mut Out, answer: Answer, out: &[u8], lines: &[u8]) {
    to.show(&answer.status);
    to.text(" ");
    to.show(&answer.length);
    to.text(" ");
    to.show(&answer.lines);
    to.text("; ");
    to.hex(out);
    to.text("; ");
    match std::str::from_utf8(lines) {
        Ok("") => to.text("-"),
        Ok(lines) => to.lines(lines),
        Err(_) => to.hex(lines),
    }
}
