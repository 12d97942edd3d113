//! Checks of one message while its payload passes through a buffer.
ghost use Rattle.std.specs.Prelude.{◌<◌, length};

use crate::gating::add_questions;
use crate::out::Out;
use crate::words;
use cose_gate::{
    About, Decoder, End, Judge, Limits, Recorder, StreamFault, stream_check, stream_check_with,
};
use std::alloc::{AllocError, Global};

/// A judge that notes the lengths of the pieces it is fed.
#[derive(Drop)]
struct Pieces<J> {
    inner: J,
    lengths: Vec<usize>,
}

impl<J: Judge> Judge for Pieces<J> {
    ghost Who = { J.Who };

    ghost Told = { J.Told };

    ghost who = { λ s. J.who s.inner };

    ghost told = { λ s. J.told s.inner };

    ghost holds = { λ s subject bytes. J.holds s.inner subject bytes };

    ghost pieces = { λ s. J.pieces s.inner };

    ghost yes = { J.yes };

    ghost decided = { J.decided };

    fn begin(&mut self, about: &About) -> Result<(), AllocError> {
        self.lengths.clear();
        self.inner.begin(about)
    }

    fn feed(&mut self, piece: &[u8]) -> Result<(), AllocError> {
        self.lengths.push(piece.len())?;
        self.inner.feed(piece)
    }

    fn decide(&mut self, signature: &[u8]) -> bool {
        self.inner.decide(signature)
    }
}

/// The result of a check, within limits if there are some, and how many bytes were taken. Its
/// contract is only that the buffer isn't empty: so the check's clauses are not proved over again
/// in its callers.
fn checked<J: Judge>(
    alloc: Global,
    limits: Option<Limits>,
    input: &[u8],
    buffer: &mut [u8],
    aad: &[u8],
    judge: &mut J,
) -> (Result<bool, StreamFault<End>>, usize)
    requires { 0 < length buffer.old }
{
    let mut decoder = Decoder::from(input);
    let answer = match limits {
        Some(limits) => stream_check_with(alloc, limits, &mut decoder, buffer, aad, judge),
        None => stream_check(alloc, &mut decoder, buffer, aad, judge),
    };
    (answer, decoder.offset())
}

/// A check with a buffer of so many bytes, from 1 to 64.
pub fn check(to: &mut Out, row: &mut &str) {
    check_by(to, None, row);
}

/// The same, within limits.
pub fn check_within(to: &mut Out, row: &mut &str) {
    let limits = words::limits(to, row);
    check_by(to, Some(limits), row);
}

/// A check, within limits if there are some, if the judge says no to the signature that may come
/// after the other arguments: its result, how many bytes were taken, the question, and the lengths
/// of the pieces in which the covered bytes came; or its fault.
fn check_by(to: &mut Out, limits: Option<Limits>, row: &mut &str) {
    let room = words::number(to, row);
    let input = words::bytes(to, row);
    let aad = words::bytes(to, row);
    let no = words::last(to, row);
    let mut memory = [0; 64];
    let buffer = &mut memory[..room.max(1).min(64)];
    let mut judge = Pieces {
        inner: Recorder::new(to.alloc(), no),
        lengths: Vec::new(to.alloc()),
    };
    let (answer, taken) = checked(to.alloc(), limits, &input, buffer, &aad, &mut judge);
    add_answer(to, &answer, taken);
    add_questions(to, judge.inner.asked());
    if answer.is_ok() {
        add_pieces(to, judge.lengths.as_slice());
    }
}

/// The text of a check's fault; `yes` or `no` if there is none.
pub fn fault(to: &mut Out, row: &mut &str) {
    let input = words::bytes(to, row);
    let mut judge = Recorder::new(to.alloc(), None);
    let (answer, _) = checked(to.alloc(), None, &input, &mut [0; 1], &[], &mut judge);
    match answer {
        Ok(yes) => to.yes_or_no(yes),
        Err(fault) => to.show(&fault),
    }
}

fn add_answer(to: &mut Out, answer: &Result<bool, StreamFault<End>>, taken: usize) {
    match answer {
        Ok(yes) => {
            to.yes_or_no(*yes);
            to.text(", ");
            to.show(&taken);
            to.text(" taken");
        }
        Err(fault) => to.debug(fault),
    }
}

fn add_pieces(to: &mut Out, lengths: &[usize]) {
    to.text("; pieces");
    for length in lengths {
        to.text(" ");
        to.show(length);
    }
}
