//! The question about a message in memory, which is read in place.
ghost use Rattle.std.specs.Prelude.{◌≡◌, false};
ghost use Rattle.cose_gate.specs.Terms.{limits_by};
ghost use Rattle.cose_gate_c.specs.StreamAsking.{TellsFront, IsUnasked, StreamAsks};

use crate::keeping::Keeper;
use crate::question_writing::{Sizes, write_question};
use crate::streaming::fault_number;
use cose_gate::laws::judged_can_be_written;
use cose_gate::{Decoder, Limits, Nowhere, Place, stream_check_into};
use std::alloc::Global;

/// What the streaming call for a question returns. With the statuses 2 and 4 the lengths and places
/// are 0.
#[repr(C)]
#[derive(Debug, Clone, Copy, PartialEq, Eq)]
pub struct StreamQuestion {
    /// 0: the question is written. 2: the limits are not allowed. 4: there is no such message in
    /// front, or it is out of memory. 5: what is to be written is longer than its buffer, and
    /// nothing was written.
    pub status: u32,
    /// Why nothing was asked, with 4; else 0. The faults of `StreamAnswer`.
    pub fault: u32,
    /// The bytes of the message.
    pub length: usize,
    /// Where its payload begins.
    pub payload: usize,
    /// The bytes of the payload.
    pub payload_length: usize,
    /// The bytes of the record in front of the payload.
    pub head: usize,
    /// The bytes of the record without the payload. With 5 it is the length that the buffer needs.
    pub question_length: usize,
}

/// The answer about a message of so many bytes, whose payload is there, with this status.
pub(crate) fn told(status: u32, length: usize, payload: Place, sizes: Sizes) -> StreamQuestion
    ensures status { result.status ≡ status }
    ensures fault { result.fault ≡ 0 }
    ensures length { result.length ≡ length }
    ensures payload { result.payload ≡ payload.at }
    ensures payload_length { result.payload_length ≡ payload.length }
    ensures head { result.head ≡ sizes.head }
    ensures question_length { result.question_length ≡ sizes.whole }
{
    StreamQuestion {
        status,
        fault: 0,
        length,
        payload: payload.at,
        payload_length: payload.length,
        head: sizes.head,
        question_length: sizes.whole,
    }
}

/// Nothing was asked.
pub(crate) fn unasked(status: u32, fault: u32) -> StreamQuestion
    ensures { IsUnasked status fault result }
{
    StreamQuestion {
        status,
        fault,
        length: 0,
        payload: 0,
        payload_length: 0,
        head: 0,
        question_length: 0,
    }
}

/// Asks about the message in front, 4 KiB of its payload at a time.
fn ask_front(
    alloc: Global,
    limits: Limits,
    aad: &[u8],
    input: &[u8],
    question: &mut [u8],
) -> StreamQuestion
    ensures { TellsFront (limits_by limits false) aad.now input.now
        question.old question.new result }
{
    judged_can_be_written();
    let mut judge = Keeper::new(alloc, question.len());
    let mut decoder = Decoder::from(input);
    let mut buffer = [0; 4096];
    match stream_check_into(
        alloc,
        limits,
        &mut decoder,
        &mut buffer,
        aad,
        &mut judge,
        &mut Nowhere,
    ) {
        Ok(read) => write_question(alloc, &judge, read.payload, decoder.offset(), question),
        Err(fault) => unasked(4, fault_number(&fault)),
    }
}

/// Asks about the message in front of `input`, with `aad` as external data, and these limits.
pub(crate) fn ask_message(
    alloc: Global,
    nesting: usize,
    layers: usize,
    aad: &[u8],
    input: &[u8],
    question: &mut [u8],
) -> StreamQuestion
    ensures { StreamAsks nesting layers aad.now input.now question.old question.new result }
{
    match Limits::new(nesting, layers) {
        Some(limits) => ask_front(alloc, limits, aad, input, question),
        None => unasked(2, 0),
    }
}
