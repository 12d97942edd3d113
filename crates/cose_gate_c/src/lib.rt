//! The gate for C, and for languages that call C: over buffers that the caller owns. Each function
//! calls one of `cose_gate_records`, or of a module here.
//! `include/cose_gate.h` declares them.
#![tactic(auto)]

ghost use Rattle.std.specs.Prelude.{◌≡◌, None};
ghost use Rattle.cose_gate_c.specs.KeyParts.{ListsKeys};
ghost use Rattle.cose_gate_c.specs.RuledAsking.{AsksRuled};
ghost use Rattle.cose_gate_c.specs.StreamAsking.{StreamAsks};
ghost use Rattle.cose_gate_c.specs.Streaming.{StreamChecks};
ghost use Rattle.cose_gate_c.specs.Tokens.{AsksTokens};
ghost use Rattle.cose_gate_records.specs.Calls.{AsksWithin, Checks, PassesWithin, PassesDigests};
ghost use Rattle.cose_gate_records.specs.Calls.{buffers};

mod keeping;
mod key_parts;
mod question_writing;
mod ruled_asking;
mod stream_asking;
mod streaming;
mod tokens;

use crate::key_parts::list_keys;
use crate::ruled_asking::{Given, ask_items};
use crate::stream_asking::{StreamQuestion, ask_message};
use crate::streaming::{StreamAnswer, check_message};
use crate::tokens::{TokenChoice, ask_tokens};
use cose_gate_records::{Answer, Choice, ask, check, pass, pass_digests};
use std::alloc::Global;

/// `check` of `cose_gate_records`: the run of `cose-gate` over `input`.
#[unsafe(no_mangle)]
pub extern "C" fn cose_gate_check(
    alloc: Global,
    keys: &[u8],
    aad: &[u8],
    input: &[u8],
    out: &mut [u8],
    lines: &mut [u8],
    nesting: usize,
    layers: usize,
    strict: bool,
) -> Answer
    ensures { Checks nesting layers strict keys.now aad.now input.now
        (buffers «out».old «lines».old) (buffers «out».new «lines».new) result }
{
    let choice = Choice {
        nesting,
        layers,
        strict,
    };
    check(alloc, choice, keys, aad, input, out, lines)
}

/// `ask` of `cose_gate_records`: the records of the questions of `input`.
#[unsafe(no_mangle)]
pub extern "C" fn cose_gate_ask(
    alloc: Global,
    aad: &[u8],
    input: &[u8],
    questions: &mut [u8],
    lines: &mut [u8],
    nesting: usize,
    layers: usize,
    strict: bool,
) -> Answer
    ensures { AsksWithin nesting layers strict aad.now input.now
        (buffers «questions».old «lines».old) (buffers «questions».new «lines».new) result }
{
    let choice = Choice {
        nesting,
        layers,
        strict,
    };
    ask(alloc, choice, aad, input, questions, lines)
}

/// `pass` of `cose_gate_records`: the messages of `input` all of whose questions are among the
/// records `accepted`.
#[unsafe(no_mangle)]
pub extern "C" fn cose_gate_pass(
    alloc: Global,
    accepted: &[u8],
    aad: &[u8],
    input: &[u8],
    out: &mut [u8],
    lines: &mut [u8],
    nesting: usize,
    layers: usize,
    strict: bool,
) -> Answer
    ensures { PassesWithin nesting layers strict accepted.now aad.now input.now
        (buffers «out».old «lines».old) (buffers «out».new «lines».new) result }
{
    let choice = Choice {
        nesting,
        layers,
        strict,
    };
    pass(alloc, choice, accepted, aad, input, out, lines)
}

/// What to check of each item of `input` by the rules of `cose_rules`, under the key set of the
/// bytes `keys`: the blocks of `cose-ask --keys`. `lines` takes the lines of a run in which every
/// signature is good that the rules allow to be checked.
#[unsafe(no_mangle)]
pub extern "C" fn cose_gate_ask_ruled(
    alloc: Global,
    keys: &[u8],
    aad: &[u8],
    input: &[u8],
    blocks: &mut [u8],
    lines: &mut [u8],
    nesting: usize,
    layers: usize,
    strict: bool,
) -> Answer
    ensures { AsksRuled nesting layers strict None keys.now aad.now input.now
        (buffers «blocks».old «lines».old) (buffers «blocks».new «lines».new) result }
{
    let choice = Choice {
        nesting,
        layers,
        strict,
    };
    let given = Given { keys, aad, input };
    ask_items(alloc, choice, given, None, blocks, lines)
}

/// As `cose_gate_ask_ruled`, of items that have to be tokens (CWT, RFC 8392) whose claims pass by
/// `token`: the blocks of `cose-ask --keys --cwt`. An item that is none has no questions, and its
/// block says why. Neither status nor `lines` go by that.
///
/// If a text of `token` is no UTF-8, the status is 2, and nothing is read.
#[unsafe(no_mangle)]
pub extern "C" fn cose_gate_ask_tokens(
    alloc: Global,
    keys: &[u8],
    token: &TokenChoice<'_>,
    aad: &[u8],
    input: &[u8],
    blocks: &mut [u8],
    lines: &mut [u8],
    nesting: usize,
    layers: usize,
    strict: bool,
) -> Answer
    ensures { AsksTokens nesting layers strict token.now keys.now aad.now input.now
        (buffers «blocks».old «lines».old) (buffers «blocks».new «lines».new) result }
{
    let choice = Choice {
        nesting,
        layers,
        strict,
    };
    let given = Given { keys, aad, input };
    ask_tokens(alloc, choice, given, *token, blocks, lines)
}

/// `pass_digests` of `cose_gate_records`: the messages of `input` all of whose questions' digests
/// are among `accepted`.
#[unsafe(no_mangle)]
pub extern "C" fn cose_gate_pass_digests(
    alloc: Global,
    accepted: &[u8],
    aad: &[u8],
    input: &[u8],
    out: &mut [u8],
    lines: &mut [u8],
    nesting: usize,
    layers: usize,
    strict: bool,
) -> Answer
    ensures { PassesDigests nesting layers strict accepted.now aad.now input.now
        (buffers «out».old «lines».old) (buffers «out».new «lines».new) result }
{
    let choice = Choice {
        nesting,
        layers,
        strict,
    };
    pass_digests(alloc, choice, accepted, aad, input, out, lines)
}

/// The parts of the keys of the set that the bytes `keys` are, in order, those of each after their
/// length: the numbers of its type, its algorithm and its curve in eight bytes each, 0 if it has
/// none, and then n or k, x or e, and y, each after its length, empty if there is none. No private
/// part of a key pair is among them.
///
/// The status is 0; 3 if the bytes are no key set; 4 if it is out of memory; and 5 if this is
/// longer than `parts`, and only then: that stays as it was, and `length` is the length it needs.
#[unsafe(no_mangle)]
pub extern "C" fn cose_gate_key_parts(alloc: Global, keys: &[u8], parts: &mut [u8]) -> Answer
    ensures { ListsKeys keys.now «parts».old «parts».new result }
{
    list_keys(alloc, keys, parts)
}

/// The streaming check of the COSE_Mac0 at the front of `message`, which is read in place, and
/// where its payload is. What comes after it is not read.
#[unsafe(no_mangle)]
pub extern "C" fn cose_gate_stream_check(
    alloc: Global,
    keys: &[u8],
    aad: &[u8],
    message: &[u8],
    nesting: usize,
    layers: usize,
) -> StreamAnswer
    ensures { StreamChecks nesting layers keys.now aad.now message.now result }
{
    check_message(alloc, nesting, layers, keys, aad, message)
}

/// The question about the COSE_Sign1 or COSE_Mac0 at the front of `message`, read in place:
/// the record that `cose_gate_ask` writes for it, without the payload, and where the payload is in
/// `message`. With `head` bytes of `question`, then the payload, and then the rest of `question` it
/// is that record; the covered bytes end with the payload (RFC 9052, sections 4.4 and 6.3). What
/// comes after the message is not read.
///
/// If that is longer than `question`, and only then, the status is 5. With each status but 0
/// `question` stays as it was.
#[unsafe(no_mangle)]
pub extern "C" fn cose_gate_stream_ask(
    alloc: Global,
    aad: &[u8],
    message: &[u8],
    question: &mut [u8],
    nesting: usize,
    layers: usize,
) -> StreamQuestion
    ensures { StreamAsks nesting layers aad.now message.now question.old question.new result }
{
    ask_message(alloc, nesting, layers, aad, message, question)
}
