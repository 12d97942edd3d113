//! The streaming check over memory.
ghost use Rattle.std.specs.Prelude.{◌≡◌, if◌then◌else◌, false};
ghost use Rattle.cose_gate.specs.Terms.{limits_by};
ghost use Rattle.cose_gate.specs.HmacJudges.{says_yes};
ghost use Rattle.cose_gate.specs.KeyView.{key_set_view};
ghost use Rattle.cose_gate_c.specs.Streaming as spec;
ghost use Rattle.cose_gate_c.specs.Streaming.{ChecksFront, IsUnchecked, StreamChecks};

use cose_gate::laws::judged_can_be_written;
use cose_gate::{
    CborSerializable, CoseError, CoseKeySet, Decoder, End, HmacJudge, Limits, Nowhere, Place,
    StreamFault, stream_check_into,
};
use std::alloc::Global;

/// What the streaming check returns.
#[repr(C)]
#[derive(Debug, Clone, Copy, PartialEq, Eq)]
pub struct StreamAnswer {
    /// 0: the tag is good. 1: it is not. 2: the limits are not allowed. 3: the bytes are no key
    /// set. 4: there is no such message in front, or it is out of memory.
    pub status: u32,
    /// Why nothing was checked, with 4; else 0. 1 to 6 are faults of the bytes in front:
    /// `NotTagged`, `OtherTag`, `Shape`, `Detached`, `Unsized` and `Decode`. 7: it is out of
    /// memory.
    pub fault: u32,
    /// The bytes of the message, with 0 and 1; else 0.
    pub length: usize,
    /// Where its payload begins, with 0 and 1; else 0.
    pub payload: usize,
    /// The bytes of the payload, with 0 and 1; else 0.
    pub payload_length: usize,
}

/// The answer of a judge about a message of so many bytes, whose payload is there.
fn checked(yes: bool, length: usize, payload: Place) -> StreamAnswer
    ensures status { result.status ≡ (if yes then 0 else 1) }
    ensures fault { result.fault ≡ 0 }
    ensures length { result.length ≡ length }
    ensures payload { result.payload ≡ payload.at }
    ensures payload_length { result.payload_length ≡ payload.length }
{
    StreamAnswer {
        status: if yes { 0 } else { 1 },
        fault: 0,
        length,
        payload: payload.at,
        payload_length: payload.length,
    }
}

/// Nothing was checked.
fn unchecked(status: u32, fault: u32) -> StreamAnswer
    ensures { IsUnchecked status fault result }
{
    StreamAnswer {
        status,
        fault,
        length: 0,
        payload: 0,
        payload_length: 0,
    }
}

/// The number of a fault.
pub(crate) fn fault_number(fault: &StreamFault<End>) -> u32
    ensures { result ≡ spec.fault_number fault.now }
{
    match fault {
        StreamFault::NotTagged => 1,
        StreamFault::OtherTag(_) => 2,
        StreamFault::Shape(_) => 3,
        StreamFault::Detached => 4,
        StreamFault::Unsized => 5,
        StreamFault::Decode(_) => 6,
        StreamFault::Memory => 7,
    }
}

/// Checks the message in front with these keys, 4 KiB of its payload at a time. Its headers are read
/// once: where the payload is said to be is where it was read.
fn check_front(
    alloc: Global,
    limits: Limits,
    keys: &CoseKeySet,
    aad: &[u8],
    input: &[u8],
) -> StreamAnswer
    ensures { ChecksFront (limits_by limits false)
        (says_yes (key_set_view keys.now)) aad.now input.now result }
{
    judged_can_be_written();
    let mut judge = HmacJudge::new(keys);
    let mut decoder = Decoder::from(input);
    let mut buffer = [0; 4096];
    match stream_check_into(
        alloc,
        limits,
        &mut decoder,
        &mut buffer,
        aad,
        &mut judge,
        &mut Nowhere,
    ) {
        Ok(streamed) => checked(streamed.yes, decoder.offset(), streamed.payload),
        Err(fault) => unchecked(4, fault_number(&fault)),
    }
}

/// Checks the message in front of `input` with the key set of the bytes `keys`, `aad` as external
/// data, and these limits.
pub(crate) fn check_message(
    alloc: Global,
    nesting: usize,
    layers: usize,
    keys: &[u8],
    aad: &[u8],
    input: &[u8],
) -> StreamAnswer
    ensures { StreamChecks nesting layers keys.now aad.now input.now result }
{
    let Some(limits) = Limits::new(nesting, layers) else {
        return unchecked(2, 0);
    };
    match CoseKeySet::from_slice(alloc, keys) {
        Ok(keys) => check_front(alloc, limits, &keys, aad, input),
        Err(error) => match error {
            CoseError::Memory => unchecked(4, 7),
            _ => unchecked(3, 0),
        },
    }
}
