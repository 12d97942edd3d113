//! One message checked while it is read, under the keys of a set, or by any judge. `cose_gate` is
//! the one crate that it names.
ghost use Rattle.std.specs.Prelude.{◌<◌, ℕ, List, IfOk, length};
ghost use Rattle.std.specs.Io.KnownBytes.{Consumes};
ghost use Rattle.cose_gate.specs.HmacJudges.{says_yes};
ghost use Rattle.cose_gate.specs.KeyView.{key_set_view};
ghost use Rattle.cose_gate.specs.Views.{left_of};
ghost use Rattle.callers.specs.Checking.{IsAnswered, IsFedInFew};

use cose_gate::laws::judged_can_be_written;
use cose_gate::stream_laws::pieces_fit;
use cose_gate::{
    CoseKeySet, Decoder, HmacJudge, Judge, Limits, Read, StreamFault, stream_check,
    stream_check_with,
};
use std::alloc::Global;

/// Whether the message in front is a COSE_Mac0 whose tag is good under the keys. Its payload passes
/// through the buffer, and the next message is in front then.
///
/// # Errors
/// Those of `stream_check`.
pub fn is_tagged<R: Read>(
    alloc: Global,
    decoder: &mut Decoder<R>,
    buffer: &mut [u8],
    aad: &[u8],
    keys: &CoseKeySet,
) -> Result<bool, StreamFault<R::Error>>
    requires { 0 < length buffer.old }
    ensures { IfOk result (λ yes. (front : List ℕ)
        × Consumes (left_of R.left decoder.old) (left_of R.left decoder.new) front
        × IsAnswered (says_yes (key_set_view keys.now)) aad.now yes front) }
{
    judged_can_be_written();
    let mut judge = HmacJudge::new(keys);
    stream_check(alloc, decoder, buffer, aad, &mut judge)
}

/// A check by any judge, within these limits, which is fed the payload in as few pieces as its
/// length and the buffer allow.
///
/// # Errors
/// Those of `stream_check_with`.
pub fn fed<R: Read, J: Judge>(
    alloc: Global,
    limits: Limits,
    decoder: &mut Decoder<R>,
    buffer: &mut [u8],
    aad: &[u8],
    judge: &mut J,
) -> Result<bool, StreamFault<R::Error>>
    requires { 0 < length buffer.old }
    ensures { IfOk result (λ _. (front : List ℕ)
        × Consumes (left_of R.left decoder.old) (left_of R.left decoder.new) front
        × IsFedInFew (length buffer.old) (J.pieces judge.new) front) }
{
    pieces_fit();
    stream_check_with(alloc, limits, decoder, buffer, aad, judge)
}
