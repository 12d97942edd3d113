//! The two roads to an answer about a message: the gate, and the streaming check. `cose_gate` and
//! `ciborium` are the crates that it names.
ghost use Rattle.std.specs.Prelude.{◌≡◌, ◌<◌, ℕ, List, length, IfOk, IfSome, MatchBool};
ghost use Rattle.cose_gate.specs.Findings.{usual};
ghost use Rattle.cose_gate.specs.Run.{Step, Run, passed_count, refused_count};
ghost use Rattle.callers.specs.Judging.{allows};
ghost use Rattle.callers.specs.Roads.{FirstPasses};
ghost use Rattle.callers.specs.Sides.{known_of};

use crate::judging::KeyIds;
use crate::twice::bytes_below;
use ciborium::laws::one_spelling;
use cose_gate::laws::{every_input_run, one_finding};
use cose_gate::{
    Counts, Decoder, End, GateFault, Nowhere, Silent, StreamFault, gate, stream_check,
};
use std::alloc::Global;

/// Whether the message in front passes, by the streaming check. It does exactly if the first item
/// passes the gate.
///
/// # Errors
/// Those of `stream_check`.
pub fn passes_first(
    alloc: Global,
    input: &[u8],
    buffer: &mut [u8],
    aad: &[u8],
    judge: &mut KeyIds,
) -> Result<bool, StreamFault<End>>
    requires { 0 < length buffer.old }
    ensures first { (ss : List Step) (rest : List ℕ)
        → Run usual (allows (known_of judge.old)) aad.now 0 input.now ss rest
        → IfOk result (FirstPasses (allows (known_of judge.old)) aad.now ss) }
    ensures known { known_of judge.new ≡ known_of judge.old }
{
    one_finding();
    one_spelling();
    let mut decoder = Decoder::from(input);
    match stream_check(alloc, &mut decoder, buffer, aad, judge) {
        Ok(yes) => Ok(yes),
        Err(fault) => Err(fault),
    }
}

/// How many messages of the input pass, and how many of its items are refused. Nothing is written.
fn count(
    alloc: Global,
    input: &[u8],
    aad: &[u8],
    judge: &mut KeyIds,
) -> Result<Counts, GateFault<End>>
    ensures { (ss : List Step) (rest : List ℕ)
        → Run usual (allows (known_of judge.old)) aad.now 0 input.now ss rest
        → IfOk result (λ n. (n.passed ≡ passed_count (allows (known_of judge.old)) aad.now ss)
        × (n.refused ≡ refused_count (allows (known_of judge.old)) aad.now ss)) }
{
    let mut decoder = Decoder::from(input);
    match gate(alloc, &mut decoder, &mut Nowhere, &mut Silent, aad, judge) {
        Ok(counts) => Ok(counts),
        Err(fault) => Err(fault),
    }
}

/// Both roads over one input: what the streaming check says of the message in front, and how many
/// pass the gate and how many don't; none if the streaming check has a fault. They agree: after a
/// yes one has passed, and after a no one was refused.
///
/// # Errors
/// Those of `gate`.
pub fn both_roads(
    alloc: Global,
    input: &[u8],
    buffer: &mut [u8],
    aad: &[u8],
    judge: &mut KeyIds,
) -> Result<Option<(bool, Counts)>, GateFault<End>>
    requires { 0 < length buffer.old }
    ensures { IfOk result (λ o. IfSome o
        (λ r. MatchBool r.0 (0 < r.1.passed) (0 < r.1.refused))) }
{
    bytes_below(input);
    every_input_run();
    let Ok(yes) = passes_first(alloc, input, buffer, aad, judge) else {
        return Ok(None);
    };
    let counts = count(alloc, input, aad, judge)?;
    Ok(Some((yes, counts)))
}
