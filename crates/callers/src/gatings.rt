//! Relays by the strict gate, and within limits of the caller's. `cose_gate` is the one crate that
//! it names.
ghost use Rattle.std.specs.Prelude.{◌≡◌, ℕ, List, IfOk, false, true};
ghost use Rattle.cose_gate.specs.Findings.{usual_exact};
ghost use Rattle.cose_gate.specs.Run.{Step, Run};
ghost use Rattle.cose_gate.specs.Terms.{limits_by};
ghost use Rattle.callers.specs.Judging.{RelayedRun, allows};
ghost use Rattle.callers.specs.Sides.{known_of};

use crate::judging::KeyIds;
use crate::tally::Tally;
use cose_gate::{
    Counts, Decoder, End, GateFault, Limits, Mem, gate_strict, gate_strict_with, gate_with,
};
use std::alloc::Global;

/// As `relay`, by the strict gate: only what is already as it would be written.
pub fn relay_strict(
    alloc: Global,
    input: &[u8],
    aad: &[u8],
    judge: &mut KeyIds,
    tally: &mut Tally,
) -> Result<(Vec<u8>, Counts), GateFault<End>>
    ensures run { (ss : List Step) (rest : List ℕ)
        → Run usual_exact (allows (known_of judge.old)) aad.now 0 input.now ss rest
        → IfOk result (λ r. RelayedRun (known_of judge.old) aad.now ss rest r.0.items r.1) }
    ensures known { known_of judge.new ≡ known_of judge.old }
{
    let mut decoder = Decoder::from(input);
    let mut out = Mem::new(Vec::new(alloc));
    match gate_strict(alloc, &mut decoder, &mut out, tally, aad, judge) {
        Ok(counts) => Ok((out.into_inner(), counts)),
        Err(fault) => Err(fault),
    }
}

/// As `relay`, within limits.
pub fn relay_with(
    alloc: Global,
    limits: Limits,
    input: &[u8],
    aad: &[u8],
    judge: &mut KeyIds,
    tally: &mut Tally,
) -> Result<(Vec<u8>, Counts), GateFault<End>>
    ensures run { (ss : List Step) (rest : List ℕ)
        → Run (limits_by limits false) (allows (known_of judge.old)) aad.now 0 input.now ss rest
        → IfOk result (λ r. RelayedRun (known_of judge.old) aad.now ss rest r.0.items r.1) }
    ensures known { known_of judge.new ≡ known_of judge.old }
{
    let mut decoder = Decoder::from(input);
    let mut out = Mem::new(Vec::new(alloc));
    match gate_with(alloc, limits, &mut decoder, &mut out, tally, aad, judge) {
        Ok(counts) => Ok((out.into_inner(), counts)),
        Err(fault) => Err(fault),
    }
}

/// As `relay_strict`, within limits.
pub fn relay_strict_with(
    alloc: Global,
    limits: Limits,
    input: &[u8],
    aad: &[u8],
    judge: &mut KeyIds,
    tally: &mut Tally,
) -> Result<(Vec<u8>, Counts), GateFault<End>>
    ensures run { (ss : List Step) (rest : List ℕ)
        → Run (limits_by limits true) (allows (known_of judge.old)) aad.now 0 input.now ss rest
        → IfOk result (λ r. RelayedRun (known_of judge.old) aad.now ss rest r.0.items r.1) }
    ensures known { known_of judge.new ≡ known_of judge.old }
{
    let mut decoder = Decoder::from(input);
    let mut out = Mem::new(Vec::new(alloc));
    match gate_strict_with(alloc, limits, &mut decoder, &mut out, tally, aad, judge) {
        Ok(counts) => Ok((out.into_inner(), counts)),
        Err(fault) => Err(fault),
    }
}
