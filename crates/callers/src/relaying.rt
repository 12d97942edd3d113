//! The gate with a judge and a report of one's own. `cose_gate` is the one crate that it names.
ghost use Rattle.std.specs.Prelude.{◌≡◌, ℕ, List, [], true, IfOk, IfErr};
ghost use Rattle.cose_gate.specs.Findings.{usual};
ghost use Rattle.cose_gate.specs.Run.{Step, Run};
ghost use Rattle.callers.specs.Judging.{Relayed, RelayedRun, Halted, allows};
ghost use Rattle.callers.specs.Sides.{known_of, asked_of};
ghost use Rattle.callers.specs.Tallies.{tally_of};

use crate::judging::KeyIds;
use crate::tally::Tally;
use cose_gate::{Counts, Decoder, End, GateFault, Mem, gate};
use std::alloc::Global;

/// The messages of the input whose key ids are known, each as its canonical encoding, and how many
/// passed and were refused.
///
/// # Errors
/// `Decode` if an item can't be read, and `Memory`. The judge and the tally tell how far it came.
pub fn relay(
    alloc: Global,
    input: &[u8],
    aad: &[u8],
    judge: &mut KeyIds,
    tally: &mut Tally,
) -> Result<(Vec<u8>, Counts), GateFault<End>>
    ensures ok { IfOk result (λ r. Relayed (known_of judge.old) aad.now input.now
        (record { asked = asked_of judge.old; tally = tally_of tally.old })
        (record { asked = asked_of judge.new; tally = tally_of tally.new }) r.0.items r.1) }
    ensures err { IfErr result (Halted (λ _. true) (known_of judge.old) aad.now input.now
        (record { asked = asked_of judge.old; tally = tally_of tally.old })
        (record { asked = asked_of judge.new; tally = tally_of tally.new })) }
    ensures run { (ss : List Step) (rest : List ℕ)
        → Run usual (allows (known_of judge.old)) aad.now 0 input.now ss rest
        → IfOk result (λ r. RelayedRun (known_of judge.old) aad.now ss rest r.0.items r.1) }
    ensures known { known_of judge.new ≡ known_of judge.old }
{
    let mut decoder = Decoder::from(input);
    let mut out = Mem::new(Vec::new(alloc));
    match gate(alloc, &mut decoder, &mut out, tally, aad, judge) {
        Ok(counts) => Ok((out.into_inner(), counts)),
        Err(fault) => Err(fault),
    }
}
