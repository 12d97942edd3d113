//! The gate by the rules of `cose_rules`, with a check of signatures of one's own. It names
//! `cose_gate` and `cose_ruled`.
ghost use Rattle.std.specs.Prelude.{IfOk, map};
ghost use Rattle.std.specs.Str.{bytes_eq};
ghost use Rattle.cose_gate.specs.KeyView.{key_view};
ghost use Rattle.callers.specs.Asking.{IsPassedBy};
ghost use Rattle.callers.specs.Ruling.{grants};

use cose_gate::{CoseKey, Counts, Decoder, End, GateFault, Mem, Silent, gate};
use cose_ruled::{RuledJudge, Verify};
use std::alloc::Global;

/// Finds a signature good that is the covered bytes. Your call of a library is in its place.
#[derive(Clone, Copy)]
pub struct Copies;

impl Verify for Copies {
    ghost verifies = { λ _ _ _ covered signature. bytes_eq covered signature };

    fn verify(&self, _algorithm: i64, _key: &CoseKey, covered: &[u8], signature: &[u8]) -> bool {
        covered == signature
    }
}

/// The messages that the rules allow under these keys and whose signatures are good, each as its
/// canonical encoding, and how many passed and were refused.
///
/// # Errors
/// Those of `gate`.
pub fn pass_ruled(
    alloc: Global,
    input: &[u8],
    aad: &[u8],
    keys: &[CoseKey],
) -> Result<(Vec<u8>, Counts), GateFault<End>>
    ensures { IfOk result (λ r. IsPassedBy (grants (map key_view keys.now))
        aad.now input.now r.0.items r.1) }
{
    let mut judge = RuledJudge::new(alloc, Copies, keys);
    let mut decoder = Decoder::from(input);
    let mut out = Mem::new(Vec::new(alloc));
    match gate(alloc, &mut decoder, &mut out, &mut Silent, aad, &mut judge) {
        Ok(counts) => Ok((out.into_inner(), counts)),
        Err(fault) => Err(fault),
    }
}
