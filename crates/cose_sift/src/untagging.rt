//! The tags around an item that only say what it is.
ghost use Rattle.cbor_walk.specs.Walking.{IsOne};
ghost use Rattle.cose_sift.specs.Untagging.{Content};

use cose_rules::untagged;

/// What is written of an item: what is in such tags if they are taken off, and else all of it.
#[tactic(auto, using(crate::proofs::Untagged::one_within))]
pub fn content_of(untag: bool, item: &[u8]) -> &[u8]
    requires { IsOne item.now }
    ensures content { Content «untag» item.now result.now }
    ensures one { IsOne result.now }
{
    if untag { untagged(item) } else { item }
}
