//! The digest that stands for a question.
ghost use Rattle.std.specs.Prelude.{◌≡◌};
ghost use Rattle.sha2.specs.Sha256.{sha256};
ghost use Rattle.cose_gate_records.specs.Framing.{key_by};

use crate::framing::eight;
use sha2::{Digest, Sha256};

/// The digest of a question by the front of its key, SHA-256 of the covered bytes, and the
/// signature.
pub(crate) fn digest_over(front: &[u8], hash: &[u8], signature: &[u8]) -> [u8; 32]
    ensures { result ≡ sha256 (key_by front.now hash.now signature.now) }
{
    let mut hasher = Sha256::new_with_prefix(front);
    hasher.update(&eight(hash.len()));
    hasher.update(hash);
    hasher.update(&eight(signature.len()));
    hasher.update(signature);
    hasher.finalize()
}
