//! A check of signatures and tags that sees the covered bytes whole.
ghost use Rattle.std.specs.Prelude.{◌≡◌, ℕ, List, Option, None, Bool, false};
ghost use Rattle.cose_gate_core.specs.Lent.{subject_of};
ghost use Rattle.cose_gate_core.specs.Questions.{Subject};

use cose_gate_core::About;

/// Verifies signatures or tags: `choose` picks a key by the headers, and `verify` checks the
/// signature under that key. `VerifierJudge` makes a judge of it.
///
/// An implementation says in two ghost members what these two return.
pub trait Verifier {
    /// The key for what a question is about.
    ghost chosen: { Self → Subject → Option ℕ } = { λ _ _. None };

    /// Whether the key verifies the signature over the covered bytes.
    ghost verifies: { Self → ℕ → List ℕ → List ℕ → Bool } = { λ _ _ _ _. false };

    /// The place of the key for this question among the verifier's own keys. If there is none, the
    /// answer is no.
    fn choose(&self, about: &About) -> Option<usize>
        ensures { result ≡ chosen self.now (subject_of about.now) };

    /// Whether this signature or tag over the covered bytes is good under the key at this place.
    fn verify(&self, key: usize, covered: &[u8], signature: &[u8]) -> bool
        ensures { result ≡ verifies self.now key covered.now signature.now };
}
