//! Who is asked.
ghost use Rattle.std.specs.Prelude.{◌≡◌, ℕ, List, [], ◌∷◌, ◌++◌, Bool, OnOk, OnErr, length};
ghost use Rattle.cose_gate_core.specs.Questions.{Subject, Question};
ghost use Rattle.cose_gate_core.specs.Lent.{subject_of};

use crate::about::About;
use std::alloc::AllocError;

/// Answers questions about messages: `begin` says what a question is about, `feed` hands over the
/// covered bytes in pieces, and `decide` hands over the signature or tag and takes the answer.
///
/// An implementation says in its meaning what its answers depend on beside the question (`who`,
/// which never changes), which answer it gives to a question (`yes`), what it keeps of the
/// questions (`told`, and `decided`, which adds one), and when it holds a begun question (`holds`).
///
/// In the gate's clauses a question is asked once it is decided. No clause says that no question is
/// begun or fed in vain, as about an item that is refused: that is read in the code (`asking.rt`)
/// and tested.
pub trait Judge {
    /// What the answers of a judge depend on, beside the question.
    ghost Who: { Type 0 };

    /// What a judge keeps of the questions.
    ghost Told: { Type 0 };

    /// What its answers depend on. No call changes it.
    ghost who: { Self → Who };

    /// What it keeps of the questions so far.
    ghost told: { Self → Told };

    /// Which question it holds, and the covered bytes that were fed.
    ghost holds: { Self → Subject → List ℕ → Type 0 };

    /// The lengths of the pieces that were fed since the last `begin`.
    ghost pieces: { Self → List ℕ };

    /// The answer to a question.
    ghost yes: { Who → Question → Bool };

    /// What it keeps after one more question.
    ghost decided: { Told → Question → Told };

    /// Begins a question, and forgets one that was begun.
    ///
    /// # Errors
    /// Only if out of memory.
    fn begin(&mut self, about: &About) -> Result<(), AllocError>
        ensures holds { OnOk result (holds self.new (subject_of about.now) []) }
        ensures pieces { OnOk result (pieces self.new ≡ []) }
        ensures told { told self.new ≡ told self.old }
        ensures who { who self.new ≡ who self.old };

    /// Takes the next piece of the covered bytes.
    ///
    /// # Errors
    /// Only if out of memory.
    fn feed(&mut self, piece: &[u8]) -> Result<(), AllocError>
        ensures holds { OnOk result ((subject : Subject) (bytes : List ℕ)
            → holds self.old subject bytes → holds self.new subject (bytes ++ piece.now)) }
        ensures pieces { OnOk result (pieces self.new ≡ pieces self.old ++ length piece.now ∷ []) }
        ensures refused { OnErr result (pieces self.new ≡ pieces self.old) }
        ensures told { told self.new ≡ told self.old }
        ensures who { who self.new ≡ who self.old };

    /// Answers the question with this signature or tag.
    fn decide(&mut self, signature: &[u8]) -> bool
        ensures answer { (subject : Subject) (bytes : List ℕ) → holds self.old subject bytes
            → result ≡ yes (who self.old)
            (record { subject = subject; covered = bytes; signature = signature.now }) }
        ensures told { (subject : Subject) (bytes : List ℕ) → holds self.old subject bytes
            → told self.new ≡ decided (told self.old)
            (record { subject = subject; covered = bytes; signature = signature.now }) }
        ensures pieces { pieces self.new ≡ pieces self.old }
        ensures who { who self.new ≡ who self.old };
}
