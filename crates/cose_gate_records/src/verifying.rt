//! A judge by a verifier.
ghost use Rattle.std.specs.Prelude.{◌≡◌};
ghost use Rattle.cose_gate_records.specs.Verifying.{verifier_of};

use crate::verifier::Verifier;
use cose_gate_core::{About, Judge, Log};
use std::alloc::{AllocError, Global};

/// Says yes to the questions whose signature the verifier finds good under the key that it chose.
/// It gathers the covered bytes in one buffer, which serves all questions; of a question without a
/// key it gathers none.
#[derive(Drop)]
pub struct VerifierJudge<V> {
    verifier: V,
    key: Option<usize>,
    covered: Vec<u8>,
    pieces: Log<usize>,
}

impl<V> VerifierJudge<V> {
    /// A judge by this verifier.
    pub fn new(alloc: Global, verifier: V) -> VerifierJudge<V>
        ensures { verifier_of result ≡ verifier }
    {
        VerifierJudge {
            verifier,
            key: None,
            covered: Vec::new(alloc),
            pieces: Log::new(),
        }
    }
}

impl<V: Verifier> Judge for VerifierJudge<V> {
    ghost use Rattle.std.specs.Prelude.{ℕ, List, [], ◌∷◌, ◌++◌, length, None, IsOk, OnOk, OnErr};
    ghost use Rattle.cose_gate_core.specs.Lent.{subject_of};
    ghost use Rattle.cose_gate_core.specs.Questions.{Subject};
    ghost use Rattle.cose_gate_records.specs.Verifying.{verifier_of, IsHeld, accepts};

    ghost Who = { V };

    ghost Told = { Unit {0} };

    ghost who = { verifier_of };

    ghost told = { λ _. tt };

    ghost holds = { IsHeld V.Verifier };

    ghost pieces = { λ judge. judge.pieces.items };

    ghost yes = { accepts V.Verifier };

    ghost decided = { λ told _. told };

    /// Begins a question. It takes no memory.
    fn begin(&mut self, about: &About) -> Result<(), AllocError>
        ensures ready { IsOk result }
        ensures holds { OnOk result
            (IsHeld V.Verifier self.new (subject_of about.now) []) }
        ensures pieces { OnOk result (self.new.pieces.items ≡ []) }
        ensures who { verifier_of self.new ≡ verifier_of self.old }
    {
        self.key = self.verifier.choose(about);
        self.covered.clear();
        self.pieces = Log::new();
        Ok(())
    }

    fn feed(&mut self, piece: &[u8]) -> Result<(), AllocError>
        ensures ready { self.old.key ≡ None → IsOk result }
        ensures holds { OnOk result ((subject : Subject) (bytes : List ℕ)
            → IsHeld V.Verifier self.old subject bytes
            → IsHeld V.Verifier self.new subject (bytes ++ piece.now)) }
        ensures pieces { OnOk result (self.new.pieces.items
            ≡ self.old.pieces.items ++ length piece.now ∷ []) }
        ensures refused { OnErr result (self.new.pieces.items ≡ self.old.pieces.items) }
        ensures who { verifier_of self.new ≡ verifier_of self.old }
    {
        if self.key.is_some() {
            self.covered.extend_from_slice(piece)?;
        }
        self.pieces = self.pieces.and(&piece.len());
        Ok(())
    }

    fn decide(&mut self, signature: &[u8]) -> bool {
        match self.key {
            Some(key) => self.verifier.verify(key, &self.covered, signature),
            None => false,
        }
    }
}
