//! A judge by rules and a check of signatures.
ghost use Rattle.std.specs.Prelude.{◌≡◌, ℕ, List, map};
ghost use Rattle.coset_keys.specs.View.{key_view};
ghost use Rattle.cose_rules.specs.Ruled.{ruling_view};
ghost use Rattle.cose_gate_core.specs.Questions.{Subject};
ghost use Rattle.cose_ruled.specs.Judging.{IsHeld, ruled, ruling_by, reason, who_of};

use crate::ruling::ruled;
use cose_gate_core::{About, Judge, Log};
use cose_rules::{Refusal, Ruling, Scheme, Verify, is_good};
use coset_keys::CoseKey;
use std::alloc::{AllocError, Global};

/// Says yes to the questions that the rules allow, and whose signature or MAC the verifier finds
/// good under one of the keys that they allow. It gathers the covered bytes in one buffer, which
/// serves all questions; of a question that the rules refuse it gathers none.
#[derive(Drop)]
pub struct RuledJudge<'a, V> {
    verifier: V,
    keys: &'a [CoseKey],
    /// By which scheme it asks, or why it doesn't.
    asked: Result<Scheme, Refusal>,
    /// The key id of the message.
    id: Vec<u8>,
    covered: Vec<u8>,
    pieces: Log<usize>,
}

impl<'a, V> RuledJudge<'a, V> {
    /// A judge by this verifier and the keys of a set.
    pub fn new(alloc: Global, verifier: V, keys: &'a [CoseKey]) -> RuledJudge<'a, V>
        ensures { who_of result ≡ record { verifier = verifier; keys = map key_view keys.now } }
    {
        RuledJudge {
            verifier,
            keys,
            asked: Err(Refusal::NoAlgorithm),
            id: Vec::new(alloc),
            covered: Vec::new(alloc),
            pieces: Log::new(),
        }
    }

    /// Why the rules refuse the question that it holds; none if they allow it.
    pub fn refusal(&self) -> Option<Refusal>
        ensures { (subject : Subject) (covered : List ℕ) → IsHeld self.now subject covered
            → result ≡ reason (ruled (who_of self.now).keys subject) }
    {
        self.asked.err()
    }
}

/// The ruling that is held in these parts.
fn ruling_by(id: &[u8], asked: Result<Scheme, Refusal>) -> Ruling<'_>
    ensures { ruling_view result ≡ ruling_by id.now asked }
{
    match asked {
        Ok(scheme) => Ruling::Ask(scheme, id),
        Err(refusal) => Ruling::Refuse(refusal),
    }
}

impl<V: Verify> Judge for RuledJudge<'_, V> {
    ghost use Rattle.std.specs.Prelude.{[], ◌∷◌, ◌++◌, length, Err, IsOk, OnOk, OnErr};
    ghost use Rattle.cose_gate_core.specs.Lent.{subject_of};
    ghost use Rattle.cose_ruled.specs.Judging.{RuledBy, accepts};

    ghost Who = { RuledBy V };

    ghost Told = { Unit {0} };

    ghost who = { who_of };

    ghost told = { λ _. tt };

    ghost holds = { IsHeld };

    ghost pieces = { λ judge. judge.pieces.items };

    ghost yes = { accepts V.Verify };

    ghost decided = { λ told _. told };

    fn begin(&mut self, about: &About) -> Result<(), AllocError>
        ensures holds { OnOk result (IsHeld self.new (subject_of about.now) []) }
        ensures pieces { OnOk result (self.new.pieces.items ≡ []) }
        ensures who { who_of self.new ≡ who_of self.old }
    {
        self.covered.clear();
        self.id.clear();
        self.pieces = Log::new();
        match ruled(self.keys, about) {
            Ruling::Ask(scheme, id) => {
                self.asked = Ok(scheme);
                self.id.extend_from_slice(id)
            }
            Ruling::Refuse(refusal) => {
                self.asked = Err(refusal);
                Ok(())
            }
        }
    }

    fn feed(&mut self, piece: &[u8]) -> Result<(), AllocError>
        ensures holds { OnOk result ((subject : Subject) (covered : List ℕ)
            → IsHeld self.old subject covered → IsHeld self.new subject (covered ++ piece.now)) }
        ensures pieces { OnOk result (self.new.pieces.items
            ≡ self.old.pieces.items ++ length piece.now ∷ []) }
        ensures refused { OnErr result (self.new.pieces.items ≡ self.old.pieces.items) }
        ensures who { who_of self.new ≡ who_of self.old }
    {
        if self.asked.is_ok() {
            self.covered.extend_from_slice(piece)?;
        }
        self.pieces = self.pieces.and(&piece.len());
        Ok(())
    }

    fn decide(&mut self, signature: &[u8]) -> bool {
        is_good(
            &self.verifier,
            self.keys,
            ruling_by(&self.id, self.asked),
            &self.covered,
            signature,
        )
    }
}
