//! A judge that tells each question.
ghost use Rattle.std.specs.Prelude.{◌≡◌, ◌++◌, ℕ, List, [], ◌∷◌, true, false, IsErr, OnOk, OnErr};
ghost use Rattle.std.specs.Prelude.{MatchOption, is_none, length};
ghost use Rattle.cose_gate_core.specs.Lent.{subject_of};
ghost use Rattle.cose_gate_core.specs.Questions.{Subject};
ghost use Rattle.cose_gate_records.specs.Kept.{IsHeld, pieces_of, told_by, is_lost};
ghost use Rattle.cose_gate_records.specs.Records.{record_of};

use crate::held::Held;
use crate::text::Text;
use cose_gate_core::{About, Judge, Log};
use std::alloc::{AllocError, Global};
use std::mem;

/// Says yes to each question, and keeps its record, one after another.
#[derive(Drop)]
pub struct Asker {
    alloc: Global,
    held: Held,
    pub(crate) text: Text,
}

impl Asker {
    /// A judge that was asked nothing yet.
    pub fn new(alloc: Global) -> Asker
        ensures told { told_by result ≡ [] }
        ensures lost { is_lost result ≡ false }
    {
        Asker {
            alloc,
            held: Held::new(alloc),
            text: Text::Whole(Vec::new(alloc)),
        }
    }

    /// The records of the questions, in order; `None` if they are lost, since it was out of memory
    /// for one.
    pub fn records(&self) -> Option<&[u8]>
        ensures records { MatchOption result (Unit {0})
            (λ records. records.now ≡ told_by self.now) }
        ensures lost { is_none result ≡ is_lost self.now }
    {
        match &self.text {
            Text::Whole(text) => Some(text),
            Text::Lost(_) => None,
        }
    }

    /// Whether the records are lost, since it was out of memory for one.
    fn is_lost(&self) -> bool
        ensures { result ≡ is_lost self.now }
    {
        matches!(self.text, Text::Lost(_))
    }
}

impl Judge for Asker {
    ghost Who = { Unit {0} };

    ghost Told = { List ℕ };

    ghost who = { λ _. tt };

    ghost told = { told_by };

    ghost holds = { λ asker subject covered. IsHeld asker.held subject covered };

    ghost pieces = { λ asker. pieces_of asker.held };

    ghost yes = { λ _ _. true };

    ghost decided = { λ told q. told ++ record_of q };

    /// Begins a question. If it was out of memory for an earlier record, this fails too.
    fn begin(&mut self, about: &About) -> Result<(), AllocError>
        ensures holds { OnOk result (IsHeld self.new.held (subject_of about.now) []) }
        ensures pieces { OnOk result (pieces_of self.new.held ≡ []) }
        ensures told { told_by self.new ≡ told_by self.old }
        ensures lost { is_lost self.old ≡ true → IsErr result }
        ensures stays { is_lost self.new ≡ is_lost self.old }
    {
        if self.is_lost() {
            return Err(AllocError);
        }
        self.held.begin(self.alloc, about)
    }

    fn feed(&mut self, piece: &[u8]) -> Result<(), AllocError> {
        self.held.feed(piece)
    }

    fn decide(&mut self, signature: &[u8]) -> bool {
        let text = mem::replace(&mut self.text, Text::Lost(Log::new()));
        self.text = text.and(&self.held, signature);
        true
    }
}
