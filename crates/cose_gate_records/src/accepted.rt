//! A judge by the records of the questions that were accepted.
ghost use Rattle.std.specs.Prelude.{◌≡◌, ◌++◌, ℕ, List, [], ◌∷◌, OnOk, OnErr, IfOk};
ghost use Rattle.std.specs.Prelude.{MatchOption, flat_map, length};
ghost use Rattle.cose_gate_core.specs.Lent.{subject_of};
ghost use Rattle.cose_gate_core.specs.Questions.{Subject};
ghost use Rattle.cose_gate_records.specs.Framing.{framed};
ghost use Rattle.cose_gate_records.specs.Kept.{IsHeld, pieces_of, keys_of};
ghost use Rattle.cose_gate_records.specs.Records.{is_among};

use crate::framing::split;
use crate::held::Held;
use crate::ordered::Ordered;
use cose_gate_core::{About, Judge};
use std::alloc::{AllocError, Global};

/// Says yes to the questions whose records were accepted, and no to any other. It takes no memory
/// to answer. Making it takes time as n log n of the records, and a question as log n.
#[derive(Drop)]
pub struct Accepted<'a> {
    alloc: Global,
    held: Held,
    keys: Ordered<'a>,
}

impl<'a> Accepted<'a> {
    /// A judge by these records, one after another, in any order; `None` if the bytes are no
    /// records.
    ///
    /// # Errors
    /// Only if out of memory.
    pub fn new(alloc: Global, records: &'a [u8]) -> Result<Option<Accepted<'a>>, AllocError>
        ensures { IfOk result (λ judge. MatchOption judge
            ((keys : List (List ℕ)) → records.now ≡ flat_map framed keys → ⊥)
            (λ judge. records.now ≡ flat_map framed (keys_of judge))) }
    {
        match split(alloc, records)? {
            Some(keys) => Ok(Some(Accepted {
                alloc,
                held: Held::new(alloc),
                keys: Ordered::new(keys),
            })),
            None => Ok(None),
        }
    }
}

impl<'a> Judge for Accepted<'a> {
    ghost Who = { List (List ℕ) };

    ghost Told = { Unit {0} };

    ghost who = { keys_of };

    ghost told = { λ _. tt };

    ghost holds = { λ judge subject covered. IsHeld judge.held subject covered };

    ghost pieces = { λ judge. pieces_of judge.held };

    ghost yes = { is_among };

    ghost decided = { λ told _. told };

    fn begin(&mut self, about: &About) -> Result<(), AllocError> {
        self.held.begin(self.alloc, about)
    }

    fn feed(&mut self, piece: &[u8]) -> Result<(), AllocError> {
        self.held.feed(piece)
    }

    fn decide(&mut self, signature: &[u8]) -> bool {
        self.keys.is_among(&self.held, signature)
    }
}
