//! A begun question.
ghost use Rattle.std.specs.Prelude.{◌≡◌, ◌++◌, ℕ, List, [], ◌∷◌, IfOk, OnOk, OnErr, length};
ghost use Rattle.cose_gate_core.specs.Lent.{subject_of};
ghost use Rattle.cose_gate_core.specs.Questions.{Subject};
ghost use Rattle.cose_gate_records.specs.Digests.{digest_by};
ghost use Rattle.cose_gate_records.specs.Framing.{framed, key_by};
ghost use Rattle.cose_gate_records.specs.Kept.{IsHeld, pieces_of};
ghost use Rattle.cose_gate_records.specs.Order.{bytes_cmp};

use crate::digest::digest_over;
use crate::framing::{append, order_to, order_to_framed};
use crate::front::front_of;
use crate::text::length_of_key;
use cose_gate_core::{About, Log};
use sha2::{Digest, Sha256};
use std::alloc::{AllocError, Global};
use std::cmp::Ordering;

/// What is held of a question: the front of its key, which says what it is about, and the covered
/// bytes so far.
#[derive(Drop)]
pub struct Held {
    pub(crate) front: Vec<u8>,
    pub(crate) covered: Vec<u8>,
    pub(crate) pieces: Log<usize>,
}

impl Held {
    /// No question is held.
    pub fn new(alloc: Global) -> Held {
        Held {
            front: Vec::new(alloc),
            covered: Vec::new(alloc),
            pieces: Log::new(),
        }
    }

    /// Begins a question, and forgets one that was begun.
    ///
    /// # Errors
    /// Only if out of memory.
    pub fn begin(&mut self, alloc: Global, about: &About) -> Result<(), AllocError>
        ensures holds { OnOk result (IsHeld self.new (subject_of about.now) []) }
        ensures pieces { OnOk result (pieces_of self.new ≡ []) }
    {
        self.front = front_of(alloc, about)?;
        self.covered.clear();
        self.pieces = Log::new();
        Ok(())
    }

    /// Takes the next piece of the covered bytes.
    ///
    /// # Errors
    /// Only if out of memory.
    pub fn feed(&mut self, piece: &[u8]) -> Result<(), AllocError>
        ensures holds { OnOk result ((subject : Subject) (covered : List ℕ)
            → IsHeld self.old subject covered → IsHeld self.new subject (covered ++ piece.now)) }
        ensures pieces { OnOk result
            (pieces_of self.new ≡ pieces_of self.old ++ length piece.now ∷ []) }
        ensures refused { OnErr result (pieces_of self.new ≡ pieces_of self.old) }
    {
        self.covered.extend_from_slice(piece)?;
        self.pieces = self.pieces.and(&piece.len());
        Ok(())
    }

    /// The record of the question with this signature.
    ///
    /// # Errors
    /// Only if out of memory.
    pub fn record(&self, alloc: Global, signature: &[u8]) -> Result<Vec<u8>, AllocError>
        ensures { IfOk result (λ r. r.items
            ≡ framed (key_by self.now.front.items self.now.covered.items signature.now)) }
    {
        let mut record = Vec::new(alloc);
        record.extend_from_slice(&length_of_key(self, signature))?;
        record.extend_from_slice(&self.front)?;
        append(&mut record, &self.covered)?;
        append(&mut record, signature)?;
        Ok(record)
    }

    /// The covered bytes so far.
    pub fn covered(&self) -> &[u8]
        ensures { result.now ≡ self.now.covered.items }
    {
        &self.covered
    }

    /// The digest of the question with this signature.
    pub fn digest(&self, signature: &[u8]) -> [u8; 32]
        ensures { result
            ≡ digest_by self.now.front.items self.now.covered.items signature.now }
    {
        digest_over(&self.front, &Sha256::digest(&self.covered), signature)
    }

    /// How this key compares with the key of the question with this signature, which is not built.
    pub(crate) fn order(&self, key: &[u8], signature: &[u8]) -> Ordering
        ensures { result ≡ bytes_cmp key.now
            (key_by self.now.front.items self.now.covered.items signature.now) }
    {
        let (order, rest) = order_to(key, &self.front);
        if order.is_ne() {
            return order;
        }
        let (order, rest) = order_to_framed(rest, &self.covered);
        if order.is_ne() {
            return order;
        }
        let (order, rest) = order_to_framed(rest, signature);
        order.then(rest.len().cmp(&0))
    }
}
