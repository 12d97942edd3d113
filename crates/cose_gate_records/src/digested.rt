//! A judge by the digests of the questions that were accepted.
ghost use Rattle.std.specs.Prelude.{◌≡◌, ◌*◌, ◌++◌, ℕ, List, [], ◌∷◌, All, OnOk, OnErr, IfOk};
ghost use Rattle.std.specs.Prelude.{MatchOption, length, map};
ghost use Rattle.cose_gate_core.specs.Lent.{subject_of};
ghost use Rattle.cose_gate_core.specs.Questions.{Subject};
ghost use Rattle.cose_gate_records.specs.Digests.{AreDigests, IsHashed};
ghost use Rattle.cose_gate_records.specs.Digests.{digests_of, is_digest_among};

use crate::digest::digest_over;
use crate::front::front_of;
use crate::ordered::Ordered;
use cose_gate_core::{About, Judge, Log};
use sha2::{Digest, Sha256};
use std::alloc::{AllocError, Global};
use std::mem;

/// Says yes to the questions whose digests were accepted, and no to any other. It hashes the
/// covered bytes as they come, and takes no memory to answer. Making it takes time as n log n of
/// the digests, and an answer as log n.
#[derive(Drop)]
pub struct Digested<'a> {
    alloc: Global,
    front: Vec<u8>,
    hasher: Sha256,
    pieces: Log<usize>,
    digests: Ordered<'a>,
}

/// The digests that the bytes are, 32 bytes each; `None` if they are no such bytes.
fn split(alloc: Global, bytes: &[u8]) -> Result<Option<Vec<&[u8]>>, AllocError>
    ensures { IfOk result (λ digests. MatchOption digests
        ((n : ℕ) → length bytes.now ≡ n * 32 → ⊥)
        (λ v. AreDigests bytes.now (map (λ d. d.now) v.items))) }
{
    let mut digests: Vec<&[u8]> = Vec::new(alloc);
    let mut rest = bytes;
    while rest.len() > 0 {
        let Some((digest, more)) = rest.split_at_checked(32) else {
            return Ok(None);
        };
        digests.push(digest)?;
        rest = more;
    }
    Ok(Some(digests))
}

impl<'a> Digested<'a> {
    /// A judge by these digests, one after another, in any order; `None` if the bytes are no
    /// digests of 32 bytes.
    ///
    /// # Errors
    /// Only if out of memory.
    pub fn new(alloc: Global, digests: &'a [u8]) -> Result<Option<Digested<'a>>, AllocError>
        ensures { IfOk result (λ judge. MatchOption judge
            ((n : ℕ) → length digests.now ≡ n * 32 → ⊥)
            (λ judge. AreDigests digests.now (digests_of judge))) }
    {
        match split(alloc, digests)? {
            Some(digests) => Ok(Some(Digested {
                alloc,
                front: Vec::new(alloc),
                hasher: Sha256::new(),
                pieces: Log::new(),
                digests: Ordered::new(digests),
            })),
            None => Ok(None),
        }
    }
}

impl<'a> Judge for Digested<'a> {
    ghost Who = { List (List ℕ) };

    ghost Told = { Unit {0} };

    ghost who = { digests_of };

    ghost told = { λ _. tt };

    ghost holds = { IsHashed };

    ghost pieces = { λ judge. judge.pieces.items };

    ghost yes = { is_digest_among };

    ghost decided = { λ told _. told };

    fn begin(&mut self, about: &About) -> Result<(), AllocError> {
        self.front = front_of(self.alloc, about)?;
        self.hasher = Sha256::new();
        self.pieces = Log::new();
        Ok(())
    }

    fn feed(&mut self, piece: &[u8]) -> Result<(), AllocError> {
        self.hasher.update(piece);
        self.pieces = self.pieces.and(&piece.len());
        Ok(())
    }

    fn decide(&mut self, signature: &[u8]) -> bool {
        let hash = mem::replace(&mut self.hasher, Sha256::new()).finalize();
        self.digests
            .has(&digest_over(&self.front, &hash, signature))
    }
}
