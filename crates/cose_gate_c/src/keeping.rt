//! A judge that keeps of a question what its record shows, but not the payload.
ghost use Rattle.std.specs.Prelude.{◌≡◌, Some, true, IfOk};
ghost use Rattle.cose_gate.specs.Lent.{subject_of};
ghost use Rattle.cose_gate.specs.Records as spec;
ghost use Rattle.cose_gate_c.specs.Keeping.{IsKeeping, Told, nothing_told, signature_held};
ghost use Rattle.cose_gate_c.specs.Keeping.{told_of_keeper, told_with};

use cose_gate::{About, Judge, Log};
use cose_gate_records::{Held, logged};
use std::alloc::{AllocError, Global};

/// The signature or tag of a question.
#[derive(Drop)]
pub(crate) enum Signature {
    /// It is not there yet.
    Awaited,
    /// It was handed over.
    Kept(Vec<u8>),
    /// It was handed over, and memory ran out for it. Only proofs read which it was.
    Lost(Log<u8>),
}

/// Says yes to one question, and keeps the front of its key, the first covered bytes, as many as
/// there is room for, their number, and the signature or tag.
#[derive(Drop)]
pub(crate) struct Keeper {
    alloc: Global,
    /// How many covered bytes are kept at most.
    room: usize,
    pub(crate) front: Vec<u8>,
    pub(crate) kept: Vec<u8>,
    /// How many bytes are covered.
    pub(crate) covered: usize,
    pub(crate) signature: Signature,
    pieces: Log<usize>,
}

impl Keeper {
    /// A judge that was asked nothing yet, with room for so many covered bytes.
    pub(crate) fn new(alloc: Global, room: usize) -> Keeper
        ensures { told_of_keeper result ≡ nothing_told room }
    {
        Keeper {
            alloc,
            room,
            front: Vec::new(alloc),
            kept: Vec::new(alloc),
            covered: 0,
            signature: Signature::Awaited,
            pieces: Log::new(),
        }
    }
}

/// The front of the key of a question: what is in its record between its length and the covered
/// bytes.
fn front_of(alloc: Global, about: &About) -> Result<Vec<u8>, AllocError>
    ensures { IfOk result (λ front. front.items ≡ spec.front_of (subject_of about.now)) }
{
    let mut held = Held::new(alloc);
    held.begin(alloc, about)?;
    let record = held.record(alloc, &[])?;
    let mut front = Vec::new(alloc);
    front.extend_from_slice(&record[8..record.len() - 16])?;
    Ok(front)
}

/// The signature, unless out of memory.
fn keep(alloc: Global, signature: &[u8]) -> Signature
    ensures { signature_held result ≡ Some signature.now }
{
    let mut kept = Vec::new(alloc);
    match kept.extend_from_slice(signature) {
        Ok(()) => Signature::Kept(kept),
        Err(AllocError) => Signature::Lost(logged(Log::new(), signature)),
    }
}

impl Judge for Keeper {
    ghost Who = { Unit {0} };

    ghost Told = { Told };

    ghost who = { λ _. tt };

    ghost told = { told_of_keeper };

    ghost holds = { IsKeeping };

    ghost pieces = { λ k. k.pieces.items };

    ghost yes = { λ _ _. true };

    ghost decided = { told_with };

    /// Begins the question. If there was one, this fails.
    fn begin(&mut self, about: &About) -> Result<(), AllocError> {
        let Signature::Awaited = self.signature else {
            return Err(AllocError);
        };
        self.front = front_of(self.alloc, about)?;
        self.kept.clear();
        self.covered = 0;
        self.pieces = Log::new();
        Ok(())
    }

    fn feed(&mut self, piece: &[u8]) -> Result<(), AllocError> {
        let Signature::Awaited = self.signature else {
            return Err(AllocError);
        };
        let Some(covered) = self.covered.checked_add(piece.len()) else {
            return Err(AllocError);
        };
        let more = self.room.saturating_sub(self.kept.len()).min(piece.len());
        self.kept.extend_from_slice(&piece[..more])?;
        self.covered = covered;
        self.pieces = self.pieces.and(&piece.len());
        Ok(())
    }

    fn decide(&mut self, signature: &[u8]) -> bool {
        self.signature = keep(self.alloc, signature);
        true
    }
}
