//! A judge that records its questions.
ghost use Rattle.std.specs.Prelude.{◌≡◌, ℕ, List, [], ◌∷◌, ◌++◌, OnOk, OnErr, length, map, Option};
ghost use Rattle.cose_gate_core.specs.Recorded.{AskedFields, asked_view, kept_of, front_of};
ghost use Rattle.cose_gate_core.specs.Recorded.{is_other, bytes_of};

use crate::about::{About, MessageKind};
use crate::judge::Judge;
use ciborium_ll::log::Log;
use std::alloc::{AllocError, Global};
use std::mem;

/// A question that was asked.
#[derive(Debug, PartialEq, Eq, Drop)]
pub struct Asked {
    /// The kind of the message.
    pub kind: MessageKind,
    /// The bytes that the signature or tag covers.
    pub structure: Vec<u8>,
    /// The length of the signature or tag.
    pub tag_len: usize,
    /// Its first eight bytes, with zeros in place of those that are missing.
    pub tag: [u8; 8],
}

/// Records its questions, and says no to one signature alone.
#[derive(Drop)]
pub struct Recorder {
    no: Option<Vec<u8>>,
    asked: Vec<Asked>,
    kind: MessageKind,
    structure: Vec<u8>,
    pieces: Log<usize>,
}

/// The first eight bytes.
fn front(signature: &[u8]) -> [u8; 8]
    ensures { result ≡ front_of signature.now }
{
    let mut front = [0; 8];
    let count = signature.len().min(8);
    front[..count].copy_from_slice(&signature[..count]);
    front
}

impl Recorder {
    ghost use Rattle.cose_gate_core.specs.Recorded.{asked_of, refused_of};

    /// A recorder with no question yet, that says no to the signature `no`, if there is one, and
    /// yes to any other.
    pub fn new(alloc: Global, no: Option<Vec<u8>>) -> Recorder
        ensures asked { asked_of result ≡ [] }
        ensures no { refused_of result ≡ bytes_of no }
    {
        Recorder {
            no,
            asked: Vec::new(alloc),
            kind: MessageKind::Sign1,
            structure: Vec::new(alloc),
            pieces: Log::new(),
        }
    }

    /// The questions that were asked, in order.
    pub fn asked(&self) -> &[Asked]
        ensures { map asked_view result.now ≡ asked_of self.now }
    {
        &self.asked
    }
}

impl Judge for Recorder {
    ghost use Rattle.cose_gate_core.specs.Lent.{subject_of};
    ghost use Rattle.cose_gate_core.specs.Questions.{Subject};
    ghost use Rattle.cose_gate_core.specs.Recorded.{asked_of, refused_of, pieces_of, holds_question, IsKept};

    ghost Who = { Option (List ℕ) };

    ghost Told = { List AskedFields };

    ghost who = { refused_of };

    ghost told = { asked_of };

    ghost holds = { holds_question };

    ghost pieces = { pieces_of };

    ghost yes = { λ no q. is_other no q.signature };

    ghost decided = { λ told q. told ++ kept_of q ∷ [] };

    fn begin(&mut self, about: &About) -> Result<(), AllocError>
        ensures holds { OnOk result (holds_question self.new (subject_of about.now) []) }
        ensures pieces { OnOk result (pieces_of self.new ≡ []) }
        ensures told { asked_of self.new ≡ asked_of self.old }
        ensures who { refused_of self.new ≡ refused_of self.old }

        // A call that fails leaves the question that is held.
        ensures kept { OnErr result (IsKept self.old self.new) }
    {
        self.asked.reserve(1)?;
        self.structure.clear();
        self.kind = about.kind;
        self.pieces = Log::new();
        Ok(())
    }

    fn feed(&mut self, piece: &[u8]) -> Result<(), AllocError>
        ensures holds { OnOk result ((subject : Subject) (bytes : List ℕ)
            → holds_question self.old subject bytes
            → holds_question self.new subject (bytes ++ piece.now)) }
        ensures pieces { OnOk result (pieces_of self.new ≡ pieces_of self.old
            ++ length piece.now ∷ []) }
        ensures refused { OnErr result (pieces_of self.new ≡ pieces_of self.old) }
        ensures told { asked_of self.new ≡ asked_of self.old }
        ensures who { refused_of self.new ≡ refused_of self.old }

        // A call that fails leaves the question that is held.
        ensures kept { OnErr result (IsKept self.old self.new) }
    {
        self.structure.extend_from_slice(piece)?;
        self.pieces = self.pieces.and(&piece.len());
        Ok(())
    }

    fn decide(&mut self, signature: &[u8]) -> bool {
        let spare = Vec::new(*self.structure.allocator());
        let structure = mem::replace(&mut self.structure, spare);
        let _ = self.asked.push(Asked {
            kind: self.kind,
            structure,
            tag_len: signature.len(),
            tag: front(signature),
        });
        match &self.no {
            Some(no) => no.as_slice() != signature,
            None => true,
        }
    }
}
