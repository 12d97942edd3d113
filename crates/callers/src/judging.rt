//! A judge by key ids. `cose_gate` is the one crate that it names.
ghost use Rattle.std.specs.Prelude.{◌≡◌, ℕ, List, [], ◌∷◌, ◌++◌, ◌<◌, map, vec_len, vec_capacity};
ghost use Rattle.std.specs.List.{list_any};
ghost use Rattle.std.specs.Str.{bytes_eq};
ghost use Rattle.cose_gate.specs.HeaderView.{header_view, protected_view};
ghost use Rattle.cose_gate.specs.Lent.{subject_of};
ghost use Rattle.callers.specs.Judging.{header_key_id, protected_key_id, key_id_of, knows, allows};

use cose_gate::{About, Header, Judge, Log, ProtectedHeader};
use std::alloc::{AllocError, Global};
use std::mem;

/// Says yes to a message whose key id is one of those that it knows. It looks at no signature: put
/// it in front of a judge that does.
#[derive(Drop)]
pub struct KeyIds<'a> {
    known: &'a [&'a [u8]],
    asked: Vec<Vec<u8>>,
    key_id: Vec<u8>,
    pieces: Log<usize>,
}

/// Whether the ids hold this one.
fn is_listed(ids: &[&[u8]], id: &[u8]) -> bool
    ensures { result ≡ list_any (λ known. bytes_eq known.now id.now) ids.now }
{
    ids.iter().any(|known| *known == id)
}

/// Whether the ids hold this one. An empty one is no id.
fn is_known(ids: &[&[u8]], id: &[u8]) -> bool
    ensures { result ≡ knows (map (λ known. known.now) ids.now) id.now }
{
    !id.is_empty() && is_listed(ids, id)
}

/// The key id of a header; an empty one is none.
fn id_of(header: &Header) -> &[u8]
    ensures { result.now ≡ header_key_id (header_view header.now) }
{
    header.key_id.as_slice()
}

/// The key id of a protected header; an empty one is none.
fn protected_id_of(protected: &ProtectedHeader) -> &[u8]
    ensures { result.now ≡ protected_key_id (protected_view protected.now) }
{
    id_of(&protected.header)
}

/// The key id of a message: the protected one if there is one, else the other.
fn key_id<'a>(about: &About<'a>) -> &'a [u8]
    ensures { result.now ≡ key_id_of (subject_of about.now) }
{
    let protected = protected_id_of(about.protected);
    if protected.is_empty() {
        id_of(about.unprotected)
    } else {
        protected
    }
}

impl<'a> KeyIds<'a> {
    ghost use Rattle.callers.specs.Sides.{known_of, asked_of};

    /// A judge that knows these ids, and was asked nothing yet.
    pub fn new(alloc: Global, known: &'a [&'a [u8]]) -> KeyIds<'a>
        ensures known { known_of result ≡ map (λ id. id.now) known.now }
        ensures asked { asked_of result ≡ [] }
    {
        KeyIds {
            known,
            asked: Vec::new(alloc),
            key_id: Vec::new(alloc),
            pieces: Log::new(),
        }
    }

    /// The key ids of the messages that it was asked about, in order.
    pub fn asked(&self) -> &[Vec<u8>]
        ensures { map (λ id. id.items) result.now ≡ asked_of self.now }
    {
        &self.asked
    }
}

impl Judge for KeyIds<'_> {
    ghost use Rattle.callers.specs.Sides.{known_of, asked_of};

    ghost Who = { List (List ℕ) };

    ghost Told = { List (List ℕ) };

    ghost who = { known_of };

    ghost told = { asked_of };

    ghost holds = { λ k subject bytes. (k.key_id.items ≡ key_id_of subject)
        × (vec_len k.asked < vec_capacity k.asked) };

    ghost pieces = { λ k. k.pieces.items };

    ghost yes = { allows };

    ghost decided = { λ told q. told ++ key_id_of q.subject ∷ [] };

    fn begin(&mut self, about: &About) -> Result<(), AllocError> {
        self.asked.reserve(1)?;
        self.key_id.clear();
        self.key_id.extend_from_slice(key_id(about))?;
        self.pieces = Log::new();
        Ok(())
    }

    fn feed(&mut self, piece: &[u8]) -> Result<(), AllocError> {
        self.pieces = self.pieces.and(&piece.len());
        Ok(())
    }

    fn decide(&mut self, _signature: &[u8]) -> bool {
        let spare = Vec::new(*self.key_id.allocator());
        let id = mem::replace(&mut self.key_id, spare);
        let known = is_known(self.known, &id);
        let _ = self.asked.push(id);
        known
    }
}
