//! Messages signed, tagged and verified. It names `coset`, and `cose_hmac` for a key of
//! its own.
ghost use Rattle.std.specs.Prelude.{◌≡◌, ◌↔◌, ℕ, List, None, Some, IsTrue, IfOk, MatchResult};
ghost use Rattle.coset.specs.Fields.{protected};
ghost use Rattle.coset.specs.LimitsView.{nesting, layers};
ghost use Rattle.coset.specs.Reading.{HasItem, Tagged};
ghost use Rattle.coset.specs.SignedFields.{Sign1Fields};
ghost use Rattle.coset.specs.SignedShapes.{HasSign1};
ghost use Rattle.coset.specs.SignedStructure.{sign1_covered};
ghost use Rattle.coset.specs.SignedView.{sign1_view};
ghost use Rattle.coset.specs.View.{header_view};
ghost use Rattle.callers.specs.Signing.{IsGood, Verified};

use cose_hmac::{hmac_sha256, same_tag};
use coset::{CoseSign1, CoseSign1Builder, Fault, Header, TaggedCborSerializable};
use std::alloc::{AllocError, Global};

/// A key of the caller: which signatures are good under it, over which bytes.
pub trait Key {
    /// Over these bytes this signature or tag is good.
    ghost good: { Self → List ℕ → List ℕ → Type 0 };

    /// A good signature or tag over the bytes.
    ///
    /// # Errors
    /// Only if out of memory.
    fn sign(&self, alloc: Global, covered: &[u8]) -> Result<Vec<u8>, AllocError>
        ensures { IfOk result (λ signature. good self.now covered.now signature.items) };

    /// Whether a signature or tag is good over the bytes.
    fn verifies(&self, signature: &[u8], covered: &[u8]) -> bool
        ensures { IsTrue result ↔ good self.now covered.now signature.now };
}

/// Why a message is not taken.
#[derive(Debug, Clone, Copy, PartialEq, Eq)]
pub enum Refused {
    /// Its signature or tag is not good under the key.
    NotGood,
    /// It doesn't carry its payload.
    Detached,
}

/// What the key says, as the calls of a message take it.
fn key_answer<K: Key>(key: &K, signature: &[u8], covered: &[u8]) -> Result<(), Refused>
    ensures { MatchResult result (λ _. K.good key.now covered.now signature.now)
        (λ _. K.good key.now covered.now signature.now → ⊥) }
{
    if key.verifies(signature, covered) {
        Ok(())
    } else {
        Err(Refused::NotGood)
    }
}

/// A message that is signed by the key.
///
/// # Errors
/// `Cose` if the header can't be written, or if out of memory.
pub fn signed<K: Key>(
    alloc: Global,
    header: Header,
    payload: Vec<u8>,
    aad: &[u8],
    key: &K,
) -> Result<CoseSign1, Fault<AllocError>>
    ensures { IfOk result (λ m. ((sign1_view m).protected ≡ protected None (header_view header))
        × ((sign1_view m).payload ≡ Some payload.items)
        × IsGood (K.good key.now) (sign1_covered (sign1_view m) aad.now) (sign1_view m).signature) }
{
    let builder = CoseSign1Builder::new(alloc)
        .protected(header)
        .payload(payload)
        .try_create_signature(alloc, aad, move |covered| key.sign(alloc, covered))?;
    Ok(builder.build())
}

/// Whether the signature of a message is good: what the key says of it, over exactly the bytes that
/// it covers.
///
/// # Errors
/// `Caller` if it isn't. `Cose` if the protected header can't be written, or if out of memory.
pub fn verified<K: Key>(
    alloc: Global,
    message: &CoseSign1,
    aad: &[u8],
    key: &K,
) -> Result<(), Fault<Refused>>
    ensures { Verified (K.good key.now) (sign1_covered (sign1_view message.now) aad.now)
        message.now.signature.items result }
{
    message.verify_signature(alloc, aad, move |signature, covered| {
        key_answer(key, signature, covered)
    })
}

/// The payload of a tagged message, if its signature is good.
///
/// # Errors
/// `Caller` if it isn't, or the payload is carried elsewhere. `Cose` if the bytes are no such
/// message, or if out of memory.
pub fn signed_payload<K: Key>(
    alloc: Global,
    bytes: &[u8],
    aad: &[u8],
    key: &K,
) -> Result<Vec<u8>, Fault<Refused>>
    ensures { IfOk result (λ payload. (m : Sign1Fields)
        × HasItem (Tagged 18 (λ t f. HasSign1 nesting t f layers)) bytes.now m
        × (m.payload ≡ Some payload.items)
        × IsGood (K.good key.now) (sign1_covered m aad.now) m.signature) }
{
    let message = CoseSign1::from_tagged_slice(alloc, bytes)?;
    verified(alloc, &message, aad, key)?;
    message.payload.ok_or(Fault::Caller(Refused::Detached))
}

/// A secret that two sides share: its tags are those of HMAC with SHA-256 (RFC 2104).
#[derive(Drop)]
pub struct Secret {
    pub bytes: Vec<u8>,
}

impl Key for Secret {
    ghost use Rattle.cose_hmac.specs.Hmac.{hmac};

    ghost good = { λ s covered tag. hmac s.bytes.items covered ≡ tag };

    fn sign(&self, alloc: Global, covered: &[u8]) -> Result<Vec<u8>, AllocError> {
        hmac_sha256(&self.bytes, covered).to_vec(alloc)
    }

    fn verifies(&self, signature: &[u8], covered: &[u8]) -> bool {
        same_tag(&hmac_sha256(&self.bytes, covered), signature)
    }
}
