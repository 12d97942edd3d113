//! An encrypted message opened by a cipher of one's own. `coset_messages` is the one crate that it
//! names.
ghost use Rattle.std.specs.Prelude.{◌≡◌, ℕ, List, IfOk, IsSomeAnd};
ghost use Rattle.coset_messages.specs.EncryptedFields.{Encrypt0Fields};
ghost use Rattle.coset_messages.specs.EncryptedShapes.{HasEncrypt0};
ghost use Rattle.coset_messages.specs.EncryptedStructure.{encrypt0_covered};
ghost use Rattle.coset_messages.specs.LimitsView.{nesting, layers};
ghost use Rattle.coset_messages.specs.Reading.{HasItem, Tagged};

use coset_messages::{CoseEncrypt0, Fault, TaggedCborSerializable};
use std::alloc::Global;

/// Why a message is not opened.
#[derive(Debug, Clone, Copy, PartialEq, Eq)]
pub enum NotOpened {
    /// Its ciphertext isn't good under the key.
    NotGood,
    /// It doesn't carry its ciphertext.
    Detached,
}

/// A cipher with a key: which ciphertexts it opens, with which bytes covered, to which plaintexts.
pub trait Cipher {
    /// With these bytes covered, this ciphertext is of this plaintext.
    ghost opens: { Self → List ℕ → List ℕ → List ℕ → Type 0 };

    /// The plaintext.
    ///
    /// # Errors
    /// `NotGood`, also if out of memory.
    fn open(&self, alloc: Global, covered: &[u8], ciphertext: &[u8]) -> Result<Vec<u8>, NotOpened>
        ensures { IfOk result (λ text. opens self.now covered.now ciphertext.now text.items) };
}

/// The plaintext of a tagged COSE_Encrypt0: what the cipher makes of its ciphertext, with exactly
/// the bytes covered that RFC 9052, section 5.3, says.
///
/// # Errors
/// `Caller` if the cipher doesn't open it, or it carries no ciphertext. `Cose` if the bytes are no
/// such message, or memory ran out.
pub fn opened<C: Cipher>(
    alloc: Global,
    bytes: &[u8],
    aad: &[u8],
    cipher: &C,
) -> Result<Vec<u8>, Fault<NotOpened>>
    ensures { IfOk result (λ text. (m : Encrypt0Fields)
        × HasItem (Tagged 16 (λ t f. HasEncrypt0 nesting t f layers)) bytes.now m
        × IsSomeAnd m.ciphertext (λ ciphertext. IsSomeAnd (encrypt0_covered m aad.now)
        (λ covered. C.opens cipher.now covered ciphertext text.items))) }
{
    let message = CoseEncrypt0::from_tagged_slice(alloc, bytes)?;
    message.decrypt_ciphertext(
        alloc,
        aad,
        || NotOpened::Detached,
        move |ciphertext, covered| cipher.open(alloc, covered, ciphertext),
    )
}
