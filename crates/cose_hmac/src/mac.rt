//! Tags by HMAC with SHA-256.
ghost use Rattle.std.specs.Prelude.{◌≡◌, ℕ, List, [], ◌++◌};
ghost use Rattle.cose_hmac.specs.Hmac.{hmac};
ghost use Rattle.cose_hmac.specs.View.{Holds};

use crate::block::{block_key, padded_hash};
use sha2::{Digest, Sha256};

/// A tag in the making: its text is fed in pieces (RFC 2104, section 2). A clone of one that was
/// fed nothing begins another under its key, without hashing the key again.
#[derive(Clone, Drop)]
pub struct HmacSha256 {
    inner: Sha256,
    outer: Sha256,
}

impl HmacSha256 {
    /// A tag of an empty text under a key of any length.
    pub fn new(key: &[u8]) -> Self
        ensures { Holds result key.now [] }
    {
        let block = block_key(key);
        HmacSha256 {
            inner: padded_hash(block, 0x36),
            outer: padded_hash(block, 0x5c),
        }
    }

    /// Feeds the next piece of the text.
    pub fn update(&mut self, piece: &[u8])
        ensures { (key text : List ℕ) → Holds self.old key text
            → Holds self.new key (text ++ piece.now) }
    {
        self.inner.update(piece);
    }

    /// The tag of the text that was fed.
    pub fn finalize(self) -> [u8; 32]
        ensures { (key text : List ℕ) → Holds self key text → result ≡ hmac key text }
    {
        let mut outer = self.outer;
        outer.update(&self.inner.finalize());
        outer.finalize()
    }
}

/// The tag of a text under a key of any length (RFC 2104, section 2).
pub fn hmac_sha256(key: &[u8], text: &[u8]) -> [u8; 32]
    ensures { result ≡ hmac key.now text.now }
{
    let mut mac = HmacSha256::new(key);
    mac.update(text);
    mac.finalize()
}
