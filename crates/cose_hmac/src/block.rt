//! Keys as blocks of the hash.
ghost use Rattle.std.specs.Prelude.{◌≡◌, ◌≤◌, length};
ghost use Rattle.sha2.specs.Hashers.{Holds256};
ghost use Rattle.cose_hmac.specs.Hmac.{block_of, masked, padded};

use sha2::{Digest, Sha256};

/// The bytes of a block.
const BLOCK: usize = 64;

/// A key with zeros after it.
fn with_zeros(key: &[u8]) -> [u8; BLOCK]
    requires { length key.now ≤ 64 }
    ensures { result ≡ padded key.now }
{
    let mut block = [0; BLOCK];
    block[..key.len()].copy_from_slice(key);
    block
}

/// A key as one block: one that is longer is hashed first.
#[tactic(auto, unfolding(crate::specs::Hmac::block_of))]
pub(crate) fn block_key(key: &[u8]) -> [u8; BLOCK]
    ensures { result ≡ block_of key.now }
{
    if key.len() > BLOCK {
        with_zeros(&Sha256::digest(key))
    } else {
        with_zeros(key)
    }
}

/// Each byte with the byte of a pad.
fn mask(bytes: &mut [u8], pad: u8)
    ensures { bytes.new ≡ masked pad bytes.old }
{
    for byte in bytes.iter_mut() {
        *byte ^= pad;
    }
}

/// A hash that was fed a block under a pad.
pub(crate) fn padded_hash(mut block: [u8; BLOCK], pad: u8) -> Sha256
    ensures { Holds256 result (masked pad block) }
{
    mask(&mut block, pad);
    Sha256::new_with_prefix(&block)
}
