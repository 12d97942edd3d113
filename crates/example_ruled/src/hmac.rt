//! A verifier by HMAC with SHA-256.
ghost use Rattle.std.specs.Prelude.{◌≡◌};
ghost use Rattle.cose_rules.specs.Keys.{bytes_at};
ghost use Rattle.cose_iana.specs.Registry.{neg};
ghost use Rattle.example_ruled.specs.Tags.{is_tag_by, is_tag_under};

use cose_hmac::{hmac_sha256, same_tag};
use cose_rules::{Verify, part_of};
use coset::CoseKey;

/// HMAC 256/64 and HMAC 256/256 (RFC 9053, section 3.1).
#[derive(Clone, Copy)]
pub struct Hmac;

/// Whether this is the tag of the whole HMAC by this algorithm.
fn is_tag_by(algorithm: i64, whole: &[u8; 32], tag: &[u8]) -> bool
    ensures { result ≡ is_tag_by algorithm whole.now tag.now }
{
    match algorithm {
        4 => same_tag(&whole[..8], tag),
        5 => same_tag(whole, tag),
        _ => false,
    }
}

impl Verify for Hmac {
    ghost verifies = { λ _ algorithm key. is_tag_under (bytes_at (neg 1) key.params) algorithm };

    fn verify(&self, algorithm: i64, key: &CoseKey, covered: &[u8], tag: &[u8]) -> bool {
        match part_of(key, -1) {
            Some(secret) => is_tag_by(algorithm, &hmac_sha256(secret, covered), tag),
            None => false,
        }
    }
}
