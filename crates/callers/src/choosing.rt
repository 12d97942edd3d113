//! A judge from a check: tags under secrets that are chosen by their key ids. `cose_gate` is the
//! one crate that it names.
ghost use Rattle.std.specs.Prelude.{◌≡◌, IfOk, slice_get};
ghost use Rattle.std.specs.Str.{bytes_eq};
ghost use Rattle.cose_gate.specs.Hmac.{hmac};
ghost use Rattle.callers.specs.Asking.{IsPassedBy};
ghost use Rattle.callers.specs.Choosing.{place_of, place_for, is_tag_under, is_good};

use cose_gate::{
    About, Counts, Decoder, End, GateFault, Mem, Silent, Verifier, VerifierJudge, gate,
    has_algorithm, has_known_crit, hmac_sha256, iana, key_id, same_tag,
};
use std::alloc::Global;

/// A secret of HMAC with SHA-256.
#[derive(Clone, Copy)]
pub struct Secret<'a> {
    /// Its key id.
    pub id: &'a [u8],
    /// The secret.
    pub secret: &'a [u8],
}

/// Verifies a tag under the first of these secrets that has the message's key id.
#[derive(Drop)]
pub struct Secrets<'a>(pub &'a [Secret<'a>]);

/// The place of the first secret with this key id.
fn place_of(secrets: &[Secret], id: &[u8]) -> Option<usize>
    ensures { result ≡ place_of secrets.now id.now }
{
    secrets.iter().position(|secret| secret.id == id)
}

/// Whether this is the tag of the text.
fn is_tag(secret: &[u8], text: &[u8], tag: &[u8]) -> bool
    ensures { result ≡ bytes_eq (hmac secret.now text.now) tag.now }
{
    same_tag(&hmac_sha256(secret, text), tag)
}

impl Verifier for Secrets<'_> {
    ghost chosen = { λ s subject. place_for s.0.now subject };

    ghost verifies = { λ s place covered tag. is_tag_under (slice_get s.0.now place) covered tag };

    fn choose(&self, about: &About) -> Option<usize> {
        if has_algorithm(about, iana::Algorithm::HMAC_256_256 as i64) && has_known_crit(about) {
            place_of(self.0, key_id(about))
        } else {
            None
        }
    }

    fn verify(&self, place: usize, covered: &[u8], tag: &[u8]) -> bool {
        match self.0.get(place) {
            Some(secret) => is_tag(secret.secret, covered, tag),
            None => false,
        }
    }
}

/// The messages whose tags are good under these secrets, each as its canonical encoding, and how
/// many passed and were refused.
///
/// # Errors
/// Those of `gate`.
pub fn pass_good(
    alloc: Global,
    input: &[u8],
    aad: &[u8],
    secrets: &[Secret],
) -> Result<(Vec<u8>, Counts), GateFault<End>>
    ensures { IfOk result
        (λ r. IsPassedBy (is_good secrets.now) aad.now input.now r.0.items r.1) }
{
    let mut judge = VerifierJudge::new(alloc, Secrets(secrets));
    let mut decoder = Decoder::from(input);
    let mut out = Mem::new(Vec::new(alloc));
    match gate(alloc, &mut decoder, &mut out, &mut Silent, aad, &mut judge) {
        Ok(counts) => Ok((out.into_inner(), counts)),
        Err(fault) => Err(fault),
    }
}
