//! The keys of a set.
ghost use Rattle.std.specs.Prelude.{◌≡◌, option_map, option_copied, is_some, if◌then◌else◌, None};
ghost use Rattle.std.specs.List.{find};
ghost use Rattle.coset_keys.specs.View.{key_view, key_set_view};
ghost use Rattle.cose_gate_program.specs.Keys as spec;
ghost use Rattle.cose_gate_program.specs.Keys.{secret, first_fit};

use cose_rules::{MAC_VERIFY, allows, has_id, is_type, part_of, permits};
use coset_keys::{CoseKey, CoseKeySet};

/// The algorithm HMAC 256/256 (RFC 9053, section 3.1).
pub(crate) const HMAC: i64 = 5;

/// The type of symmetric keys (RFC 9053, section 7.3).
const SYMMETRIC: i64 = 4;

/// The label of the secret of such keys.
const SECRET: i64 = -1;

/// The first key that fits a message with this key id.
pub fn find_key<'a>(keys: &'a CoseKeySet, id: &[u8]) -> Option<&'a CoseKey>
    ensures { option_map key_view (option_copied result)
        ≡ first_fit id.now (key_set_view keys.now) }
{
    first_that_fits(&keys.0, id)
}

fn first_that_fits<'a>(keys: &'a [CoseKey], id: &[u8]) -> Option<&'a CoseKey>
    ensures { option_copied result ≡ find (λ k. spec.fits id.now (key_view k)) keys.now }
{
    keys.iter().find(|key| fits(key, id))
}

/// Whether a key has this id, which may be empty, and serves to verify tags by HMAC with SHA-256:
/// it is symmetric and has a secret, it is for this algorithm or for any, and to verify or for any
/// operation (RFC 9052, section 7.1).
pub fn fits(key: &CoseKey, id: &[u8]) -> bool
    ensures { result ≡ spec.fits id.now (key_view key.now) }
{
    has_id(key, id) && serves(key)
}

/// Whether a key serves to verify tags of the messages that have its id.
fn serves(key: &CoseKey) -> bool
    ensures { result ≡ spec.serves (key_view key.now) }
{
    is_type(&key.kty, SYMMETRIC)
        && has_secret(key)
        && allows(&key.alg, HMAC)
        && permits(&key.key_ops, MAC_VERIFY)
}

/// The secret of a key that serves; none of another.
pub(crate) fn serving_secret(key: &CoseKey) -> Option<&[u8]>
    ensures { option_copied result
        ≡ (if spec.serves (key_view key.now) then secret (key_view key.now) else None) }
{
    if !serves(key) {
        return None;
    }
    secret_of(key)
}

fn has_secret(key: &CoseKey) -> bool
    ensures { result ≡ is_some (secret (key_view key.now)) }
{
    match secret_of(key) {
        Some(_) => true,
        None => false,
    }
}

/// The secret of a key: the first of its `params` with the label -1, if that is a byte string (RFC
/// 9053, section 7.3).
pub fn secret_of(key: &CoseKey) -> Option<&[u8]>
    ensures { option_copied result ≡ secret (key_view key.now) }
{
    part_of(key, SECRET)
}
