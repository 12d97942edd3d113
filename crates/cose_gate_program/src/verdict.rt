//! Whether a tag is good.
ghost use Rattle.std.specs.Prelude.{◌≡◌, option_copied};
ghost use Rattle.cose_gate_core.specs.HeaderView.{header_view, protected_view};
ghost use Rattle.coset_keys.specs.View.{key_set_view};
ghost use Rattle.cose_rules.specs.Ruled.{algorithm_view};
ghost use Rattle.cose_gate_program.specs.Judging as spec;
ghost use Rattle.cose_gate_program.specs.Judging.{may_judge, hmac_yes};

use crate::keys::{HMAC, find_key, secret_of};
use cose_gate_core::{Algorithm, Header, ProtectedHeader};
use cose_hmac::{hmac_sha256, same_tag};
use cose_rules::{Layer, allows, are_understood, id_in};
use coset_keys::CoseKeySet;

/// The secret of the first key that fits a message, or none if no key does, the message's algorithm
/// is another than HMAC with SHA-256, or something that isn't known has to be understood.
pub fn secret_for<'a>(
    keys: &'a CoseKeySet,
    protected: &ProtectedHeader,
    unprotected: &Header,
) -> Option<&'a [u8]>
    ensures { option_copied result ≡ spec.secret_for (key_set_view keys.now)
        (protected_view protected.now) (header_view unprotected.now) }
{
    if !may_judge(protected, unprotected) {
        return None;
    }
    let layer = Layer {
        protected,
        unprotected,
    };
    match find_key(keys, id_in(layer)) {
        Some(key) => secret_of(key),
        None => None,
    }
}

/// Whether the judge may look for a key: the message's algorithm is HMAC with SHA-256, and all that
/// has to be understood is known.
#[tactic(auto, using(cose_rules::proofs::Seen::inside))]
pub(crate) fn may_judge(protected: &ProtectedHeader, unprotected: &Header) -> bool
    ensures { result ≡ may_judge (protected_view protected.now) (header_view unprotected.now) }
{
    alg_is_hmac(protected) && are_understood(&protected.header) && are_understood(unprotected)
}

/// Whether the algorithm of a protected header is HMAC with SHA-256, of which no tag is cut (RFC
/// 9053, section 3.1).
pub fn alg_is_hmac(protected: &ProtectedHeader) -> bool
    ensures { result ≡ spec.alg_is_hmac (protected_view protected.now) }
{
    is_hmac(&protected.header.alg)
}

/// Whether an algorithm is given, and is HMAC with SHA-256.
fn is_hmac(alg: &Option<Algorithm>) -> bool
    ensures { result ≡ spec.is_hmac (algorithm_view alg.now) }
{
    match alg {
        Some(_) => allows(alg, HMAC),
        None => false,
    }
}

/// Whether a tag over the covered bytes of a COSE_Mac0 with these headers is good (RFC 9052,
/// section 6.3): the whole HMAC under the first key that fits. No later key is tried.
pub fn is_good_tag(
    keys: &CoseKeySet,
    protected: &ProtectedHeader,
    unprotected: &Header,
    covered: &[u8],
    tag: &[u8],
) -> bool
    ensures { result ≡ hmac_yes (key_set_view keys.now)
        (protected_view protected.now) (header_view unprotected.now) covered.now tag.now }
{
    match secret_for(keys, protected, unprotected) {
        Some(secret) => same_tag(&hmac_sha256(secret, covered), tag),
        None => false,
    }
}
