//! What the headers of a question say of its key.
ghost use Rattle.std.specs.Prelude.{◌≡◌};
ghost use Rattle.coset_headers.specs.View.{header_view, protected_view};
ghost use Rattle.cose_gate_core.specs.Lent.{subject_of};
ghost use Rattle.cose_rules.specs.Ruled.{algorithm_view, layer_view};
ghost use Rattle.cose_gate_records.specs.KeyHeaders as spec;
ghost use Rattle.cose_gate_records.specs.KeyHeaders.{key_id_of, has_algorithm, has_known_crit};

use cose_gate_core::{About, Header, ProtectedHeader};
use cose_rules::{Layer, are_understood, id_in};
use coset_labels::iana::EnumI64;
use coset_labels::{Algorithm, RegisteredLabelWithPrivate};

/// The headers that name the key of a question: those of the signer if there is one, else the
/// message's.
pub fn key_layer<'a>(about: &About<'a>) -> Layer<'a>
    ensures { layer_view result ≡ spec.key_layer (subject_of about.now) }
{
    match about.signer {
        Some((protected, unprotected)) => Layer {
            protected,
            unprotected,
        },
        None => Layer {
            protected: about.protected,
            unprotected: about.unprotected,
        },
    }
}

/// The key id that a question names, in the headers of its signer if there is one, else in those of
/// the message: the protected one, or the unprotected one if that is empty (RFC 9052, section 3.1).
pub fn key_id<'a>(about: &About<'a>) -> &'a [u8]
    ensures { result.now ≡ key_id_of (subject_of about.now) }
{
    id_in(key_layer(about))
}

/// Whether this is the algorithm with that number.
fn has_number(alg: &Option<Algorithm>, number: i64) -> bool
    ensures { result ≡ spec.has_number number (algorithm_view alg.now) }
{
    match alg {
        Some(RegisteredLabelWithPrivate::Assigned(entry)) => entry.to_i64() == number,
        Some(RegisteredLabelWithPrivate::PrivateUse(i)) => *i == number,
        Some(RegisteredLabelWithPrivate::Text(_)) | None => false,
    }
}

/// Whether the algorithm of a question has this number, as `iana::Algorithm::ES256 as i64`. It is
/// read in the protected header of its signer if there is one, else in that of the message.
pub fn has_algorithm(about: &About, number: i64) -> bool
    ensures { result ≡ has_algorithm number (subject_of about.now) }
{
    has_number(&key_layer(about).protected.header.alg, number)
}

/// Whether each critical label of two headers is understood.
#[tactic(auto, using(cose_rules::proofs::Seen::inside))]
fn are_plain(protected: &ProtectedHeader, unprotected: &Header) -> bool
    ensures { result ≡ spec.are_plain
        (protected_view protected.now, header_view unprotected.now) }
{
    are_understood(&protected.header) && are_understood(unprotected)
}

/// Whether the headers of a question, those of a signer too, name no critical label but 1, 2 and 4:
/// the algorithm, the list of critical labels, and the key id (RFC 9052, section 3.1). A check that
/// understands no other label says no if they do.
pub fn has_known_crit(about: &About) -> bool
    ensures { result ≡ has_known_crit (subject_of about.now) }
{
    let is_signer_plain = match about.signer {
        Some((protected, unprotected)) => are_plain(protected, unprotected),
        None => true,
    };
    is_signer_plain && are_plain(about.protected, about.unprotected)
}
