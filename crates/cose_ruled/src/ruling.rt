//! The ruling on a question of the gate.
ghost use Rattle.std.specs.Prelude.{◌≡◌, map};
ghost use Rattle.coset_keys.specs.View.{key_view};
ghost use Rattle.cose_rules.specs.Ruled.{ruling_view, signer_view};
ghost use Rattle.cose_gate_core.specs.Lent.{signer_of, subject_of};
ghost use Rattle.cose_ruled.specs.Judging as spec;

use cose_gate_core::{About, Header, MessageKind, ProtectedHeader};
use cose_rules::{Layer, MAC_VERIFY, Refusal, Ruling, VERIFY, rule};
use coset_keys::CoseKey;

/// What a key has to be for; none of a COSE_Mac, whose key is that of its recipients.
fn operation_of(kind: MessageKind) -> Option<i64>
    ensures { result ≡ spec.operation_of kind }
{
    match kind {
        MessageKind::Sign1 | MessageKind::Sign => Some(VERIFY),
        MessageKind::Mac0 => Some(MAC_VERIFY),
        MessageKind::Mac => None,
    }
}

/// The headers of a signer.
fn signer_layer<'a>(signer: Option<(&'a ProtectedHeader, &'a Header)>) -> Option<Layer<'a>>
    ensures { signer_view result ≡ signer_of signer.entry }
{
    match signer {
        Some((protected, unprotected)) => Some(Layer {
            protected,
            unprotected,
        }),
        None => None,
    }
}

/// The ruling on what is asked about a message.
pub(crate) fn ruled<'a>(keys: &[CoseKey], about: &About<'a>) -> Ruling<'a>
    ensures { ruling_view result ≡ spec.ruled (map key_view keys.now) (subject_of about.now) }
{
    match operation_of(about.kind) {
        Some(operation) => {
            let message = Layer {
                protected: about.protected,
                unprotected: about.unprotected,
            };
            rule(operation, keys, message, signer_layer(about.signer))
        }
        None => Ruling::Refuse(Refusal::Recipients),
    }
}
