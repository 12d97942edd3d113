//! HMACs in the making, which were fed nothing yet.
ghost use Rattle.std.specs.Prelude.{[], option_copied};
ghost use Rattle.cose_gate_core.specs.HeaderView.{header_view, protected_view};
ghost use Rattle.cose_gate_core.specs.Lent.{subject_of};
ghost use Rattle.coset_keys.specs.View.{key_set_view};
ghost use Rattle.cose_gate_program.specs.Judge as spec;
ghost use Rattle.cose_gate_program.specs.Judge.{MakesTag};
ghost use Rattle.cose_gate_program.specs.Judging as judging;

use crate::index::KeyIndex;
use crate::verdict::may_judge;
use cose_gate_core::{About, Header, MessageKind, ProtectedHeader};
use cose_hmac::HmacSha256;
use cose_rules::{Layer, id_in};

/// An HMAC under a secret, which was fed nothing yet; none without a secret.
pub(crate) fn mac_under(secret: Option<&[u8]>) -> Option<HmacSha256>
    ensures { MakesTag result (option_copied secret.entry) [] }
{
    match secret {
        Some(secret) => Some(HmacSha256::new(secret)),
        None => None,
    }
}

/// An HMAC for the tag of a COSE_Mac0 with these headers, which was fed nothing yet; none if the
/// headers or the keys bar it.
fn mac_for(
    index: &KeyIndex,
    protected: &ProtectedHeader,
    unprotected: &Header,
) -> Option<HmacSha256>
    ensures { MakesTag result (judging.secret_for (key_set_view index.now.set.now)
        (protected_view protected.now) (header_view unprotected.now)) [] }
{
    if !may_judge(protected, unprotected) {
        return None;
    }
    let layer = Layer {
        protected,
        unprotected,
    };
    match index.find(id_in(layer)) {
        Some(prepared) => Some(prepared.mac()),
        None => None,
    }
}

/// An HMAC for the tag of a message, which was fed nothing yet; none if it is no COSE_Mac0, or no
/// key fits.
pub(crate) fn mac_about(index: &KeyIndex, about: &About) -> Option<HmacSha256>
    ensures { MakesTag result (spec.secret_about (key_set_view index.now.set.now)
        (subject_of about.now)) [] }
{
    match about.kind {
        MessageKind::Mac0 => mac_for(index, about.protected, about.unprotected),
        MessageKind::Sign1 | MessageKind::Sign | MessageKind::Mac => None,
    }
}
