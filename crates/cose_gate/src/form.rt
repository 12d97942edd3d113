//! Which message it is.
ghost use Rattle.std.specs.Prelude.{◌≡◌, ◌++◌, ℕ, List, None, MatchOption};
ghost use Rattle.coset_base.specs.Structure.{structure, behind_prefix};
ghost use Rattle.cose_gate.specs.Forms.{tag_number, kind_of, context_of};
ghost use Rattle.cose_gate.specs.Stated.{IsSingleTag};

use cose_gate_core::MessageKind;
use coset_base::{MacContext, SignatureContext};
use coset_labels::TaggedCborSerializable;
use coset_maced::CoseMac0;
use coset_signed::CoseSign1;

/// A message with one signature or one tag, about which the judge is asked one question.
#[derive(Debug, Clone, Copy, PartialEq, Eq)]
pub enum Form {
    /// A COSE_Sign1.
    Sign1,
    /// A COSE_Mac0.
    Mac0,
}

/// Which message has this tag (RFC 9052, section 2).
pub fn form_of(number: u64) -> Option<Form>
    ensures { MatchOption result (IsSingleTag number → ⊥) (λ form. number ≡ tag_number form) }
{
    if number == CoseSign1::TAG {
        Some(Form::Sign1)
    } else if number == CoseMac0::TAG {
        Some(Form::Mac0)
    } else {
        None
    }
}

impl Form {
    /// The kind of message that a judge is told.
    pub fn kind(self) -> MessageKind
        ensures { result ≡ kind_of self }
    {
        match self {
            Form::Sign1 => MessageKind::Sign1,
            Form::Mac0 => MessageKind::Mac0,
        }
    }

    /// The text of a fault, as of the gate, for what was expected in the place of the payload.
    pub fn payload(self) -> &'static str {
        match self {
            Form::Sign1 => "bstr or nil",
            Form::Mac0 => "bstr",
        }
    }

    /// How its structure begins: the title of the array and the context's text (RFC 9052, sections
    /// 4.4 and 6.3).
    pub fn prefix(self) -> &'static [u8]
        ensures { (body aad payload : List ℕ)
            → structure (context_of self) body None aad payload
            ≡ result.now ++ behind_prefix body None aad payload }
    {
        match self {
            Form::Sign1 => SignatureContext::CoseSign1.prefix(false),
            Form::Mac0 => MacContext::CoseMac0.prefix(),
        }
    }
}
