//! What a judge is told of a message.
ghost use Rattle.std.specs.Prelude.{◌≡◌, [], Some, None};
ghost use Rattle.coset_headers.specs.View.{header_view, protected_view};
ghost use Rattle.cose_gate_core.specs.Lent.{signer_of};
ghost use Rattle.cose_gate_core.specs.Questions.{number_of};

use coset_headers::{Header, ProtectedHeader};
use coset_labels::TaggedCborSerializable;
use coset_maced::{CoseMac, CoseMac0, CoseRecipient};
use coset_signed::{CoseSign, CoseSign1};

/// Which kind of message it is (RFC 9052, section 2).
#[derive(Debug, Clone, Copy, PartialEq, Eq)]
pub enum MessageKind {
    /// A COSE_Sign1, tag 18.
    Sign1,
    /// A COSE_Mac0, tag 17.
    Mac0,
    /// A COSE_Sign, tag 98.
    Sign,
    /// A COSE_Mac, tag 97.
    Mac,
}

impl MessageKind {
    /// The tag of such a message.
    pub fn tag(self) -> u64
        ensures { result ≡ number_of self }
    {
        match self {
            MessageKind::Sign1 => CoseSign1::TAG,
            MessageKind::Mac0 => CoseMac0::TAG,
            MessageKind::Sign => CoseSign::TAG,
            MessageKind::Mac => CoseMac::TAG,
        }
    }
}

/// What a question is about, lent for the question.
#[derive(Clone, Copy)]
pub struct About<'a> {
    /// The kind of the message.
    pub kind: MessageKind,
    /// The message's protected header.
    pub protected: &'a ProtectedHeader,
    /// The message's unprotected header.
    pub unprotected: &'a Header,
    /// The headers of the signer, if the message has signers of its own.
    pub signer: Option<(&'a ProtectedHeader, &'a Header)>,
    /// The recipients of the message.
    pub recipients: &'a [CoseRecipient],
}

impl<'a> About<'a> {
    /// About a message with neither signers of its own nor recipients.
    pub fn alone(
        kind: MessageKind,
        protected: &'a ProtectedHeader,
        unprotected: &'a Header,
    ) -> About<'a>
        ensures kind { result.kind ≡ kind }
        ensures protected { result.protected.now ≡ protected.now }
        ensures unprotected { result.unprotected.now ≡ unprotected.now }
        ensures signer { result.signer ≡ None }
        ensures recipients { result.recipients.now ≡ [] }
    {
        About {
            kind,
            protected,
            unprotected,
            signer: None,
            recipients: &[],
        }
    }
    /// About one signature of a message with signers of its own, by the signer's headers. Such a
    /// message has no recipients.
    pub fn with_signer(
        kind: MessageKind,
        protected: &'a ProtectedHeader,
        unprotected: &'a Header,
        signer: (&'a ProtectedHeader, &'a Header),
    ) -> About<'a>
        ensures kind { result.kind ≡ kind }
        ensures protected { result.protected.now ≡ protected.now }
        ensures unprotected { result.unprotected.now ≡ unprotected.now }
        ensures signer { signer_of result.signer
            ≡ Some (protected_view signer.entry.0.now, header_view signer.entry.1.now) }
        ensures recipients { result.recipients.now ≡ [] }
    {
        About {
            kind,
            protected,
            unprotected,
            signer: Some(signer),
            recipients: &[],
        }
    }
    /// About a message that has recipients and no signers of its own.
    pub fn with_recipients(
        kind: MessageKind,
        protected: &'a ProtectedHeader,
        unprotected: &'a Header,
        recipients: &'a [CoseRecipient],
    ) -> About<'a>
        ensures kind { result.kind ≡ kind }
        ensures protected { result.protected.now ≡ protected.now }
        ensures unprotected { result.unprotected.now ≡ unprotected.now }
        ensures signer { result.signer ≡ None }
        ensures recipients { result.recipients.now ≡ recipients.now }
    {
        About {
            kind,
            protected,
            unprotected,
            signer: None,
            recipients,
        }
    }
}
