//! A question, as its record shows it.
ghost use Rattle.std.specs.Prelude.{◌≡◌, ◌++◌, ℕ, List, MatchOption, length};
ghost use Rattle.cose_gate_command.specs.Read.{key_with, texts_read};
ghost use Rattle.cose_gate_core.specs.Questions.{number_of};
ghost use Rattle.cose_gate_core.specs.declared.about.MessageKind.{MessageKind};
ghost use Rattle.cose_gate_records.specs.Framing.{framed};

use cose_gate_core::MessageKind;
use cose_gate_records::{split_first, split_number};

/// A question, as its record shows it.
#[derive(Debug, Clone, Copy, PartialEq, Eq)]
pub(crate) struct Question<'a> {
    /// The kind of the message.
    pub kind: MessageKind,
    /// The protected header as received.
    pub protected: &'a [u8],
    /// The unprotected header, encoded.
    pub unprotected: &'a [u8],
    /// The protected header of the signer as received; empty if the message has no signers of its
    /// own.
    pub signer_protected: &'a [u8],
    /// The unprotected header of the signer, encoded; empty if the message has no signers of its
    /// own.
    pub signer_unprotected: &'a [u8],
    /// The recipients, encoded.
    pub recipients: &'a [u8],
    /// The bytes that the signature or the MAC covers.
    pub covered: &'a [u8],
    /// The signature or the MAC.
    pub signature: &'a [u8],
}

/// The kind of message with this tag.
fn kind_of(tag: u64) -> Option<MessageKind>
    ensures { MatchOption result ((kind : MessageKind) → number_of kind ≡ tag → ⊥)
        (λ kind. number_of kind ≡ tag) }
{
    match tag {
        17 => Some(MessageKind::Mac0),
        18 => Some(MessageKind::Sign1),
        97 => Some(MessageKind::Mac),
        98 => Some(MessageKind::Sign),
        _ => None,
    }
}

/// The question of a whole record; `None` if the bytes are not exactly one record.
pub(crate) fn read_question(bytes: &[u8]) -> Option<Question<'_>>
    ensures { MatchOption result
        ((kind : MessageKind) (texts : List (List ℕ)) → length texts ≡ 7
        → bytes.now ≡ framed (key_with kind texts) → ⊥)
        (λ q. bytes.now ≡ framed (key_with q.kind (texts_read q))) }
{
    let (key, rest) = split_first(bytes)?;
    if rest.is_empty() { read_key(key) } else { None }
}

/// The question of a key.
fn read_key(key: &[u8]) -> Option<Question<'_>>
    ensures { MatchOption result
        ((kind : MessageKind) (texts : List (List ℕ)) → length texts ≡ 7
        → key.now ≡ key_with kind texts → ⊥)
        (λ q. key.now ≡ key_with q.kind (texts_read q)) }
{
    let (tag, rest) = split_number(key)?;
    let kind = kind_of(tag)?;
    let (protected, rest) = split_first(rest)?;
    let (unprotected, rest) = split_first(rest)?;
    let (signer_protected, rest) = split_first(rest)?;
    let (signer_unprotected, rest) = split_first(rest)?;
    let (recipients, rest) = split_first(rest)?;
    let (covered, rest) = split_first(rest)?;
    let (signature, rest) = split_first(rest)?;
    if !rest.is_empty() {
        return None;
    }
    Some(Question {
        kind,
        protected,
        unprotected,
        signer_protected,
        signer_unprotected,
        recipients,
        covered,
        signature,
    })
}
