//! Messages of the kinds that are judged.
ghost use Rattle.std.specs.Prelude.{◌≡◌, true, Some, None, MatchBool, MatchResult, IfOk};
ghost use Rattle.std.specs.Prelude.{OnOk, OnErr};
ghost use Rattle.ciborium.specs.Fronts.{TakesFour};
ghost use Rattle.ciborium.specs.Reading.{Steady};
ghost use Rattle.ciborium_ll.specs.Views.{seen, waiting_of};
ghost use Rattle.ciborium_traits.specs.Events.{events, Puts, Stops};
ghost use Rattle.ciborium_value.specs.Tree.{array};
ghost use Rattle.ciborium_value.specs.View.{view};
ghost use Rattle.coset_labels.specs.Faults.{OrMemory};
ghost use Rattle.cose_gate_core.specs.Asked.{asked, first_no, folded_over, ToldPart};
ghost use Rattle.cose_gate_core.specs.Findings.{Bounds, HasMessage, IsCarried, IsUnsigned};
ghost use Rattle.cose_gate_core.specs.Misshapen.{WrongMessage, IsReadAs};
ghost use Rattle.cose_gate_core.specs.Put.{tagged_put, is_as_received};
ghost use Rattle.cose_gate_core.specs.Questions.{MessageFields, kind_of, payload_of, questions};
ghost use Rattle.cose_gate_core.specs.Questions.{message_tree};
ghost use Rattle.cose_gate_core.specs.Received.{IsReceivedMessage};
ghost use Rattle.cose_gate_core.specs.Terms.{limits_of};
ghost use Rattle.cose_gate_core.specs.declared.about.MessageKind.{MessageKind};

use crate::judge::Judge;
use crate::terms::Terms;
use ciborium::ser::Sink;
use ciborium::{Spare, Value, de};
use ciborium_ll::{Decoder, Read};
use coset_labels::CoseError;
use std::alloc::{AllocError, Global};

/// A message of a kind that is judged (RFC 9052, section 2).
pub trait Message: Drop + Sized {
    /// Its kind.
    ghost kind: { MessageKind };

    /// What it says.
    ghost message: { Self → MessageFields };

    /// What one says that has no field.
    ghost nothing: { MessageFields };

    /// A message with no field.
    fn empty(alloc: Global) -> Self
        ensures { message result ≡ nothing };

    /// Reads the content of the kind's tag into it, in place of its fields, within these limits.
    ///
    /// # Errors
    /// A fault that the content has as such a message, or `Memory`.
    fn read(&mut self, alloc: Global, terms: Terms, content: Value) -> Result<(), CoseError>
        ensures { MatchResult result
            (λ _. (kind_of (message self.new) ≡ kind)
            × HasMessage (limits_of terms) (view content) (message self.new))
            (λ e. OrMemory (WrongMessage (limits_of terms) kind (view content)) e) };

    /// Whether the content of the tag is already the value that would be written of the message
    /// that it is read as. It takes no memory.
    fn is_as_written(content: &Value) -> bool
        ensures { (limits : Bounds) (m : Self) → HasMessage limits (view content.now) (message m)
            → MatchBool result (message_tree (message m) ≡ Some (view content.now))
            (message_tree (message m) ≡ Some (view content.now) → ⊥) };

    /// Whether it carries its payload.
    fn is_carried(&self) -> bool
        ensures { MatchBool result (IsCarried (message self.now))
            (payload_of (message self.now) ≡ None) };

    /// Whether it has no signature. Only a COSE_Sign can lack one.
    fn is_unsigned(&self) -> bool
        ensures { MatchBool result (IsUnsigned (message self.now))
            (IsUnsigned (message self.now) → ⊥) };

    /// Asks about it as it was received, up to the first no. The index of that no, if there is one.
    ///
    /// # Errors
    /// Only if out of memory. A beginning of the questions was asked then, but not all.
    fn ask<'a, J: Judge>(
        &'a self,
        aad: &'a [u8],
        judge: &mut J,
    ) -> Result<Option<usize>, AllocError>
        requires { IsReceivedMessage (message self.now) }
        ensures answer { IfOk result (λ no. no ≡ first_no (J.yes (J.who judge.old))
            (questions (message self.now) aad.now)) }
        ensures told { OnOk result (J.told judge.new ≡ folded_over J.decided (J.told judge.old)
            (asked (J.yes (J.who judge.old)) (questions (message self.now) aad.now))) }
        ensures err { OnErr result (ToldPart J.decided (J.told judge.old) (J.told judge.new)
            (asked (J.yes (J.who judge.old)) (questions (message self.now) aad.now))) }
        ensures who { J.who judge.new ≡ J.who judge.old };

    /// Writes it with its tag, straight from its fields. That takes no memory.
    ///
    /// # Errors
    /// The sink's; it took a beginning of the events then, and refused the next.
    fn put<S: Sink>(&self, to: &mut S) -> Result<(), S::Error>
        requires { is_as_received (message self.now) ≡ true }
        ensures ok { OnOk result (Puts S.due to.old
            (events (tagged_put (message self.now))) to.new) }
        ensures err { OnErr result (Stops S.due S.torn to.old
            (events (tagged_put (message self.now))) to.new) };
}

/// A message whose content is an array of four elements.
pub trait Four: Message {
    /// Reads the next four items as these elements into a message that has no field. Each opens at
    /// most `limit` levels.
    ///
    /// # Errors
    /// Outside those of reading the items, and inside those of `read`: the items were taken then.
    fn walk<R: Read>(
        &mut self,
        alloc: Global,
        terms: Terms,
        limit: usize,
        decoder: &mut Decoder<R>,
        spare: &mut Spare,
    ) -> Result<Result<(), CoseError>, de::Error<R::Error>>
        requires fresh { waiting_of decoder.old ≡ None }
        requires empty { Self.message self.old ≡ Self.nothing }
        ensures read { TakesFour R.ends limit
            (λ r ts. IsReadAs (limits_of terms) Self.kind (Self.message self.new) (array ts) r)
            result (seen R.Read decoder.old) (seen R.Read decoder.new) }
        ensures steady { Steady R.ends result (seen R.Read decoder.old) (seen R.Read decoder.new) };
}
