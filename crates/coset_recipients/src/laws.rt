//! Laws of the definitions.
ghost use Rattle.std.specs.Prelude.{◌≡◌, ◌≢◌, ◌↔◌, ◌^◌, ◌<◌, ℕ, List, IsTrue, true, None, Some};
ghost use Rattle.ciborium.specs.Front.{Reads};
ghost use Rattle.ciborium_value.specs.Encoding.{enc, Fits, FitAll};
ghost use Rattle.ciborium_value.specs.Tree.{Tree, Trees, tree_count, array};
ghost use Rattle.coset_labels.specs.Faults.{CoseFault};
ghost use Rattle.coset_labels.specs.Limits.{nesting, layers};
ghost use Rattle.coset_labels.specs.Reading.{HasItem};
ghost use Rattle.coset_base.specs.declared.context.EncryptionContext.{EncryptionContext};
ghost use Rattle.coset_recipients.specs.Fields.{RecipientFields, RecipientsFields};
ghost use Rattle.coset_recipients.specs.Shapes.{HasRecipient, HasList};
ghost use Rattle.coset_recipients.specs.Short.{RecipientShort, RecipientsShort};
ghost use Rattle.coset_recipients.specs.Structure.{recipient_structure};
ghost use Rattle.coset_recipients.specs.View.{recipient_view, recipients_view, opened};
ghost use Rattle.coset_recipients.specs.Written.{recipient_tree, recipients_trees, list_tree};
ghost use Rattle.coset_recipients.specs.Wrong.{WrongRecipient, WrongList};
ghost use Rattle.coset_recipients.specs.Put.{recipient_put, recipients_put, is_received_recipient};
ghost use Rattle.coset_recipients.specs.Put.{are_received_recipients};

pub mod parts;

use crate::laws::parts::parts_fit;
use crate::recipient::CoseRecipient;

/// The fields of a recipient are those of its parts.
pub fn recipient_opened(recipient: &CoseRecipient)
    ensures { recipient_view recipient.now ≡ opened recipient.now }
{}

/// A value has the fields of at most one recipient, or of one list of them.
pub fn one_recipient()
    ensures recipient { (n k : ℕ) (t : Tree) (r s : RecipientFields) → HasRecipient n t r k
        → HasRecipient n t s k → r ≡ s }
    ensures list { (n k : ℕ) (t : Tree) (rs ss : RecipientsFields) → HasList n t rs k
        → HasList n t ss k → rs ≡ ss }
{}

/// A value with a fault has no fields.
pub fn wrong_has_none()
    ensures recipient { (n k : ℕ) (t : Tree) (e : CoseFault) (r : RecipientFields)
        → WrongRecipient n t k e → HasRecipient n t r k → ⊥ }
    ensures list { (n k : ℕ) (t : Tree) (e : CoseFault) (rs : RecipientsFields) → WrongList n t k e
        → HasList n t rs k → ⊥ }
{}

/// A recipient that was read can be written, and so can a list of them. What its ciphertext covers
/// is there in each context.
pub fn read_can_be_written()
    ensures recipient { (n k : ℕ) (t : Tree) (r : RecipientFields) → HasRecipient n t r k
        → recipient_tree r ≢ None }
    ensures list { (n k : ℕ) (t : Tree) (rs : RecipientsFields) → HasList n t rs k
        → list_tree rs ≢ None }
    ensures structure { (n k : ℕ) (t : Tree) (r : RecipientFields) (x : EncryptionContext)
        (aad : List ℕ) → HasRecipient n t r k → recipient_structure x r aad ≢ None }
{}

/// What is written of a recipient that was read has its fields again, received bytes included, and
/// so has what is written of a list. A fourth element that was read as an empty list isn't written.
pub fn written_has_same()
    ensures recipient { (n k : ℕ) (t u : Tree) (r : RecipientFields) → HasRecipient n t r k
        → recipient_tree r ≡ Some u → HasRecipient n u r k }
    ensures list { (n k : ℕ) (t u : Tree) (rs : RecipientsFields) → HasList n t rs k
        → list_tree rs ≡ Some u → HasList n u rs k }
{}

/// The encoding of what is written nests no deeper than what was read, and is read again with the
/// same fields.
pub fn written_reads_same()
    ensures { (n k limit : ℕ) (b : List ℕ) (t u : Tree) (r : RecipientFields) → Reads b limit t
        → HasRecipient n t r k → recipient_tree r ≡ Some u → Fits u
        → Reads (enc u) limit u × HasRecipient n u r k }
{}

/// What was read has its received bytes, as `recipient_fits` and its like ask.
pub fn read_is_short()
    ensures recipient { (n k : ℕ) (t : Tree) (r : RecipientFields) → HasRecipient n t r k
        → RecipientShort r }
    ensures list { (n k : ℕ) (t : Tree) (rs : RecipientsFields) → HasList n t rs k
        → RecipientsShort rs }
{}

/// What is written of this recipient fits heads, if each protected header in it that has no
/// received bytes is encoded in fewer than 2^64 bytes.
#[cycle(fits)]
pub fn recipient_fits(recipient: &CoseRecipient)
    ensures { (u : Tree) → recipient_tree (recipient_view recipient.now) ≡ Some u
        → RecipientShort (recipient_view recipient.now) → Fits u }
{
    parts_fit(
        &recipient.protected,
        &recipient.unprotected,
        &recipient.ciphertext,
    );
    all_fit(&recipient.recipients);
}

#[cycle(fits)]
fn all_fit(recipients: &[CoseRecipient])
    ensures fits { (ts : Trees) → recipients_trees (recipients_view recipients.now) ≡ Some ts
        → RecipientsShort (recipients_view recipients.now) → FitAll ts }
    ensures count { (ts : Trees) → recipients_trees (recipients_view recipients.now) ≡ Some ts
        → tree_count ts < 2 ^ 64 }
{
    let _len = recipients.len();
    'recipients: for recipient in recipients {
        recipient_fits(recipient);
    }
}

/// As `recipient_fits`, of the array of recipients of a message.
pub fn recipients_fit(recipients: &[CoseRecipient])
    ensures { (u : Tree) → list_tree (recipients_view recipients.now) ≡ Some u
        → RecipientsShort (recipients_view recipients.now) → Fits u }
{
    all_fit(recipients);
}

/// A recipient that was read from bytes is read again from the bytes that it is written as, the
/// same, received bytes included.
pub fn recipient_reads_again(recipient: &CoseRecipient)
    ensures { (b : List ℕ) (u : Tree)
        → HasItem (λ t r. HasRecipient nesting t r layers) b (recipient_view recipient.now)
        → recipient_tree (recipient_view recipient.now) ≡ Some u
        → HasItem (λ t r. HasRecipient nesting t r layers) (enc u) (recipient_view recipient.now) }
{
    recipient_fits(recipient);
    written_reads_same();
    read_is_short();
}

/// Recipients are equal if they say the same and their protected headers have the same received
/// bytes, or none; so do all recipients in them, in the same order.
pub fn recipient_compare(a: &CoseRecipient, b: &CoseRecipient)
    ensures { IsTrue (⟦<CoseRecipient as std::cmp::PartialEq>⟧.eq a.now b.now)
        ↔ (recipient_view a.now ≡ recipient_view b.now) }
{}

/// What is written straight from fields that are as received is what `to_cbor_value` writes of
/// them.
pub fn put_is_written()
    ensures recipient { (r : RecipientFields) → is_received_recipient r ≡ true
        → recipient_tree r ≡ Some (recipient_put r) }
    ensures recipients { (rs : RecipientsFields) → are_received_recipients rs ≡ true
        → list_tree rs ≡ Some (array (recipients_put rs)) }
{}

/// What was read is as received: the calls that write it straight from its fields may be made.
pub fn read_is_received()
    ensures recipient { (n k : ℕ) (t : Tree) (r : RecipientFields) → HasRecipient n t r k
        → is_received_recipient r ≡ true }
    ensures recipients { (n k : ℕ) (t : Tree) (rs : RecipientsFields) → HasList n t rs k
        → are_received_recipients rs ≡ true }
{}

/// What was read is written straight from its fields as the same value as by `to_cbor_value`.
pub fn read_is_put()
    ensures recipient { (n k : ℕ) (t : Tree) (r : RecipientFields) → HasRecipient n t r k
        → recipient_tree r ≡ Some (recipient_put r) }
    ensures recipients { (n k : ℕ) (t : Tree) (rs : RecipientsFields) → HasList n t rs k
        → list_tree rs ≡ Some (array (recipients_put rs)) }
{}
