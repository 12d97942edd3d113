//! Writes recipients. They are moved into the values that stand for them.
ghost use Rattle.std.specs.Prelude.{◌≡◌, Some, MatchResult, option_map};
ghost use Rattle.ciborium_value.specs.View.{view, views};
ghost use Rattle.coset_labels.specs.Faults.{CantWrite};
ghost use Rattle.coset_recipients.specs.Results.{Writes};
ghost use Rattle.coset_recipients.specs.View.{recipient_view, recipients_view};
ghost use Rattle.coset_recipients.specs.Walks.{parts_of};
ghost use Rattle.coset_recipients.specs.Written.{whole, recipient_tree, recipients_trees};
ghost use Rattle.coset_recipients.specs.Written.{list_tree};

use crate::parts::{Parts, write_parts};
use crate::recipient::CoseRecipient;
use ciborium_value::Value;
use coset_labels::CoseError;
use std::alloc::Global;
use std::mem;

/// The array that stands for a recipient. It has no fourth element if the recipient has no
/// recipients of its own.
pub(crate) fn write_recipient(alloc: Global, recipient: CoseRecipient) -> Result<Value, CoseError>
    ensures { Writes (recipient_tree (recipient_view recipient)) view result }
{
    let mut recipient = recipient;
    take_recipient(alloc, &mut recipient)
}

/// The array of a recipient, whose parts are moved out of it: nothing is said of what is left. What
/// a level of recipients keeps on the stack is small.
#[cycle(writer)]
fn take_recipient(alloc: Global, recipient: &mut CoseRecipient) -> Result<Value, CoseError>
    ensures { Writes (recipient_tree (recipient_view recipient.old)) view result }
{
    let inner = take_recipients(alloc, &mut recipient.recipients)?;
    take_parts(alloc, recipient, inner)
}

/// The arrays of recipients, in their order, by `take_recipient`.
#[cycle(writer)]
fn take_recipients(alloc: Global, recipients: &mut [CoseRecipient]) -> Result<Vec<Value>, CoseError>
    ensures { Writes (recipients_trees (recipients_view recipients.old)) (λ v. views v.items)
        result }
{
    let mut values = Vec::with_capacity(alloc, recipients.len())?;
    'recipients: for recipient in recipients.iter_mut() {
        let value = take_recipient(alloc, recipient)?;
        values.push(value)?;
    }
    Ok(values)
}

/// The array of a recipient, whose recipients have these values. Its other parts are moved out of
/// it.
#[inline(never)]
fn take_parts(
    alloc: Global,
    recipient: &mut CoseRecipient,
    inner: Vec<Value>,
) -> Result<Value, CoseError>
    ensures { MatchResult result
        (λ v. option_map (λ parts. whole parts (views inner.items)) (parts_of recipient.old)
        ≡ Some (view v))
        (λ e. CantWrite (parts_of recipient.old) e) }
{
    let taken = mem::replace(recipient, CoseRecipient::new(alloc));
    let parts = Parts {
        protected: taken.protected,
        unprotected: taken.unprotected,
        content: taken.ciphertext,
    };
    let mut items = write_parts(alloc, parts)?;
    if inner.is_empty() {
        return Ok(Value::Array(items));
    }
    items.push(Value::Array(inner))?;
    Ok(Value::Array(items))
}

/// The array of the values that recipients stand for, which may be empty.
///
/// # Errors
/// `DuplicateMapKey` exactly when a label is repeated in a header that has to be encoded, or
/// `Memory`.
pub fn write_recipients(alloc: Global, recipients: Vec<CoseRecipient>) -> Result<Value, CoseError>
    ensures { Writes (list_tree (recipients_view recipients.items)) view result }
{
    let mut recipients = recipients;
    let values = take_recipients(alloc, &mut recipients)?;
    Ok(Value::Array(values))
}
