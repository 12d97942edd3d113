//! Reads recipients. No byte string of a value is copied.
ghost use Rattle.std.specs.Prelude.{◌≡◌, ◌≢◌, [], ◌∷◌, ◌++◌, length, map};
ghost use Rattle.std.specs.Prelude.{MatchOption, MatchResult, OnErr};
ghost use Rattle.ciborium_value.specs.View.{view};
ghost use Rattle.coset_labels.specs.Faults.{OrMemory};
ghost use Rattle.coset_labels.specs.Limits.{nesting_of, layers_of};
ghost use Rattle.coset_recipients.specs.Results.{ReadsWithin};
ghost use Rattle.coset_recipients.specs.Shapes.{HasRecipient, HasList};
ghost use Rattle.coset_recipients.specs.View.{recipient_view, recipients_view};
ghost use Rattle.coset_recipients.specs.Walks.{Pushes, HasThree, WrongThree};
ghost use Rattle.coset_recipients.specs.Wrong.{WrongRecipient, WrongList};

use crate::parts::PartValues;
use crate::recipient::CoseRecipient;
use ciborium_value::Value;
use coset_labels::tuples::{count_structures, three};
use coset_labels::{CoseError, Limits, ValueTryAs};
use std::alloc::Global;

/// Reads a recipient, its elements from the last to the first.
pub(crate) fn read_recipient(
    alloc: Global,
    value: Value,
    limits: Limits,
) -> Result<CoseRecipient, CoseError>
    ensures { ReadsWithin limits HasRecipient WrongRecipient (view value) recipient_view result }
{
    let mut recipients = Vec::with_capacity(alloc, 1)?;
    read_into(alloc, value, limits, &mut recipients)?;
    match recipients.pop() {
        Some(recipient) => Ok(recipient),
        None => unreachable!(),
    }
}

/// Reads a recipient, and appends it to a list. After an error the list is as it was. What a level
/// of recipients keeps on the stack is small.
#[cycle(reader)]
fn read_into(
    alloc: Global,
    value: Value,
    limits: Limits,
    recipients: &mut Vec<CoseRecipient>,
) -> Result<(), CoseError>
    ensures read { MatchResult result
        (λ _. Pushes
        (λ r. HasRecipient (nesting_of limits) (view value) r (layers_of limits))
        recipients.old.items recipients.new.items)
        (λ e. OrMemory (WrongRecipient (nesting_of limits) (view value) (layers_of limits)) e) }
    ensures err { OnErr result (recipients.new.items ≡ recipients.old.items) }
{
    let mut items = value.try_as_array()?;
    match take_fourth(&mut items) {
        Some(list) => {
            let inner = read_recipients(alloc, list, limits)?;
            push_read(alloc, items, inner, limits, recipients)
        }
        None => push_read(alloc, items, Vec::new(alloc), limits, recipients),
    }
}

/// The last of four items, which is taken from them; none if there are fewer or more.
#[inline(never)]
fn take_fourth(items: &mut Vec<Value>) -> Option<Value>
    ensures { MatchOption result
        ((items.new.items ≡ items.old.items) × (length items.old.items ≢ 4))
        (λ v. (items.old.items ≡ items.new.items ++ v ∷ []) × (length items.new.items ≡ 3)) }
{
    if items.len() == 4 { items.pop() } else { None }
}

/// Reads the three other elements of a recipient, and appends it to a list with these recipients in
/// it. After an error the list is as it was.
#[inline(never)]
fn push_read(
    alloc: Global,
    items: Vec<Value>,
    inner: Vec<CoseRecipient>,
    limits: Limits,
    recipients: &mut Vec<CoseRecipient>,
) -> Result<(), CoseError>
    ensures read { MatchResult result
        (λ _. Pushes
        (λ r. HasThree (nesting_of limits) (map view items.items) (recipients_view inner.items) r
        (layers_of limits))
        recipients.old.items recipients.new.items)
        (λ e. OrMemory (WrongThree (nesting_of limits) (map view items.items) (layers_of limits))
        e) }
    ensures err { OnErr result (recipients.new.items ≡ recipients.old.items) }
{
    let Some((protected, unprotected, ciphertext)) = three(items) else {
        return Err(CoseError::UnexpectedItem("array", "array with 3 or 4 items"));
    };
    let values = PartValues {
        protected,
        unprotected,
        content: ciphertext,
    };
    let parts = values.read(alloc, limits, "bstr / null")?;
    recipients.push(CoseRecipient {
        protected: parts.protected,
        unprotected: parts.unprotected,
        ciphertext: parts.content,
        recipients: inner,
    })?;
    Ok(())
}

/// Reads an array of recipients within these limits, from the first to the last.
///
/// # Errors
/// A fault that the value has, or `Memory`.
#[cycle(reader)]
pub fn read_recipients(
    alloc: Global,
    value: Value,
    limits: Limits,
) -> Result<Vec<CoseRecipient>, CoseError>
    ensures { ReadsWithin limits HasList WrongList (view value) (λ rs. recipients_view rs.items)
        result }
{
    let items = value.try_as_array()?;
    let mut recipients = Vec::with_capacity(alloc, count_structures(&items))?;
    'items: for item in items {
        read_into(alloc, item, limits, &mut recipients)?;
    }
    Ok(recipients)
}
