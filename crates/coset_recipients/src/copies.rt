//! Copies of recipients.
ghost use Rattle.std.specs.Prelude.{◌≡◌, ◌++◌, IfOk, map};
ghost use Rattle.coset_recipients.specs.Copies.{PushesPlain, without_recipients};
ghost use Rattle.coset_recipients.specs.View.{recipient_view};

use crate::recipient::CoseRecipient;
use coset_labels::clone_bytes;
use std::alloc::{AllocError, Global};

impl CoseRecipient {
    /// A recipient equal to this one.
    ///
    /// # Errors
    /// Only if out of memory.
    pub fn clone(&self, alloc: Global) -> Result<CoseRecipient, AllocError>
        ensures { IfOk result (λ copy. recipient_view copy ≡ recipient_view self.now) }
    {
        let mut copy = clone_plain(alloc, self)?;
        copy_recipients(alloc, &self.recipients, &mut copy.recipients)?;
        Ok(copy)
    }
}

/// The same recipients again.
///
/// # Errors
/// Only if out of memory.
pub fn clone_recipients(
    alloc: Global,
    recipients: &[CoseRecipient],
) -> Result<Vec<CoseRecipient>, AllocError>
    ensures { IfOk result
        (λ copies. map recipient_view copies.items ≡ map recipient_view recipients.now) }
{
    let mut copies = Vec::with_capacity(alloc, recipients.len())?;
    copy_recipients(alloc, recipients, &mut copies)?;
    Ok(copies)
}

/// Appends copies of recipients. What a level of recipients keeps on the stack is small.
fn copy_recipients(
    alloc: Global,
    recipients: &[CoseRecipient],
    copies: &mut Vec<CoseRecipient>,
) -> Result<(), AllocError>
    ensures { IfOk result (λ _. map recipient_view copies.new.items
        ≡ map recipient_view copies.old.items ++ map recipient_view recipients.now) }
{
    'recipients: for recipient in recipients {
        push_plain(alloc, recipient, copies)?;
        if let Some(copy) = copies.last_mut() {
            copy_recipients(alloc, &recipient.recipients, &mut copy.recipients)?;
        }
    }
    Ok(())
}

/// Appends a copy of a recipient but for the recipients in it, of which it has none.
#[inline(never)]
fn push_plain(
    alloc: Global,
    recipient: &CoseRecipient,
    copies: &mut Vec<CoseRecipient>,
) -> Result<(), AllocError>
    ensures { IfOk result (λ _. PushesPlain recipient.now copies.old.items copies.new.items) }
{
    let copy = clone_plain(alloc, recipient)?;
    copies.push(copy)?;
    Ok(())
}

/// A copy of a recipient but for the recipients in it, of which it has none.
fn clone_plain(alloc: Global, recipient: &CoseRecipient) -> Result<CoseRecipient, AllocError>
    ensures { IfOk result
        (λ copy. recipient_view copy ≡ without_recipients (recipient_view recipient.now)) }
{
    Ok(CoseRecipient {
        protected: recipient.protected.clone(alloc)?,
        unprotected: recipient.unprotected.clone(alloc)?,
        ciphertext: clone_bytes(alloc, &recipient.ciphertext)?,
        recipients: Vec::with_capacity(alloc, recipient.recipients.len())?,
    })
}
