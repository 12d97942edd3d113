//! Writes recipients straight from their fields.
ghost use Rattle.std.specs.Prelude.{◌≡◌, ◌≤◌, true, OnOk, OnErr};
ghost use Rattle.ciborium_value.specs.Tree as spec;
ghost use Rattle.ciborium_traits.specs.Events.{events, events_all, Puts, Stops};
ghost use Rattle.coset_recipients.specs.View.{recipient_view, recipients_view};
ghost use Rattle.coset_recipients.specs.Put.{recipient_put, recipients_put, recipient_begun};
ghost use Rattle.coset_recipients.specs.Put.{inner_begun, item_count, is_received_recipient};
ghost use Rattle.coset_recipients.specs.Put.{are_received_recipients};

use crate::parts_sink::begin_parts;
use crate::recipient::CoseRecipient;
use ciborium_traits::ser::Sink;

/// How many items a recipient has, by the recipients inside it.
fn count_items(recipients: &[CoseRecipient]) -> usize
    ensures { result ≡ item_count (recipients_put (recipients_view recipients.now)) }
{
    if recipients.is_empty() { 3 } else { 4 }
}

/// Writes the beginning of the list of the recipients inside one, if there are any.
#[tactic(auto, using(crate::proofs::Events::inner_opened, coset_headers::proofs::Empty::full_by))]
fn begin_inner<S: Sink>(recipients: &[CoseRecipient], to: &mut S) -> Result<(), S::Error>
    ensures ok { OnOk result (Puts S.due to.old
        (inner_begun (recipients_put (recipients_view recipients.now))) to.new) }
    ensures err { OnErr result (Stops S.due S.torn to.old
        (inner_begun (recipients_put (recipients_view recipients.now))) to.new) }
{
    if recipients.is_empty() {
        return Ok(());
    }
    to.array(recipients.len())
}

/// Writes a recipient up to the recipients inside it.
#[tactic(auto, using(crate::proofs::Events::begun_opened))]
#[inline(never)]
fn begin_recipient<S: Sink>(recipient: &CoseRecipient, to: &mut S) -> Result<(), S::Error>
    requires { is_received_recipient (recipient_view recipient.now) ≡ true }
    ensures ok { OnOk result (Puts S.due to.old
        (recipient_begun (recipient_view recipient.now)) to.new) }
    ensures err { OnErr result (Stops S.due S.torn to.old
        (recipient_begun (recipient_view recipient.now)) to.new) }
{
    begin_parts(
        count_items(&recipient.recipients),
        &recipient.protected,
        &recipient.unprotected,
        &recipient.ciphertext,
        to,
    )?;
    begin_inner(&recipient.recipients, to)
}

/// Writes a recipient, with those inside it. It has no fourth element if there are none (RFC 9052,
/// section 5.1). It is as received: so are its headers, as those of `coset_base` say, and so are
/// those inside it.
///
/// # Errors
/// The sink's; it took a beginning of the events then, and refused the next.
#[tactic(auto, using(crate::proofs::Events::recipient_opened))]
#[cycle(put)]
pub fn put_recipient<S: Sink>(recipient: &CoseRecipient, to: &mut S) -> Result<(), S::Error>
    requires { is_received_recipient (recipient_view recipient.now) ≡ true }
    ensures ok { OnOk result (Puts S.due to.old
        (events (recipient_put (recipient_view recipient.now))) to.new) }
    ensures err { OnErr result (Stops S.due S.torn to.old
        (events (recipient_put (recipient_view recipient.now))) to.new) }
{
    begin_recipient(recipient, to)?;
    put_each(&recipient.recipients, to)
}

/// Writes recipients one after another.
#[cycle(put)]
fn put_each<S: Sink>(recipients: &[CoseRecipient], to: &mut S) -> Result<(), S::Error>
    requires { are_received_recipients (recipients_view recipients.now) ≡ true }
    ensures ok { OnOk result (Puts S.due to.old
        (events_all (recipients_put (recipients_view recipients.now))) to.new) }
    ensures err { OnErr result (Stops S.due S.torn to.old
        (events_all (recipients_put (recipients_view recipients.now))) to.new) }
{
    'recipients: for recipient in recipients {
        put_recipient(recipient, to)?;
    }
    Ok(())
}

/// Writes a list of recipients that are as received. It may be empty.
///
/// # Errors
/// The sink's; it took a beginning of the events then, and refused the next.
#[tactic(auto, using(crate::proofs::Events::list_opened))]
pub fn put_recipients<S: Sink>(recipients: &[CoseRecipient], to: &mut S) -> Result<(), S::Error>
    requires { are_received_recipients (recipients_view recipients.now) ≡ true }
    ensures ok { OnOk result (Puts S.due to.old
        (events (spec.array (recipients_put (recipients_view recipients.now)))) to.new) }
    ensures err { OnErr result (Stops S.due S.torn to.old
        (events (spec.array (recipients_put (recipients_view recipients.now)))) to.new) }
{
    to.array(recipients.len())?;
    put_each(recipients, to)
}
