//! Writes signed messages straight from their fields, without their tags and with them (RFC 9052,
//! sections 4.1 and 4.2). What is written is as received.
ghost use Rattle.std.specs.Prelude.{◌≡◌, true, OnOk, OnErr};
ghost use Rattle.ciborium_traits.specs.Events.{events, Puts, Stops};
ghost use Rattle.coset_signed.specs.View.{sign1_view, sign_view};
ghost use Rattle.coset_signed.specs.Put.{sign1_put, sign_put, is_received_sign1, is_received_sign};
ghost use Rattle.ciborium_value.specs.Tree as spec;

use crate::sign::CoseSign;
use crate::sign1::CoseSign1;
use ciborium_traits::ser::Sink;
use coset_base::put_signatures;
use coset_labels::TaggedCborSerializable;
use coset_recipients::begin_parts;

/// Writes a COSE_Sign1 without its tag (RFC 9052, section 4.2). A payload that is carried elsewhere
/// is null. The message is as received: so are its headers, as those of `coset_base` say.
///
/// # Errors
/// The sink's; it took a beginning of the events then, and refused the next.
pub fn put_sign1<S: Sink>(message: &CoseSign1, to: &mut S) -> Result<(), S::Error>
    requires { is_received_sign1 (sign1_view message.now) ≡ true }
    ensures ok { OnOk result (Puts S.due to.old
        (events (sign1_put (sign1_view message.now))) to.new) }
    ensures err { OnErr result (Stops S.due S.torn to.old
        (events (sign1_put (sign1_view message.now))) to.new) }
{
    begin_parts(
        4,
        &message.protected,
        &message.unprotected,
        &message.payload,
        to,
    )?;
    to.bytes(&message.signature)
}

/// Writes a COSE_Sign without its tag (RFC 9052, section 4.1). A payload that is carried elsewhere
/// is null. The message is as received: so are its headers, as those of `coset_base` say.
///
/// # Errors
/// The sink's; it took a beginning of the events then, and refused the next.
pub fn put_sign<S: Sink>(message: &CoseSign, to: &mut S) -> Result<(), S::Error>
    requires { is_received_sign (sign_view message.now) ≡ true }
    ensures ok { OnOk result (Puts S.due to.old
        (events (sign_put (sign_view message.now))) to.new) }
    ensures err { OnErr result (Stops S.due S.torn to.old
        (events (sign_put (sign_view message.now))) to.new) }
{
    begin_parts(
        4,
        &message.protected,
        &message.unprotected,
        &message.payload,
        to,
    )?;
    put_signatures(&message.signatures, to)
}

/// Writes a COSE_Sign1 in its tag, 18 (RFC 9052, section 2), as `put_sign1` does.
///
/// # Errors
/// The sink's; it took a beginning of the events then, and refused the next.
pub fn put_tagged_sign1<S: Sink>(message: &CoseSign1, to: &mut S) -> Result<(), S::Error>
    requires { is_received_sign1 (sign1_view message.now) ≡ true }
    ensures ok { OnOk result (Puts S.due to.old
        (events (spec.tag 18 (sign1_put (sign1_view message.now)))) to.new) }
    ensures err { OnErr result (Stops S.due S.torn to.old
        (events (spec.tag 18 (sign1_put (sign1_view message.now)))) to.new) }
{
    to.tag(CoseSign1::TAG)?;
    put_sign1(message, to)
}

/// Writes a COSE_Sign in its tag, 98 (RFC 9052, section 2), as `put_sign` does.
///
/// # Errors
/// The sink's; it took a beginning of the events then, and refused the next.
pub fn put_tagged_sign<S: Sink>(message: &CoseSign, to: &mut S) -> Result<(), S::Error>
    requires { is_received_sign (sign_view message.now) ≡ true }
    ensures ok { OnOk result (Puts S.due to.old
        (events (spec.tag 98 (sign_put (sign_view message.now)))) to.new) }
    ensures err { OnErr result (Stops S.due S.torn to.old
        (events (spec.tag 98 (sign_put (sign_view message.now)))) to.new) }
{
    to.tag(CoseSign::TAG)?;
    put_sign(message, to)
}
