//! Writes messages with a tag straight from their fields, without their tags and with them (RFC
//! 9052, sections 6.1 and 6.2). What is written is as received.
ghost use Rattle.std.specs.Prelude.{◌≡◌, true, OnOk, OnErr};
ghost use Rattle.ciborium_traits.specs.Events.{events, Puts, Stops};
ghost use Rattle.coset_maced.specs.View.{mac0_view, mac_view};
ghost use Rattle.coset_maced.specs.Put.{mac0_put, mac_put, is_received_mac0, is_received_mac};
ghost use Rattle.ciborium_value.specs.Tree as spec;

use crate::mac::CoseMac;
use crate::mac0::CoseMac0;
use ciborium_traits::ser::Sink;
use coset_labels::TaggedCborSerializable;
use coset_recipients::{begin_parts, put_recipients};

/// Writes a COSE_Mac0 without its tag (RFC 9052, section 6.2). A payload that is carried elsewhere
/// is null. The message is as received: so are its headers, as those of `coset_base` say.
///
/// # Errors
/// The sink's; it took a beginning of the events then, and refused the next.
pub fn put_mac0<S: Sink>(message: &CoseMac0, to: &mut S) -> Result<(), S::Error>
    requires { is_received_mac0 (mac0_view message.now) ≡ true }
    ensures ok { OnOk result (Puts S.due to.old
        (events (mac0_put (mac0_view message.now))) to.new) }
    ensures err { OnErr result (Stops S.due S.torn to.old
        (events (mac0_put (mac0_view message.now))) to.new) }
{
    begin_parts(
        4,
        &message.protected,
        &message.unprotected,
        &message.payload,
        to,
    )?;
    to.bytes(&message.tag)
}

/// Writes a COSE_Mac without its tag (RFC 9052, section 6.1). A payload that is carried elsewhere
/// is null. The message is as received: so are its headers, as those of `coset_base` say.
///
/// # Errors
/// The sink's; it took a beginning of the events then, and refused the next.
pub fn put_mac<S: Sink>(message: &CoseMac, to: &mut S) -> Result<(), S::Error>
    requires { is_received_mac (mac_view message.now) ≡ true }
    ensures ok { OnOk result (Puts S.due to.old
        (events (mac_put (mac_view message.now))) to.new) }
    ensures err { OnErr result (Stops S.due S.torn to.old
        (events (mac_put (mac_view message.now))) to.new) }
{
    begin_parts(
        5,
        &message.protected,
        &message.unprotected,
        &message.payload,
        to,
    )?;
    to.bytes(&message.tag)?;
    put_recipients(&message.recipients, to)
}

/// Writes a COSE_Mac0 in its tag, 17 (RFC 9052, section 2), as `put_mac0` does.
///
/// # Errors
/// The sink's; it took a beginning of the events then, and refused the next.
pub fn put_tagged_mac0<S: Sink>(message: &CoseMac0, to: &mut S) -> Result<(), S::Error>
    requires { is_received_mac0 (mac0_view message.now) ≡ true }
    ensures ok { OnOk result (Puts S.due to.old
        (events (spec.tag 17 (mac0_put (mac0_view message.now)))) to.new) }
    ensures err { OnErr result (Stops S.due S.torn to.old
        (events (spec.tag 17 (mac0_put (mac0_view message.now)))) to.new) }
{
    to.tag(CoseMac0::TAG)?;
    put_mac0(message, to)
}

/// Writes a COSE_Mac in its tag, 97 (RFC 9052, section 2), as `put_mac` does.
///
/// # Errors
/// The sink's; it took a beginning of the events then, and refused the next.
pub fn put_tagged_mac<S: Sink>(message: &CoseMac, to: &mut S) -> Result<(), S::Error>
    requires { is_received_mac (mac_view message.now) ≡ true }
    ensures ok { OnOk result (Puts S.due to.old
        (events (spec.tag 97 (mac_put (mac_view message.now)))) to.new) }
    ensures err { OnErr result (Stops S.due S.torn to.old
        (events (spec.tag 97 (mac_put (mac_view message.now)))) to.new) }
{
    to.tag(CoseMac::TAG)?;
    put_mac(message, to)
}
