//! Writes headers and signatures to a sink, straight from their fields. That takes no memory.
ghost use Rattle.std.specs.Prelude.{◌≡◌, ◌≤◌, if◌then◌else◌, not, true, pos, map, option_map};
ghost use Rattle.std.specs.Prelude.{OnOk, OnErr};
ghost use Rattle.cose_iana.specs.Algorithms.{algorithm_number};
ghost use Rattle.cose_iana.specs.Formats.{coap_content_formats};
ghost use Rattle.cose_iana.specs.Headers.{header_parameters};
ghost use Rattle.ciborium_value.specs.Tree as spec;
ghost use Rattle.ciborium_value.specs.View.{trees};
ghost use Rattle.ciborium_traits.specs.Events.{events, events_all, Puts, Stops};
ghost use Rattle.coset_labels.specs.Labels.{label_tree, named_tree};
ghost use Rattle.coset_labels.specs.View.{label_view, registered_view, named_view};
ghost use Rattle.coset_headers.specs.Fields.{plain_part};
ghost use Rattle.coset_base.specs.Put.{header_put, protected_put, signature_put, signatures_put};
ghost use Rattle.coset_base.specs.Put.{entry_count, entry_events, name_events, string_events};
ghost use Rattle.coset_base.specs.Put.{signs_begun, header_begun};
ghost use Rattle.coset_headers.specs.Received.{is_received_protected, is_received_header};
ghost use Rattle.coset_headers.specs.Received.{is_received_signature, are_received_signatures};
ghost use Rattle.coset_headers.specs.View.{header_view, protected_view, signature_view};
ghost use Rattle.coset_headers.specs.View.{signatures_view, entry_view};
ghost use Rattle.coset_headers.specs.Written.{name_entry, crit_entry, bytes_entry, is_unsigned};

use ciborium_traits::ser::{Serialize, Sink};
use ciborium_value::{Integer, Value};
use coset_headers::{CoseSignature, Header, ProtectedHeader};
use coset_labels::iana::EnumI64;
use coset_labels::{
    Algorithm, ContentType, Label, RegisteredLabel, RegisteredLabelWithPrivate, iana,
};

fn put_number<S: Sink>(number: u64, to: &mut S) -> Result<(), S::Error>
    ensures ok { OnOk result (Puts S.due to.old
        (events (spec.integer (pos number))) to.new) }
    ensures err { OnErr result (Stops S.due S.torn to.old
        (events (spec.integer (pos number))) to.new) }
{
    to.integer(Integer::from(number))
}

fn put_label<S: Sink>(label: &Label, to: &mut S) -> Result<(), S::Error>
    ensures ok { OnOk result (Puts S.due to.old
        (events (label_tree (label_view label.now))) to.new) }
    ensures err { OnErr result (Stops S.due S.torn to.old
        (events (label_tree (label_view label.now))) to.new) }
{
    match label {
        Label::Int(number) => to.integer(Integer::from(*number)),
        Label::Text(text) => to.text(text.as_str()),
    }
}

fn put_name<T: EnumI64, S: Sink>(
    name: &RegisteredLabelWithPrivate<T>,
    to: &mut S,
) -> Result<(), S::Error>
    ensures ok { OnOk result (Puts S.due to.old
        (events (named_tree (named_view T.number name.now))) to.new) }
    ensures err { OnErr result (Stops S.due S.torn to.old
        (events (named_tree (named_view T.number name.now))) to.new) }
{
    match name {
        RegisteredLabelWithPrivate::PrivateUse(number) => to.integer(Integer::from(*number)),
        RegisteredLabelWithPrivate::Assigned(entry) => to.integer(Integer::from(entry.to_i64())),
        RegisteredLabelWithPrivate::Text(text) => to.text(text.as_str()),
    }
}

fn put_registered<T: EnumI64, S: Sink>(
    name: &RegisteredLabel<T>,
    to: &mut S,
) -> Result<(), S::Error>
    ensures ok { OnOk result (Puts S.due to.old
        (events (named_tree (registered_view T.number name.now))) to.new) }
    ensures err { OnErr result (Stops S.due S.torn to.old
        (events (named_tree (registered_view T.number name.now))) to.new) }
{
    match name {
        RegisteredLabel::Assigned(entry) => to.integer(Integer::from(entry.to_i64())),
        RegisteredLabel::Text(text) => to.text(text.as_str()),
    }
}

fn put_alg<S: Sink>(alg: &Option<Algorithm>, to: &mut S) -> Result<(), S::Error>
    ensures ok { OnOk result (Puts S.due to.old (entry_events
        (name_entry 1 (option_map (named_view algorithm_number) alg.now))) to.new) }
    ensures err { OnErr result (Stops S.due S.torn to.old (entry_events
        (name_entry 1 (option_map (named_view algorithm_number) alg.now))) to.new) }
{
    match alg {
        Some(alg) => {
            put_number(1, to)?;
            put_name(alg, to)
        }
        None => Ok(()),
    }
}

/// Writes the names of a list whose beginning was written.
fn put_names<S: Sink>(
    names: &[RegisteredLabelWithPrivate<iana::HeaderParameter>],
    to: &mut S,
) -> Result<(), S::Error>
    ensures ok { OnOk result (Puts S.due to.old (events_all
        (trees (map named_tree (map (named_view header_parameters.number) names.now)))) to.new) }
    ensures err { OnErr result (Stops S.due S.torn to.old (events_all
        (trees (map named_tree (map (named_view header_parameters.number) names.now)))) to.new) }
{
    'names: for name in names {
        put_name(name, to)?;
    }
    Ok(())
}

#[tactic(auto, using(crate::proofs::Events::crit_opened, coset_headers::proofs::Empty::full_by))]
fn put_crit<S: Sink>(
    crit: &[RegisteredLabelWithPrivate<iana::HeaderParameter>],
    to: &mut S,
) -> Result<(), S::Error>
    ensures ok { OnOk result (Puts S.due to.old (entry_events
        (crit_entry (map (named_view header_parameters.number) crit.now))) to.new) }
    ensures err { OnErr result (Stops S.due S.torn to.old (entry_events
        (crit_entry (map (named_view header_parameters.number) crit.now))) to.new) }
{
    if crit.is_empty() {
        return Ok(());
    }
    put_number(2, to)?;
    to.array(crit.len())?;
    put_names(crit, to)
}

fn put_content_type<S: Sink>(content_type: &Option<ContentType>, to: &mut S) -> Result<(), S::Error>
    ensures ok { OnOk result (Puts S.due to.old (entry_events (name_entry 3
        (option_map (registered_view coap_content_formats.number) content_type.now))) to.new) }
    ensures err { OnErr result (Stops S.due S.torn to.old (entry_events (name_entry 3
        (option_map (registered_view coap_content_formats.number) content_type.now))) to.new) }
{
    match content_type {
        Some(content_type) => {
            put_number(3, to)?;
            put_registered(content_type, to)
        }
        None => Ok(()),
    }
}

/// The entry of a byte string, or none if it is empty.
///
/// # Errors
/// The sink's; it took a beginning of the events then, and refused the next.
pub fn put_bytes<S: Sink>(label: u64, bytes: &[u8], to: &mut S) -> Result<(), S::Error>
    ensures ok { OnOk result (Puts S.due to.old
        (entry_events (bytes_entry label bytes.now)) to.new) }
    ensures err { OnErr result (Stops S.due S.torn to.old
        (entry_events (bytes_entry label bytes.now)) to.new) }
{
    if bytes.is_empty() {
        return Ok(());
    }
    put_number(label, to)?;
    to.bytes(bytes)
}

/// Entries with their labels.
///
/// # Errors
/// The sink's; it took a beginning of the events then, and refused the next.
#[inline(never)]
pub fn put_rest<S: Sink>(rest: &[(Label, Value)], to: &mut S) -> Result<(), S::Error>
    ensures ok { OnOk result (Puts S.due to.old
        (entry_events (map entry_view rest.now)) to.new) }
    ensures err { OnErr result (Stops S.due S.torn to.old
        (entry_events (map entry_view rest.now)) to.new) }
{
    'entries: for entry in rest {
        put_label(&entry.0, to)?;
        entry.1.serialize(to)?;
    }
    Ok(())
}

#[tactic(auto, using(crate::proofs::Events::kinds_opened))]
fn put_kinds<S: Sink>(header: &Header, to: &mut S) -> Result<(), S::Error>
    ensures ok { OnOk result (Puts S.due to.old
        (name_events (plain_part (header_view header.now))) to.new) }
    ensures err { OnErr result (Stops S.due S.torn to.old
        (name_events (plain_part (header_view header.now))) to.new) }
{
    put_alg(&header.alg, to)?;
    put_crit(&header.crit, to)?;
    put_content_type(&header.content_type, to)
}

#[tactic(auto, using(crate::proofs::Events::strings_opened))]
fn put_strings<S: Sink>(header: &Header, to: &mut S) -> Result<(), S::Error>
    ensures ok { OnOk result (Puts S.due to.old
        (string_events (plain_part (header_view header.now))) to.new) }
    ensures err { OnErr result (Stops S.due S.torn to.old
        (string_events (plain_part (header_view header.now))) to.new) }
{
    put_bytes(4, &header.key_id, to)?;
    put_bytes(5, &header.iv, to)?;
    put_bytes(6, &header.partial_iv, to)
}

/// Writes the label of counter signatures, and the beginning of their list if there are several.
#[tactic(auto, using(crate::proofs::Events::several_begun, crate::proofs::Events::one_begun, coset_headers::proofs::Empty::full_by))]
fn begin_counter<S: Sink>(signatures: &[CoseSignature], to: &mut S) -> Result<(), S::Error>
    ensures ok { OnOk result (Puts S.due to.old
        (signs_begun (signatures_put (signatures_view signatures.now))) to.new) }
    ensures err { OnErr result (Stops S.due S.torn to.old
        (signs_begun (signatures_put (signatures_view signatures.now))) to.new) }
{
    if signatures.is_empty() {
        return Ok(());
    }
    put_number(7, to)?;
    if signatures.len() > 1 {
        return to.array(signatures.len());
    }
    Ok(())
}

fn one(there: bool) -> usize
    ensures value { result ≡ (if there then 1 else 0) }
    ensures few { result ≤ 1 }
{
    if there { 1 } else { 0 }
}

fn has_signatures(signatures: &[CoseSignature]) -> bool
    ensures { result ≡ not (is_unsigned (signatures_view signatures.now)) }
{
    !signatures.is_empty()
}

/// How many entries the header has.
fn count_entries(header: &Header) -> usize
    ensures { result ≡ entry_count (header_view header.now) }
{
    let rest: &[(Label, Value)] = &header.rest;
    one(header.alg.is_some())
        + one(!header.crit.is_empty())
        + one(header.content_type.is_some())
        + one(!header.key_id.is_empty())
        + one(!header.iv.is_empty())
        + one(!header.partial_iv.is_empty())
        + one(has_signatures(&header.counter_signatures))
        + rest.len()
}

/// Writes a header up to its counter signatures.
#[tactic(auto, using(crate::proofs::Events::begun_opened))]
#[inline(never)]
fn begin_header<S: Sink>(header: &Header, to: &mut S) -> Result<(), S::Error>
    ensures ok { OnOk result (Puts S.due to.old
        (header_begun (header_view header.now)) to.new) }
    ensures err { OnErr result (Stops S.due S.torn to.old
        (header_begun (header_view header.now)) to.new) }
{
    to.map(count_entries(header))?;
    put_kinds(header, to)?;
    put_strings(header, to)?;
    begin_counter(&header.counter_signatures, to)
}

/// Writes a header that is as received: no label is in `rest` twice, and each protected header
/// inside has its received bytes or is empty. Each that was read is so, and `is_received` tells it
/// of another; `to_vec` writes those that aren't.
///
/// # Errors
/// The sink's; it took a beginning of the events then, and refused the next.
#[tactic(auto, using(crate::proofs::Events::header_opened))]
#[cycle(put)]
pub fn put_header<S: Sink>(header: &Header, to: &mut S) -> Result<(), S::Error>
    requires { is_received_header (header_view header.now) ≡ true }
    ensures ok { OnOk result (Puts S.due to.old
        (events (header_put (header_view header.now))) to.new) }
    ensures err { OnErr result (Stops S.due S.torn to.old
        (events (header_put (header_view header.now))) to.new) }
{
    begin_header(header, to)?;
    put_each(&header.counter_signatures, to)?;
    put_rest(&header.rest, to)
}

/// Writes the received bytes of a protected header, as a byte string; of an empty header without
/// any the empty one, which stands for it (RFC 9052, section 3).
///
/// # Errors
/// The sink's.
#[inline(never)]
pub fn put_protected<S: Sink>(protected: &ProtectedHeader, to: &mut S) -> Result<(), S::Error>
    requires { is_received_protected (protected_view protected.now) ≡ true }
    ensures ok { OnOk result (Puts S.due to.old
        (events (protected_put (protected_view protected.now))) to.new) }
    ensures err { OnErr result (Stops S.due S.torn to.old
        (events (protected_put (protected_view protected.now))) to.new) }
{
    match &protected.original_data {
        Some(bytes) => to.bytes(bytes),
        None => to.bytes(&[]),
    }
}

/// Writes a signature that is as received: so are its headers, as `put_protected` and `put_header`
/// say.
///
/// # Errors
/// The sink's; it took a beginning of the events then, and refused the next.
#[tactic(auto, using(crate::proofs::Events::signature_opened))]
#[cycle(put)]
pub fn put_signature<S: Sink>(signature: &CoseSignature, to: &mut S) -> Result<(), S::Error>
    requires { is_received_signature (signature_view signature.now) ≡ true }
    ensures ok { OnOk result (Puts S.due to.old
        (events (signature_put (signature_view signature.now))) to.new) }
    ensures err { OnErr result (Stops S.due S.torn to.old
        (events (signature_put (signature_view signature.now))) to.new) }
{
    to.array(3)?;
    put_protected(&signature.protected, to)?;
    put_header(&signature.unprotected, to)?;
    to.bytes(&signature.signature)
}

/// Writes signatures one after another.
#[cycle(put)]
fn put_each<S: Sink>(signatures: &[CoseSignature], to: &mut S) -> Result<(), S::Error>
    requires { are_received_signatures (signatures_view signatures.now) ≡ true }
    ensures ok { OnOk result (Puts S.due to.old
        (events_all (signatures_put (signatures_view signatures.now))) to.new) }
    ensures err { OnErr result (Stops S.due S.torn to.old
        (events_all (signatures_put (signatures_view signatures.now))) to.new) }
{
    'signatures: for signature in signatures {
        put_signature(signature, to)?;
    }
    Ok(())
}

/// Writes a list of signatures that are as received, as `put_signature` says.
///
/// # Errors
/// The sink's; it took a beginning of the events then, and refused the next.
#[tactic(auto, using(crate::proofs::Events::list_opened))]
pub fn put_signatures<S: Sink>(signatures: &[CoseSignature], to: &mut S) -> Result<(), S::Error>
    requires { are_received_signatures (signatures_view signatures.now) ≡ true }
    ensures ok { OnOk result (Puts S.due to.old
        (events (spec.array (signatures_put (signatures_view signatures.now)))) to.new) }
    ensures err { OnErr result (Stops S.due S.torn to.old
        (events (spec.array (signatures_put (signatures_view signatures.now)))) to.new) }
{
    to.array(signatures.len())?;
    put_each(signatures, to)
}
