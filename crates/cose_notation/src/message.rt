//! What a COSE message holds (RFC 9052), told part by part.
use crate::names::claim;
use crate::parts::{
    Members, entries, header_of, integer, is_bytes, is_label, is_null, is_one_item, items, joined,
    tagged,
};
use crate::shows::{Done, Group, Labels, PartIs, Shows, show_entries};
use cbor_diag::{CWT, NotWritten, SELF_DESCRIBED, View};
use ciborium_ll::Header;
use std::alloc::Global;

/// A kind of message, by its name and the parts after its headers.
#[derive(Debug, Clone, Copy, PartialEq, Eq)]
pub struct Form {
    /// Its name.
    pub name: &'static str,
    /// Its parts.
    pub parts: &'static [Part],
}

/// A part of a message after its headers.
#[derive(Debug, Clone, Copy, PartialEq, Eq)]
pub enum Part {
    /// The payload.
    Payload,
    /// The ciphertext.
    Ciphertext,
    /// The one signature.
    Signature,
    /// The tag of a MAC.
    Tag,
    /// The signatures.
    Signatures,
    /// The recipients.
    Recipients,
}

/// The message that a tag is of (RFC 9052, section 2).
fn form_of(tag: u64) -> Option<Form> {
    let (name, parts): (&'static str, &'static [Part]) = match tag {
        16 => ("COSE_Encrypt0", &[Part::Ciphertext]),
        17 => ("COSE_Mac0", &[Part::Payload, Part::Tag]),
        18 => ("COSE_Sign1", &[Part::Payload, Part::Signature]),
        96 => ("COSE_Encrypt", &[Part::Ciphertext, Part::Recipients]),
        97 => ("COSE_Mac", &[Part::Payload, Part::Tag, Part::Recipients]),
        98 => ("COSE_Sign", &[Part::Payload, Part::Signatures]),
        _ => return None,
    };
    Some(Form { name, parts })
}

/// A message, by its tag.
#[derive(Clone, Copy)]
pub struct Message<'a> {
    /// Its kind.
    pub form: Form,
    /// Its tag.
    pub tag: u64,
    /// What the tag is around.
    pub content: View<'a>,
    /// The tags around it: those that `cose-sift --untag` takes off.
    pub outer: OuterTags<'a>,
}

/// The tags 61 and 55799 that an item begins with, from the outermost on.
#[derive(Clone, Copy)]
pub struct OuterTags<'a> {
    rest: View<'a>,
}

impl OuterTags<'_> {
    /// The next one.
    pub fn next(&mut self) -> Option<u64> {
        match tagged(self.rest)? {
            (tag @ (CWT | SELF_DESCRIBED), content) => {
                self.rest = content;
                Some(tag)
            }
            _ => None,
        }
    }
}

/// The message that an item is, which may be in tags 61 and 55799.
pub fn message_of(item: View<'_>) -> Option<Message<'_>> {
    let outer = OuterTags { rest: item };
    let mut tags = outer;
    for _ in 0..item.len() {
        if tags.next().is_none() {
            break;
        }
    }
    let (tag, content) = tagged(tags.rest)?;
    Some(Message {
        form: form_of(tag)?,
        tag,
        content,
        outer,
    })
}

/// Whether an item is an array of the parts of a COSE_Sign1, which are those of a COSE_Mac0 too:
/// only the tag tells which it is (RFC 9052, section 2).
///
/// # Errors
/// `Memory`.
pub fn lacks_tag(alloc: Global, item: View<'_>) -> Result<bool, NotWritten> {
    let Some(mut parts) = items(alloc, item) else {
        return Ok(false);
    };
    let headers = (parts.next()?, parts.next()?);
    let others = (parts.next()?, parts.next()?, parts.next()?);
    Ok(match (headers, others) {
        ((Some(protected), Some(map)), (Some(payload), Some(last), None)) => {
            is_bytes(protected.bytes())
                && entries(alloc, map).is_some()
                && (is_bytes(payload.bytes()) || is_null(payload.bytes()))
                && is_bytes(last.bytes())
        }
        _ => false,
    })
}

/// Whether an item is a message whose parts can be shown.
pub fn is_message(item: View<'_>) -> bool {
    match message_of(item) {
        Some(message) => matches!(header_of(message.content.bytes()), Some(Header::Array(_))),
        None => false,
    }
}

/// Tells the parts of the message that an item is, and nothing of another item.
///
/// # Errors
/// `Output` and `Memory`.
pub fn show_message<S: Shows>(alloc: Global, item: View<'_>, to: &mut S) -> Done {
    let Some(message) = message_of(item) else {
        return Ok(());
    };
    to.begin(Group::Message(message))?;
    let Some(mut parts) = items(alloc, message.content) else {
        return to.part("not an array", PartIs::Wrong);
    };
    show_headers(alloc, &mut parts, to)?;
    for part in message.form.parts {
        match parts.next()? {
            Some(item) => show_part(alloc, *part, item, to)?,
            None => to.part(name_of(*part), PartIs::Missing)?,
        }
    }
    show_more(&mut parts, to)
}

/// Items that have no place in the message.
fn show_more<S: Shows>(parts: &mut Members<'_>, to: &mut S) -> Done {
    for _ in 0..u64::MAX {
        match parts.next()? {
            Some(item) => to.part("more", PartIs::More(item))?,
            None => break,
        }
    }
    Ok(())
}

/// The two headers.
fn show_headers<S: Shows>(alloc: Global, parts: &mut Members<'_>, to: &mut S) -> Done {
    match parts.next()? {
        Some(item) => show_protected(alloc, item, to)?,
        None => to.part("protected", PartIs::Missing)?,
    }
    match parts.next()? {
        Some(item) => show_header(alloc, "unprotected", None, item, to),
        None => to.part("unprotected", PartIs::Missing),
    }
}

/// A protected header: a byte string around a map, or an empty one (RFC 9052, section 3).
fn show_protected<S: Shows>(alloc: Global, item: View<'_>, to: &mut S) -> Done {
    let name = "protected";
    if !is_bytes(item.bytes()) {
        return to.part(name, PartIs::NoBytes(item));
    }
    let content = joined(alloc, item)?;
    let bytes = content.view();
    if is_one_item(alloc, bytes)? && !bytes.is_hidden() {
        show_header(alloc, name, Some(bytes), bytes, to)
    } else {
        to.part(name, PartIs::NoItem(bytes, item))
    }
}

fn show_header<S: Shows>(
    alloc: Global,
    name: &'static str,
    bytes: Option<View<'_>>,
    item: View<'_>,
    to: &mut S,
) -> Done {
    match entries(alloc, item) {
        Some(map) => show_entries(alloc, Group::Header(name, bytes), Labels::Headers, map, to),
        None => to.part(name, PartIs::NoMap(bytes, item)),
    }
}

/// The name of a part.
fn name_of(part: Part) -> &'static str {
    match part {
        Part::Payload => "payload",
        Part::Ciphertext => "ciphertext",
        Part::Signature => "signature",
        Part::Tag => "tag",
        Part::Signatures => "signatures",
        Part::Recipients => "recipients",
    }
}

fn show_part<S: Shows>(alloc: Global, part: Part, item: View<'_>, to: &mut S) -> Done {
    let name = name_of(part);
    match part {
        Part::Payload | Part::Ciphertext if is_null(item.bytes()) => {
            to.part(name, PartIs::Detached)
        }
        Part::Payload if is_bytes(item.bytes()) => show_payload(alloc, item, to),
        Part::Signatures => show_list(alloc, "signature", item, to),
        Part::Recipients => show_list(alloc, "recipient", item, to),
        _ => show_bytes(alloc, name, item, to),
    }
}

fn show_bytes<S: Shows>(alloc: Global, name: &'static str, item: View<'_>, to: &mut S) -> Done {
    if is_bytes(item.bytes()) {
        let content = joined(alloc, item)?;
        to.part(name, PartIs::Bytes(content.view()))
    } else {
        to.part(name, PartIs::Item(item))
    }
}

fn show_payload<S: Shows>(alloc: Global, item: View<'_>, to: &mut S) -> Done {
    let content = joined(alloc, item)?;
    let payload = content.view();
    let is_item = !payload.is_hidden() && is_one_item(alloc, payload)?;
    if is_item && is_claims(alloc, payload)? {
        if let Some(map) = entries(alloc, payload) {
            return show_entries(alloc, Group::Claims(payload), Labels::Claims, map, to);
        }
    }
    to.part("payload", PartIs::Payload(payload, is_item))
}

/// Whether an item is a claims set (RFC 8392): a map whose keys are numbers and texts, a registered
/// claim among them.
fn is_claims(alloc: Global, item: View<'_>) -> Result<bool, NotWritten> {
    let Some(mut parts) = entries(alloc, item) else {
        return Ok(false);
    };
    let mut found = false;
    for _ in 0..u64::MAX {
        let Some(key) = parts.next()? else {
            break;
        };
        if !is_label(key.bytes()) {
            return Ok(false);
        }
        found = found || is_known_claim(integer(key.bytes()));
        let _ = parts.next()?;
    }
    Ok(found)
}

/// Whether the registry of claims has this number, which isn't the reserved one.
fn is_known_claim(number: Option<i64>) -> bool {
    match number {
        Some(number) => number != 0 && claim(number).is_some(),
        None => false,
    }
}

/// Signatures or recipients: arrays of a protected header, an unprotected one, and bytes.
fn show_list<S: Shows>(alloc: Global, name: &'static str, item: View<'_>, to: &mut S) -> Done {
    let Some(mut list) = items(alloc, item) else {
        return to.part(name, PartIs::NoList(item));
    };
    to.begin(Group::List(name))?;
    for number in 1..u64::MAX {
        let Some(one) = list.next()? else {
            break;
        };
        to.begin(Group::One(name, number, one))?;
        show_one(alloc, name, one, to)?;
        to.end(Group::One(name, number, one))?;
    }
    to.end(Group::List(name))
}

fn show_one<S: Shows>(alloc: Global, name: &'static str, one: View<'_>, to: &mut S) -> Done {
    let Some(mut parts) = items(alloc, one) else {
        return to.part("not an array", PartIs::More(one));
    };
    show_headers(alloc, &mut parts, to)?;
    let last = if name == "recipient" {
        "ciphertext"
    } else {
        name
    };
    match parts.next()? {
        Some(item) => show_bytes(alloc, last, item, to)?,
        None => to.part(last, PartIs::Missing)?,
    }
    show_more(&mut parts, to)
}
