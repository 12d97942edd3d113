//! Which part of a message is wrong.
use cbor_diag::Page;
use ciborium_value::Value;
use cose_gate_core::{CoseError, CoseRecipient, CoseSignature, Header, ProtectedHeader};
use cose_notation::{
    Look, Part, View, entries, is_bytes, items, joined, mask, message_of, write_shown,
};
use cose_reasons::Stop;
use coset_labels::{CborSerializable, ValueTryAs, read_to_value};
use std::alloc::Global;

/// So many levels are read.
const NESTING: usize = 256;

/// A part of a message, and what is wrong in it.
#[derive(Drop)]
pub struct WrongPart {
    /// The part, in words.
    pub name: String,
    /// What is wrong.
    pub fault: CoseError,
}

/// The first part that is wrong, in the order in which the parts of a message are read: from the
/// last to the first, and in a list from the first to the last. None if the parts are not those of
/// the message, since then it is the whole that is wrong.
///
/// # Errors
/// `Memory`.
pub fn wrong_part(alloc: Global, item: &[u8]) -> Result<Option<WrongPart>, Stop> {
    let Some(message) = message_of(View::open(item)) else {
        return Ok(None);
    };
    let form = message.form;
    let parts = parts_of(alloc, message.content.bytes())?;
    if parts.len() != form.parts.len().saturating_add(2) {
        return Ok(None);
    }
    for back in 1..=form.parts.len() {
        let place = form.parts.len().saturating_sub(back);
        if let (Some(part), Some(item)) = (
            form.parts.get(place),
            parts.get(place.saturating_add(2)),
        ) {
            let wrong = wrong_in(alloc, *part, item)?;
            if wrong.is_some() {
                return Ok(wrong);
            }
        }
    }
    wrong_header(alloc, "", &parts)
}

/// The items of an array; of another item there are none.
fn parts_of(alloc: Global, item: &[u8]) -> Result<Vec<&[u8]>, Stop> {
    let mut parts = Vec::new(alloc);
    let Some(mut list) = items(alloc, View::open(item)) else {
        return Ok(parts);
    };
    for _ in 0..u64::MAX {
        match list.next()? {
            Some(part) => parts.push(part.bytes())?,
            None => break,
        }
    }
    Ok(parts)
}

/// What is wrong in a part after the headers.
fn wrong_in(alloc: Global, part: Part, item: &[u8]) -> Result<Option<WrongPart>, Stop> {
    match part {
        Part::Signatures => wrong_in_list(alloc, "signature", item),
        Part::Recipients => wrong_in_list(alloc, "recipient", item),
        Part::Signature => wrong_bytes(alloc, "signature", false, item),
        Part::Tag => wrong_bytes(alloc, "tag", false, item),
        Part::Payload => wrong_bytes(alloc, "payload", true, item),
        Part::Ciphertext => wrong_bytes(alloc, "ciphertext", true, item),
    }
}

/// The value that an item is.
fn value_of(alloc: Global, item: &[u8]) -> Result<Option<Value>, Stop> {
    match read_to_value(alloc, item, NESTING) {
        Ok(value) => Ok(Some(value)),
        Err(CoseError::Memory) => Err(Stop::Memory),
        Err(_) => Ok(None),
    }
}

fn named(alloc: Global, name: &str, fault: CoseError) -> Result<Option<WrongPart>, Stop> {
    if fault == CoseError::Memory {
        return Err(Stop::Memory);
    }
    let name = String::from_str(alloc, name)?;
    Ok(Some(WrongPart { name, fault }))
}

/// What is wrong in a byte string; a content may be null.
fn wrong_bytes(
    alloc: Global,
    name: &str,
    is_content: bool,
    item: &[u8],
) -> Result<Option<WrongPart>, Stop> {
    let Some(value) = value_of(alloc, item)? else {
        return Ok(None);
    };
    let fault = if is_content {
        value.try_as_bytes_or_nil("bstr").err()
    } else {
        value.try_as_bytes().err()
    };
    match fault {
        Some(fault) => named(alloc, name, fault),
        None => Ok(None),
    }
}

/// A signature or a recipient that is wrong: its number in its list, from 1, and what is wrong in
/// it.
#[derive(Clone, Copy)]
struct WrongOne<'a> {
    number: u64,
    item: &'a [u8],
    fault: CoseError,
}

/// The first signature or recipient of a list that is wrong.
fn wrong_in_list(alloc: Global, name: &str, item: &[u8]) -> Result<Option<WrongPart>, Stop> {
    if !is_array(alloc, item) {
        return wrong_list(alloc, "", name, item);
    }
    match first_wrong(alloc, name, item)? {
        Some(one) => wrong_one(alloc, name, one),
        None => Ok(None),
    }
}

fn is_array(alloc: Global, item: &[u8]) -> bool {
    items(alloc, View::open(item)).is_some()
}

fn first_wrong<'a>(
    alloc: Global,
    name: &str,
    list: &'a [u8],
) -> Result<Option<WrongOne<'a>>, Stop> {
    let Some(mut list) = items(alloc, View::open(list)) else {
        return Ok(None);
    };
    for number in 1..u64::MAX {
        let Some(item) = list.next()? else {
            break;
        };
        let item = item.bytes();
        if let Some(fault) = fault_of(alloc, name, item)? {
            return Ok(Some(WrongOne {
                number,
                item,
                fault,
            }));
        }
    }
    Ok(None)
}

/// A list that is no array, after the names of what it is in.
fn wrong_list(
    alloc: Global,
    prefix: &str,
    name: &str,
    item: &[u8],
) -> Result<Option<WrongPart>, Stop> {
    match value_of(alloc, item)? {
        Some(value) => match value.try_as_array() {
            Ok(_) => Ok(None),
            Err(fault) => {
                let name = format!(in alloc; "{prefix}{name}s")?;
                named(alloc, name.as_str(), fault)
            }
        },
        None => Ok(None),
    }
}

/// What is wrong in a signature or a recipient.
fn fault_of(alloc: Global, name: &str, one: &[u8]) -> Result<Option<CoseError>, Stop> {
    let fault = if name == "signature" {
        CoseSignature::from_slice(alloc, one).err()
    } else {
        CoseRecipient::from_slice(alloc, one).err()
    };
    match fault {
        Some(CoseError::Memory) => Err(Stop::Memory),
        fault => Ok(fault),
    }
}

/// What is wrong in a signature or a recipient: a recipient that is in it if one is wrong, its
/// header if that is, and else the whole.
fn wrong_one(alloc: Global, name: &str, one: WrongOne<'_>) -> Result<Option<WrongPart>, Stop> {
    let mut one = one;
    let number = one.number;
    let mut title = format!(in alloc; "{name} {number}")?;
    for _ in 0..NESTING {
        let Some(list) = own_recipients(alloc, name, one.item)? else {
            break;
        };
        if !is_array(alloc, list) {
            title.push_str(", ")?;
            return wrong_list(alloc, title.as_str(), name, list);
        }
        let Some(inner) = first_wrong(alloc, name, list)? else {
            break;
        };
        let number = inner.number;
        write!(title, ", {name} {number}")?;
        one = inner;
    }
    wrong_header_or_whole(alloc, title, one)
}

/// The recipients of a recipient, if it has four parts.
fn own_recipients<'a>(alloc: Global, name: &str, one: &'a [u8]) -> Result<Option<&'a [u8]>, Stop> {
    if name != "recipient" {
        return Ok(None);
    }
    let parts = parts_of(alloc, one)?;
    match parts.as_slice() {
        [_, _, _, list] => Ok(Some(*list)),
        _ => Ok(None),
    }
}

/// The header of a signature or a recipient with this title if it is wrong, and else the whole.
fn wrong_header_or_whole(
    alloc: Global,
    title: String,
    one: WrongOne<'_>,
) -> Result<Option<WrongPart>, Stop> {
    let parts = parts_of(alloc, one.item)?;
    if parts.len() == 3 || parts.len() == 4 {
        let prefix = format!(in alloc; "{title}, ")?;
        let wrong = wrong_header(alloc, prefix.as_str(), &parts)?;
        if wrong.is_some() {
            return Ok(wrong);
        }
    }
    named(alloc, title.as_str(), one.fault)
}

/// What is wrong in the two headers that parts begin with.
fn wrong_header(alloc: Global, prefix: &str, parts: &[&[u8]]) -> Result<Option<WrongPart>, Stop> {
    let [protected, unprotected, ..] = parts else {
        return Ok(None);
    };
    if let Some(fault) = Header::from_slice(alloc, unprotected).err() {
        let name = format!(in alloc; "{prefix}unprotected header")?;
        return wrong_label(alloc, name, unprotected, fault);
    }
    let Some(value) = value_of(alloc, protected)? else {
        return Ok(None);
    };
    match ProtectedHeader::from_cbor_bstr(alloc, value) {
        Ok(_) => Ok(None),
        Err(fault) => {
            let name = format!(in alloc; "{prefix}protected header")?;
            if !is_bytes(protected) {
                return named(alloc, name.as_str(), fault);
            }
            let bytes = joined(alloc, View::open(protected))?;
            wrong_label(alloc, name, bytes.view().bytes(), fault)
        }
    }
}

/// The label of the first entry that is wrong by itself, after the name of its header.
fn wrong_label(
    alloc: Global,
    name: String,
    map: &[u8],
    fault: CoseError,
) -> Result<Option<WrongPart>, Stop> {
    let masked = mask(alloc, Look::least(), map)?;
    let (list, shown) = (
        entries(alloc, View::open(map)),
        entries(alloc, masked.view()),
    );
    let (Some(mut list), Some(mut shown)) = (list, shown) else {
        return named(alloc, name.as_str(), fault);
    };
    for _ in 0..u64::MAX {
        let (Some(label), Some(value)) = (list.next()?, list.next()?) else {
            break;
        };
        let (Some(shown), _) = (shown.next()?, shown.next()?) else {
            break;
        };
        if let Some(fault) = entry_fault(alloc, label.bytes(), value.bytes())? {
            return labeled(alloc, name, shown, fault);
        }
    }
    named(alloc, name.as_str(), fault)
}

/// What is wrong in a header of this one entry.
fn entry_fault(alloc: Global, label: &[u8], value: &[u8]) -> Result<Option<CoseError>, Stop> {
    let mut map = Vec::new(alloc);
    map.push(0xa1u8)?;
    map.extend_from_slice(label)?;
    map.extend_from_slice(value)?;
    match Header::from_slice(alloc, &map) {
        Ok(_) => Ok(None),
        Err(CoseError::Memory) => Err(Stop::Memory),
        Err(fault) => Ok(Some(fault)),
    }
}

fn labeled(
    alloc: Global,
    mut name: String,
    label: View<'_>,
    fault: CoseError,
) -> Result<Option<WrongPart>, Stop> {
    name.push_str(", label ")?;
    let mut page = Page::new(&mut name);
    write_shown(alloc, Look::least().line(), label, 0, &mut page);
    if page.has_failed() {
        return Err(Stop::Memory);
    }
    Ok(Some(WrongPart { name, fault }))
}
