//! A copy of bytes in which secrets of keys are blank.
use crate::look::Look;
use crate::search::spans_of;
use cbor_diag::{Event, NotWritten, Role, Span, Step, View, Walk, Why, head_of};
use ciborium_ll::Header;
use cose_mask::{Blank, masked};
use std::alloc::Global;

/// The bits of a head's first byte that say what it is the head of.
const TYPE: u8 = 0xe0;

/// The least simple value that takes two bytes.
const LEAST_SIMPLE: u8 = 32;

/// Bytes of an item, in which those of secrets are blank.
#[derive(Drop)]
pub struct Masked {
    bytes: Vec<u8>,
    hidden: Vec<Span>,
}

impl Masked {
    /// What may be shown.
    pub fn view(&self) -> View<'_> {
        View::new(self.bytes.as_slice(), self.hidden.as_slice())
    }
}

/// A copy of these bytes, an item or any others, that may be shown: secrets of keys are blank in
/// it, unless they are asked for.
///
/// # Errors
/// `Memory`.
pub fn mask(alloc: Global, look: Look, bytes: &[u8]) -> Result<Masked, NotWritten> {
    let hidden = if look.secrets {
        Vec::new(alloc)
    } else {
        spans_of(alloc, bytes)?
    };
    let blanks = blanks_of(alloc, bytes, hidden.as_slice())?;
    Ok(Masked {
        bytes: masked(alloc, bytes, blanks.as_slice())?,
        hidden,
    })
}

/// What is blank of the items in the spans. Heads of strings, arrays, maps and tags stay, the bytes
/// of strings are 0, and so is each number, in as many bytes as before: so the copy has the shape
/// of the bytes.
fn blanks_of(alloc: Global, bytes: &[u8], spans: &[Span]) -> Result<Vec<Blank>, NotWritten> {
    let mut blanks = Vec::new(alloc);
    let mut walk = Walk::over_heads(alloc, Role::Plain);
    for span in spans {
        walk.restart();
        add_blanks(bytes, *span, &mut walk, &mut blanks)?;
    }
    Ok(blanks)
}

fn add_blanks(
    bytes: &[u8],
    span: Span,
    walk: &mut Walk,
    blanks: &mut Vec<Blank>,
) -> Result<(), NotWritten> {
    let mut from = span.at;
    for _ in 0..u64::MAX {
        let rest = bytes.get(from..span.end).unwrap_or(&[]);
        if rest.is_empty() {
            break;
        }
        match walk.step(rest) {
            Ok(step) => add_blank(rest, from, step, blanks)?,
            Err(fault) if fault.why == Why::Memory => return Err(NotWritten::Memory),
            Err(fault) => {
                let cut = rest.get(fault.at..).unwrap_or(&[]);
                let at = from.saturating_add(fault.at).saturating_add(head_kept(cut));
                return add(blanks, at, span.end, 0);
            }
        }
        if walk.is_done() {
            from = from.saturating_add(walk.at());
            walk.restart();
        }
    }
    Ok(())
}

/// How many bytes stay of an item that is cut off: the head of a string.
fn head_kept(bytes: &[u8]) -> usize {
    match head_of(bytes) {
        Ok(head) if matches!(head.header, Header::Bytes(Some(_)) | Header::Text(Some(_))) =>
            head.len,
        _ => 0,
    }
}

/// Adds what is blank of a step over the bytes that begin here.
fn add_blank(
    bytes: &[u8],
    from: usize,
    step: Step,
    blanks: &mut Vec<Blank>,
) -> Result<(), NotWritten> {
    let at = from.saturating_add(step.at);
    let behind = at.saturating_add(step.len);
    match step.event {
        Event::Body(_, size) => add(blanks, behind, behind.saturating_add(size), 0),
        Event::Leaf(_) if step.len == 1 => {
            let first = bytes.get(step.at).copied().unwrap_or(0);
            add(blanks, at, behind, first & TYPE)
        }
        Event::Leaf(Header::Simple(_)) => add(blanks, at.saturating_add(1), behind, LEAST_SIMPLE),
        Event::Leaf(_) => add(blanks, at.saturating_add(1), behind, 0),
        _ => Ok(()),
    }
}

/// Adds a blank, or makes the last one longer.
fn add(blanks: &mut Vec<Blank>, at: usize, end: usize, with: u8) -> Result<(), NotWritten> {
    match blanks.as_mut_slice().last_mut() {
        Some(last) if last.end == at && last.with == with => last.end = end,
        _ => blanks.push(Blank { at, end, with })?,
    }
    Ok(())
}
