//! What is shown of an item: its notation from its heads, the members of a message, what isn't in
//! canonical encoding in it, and where items end.
use cbor_diag::{Ends, Fault, NotWritten, Page, Style, first_excess, write_item};
use cose_notation::{Json, Look, mask, show_message};
use test_tools::{NoAnswer, Out};

/// The notation of an item from its heads. Of damaged bytes what is in front of the fault, and the
/// fault.
pub fn noted(to: &mut Out, bytes: &[u8], style: Style) {
    let alloc = to.alloc();
    let mut page = Page::new(to);
    match write_item(alloc, bytes, style, 0, &mut page) {
        Ok(len) => {
            if len != bytes.len() {
                to.refuse(NoAnswer::NotItem);
            }
        }
        Err(NotWritten::Fault(fault)) => {
            to.text("... ");
            note_fault(to, fault);
        }
        Err(_) => to.refuse(NoAnswer::Memory),
    }
}

/// The same in full, with `|` for each line feed.
pub fn noted_in_full(to: &mut Out, bytes: &[u8]) {
    let mut notation = Out::new(to.alloc());
    noted(&mut notation, bytes, Style::full());
    to.lines(notation.as_str());
    to.refuse_as(&notation);
}

fn note_fault(to: &mut Out, fault: Fault) {
    to.debug(&fault.why);
    to.text(" at ");
    to.show(&fault.at);
}

/// The members of a message, as a JSON object has them, without secrets of keys. `-` of any other
/// item.
pub fn members(to: &mut Out, bytes: &[u8]) {
    let look = Look {
        full: true,
        secrets: false,
    };
    let alloc = to.alloc();
    let Ok(masked) = mask(alloc, look, bytes) else {
        return to.refuse(NoAnswer::Memory);
    };
    if show_message(alloc, masked.view(), &mut Json::new(alloc, to)).is_err() {
        to.refuse(NoAnswer::Memory);
    }
    if to.is_empty() {
        to.text("-");
    }
}

/// What comes first in an item that isn't in its canonical encoding, and where.
pub fn excess(to: &mut Out, bytes: &[u8]) {
    match first_excess(to.alloc(), bytes) {
        Ok(None) => to.text("none"),
        Ok(Some((excess, at))) => {
            to.show(&excess);
            to.text(" at ");
            to.show(&at);
        }
        Err(fault) => note_fault(to, fault),
    }
}

/// Where the items end of a sequence that comes in blocks of at most so many bytes, and at last how
/// the last block leaves it.
pub fn ends(to: &mut Out, bytes: &[u8], block: usize) {
    let mut ends = Ends::new(to.alloc());
    let mut at = 0usize;
    for _ in 0..=bytes.len() {
        let rest = bytes.get(at..).unwrap_or(&[]);
        let front = rest.get(..block).unwrap_or(rest);
        match ends.find(front) {
            Ok(Some(len)) => {
                at = at.saturating_add(len);
                to.show(&at);
                to.text(", ");
            }
            Ok(None) if front.is_empty() => break,
            Ok(None) => at = at.saturating_add(front.len()),
            Err(fault) => {
                note_fault(to, fault);
                return;
            }
        }
    }
    to.text(if ends.is_inside() {
        "inside"
    } else {
        "between"
    });
}
