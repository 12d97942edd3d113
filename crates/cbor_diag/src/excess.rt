//! What keeps an item from being its canonical encoding.
use crate::bignum::Bignum;
use crate::head::Head;
use crate::walk::{Event, Fault, Step, Walk};
use ciborium_ll::Header;
use std::alloc::Global;
use std::fmt;

/// Why bytes aren't the canonical encoding of their item. The width of a float is part of the item,
/// so a float is none of these.
#[derive(Debug, Clone, Copy, PartialEq, Eq)]
pub enum Excess {
    /// A head with more bytes than its number needs.
    WideHead,
    /// A string of open length.
    OpenString,
    /// An array of open length.
    OpenArray,
    /// A map of open length.
    OpenMap,
    /// The value undefined, which is read as null.
    Undefined,
    /// A bignum whose number has a shorter encoding.
    Bignum,
    /// A bignum whose string is of open length.
    OpenBignum,
}

impl fmt::Display for Excess {
    fn fmt<W: fmt::Write>(&self, f: &mut fmt::Formatter<W>) -> fmt::Result {
        f.write_str(match self {
            Excess::WideHead => "a wide head",
            Excess::OpenString => "an open string",
            Excess::OpenArray => "an open array",
            Excess::OpenMap => "an open map",
            Excess::Undefined => "undefined in place of null",
            Excess::Bignum => "a bignum with a shorter text",
            Excess::OpenBignum => "a bignum in an indefinite-length string",
        })
    }
}

/// What comes first in the item at the front of the bytes that isn't in its canonical encoding, and
/// its place. What byte strings hold is not looked into.
///
/// # Errors
/// Those of `Walk::step`.
pub fn first_excess(alloc: Global, bytes: &[u8]) -> Result<Option<(Excess, usize)>, Fault> {
    let mut walk = Walk::new(alloc);
    for _ in 0..u64::MAX {
        let step = walk.step(bytes)?;
        if let Some(excess) = excess_of(step, bytes) {
            return Ok(Some((excess, step.at)));
        }
        if walk.is_done() {
            break;
        }
    }
    Ok(None)
}

fn excess_of(step: Step, bytes: &[u8]) -> Option<Excess> {
    let header = match step.event {
        Event::Leaf(header) => header,
        Event::Body(header, _) => header,
        Event::Begin(header) => header,
        Event::End(_) => return None,
    };
    let head = Head {
        header,
        len: step.len,
    };
    if head.wide().is_some() {
        return Some(Excess::WideHead);
    }
    match header {
        Header::Bytes(None) => Some(Excess::OpenString),
        Header::Text(None) => Some(Excess::OpenString),
        Header::Array(None) => Some(Excess::OpenArray),
        Header::Map(None) => Some(Excess::OpenMap),
        Header::Simple(23) => Some(Excess::Undefined),
        Header::Tag(2..=3) => bignum_excess(bytes.get(step.at..).unwrap_or(&[])),
        _ => None,
    }
}

/// What keeps an item in tag 2 or 3, whose head is one byte, from being as short as it can be.
fn bignum_excess(item: &[u8]) -> Option<Excess> {
    match Bignum::of(item) {
        Some(bignum) if bignum.folds() => Some(Excess::Bignum),
        None if item.get(1) == Some(&0x5f) => Some(Excess::OpenBignum),
        _ => None,
    }
}
