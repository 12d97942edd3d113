//! Bignums.
use crate::head::head_of;
use crate::page::Page;
use ciborium_ll::Header;
use std::fmt;

/// A longer one isn't written as a number: the time for that grows with the square of its length.
const LONGEST: usize = 64;

/// Digits come in groups, each a number below this.
const GROUP: u64 = 10_000_000_000_000_000;

/// A bignum (RFC 8949, section 3.4.3): tag 2 or 3 around a byte string of stated length.
#[derive(Debug, Clone, Copy, PartialEq, Eq)]
pub struct Bignum<'a> {
    /// Whether it is -1 minus the number of its bytes.
    pub is_negative: bool,
    /// Its bytes, the highest first.
    pub bytes: &'a [u8],
    /// How many bytes the item takes.
    pub len: usize,
    /// Whether one of its two heads has more bytes than it needs.
    is_wide: bool,
}

impl<'a> Bignum<'a> {
    /// The bignum that an item is.
    pub fn of(item: &'a [u8]) -> Option<Bignum<'a>> {
        let tag = head_of(item).ok()?;
        let content = item.get(tag.len..)?;
        let string = head_of(content).ok()?;
        match (tag.header, string.header) {
            (Header::Tag(number @ 2..=3), Header::Bytes(Some(size))) => Some(Bignum {
                is_negative: number == 3,
                bytes: content.get(string.len..)?.get(..size)?,
                len: tag.len.saturating_add(string.len).saturating_add(size),
                is_wide: tag.wide().is_some() || string.wide().is_some(),
            }),
            _ => None,
        }
    }

    /// Whether its number has a shorter encoding.
    fn is_long(self) -> bool {
        self.bytes.len() <= 8 || self.bytes.first() == Some(&0)
    }

    /// Whether the gate writes it in a shorter encoding: it looks for one up to 16 bytes.
    pub fn folds(self) -> bool {
        self.bytes.len() <= 16 && self.is_long()
    }

    /// Whether it is written as a number: one of at most 64 bytes in its shortest encoding.
    pub fn has_decimal(self) -> bool {
        self.bytes.len() <= LONGEST && !self.is_long() && !self.is_wide
    }

    /// Writes its number, if it has a decimal.
    pub fn write<W: fmt::Write>(self, page: &mut Page<'_, W>) {
        // 160 digits; a number of 64 bytes has 155
        let mut groups = [0u64; 10];
        for byte in self.bytes {
            advance(&mut groups, 256, u64::from(*byte));
        }
        if self.is_negative {
            page.write_str("-");
            advance(&mut groups, 1, 1);
        }
        let mut is_first = true;
        for group in groups.iter().rev().skip_while(|group| **group == 0) {
            if is_first {
                write!(page, "{group}");
            } else {
                write!(page, "{group:016}");
            }
            is_first = false;
        }
    }
}

/// The number times `factor`, and then this added; the first group is the lowest.
fn advance(groups: &mut [u64], factor: u64, add: u64) {
    let mut carry = add;
    for group in groups.iter_mut() {
        let sum = group.wrapping_mul(factor).wrapping_add(carry);
        *group = sum % GROUP;
        carry = sum / GROUP;
    }
}
