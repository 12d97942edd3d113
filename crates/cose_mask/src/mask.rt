//! A copy of bytes in which some are blank.
ghost use Rattle.std.specs.Prelude.{◌≡◌, ◌≤◌, ◌⊎◌, List, ℕ, IfOk};
ghost use Rattle.cose_mask.specs.Mask.{IsFilled, IsMasked, SameOutside};
ghost use Rattle.cose_mask.specs.declared.mask.Blank.{Blank};

use std::alloc::{AllocError, Global};

/// Bytes that aren't shown, and what is in the place of each.
#[derive(Debug, Clone, Copy, PartialEq, Eq)]
pub struct Blank {
    /// Where they begin.
    pub at: usize,
    /// Where they end.
    pub end: usize,
    /// What is there in place of each.
    pub with: u8,
}

/// Where a blank ends in so many bytes.
fn end_within(blank: Blank, len: usize) -> usize
    ensures in_bytes { result ≤ len }
    ensures in_blank { result ≤ blank.end }
    ensures most { (blank.end ≤ result) ⊎ (len ≤ result) }
{
    if blank.end < len { blank.end } else { len }
}

/// Fills a blank.
fn fill(bytes: &mut [u8], blank: Blank)
    ensures { IsFilled blank bytes.old bytes.new }
{
    let end = end_within(blank, bytes.len());
    for i in blank.at..end {
        bytes[i] = blank.with;
    }
}

/// Fills each blank in turn.
fn fill_all(bytes: &mut [u8], blanks: &[Blank])
    ensures { IsMasked blanks.now bytes.old bytes.new }
{
    for blank in blanks {
        fill(bytes, *blank);
    }
}

/// A copy of the bytes with the blanks filled.
///
/// # Errors
/// Out of memory.
pub fn masked(alloc: Global, bytes: &[u8], blanks: &[Blank]) -> Result<Vec<u8>, AllocError>
    ensures { IfOk result (λ copy. IsMasked blanks.now bytes.now copy.items) }
{
    let mut copy = Vec::new(alloc);
    copy.extend_from_slice(bytes)?;
    fill_all(copy.as_mut_slice(), blanks);
    Ok(copy)
}

/// Inputs that differ in the blanks alone have one copy: whatever is made of the copy and of where
/// the blanks are says nothing of what was there.
pub fn says_nothing()
    ensures { (blanks : List Blank) (a b x y : List ℕ) → SameOutside blanks a b
        → IsMasked blanks a x → IsMasked blanks b y → x ≡ y }
{}
