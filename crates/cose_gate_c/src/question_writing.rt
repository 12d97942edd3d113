//! The record of a question, without the payload.
ghost use Rattle.std.specs.Prelude.{◌≡◌, ◌≤◌, ◌+◌, ◌++◌, IfOk, IfSome, Some, length, drop};
ghost use Rattle.cose_gate.specs.RecordFraming as spec;
ghost use Rattle.cose_gate.specs.RecordFraming.{framed};
ghost use Rattle.cose_gate_c.specs.Keeping.{AreSizes, WritesIfKept, told_of_keeper};

use crate::keeping::{Keeper, Signature};
use crate::stream_asking::{StreamQuestion, told, unasked};
use cose_gate::Place;
use std::alloc::{AllocError, Global};

/// How long the parts of a record are: its key, what is in front of the payload, and all but the
/// payload.
#[derive(Debug, Clone, Copy, PartialEq, Eq)]
pub(crate) struct Sizes {
    pub(crate) key: usize,
    pub(crate) head: usize,
    pub(crate) whole: usize,
}

/// The sizes, if there are so many bytes of the front of a key, covered bytes, bytes of the payload
/// among these, and bytes of the signature; `None` if they are too large for a memory.
fn sizes_of(front: usize, covered: usize, payload: usize, signature: usize) -> Option<Sizes>
    ensures { IfSome result (AreSizes front covered payload signature) }
{
    let key = front
        .checked_add(covered)?
        .checked_add(signature)?
        .checked_add(16)?;
    let head = front
        .checked_add(covered.saturating_sub(payload))?
        .checked_add(16)?;
    let whole = head.checked_add(8)?.checked_add(signature)?;
    Some(Sizes { key, head, whole })
}

/// The number in eight bytes, the lowest first.
fn eight(number: usize) -> [u8; 8]
    ensures { result ≡ spec.eight number }
{
    (number as u64).to_le_bytes()
}

/// A record without the payload: these covered bytes are in front of it, and the signature behind.
fn text_around(
    alloc: Global,
    key: usize,
    front: &[u8],
    covered: usize,
    ahead: &[u8],
    signature: &[u8],
) -> Result<Vec<u8>, AllocError>
    ensures text { IfOk result (λ text. text.items
        ≡ (spec.eight key ++ (front.now ++ (spec.eight covered ++ ahead.now)))
        ++ framed signature.now) }
    ensures length { IfOk result (λ text. length text.items
        ≡ 24 + (length front.now + length ahead.now + length signature.now)) }
{
    let mut text = Vec::new(alloc);
    text.extend_from_slice(&eight(key))?;
    text.extend_from_slice(front)?;
    text.extend_from_slice(&eight(covered))?;
    text.extend_from_slice(ahead)?;
    text.extend_from_slice(&eight(signature.len()))?;
    text.extend_from_slice(signature)?;
    Ok(text)
}

/// Copies the text to the front of the buffer.
fn fill(question: &mut [u8], text: &[u8])
    requires room { length text.now ≤ length question.old }
    ensures { question.new ≡ text.now ++ drop (length text.now) question.old }
{
    question[..text.len()].copy_from_slice(text);
}

/// Writes the record of the question that is kept, with this signature, without the payload.
fn write_with(
    alloc: Global,
    keeper: &Keeper,
    signature: &[u8],
    payload: Place,
    length: usize,
    question: &mut [u8],
) -> StreamQuestion
    ensures { WritesIfKept (Some (record {
      front = keeper.now.front.items;
      covered = keeper.now.kept.items;
      count = keeper.now.covered;
      signature = signature.now;
    })) payload length question.old question.new result }
{
    let covered = keeper.covered;
    let Some(sizes) = sizes_of(keeper.front.len(), covered, payload.length, signature.len()) else {
        return unasked(4, 7);
    };
    if question.len() < sizes.whole {
        return told(5, length, payload, sizes);
    }
    let count = covered.saturating_sub(payload.length);
    let ahead = &keeper.kept[..count.min(keeper.kept.len())];
    match text_around(alloc, sizes.key, &keeper.front, covered, ahead, signature) {
        Ok(text) => {
            fill(question, &text);
            told(0, length, payload, sizes)
        }
        Err(AllocError) => unasked(4, 7),
    }
}

/// Writes the record of the question that is kept without the payload, if there is room: that of a
/// message of this length, with its payload in this place.
pub(crate) fn write_question(
    alloc: Global,
    keeper: &Keeper,
    payload: Place,
    length: usize,
    question: &mut [u8],
) -> StreamQuestion
    ensures { WritesIfKept (told_of_keeper keeper.now).gist payload length question.old question.new
        result }
{
    match &keeper.signature {
        Signature::Kept(signature) => {
            write_with(alloc, keeper, signature, payload, length, question)
        }
        Signature::Awaited | Signature::Lost(_) => unasked(4, 7),
    }
}
