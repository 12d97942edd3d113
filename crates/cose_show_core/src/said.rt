//! What is said of an item beside what it holds. One walk says it, in `show`, and each form of
//! output writes it: `Text` and `Json`.
use crate::asking::Answer;
use crate::shape::WrongPart;
use crate::show::Item;
use crate::verdict::Difference;
use cbor_diag::Fault;
use cose_gate_core::{End, GateFault, MessageKind, Refusal};
use cose_notation::{Done, Keys, Shows, View};

/// A form of output.
pub trait Says: Shows {
    /// Writes what is said next.
    fn said(&mut self, said: Said<'_>) -> Done;
}

/// What is said.
#[derive(Clone, Copy)]
pub enum Said<'a> {
    /// An item begins.
    Item(Item<'a>),
    /// All that it holds, and whether those are keys.
    Content(View<'a>, Option<Keys>),
    /// The gate stops at the item of this number, before it.
    NotReached(u64),
    /// It may pass; the kind of the message, and how many signatures or MACs of it aren't checked.
    MayPass(Option<MessageKind>, usize),
    /// It may pass, and what the judge answers.
    Answer(&'a Answer),
    /// The gate refuses it.
    Refused(Refusal),
    /// The gate refuses it for this tag around a message.
    Wrapped(u64),
    /// The gate stops.
    Stops(&'a GateFault<End>),
    /// The part that is wrong.
    Part(&'a WrongPart),
    /// It is what a message is but for its tag.
    Untagged,
    /// It is in canonical encoding.
    Shortest,
    /// It isn't: what comes first in it, and where in the input. All before it is as it should be.
    Differs(Difference, usize),
    /// The bytes that each signature or MAC covers follow.
    AllCovered,
    /// The kind of the message, which signature of it, and what that covers.
    Covered(MessageKind, usize, View<'a>),
    /// The last of these was said.
    LastCovered,
    /// The item ends.
    End,
    /// An item begins that is damaged: its number and offset.
    Damaged(u64, usize),
    /// Its fault, where it begins, and if secrets are asked for what was read of it.
    Fault(Fault, usize, Option<&'a [u8]>),
}

/// So many bytes are shown before a fault, and so many from it on.
pub const AROUND: usize = 16;

/// The bytes before a place, and those from it on.
pub fn around(held: &[u8], at: usize) -> (&[u8], &[u8]) {
    let first = at.saturating_sub(AROUND);
    let last = at.saturating_add(AROUND).min(held.len());
    let before = held.get(first..at).unwrap_or(&[]);
    let behind = held.get(at..last).unwrap_or(&[]);
    (before, behind)
}
