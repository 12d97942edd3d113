//! What the gate says of an item.
use crate::asking::Asking;
use crate::gated::{Comparing, Counter, gate_item};
use crate::said::{Said, Says};
use crate::shape::wrong_part;
use crate::show::{Item, Request};
use cbor_diag::{Event, Excess, Fault, NotWritten, Place, Step, Walk, first_excess};
use ciborium_ll::Header;
use cose_gate_core::{Recorder, Refusal, Verdict};
use cose_notation::{View, lacks_tag, mask, message_of};
use cose_reasons::Stop;
use std::alloc::Global;
use std::fmt;

/// What an array with the parts of one of these is, but for its tag.
pub const UNTAGGED: &str = "COSE_Sign1 or COSE_Mac0";

/// How a message can differ from its canonical encoding. Its text is what JSON has.
#[derive(Debug, Clone, Copy, PartialEq, Eq)]
pub enum Difference {
    /// What `first_excess` finds.
    Excess(Excess),
    /// A header's entries are in another order.
    Order,
    /// One counter signature is a list of one.
    ListOfOne,
    /// A recipient has a list of recipients, and it is empty.
    NoRecipients,
    /// Something else.
    Other,
}

impl fmt::Display for Difference {
    fn fmt<W: fmt::Write>(&self, f: &mut fmt::Formatter<W>) -> fmt::Result {
        match self {
            Difference::Excess(excess) => write!(f, "{excess}"),
            Difference::Order => f.write_str("order"),
            Difference::ListOfOne => f.write_str("a list of one counter signature"),
            Difference::NoRecipients => f.write_str("an empty list of recipients"),
            Difference::Other => f.write_str("another encoding"),
        }
    }
}

/// What comes first in a message that isn't in its canonical encoding, and where in the input: an
/// excess, unless the two differ before it, from this place in the message on.
fn first_difference(
    alloc: Global,
    item: Item<'_>,
    place: usize,
) -> Result<(Difference, usize), NotWritten> {
    let Item { offset, bytes, .. } = item;
    let (difference, at) = match first_excess(alloc, bytes)? {
        Some((excess, at)) if at <= place => (Difference::Excess(excess), at),
        _ => (difference_at(alloc, bytes, place)?, place),
    };
    Ok((difference, offset.saturating_add(at)))
}

/// What it is at this place that is in another form.
fn difference_at(alloc: Global, item: &[u8], place: usize) -> Result<Difference, Fault> {
    let mut walk = Walk::new(alloc);
    for _ in 0..u64::MAX {
        let step = walk.step(item)?;
        if walk.at() > place {
            return Ok(difference_in(step));
        }
        if walk.is_done() {
            break;
        }
    }
    Ok(Difference::Other)
}

/// Labels are keys of maps; a counter signature has three parts, and a recipient with recipients
/// four.
fn difference_in(step: Step) -> Difference {
    match (step.place, step.event) {
        (Place::Key { .. }, _) => Difference::Order,
        (_, Event::Begin(Header::Array(Some(1)))) => Difference::ListOfOne,
        (_, Event::Begin(Header::Array(Some(4)))) => Difference::NoRecipients,
        _ => Difference::Other,
    }
}

/// Says what the gate would say of an item, if its judge said yes to each question, and what else
/// was asked for; and whether the gate stops at it. The questions are kept if they are to be
/// answered, or what they cover is to be shown.
///
/// # Errors
/// `Output` and `Memory`.
pub fn say_verdict<S: Says>(
    alloc: Global,
    request: Request<'_>,
    asking: &mut Option<Asking<'_>>,
    item: Item<'_>,
    to: &mut S,
) -> Result<bool, Stop> {
    if let Some(number) = item.stopped {
        to.said(Said::NotReached(number))?;
        return Ok(false);
    }
    let Request { options, aad } = request;
    let bytes = item.bytes;
    let mut written = Comparing::new(bytes);
    let mut counter = Counter::new();
    let mut recorder = Recorder::new(alloc, None);
    let verdict = if asking.is_some() || options.covered {
        gate_item(alloc, aad, bytes, &mut written, &mut recorder)?
    } else {
        gate_item(alloc, aad, bytes, &mut written, &mut counter)?
    };
    let asked = recorder.asked();
    match &verdict {
        Ok(Some(Verdict::Passed)) => {
            let answer = match asking {
                Some(asking) => asking.answer(alloc, aad, bytes, asked)?,
                None => None,
            };
            match (&answer, asked.first()) {
                (Some(answer), _) => to.said(Said::Answer(answer))?,
                (None, Some(first)) => to.said(Said::MayPass(Some(first.kind), asked.len()))?,
                (None, None) => to.said(Said::MayPass(counter.kind, counter.count))?,
            }
        }
        Ok(Some(Verdict::Refused(refusal))) => say_refusal(alloc, *refusal, bytes, to)?,
        Ok(None) => {}
        Err(fault) => to.said(Said::Stops(fault))?,
    }
    if options.strict && verdict == Ok(Some(Verdict::Passed)) {
        match written.difference() {
            Some(place) => {
                let (difference, at) = first_difference(alloc, item, place)?;
                to.said(Said::Differs(difference, at))?;
            }
            None => to.said(Said::Shortest)?,
        }
    }
    if options.covered {
        to.said(Said::AllCovered)?;
        for (index, question) in asked.iter().enumerate() {
            let masked = mask(alloc, options.look, question.structure.as_slice())?;
            let number = index.saturating_add(1);
            to.said(Said::Covered(question.kind, number, masked.view()))?;
        }
        to.said(Said::LastCovered)?;
    }
    Ok(verdict.is_err())
}

/// Why an item is refused, and what is wrong in it.
fn say_refusal<S: Says>(
    alloc: Global,
    refusal: Refusal,
    item: &[u8],
    to: &mut S,
) -> Result<(), Stop> {
    match refusal {
        Refusal::OtherTag(tag) if message_of(View::open(item)).is_some() => {
            to.said(Said::Wrapped(tag))?;
        }
        _ => to.said(Said::Refused(refusal))?,
    }
    match refusal {
        Refusal::Shape(_) => {
            if let Some(wrong) = wrong_part(alloc, item)? {
                to.said(Said::Part(&wrong))?;
            }
        }
        Refusal::NotTagged => {
            if lacks_tag(alloc, View::open(item))? {
                to.said(Said::Untagged)?;
            }
        }
        _ => {}
    }
    Ok(())
}
