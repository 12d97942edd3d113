//! What the judge of the program `cose-gate` answers, and why.
use crate::gated::{Comparing, gate_item};
use cose_gate_core::{Asked, CoseError, MessageKind, Refusal, Verdict};
use cose_gate_program::{CoseKeySet, HmacJudge};
use cose_notation::{Look, Masked, mask};
use cose_reasons::{Headers, KeyBook, OTHER_KIND, Question, Stop, reason};
use cose_rules::{Layer, id_in};
use coset_labels::TaggedCborSerializable;
use coset_maced::CoseMac0;
use std::alloc::Global;

/// What the judge answers.
#[derive(Drop)]
pub enum Answer {
    /// The message passes, under a key with this id; none if a secret is in it.
    Yes(Option<Masked>),
    /// It doesn't, and why.
    No(String),
}

/// The judge of the program, and its keys.
#[derive(Drop)]
pub struct Asking<'a> {
    judge: HmacJudge<'a>,
    book: KeyBook<'a>,
}

impl<'a> Asking<'a> {
    /// The judge by these keys, whose reasons show ids as far as this.
    ///
    /// # Errors
    /// `Memory`.
    pub fn new(alloc: Global, look: Look, keys: &'a CoseKeySet) -> Result<Asking<'a>, Stop> {
        let book = KeyBook::new(alloc, look, keys)?;
        let judge = HmacJudge::prepared(alloc, keys);
        Ok(Asking { judge, book })
    }

    /// What the judge answers about an item with this question of the gate; none if the gate asks
    /// nothing.
    ///
    /// # Errors
    /// `Memory`.
    pub fn answer(
        &mut self,
        alloc: Global,
        aad: &[u8],
        item: &[u8],
        asked: &[Asked],
    ) -> Result<Option<Answer>, Stop> {
        let Some(first) = asked.first() else {
            return Ok(None);
        };
        let mut out = Comparing::new(&[]);
        match gate_item(alloc, aad, item, &mut out, &mut self.judge)? {
            Ok(Some(Verdict::Passed)) => {
                Ok(Some(Answer::Yes(key_id(alloc, self.book.look(), item)?)))
            }
            Ok(Some(Verdict::Refused(Refusal::Judged(_)))) => {
                let why = why_not(alloc, &self.book, aad, item, first)?;
                Ok(Some(Answer::No(why)))
            }
            _ => Ok(None),
        }
    }
}

/// The key id of a message that passed, if it may be shown.
fn key_id(alloc: Global, look: Look, item: &[u8]) -> Result<Option<Masked>, Stop> {
    let shown = shown_id(alloc, look, item)?;
    match read_message(alloc, item)? {
        Some(message) if id_of(&message) == shown.as_slice() => {
            Ok(Some(mask(alloc, look, shown.as_slice())?))
        }
        _ => Ok(None),
    }
}

/// Why the judge says no.
fn why_not(
    alloc: Global,
    book: &KeyBook<'_>,
    aad: &[u8],
    item: &[u8],
    first: &Asked,
) -> Result<String, Stop> {
    if first.kind != MessageKind::Mac0 {
        return Ok(String::from_str(alloc, OTHER_KIND)?);
    }
    let shown = shown_id(alloc, book.look(), item)?;
    let Some(message) = read_message(alloc, item)? else {
        return Ok(String::new(alloc));
    };
    let headers = Headers {
        protected: &message.protected,
        unprotected: &message.unprotected,
        hides_id: id_of(&message) != shown.as_slice(),
    };
    let covered = first.structure.as_slice();
    let question = question_of(headers, covered, message.tag.as_slice(), aad.len());
    match reason(alloc, book, question)? {
        Some(why) => Ok(why),
        None => Ok(String::new(alloc)),
    }
}

/// The question about this message.
fn question_of<'a>(
    headers: Headers<'a>,
    covered: &'a [u8],
    tag: &'a [u8],
    aad_len: usize,
) -> Question<'a> {
    Question {
        headers,
        covered,
        tag,
        aad_len,
    }
}

/// The message that an item is, if it is one.
fn read_message(alloc: Global, item: &[u8]) -> Result<Option<CoseMac0>, Stop> {
    match CoseMac0::from_tagged_slice(alloc, item) {
        Ok(message) => Ok(Some(message)),
        Err(CoseError::Memory) => Err(Stop::Memory),
        Err(_) => Ok(None),
    }
}

/// The key id of a message with its secrets blank.
fn shown_id(alloc: Global, look: Look, item: &[u8]) -> Result<Vec<u8>, Stop> {
    let masked = mask(alloc, look, item)?;
    let mut id = Vec::new(alloc);
    if let Some(message) = read_message(alloc, masked.view().bytes())? {
        id.extend_from_slice(id_of(&message))?;
    }
    Ok(id)
}

fn id_of(message: &CoseMac0) -> &[u8] {
    let layer = Layer {
        protected: &message.protected,
        unprotected: &message.unprotected,
    };
    id_in(layer)
}
