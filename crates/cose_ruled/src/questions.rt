//! What is kept of the questions about an item.
ghost use Rattle.std.specs.Prelude.{◌≡◌, ◌++◌, [], ◌∷◌, IfOk, OnOk, flat_map, map, option_map};
ghost use Rattle.std.specs.Option.{unwrap_or};
ghost use Rattle.cose_rules.specs.RefusalTexts.{refusal_text};
ghost use Rattle.cose_rules.specs.TokenView.{terms_view};
ghost use Rattle.cose_gate_records.specs.Framing.{framed};
ghost use Rattle.cose_ruled.specs.Blocks as spec;
ghost use Rattle.cose_ruled.specs.Told.{AreKept, AreKept-prop, bytes_in, part_view, parts_in};

use crate::beside::append_beside;
use crate::token::{Outcome, outcome_of};
use crate::told::{Question, Told};
use ciborium_ll::log::Log;
use cose_gate_core::{Entry, Refusal};
use cose_gate_records::{append, eight};
use cose_rules::{Refusal as Unasked, TokenTerms};
use std::alloc::{AllocError, Global};

/// What the block of the item takes from its questions: that of the questions that the rules allow,
/// of all but the first without what is as in the first.
#[derive(Drop)]
pub(crate) struct Kept {
    /// The covered bytes of the first question, if there is one.
    base: Option<Vec<u8>>,
    why: Vec<u8>,
    texts: Vec<Vec<u8>>,
    /// What was told. It is in contracts alone.
    told: Log<Told>,
    ghost kept: { AreKept (bytes_in base) why.items (map (λ v. v.items) texts.items)
        (parts_in told) } by { AreKept-prop _ _ _ _ },
}

/// The same, or, once memory ran out, what was told, which only proofs read.
#[derive(Drop)]
pub(crate) enum Questions {
    Whole(Kept),
    Lost(Log<Told>),
}

/// The covered bytes of the first question, which are these if there was none.
fn base_with(base: Option<Vec<u8>>, alloc: Global, covered: &[u8]) -> Result<Vec<u8>, AllocError>
    ensures { IfOk result (λ b. b.items ≡ unwrap_or (bytes_in base) covered.now) }
{
    match base {
        Some(base) => Ok(base),
        None => copy(alloc, covered),
    }
}

fn copy(alloc: Global, bytes: &[u8]) -> Result<Vec<u8>, AllocError>
    ensures { IfOk result (λ copy. copy.items ≡ bytes.now) }
{
    let mut copy = Vec::new(alloc);
    copy.extend_from_slice(bytes)?;
    Ok(copy)
}

/// What is written of a question that is about this, without its length.
fn shown(
    alloc: Global,
    base: &[u8],
    about: &[u8],
    question: Question<'_>,
) -> Result<Vec<u8>, AllocError>
    ensures { IfOk result (λ text. text.items
        ≡ about.now ++ (spec.beside base.now question.entry.covered.now
        ++ (framed question.entry.signature.now ++ question.entry.digest))) }
{
    let mut text = Vec::new(alloc);
    text.extend_from_slice(about)?;
    append_beside(&mut text, base, question.covered)?;
    append(&mut text, question.signature)?;
    text.extend_from_slice(&question.digest)?;
    Ok(text)
}

/// The bytes after their length.
fn after_length(alloc: Global, bytes: &[u8]) -> Result<Vec<u8>, AllocError>
    ensures { IfOk result (λ text. text.items ≡ framed bytes.now) }
{
    let mut text = Vec::new(alloc);
    append(&mut text, bytes)?;
    Ok(text)
}

/// What is written of a question; nothing if the rules refuse it.
fn question_text(alloc: Global, base: &[u8], question: Question<'_>) -> Result<Vec<u8>, AllocError>
    ensures { IfOk result (λ text. text.items
        ≡ spec.question_text base.now (part_view question.entry)) }
{
    match question.about {
        Ok(about) => {
            let text = shown(alloc, base, about, question)?;
            after_length(alloc, &text)
        }
        Err(_) => Ok(Vec::new(alloc)),
    }
}

/// Appends why the rules refuse a question.
fn append_refusal(why: &mut Vec<u8>, refusal: Unasked) -> Result<(), AllocError>
    ensures { OnOk result (why.new.items ≡ why.old.items ++ refusal_text refusal) }
{
    let text = format!(in *why.allocator(); "{refusal}")?;
    why.extend_from_slice(text.as_bytes())
}

/// Appends why the rules refuse a question, if they do.
fn append_why(why: &mut Vec<u8>, question: Question<'_>) -> Result<(), AllocError>
    ensures { OnOk result (why.new.items
        ≡ why.old.items ++ spec.why_text (part_view question.entry)) }
{
    match question.about {
        Ok(_) => Ok(()),
        Err(refusal) => append_refusal(why, *refusal),
    }
}

/// Appends these texts, one after another.
fn append_all(text: &mut Vec<u8>, texts: &[Vec<u8>]) -> Result<(), AllocError>
    ensures { OnOk result («text».new.items
        ≡ «text».old.items ++ flat_map (λ v. v.items) texts.now) }
{
    for piece in texts {
        text.extend_from_slice(piece)?;
    }
    Ok(())
}

/// What is said of the item in words.
fn append_verdict(text: &mut Vec<u8>, outcome: Outcome) -> Result<(), AllocError>
    ensures { OnOk result («text».new.items
        ≡ «text».old.items ++ framed (spec.verdict_text outcome)) }
{
    match outcome {
        Outcome::Passed => append(text, b"passed"),
        Outcome::Refused(refusal) => {
            let mut words = Vec::new(*text.allocator());
            words.extend_from_slice(b"refused: ")?;
            words.extend_from_slice(refusal.name().as_bytes())?;
            append(text, &words)
        }
        Outcome::NoToken(_) => append(text, b"refused: Claims"),
    }
}

impl Kept {
    /// There was no question yet.
    fn new(alloc: Global) -> Kept
        ensures { parts_in result.told ≡ [] }
    {
        Kept {
            base: None,
            why: Vec::new(alloc),
            texts: Vec::new(alloc),
            told: Log::new(),
        }
    }

    /// The same with a question.
    fn and(self, question: Question<'_>) -> Result<Kept, AllocError>
        ensures { IfOk result (λ kept. parts_in kept.told
            ≡ parts_in self.told ++ part_view question.entry ∷ []) }
    {
        let Kept {
            base,
            why,
            texts,
            told,
        } = self;
        let (mut why, mut texts) = (why, texts);
        let alloc = *why.allocator();
        let base = base_with(base, alloc, question.shown())?;
        append_why(&mut why, question)?;
        let text = question_text(alloc, &base, question)?;
        texts.push(text)?;
        Ok(Kept {
            base: Some(base),
            why,
            texts,
            told: told.and(&Told::new(question)),
        })
    }

    /// The covered bytes of the first question.
    fn base(&self) -> &[u8]
        ensures { result.now ≡ spec.base_of (parts_in self.now.told) }
    {
        match &self.base {
            Some(base) => base,
            None => &[],
        }
    }

    /// Appends why the item is refused, if that is its shape, or the rules refuse a question, or it
    /// is no token that passes.
    fn append_reason(&self, text: &mut Vec<u8>, outcome: Outcome) -> Result<(), AllocError>
        ensures { OnOk result («text».new.items
            ≡ «text».old.items ++ framed (spec.why_by outcome (parts_in self.now.told))) }
    {
        match outcome {
            Outcome::Refused(Refusal::Shape(error)) => {
                let words = format!(in *text.allocator(); "{error}")?;
                append(text, words.as_bytes())
            }
            Outcome::NoToken(refusal) => append(text, refusal.words().as_bytes()),
            _ => append(text, &self.why),
        }
    }

    /// Appends the first question's covered bytes and the questions, if the item passed.
    fn append_body(&self, text: &mut Vec<u8>, outcome: Outcome) -> Result<(), AllocError>
        ensures { OnOk result («text».new.items
            ≡ «text».old.items ++ spec.body_by outcome (parts_in self.now.told)) }
    {
        match outcome {
            Outcome::Passed => {
                append(text, self.base())?;
                append_all(text, &self.texts)
            }
            Outcome::Refused(_) | Outcome::NoToken(_) => append(text, &[]),
        }
    }

    /// The block of the item, of which this is said, without its length.
    fn text(
        &self,
        alloc: Global,
        entry: &Entry,
        end: usize,
        outcome: Outcome,
    ) -> Result<Vec<u8>, AllocError>
        ensures { IfOk result (λ text. text.items
            ≡ spec.text_by entry.now end outcome (parts_in self.now.told)) }
    {
        let mut text = Vec::new(alloc);
        text.extend_from_slice(&eight(entry.number))?;
        text.extend_from_slice(&eight(entry.offset))?;
        text.extend_from_slice(&eight(end))?;
        text.extend_from_slice(&eight(self.texts.len()))?;
        append_verdict(&mut text, outcome)?;
        self.append_reason(&mut text, outcome)?;
        self.append_body(&mut text, outcome)?;
        Ok(text)
    }

    /// The block of the item.
    fn block(
        &self,
        alloc: Global,
        entry: &Entry,
        end: usize,
        token: Option<TokenTerms<'_>>,
    ) -> Result<Vec<u8>, AllocError>
        ensures { IfOk result (λ text. spec.IsBlock (option_map terms_view token.entry)
            entry.now end (parts_in self.now.told) text.items) }
    {
        let outcome = outcome_of(alloc, token, entry.verdict, self.base())?;
        let text = self.text(alloc, entry, end, outcome)?;
        after_length(alloc, &text)
    }
}

impl Questions {
    ghost use Rattle.cose_ruled.specs.Asking.{log_of, was_lost};

    /// There was no question yet.
    pub(crate) fn new(alloc: Global) -> Questions
        ensures { parts_in (log_of result) ≡ [] }
    {
        Questions::Whole(Kept::new(alloc))
    }

    /// The same with a question.
    pub(crate) fn and(self, question: Question<'_>) -> Questions
        ensures { parts_in (log_of result)
            ≡ parts_in (log_of self) ++ part_view question.entry ∷ [] }
    {
        match self {
            Questions::Whole(kept) => {
                let told = kept.told.and(&Told::new(question));
                match kept.and(question) {
                    Ok(kept) => Questions::Whole(kept),
                    Err(AllocError) => Questions::Lost(told),
                }
            }
            Questions::Lost(told) => Questions::Lost(told.and(&Told::new(question))),
        }
    }

    /// What was told.
    pub(crate) fn told(&self) -> &Log<Told>
        ensures { result.now ≡ log_of self.now }
    {
        match self {
            Questions::Whole(kept) => &kept.told,
            Questions::Lost(told) => told,
        }
    }

    /// Whether memory ran out for a question.
    pub(crate) fn is_lost(&self) -> bool
        ensures { result ≡ was_lost self.now }
    {
        matches!(self, Questions::Lost(_))
    }

    /// The block of the item.
    ///
    /// # Errors
    /// Only if out of memory, also earlier for one of the questions.
    pub(crate) fn block(
        &self,
        alloc: Global,
        entry: &Entry,
        end: usize,
        token: Option<TokenTerms<'_>>,
    ) -> Result<Vec<u8>, AllocError>
        ensures { IfOk result (λ text. spec.IsBlock (option_map terms_view token.entry)
            entry.now end (parts_in (log_of self.now)) text.items) }
    {
        match self {
            Questions::Whole(kept) => kept.block(alloc, entry, end, token),
            Questions::Lost(_) => Err(AllocError),
        }
    }
}
