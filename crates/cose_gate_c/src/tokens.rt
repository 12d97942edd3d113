//! What to check of each token.
ghost use Rattle.std.specs.Prelude.{◌≡◌, ◌++◌, IfOk, MatchBool, MatchOption, OnOk, IsUtf8, map};
ghost use Rattle.std.specs.List.{All};
ghost use Rattle.coset_labels.specs.Fields.{number, words};
ghost use Rattle.coset_labels.specs.View.{label_view};
ghost use Rattle.cose_gate_records.specs.Calls.{buffers};
ghost use Rattle.cose_rules.specs.TokenView.{receiver_of, terms_view};
ghost use Rattle.cose_gate_c.specs.Tokens.{AreTexts, AsksTokens, name_of, needed_by, receiver_by};
ghost use Rattle.cose_gate_c.specs.Tokens.{terms_by};

use crate::ruled_asking::{Given, ask_items};
use cose_gate_records::{Answer, Choice, no_limits, place_none, stop_for_memory};
use cose_ruled::{Audience, TokenTerms};
use coset_labels::Label;
use std::alloc::{AllocError, Global};

/// A text, as C has it.
#[repr(C)]
#[derive(Clone, Copy)]
pub struct Text<'a> {
    /// Its bytes.
    pub bytes: &'a [u8],
}

/// Which tokens pass, as C says it.
#[repr(C)]
#[derive(Clone, Copy)]
pub struct TokenChoice<'a> {
    /// The earliest second since 1970 that it may be: now, less the leeway of clocks.
    pub earliest: i64,
    /// The latest: now, and the leeway.
    pub latest: i64,
    /// Who has to have issued it, with `has_issuer`.
    pub issuer: &'a [u8],
    /// Whom it has to be for, with `has_audience`.
    pub audience: &'a [u8],
    /// The claims that have to be there and have these numbers.
    pub needed: &'a [i64],
    /// The claims that have to be there and have these names.
    pub named: &'a [Text<'a>],
    /// Whether there has to be this issuer.
    pub has_issuer: bool,
    /// Whether it has to be for this receiver.
    pub has_audience: bool,
    /// Whether it may be for anyone; without both only a token without an audience passes.
    pub any_audience: bool,
}

/// The text that bytes are, if they are UTF-8.
fn text_of(bytes: &[u8]) -> Option<&str>
    ensures { MatchOption result (IsUtf8 bytes.now → ⊥)
        (λ text. (text.now ≡ bytes.now) × IsUtf8 bytes.now) }
{
    match str::from_utf8(bytes) {
        Ok(text) => Some(text),
        Err(_) => None,
    }
}

/// Appends the claims of these numbers.
fn append_numbers(labels: &mut Vec<Label>, numbers: &[i64]) -> Result<(), AllocError>
    ensures { OnOk result (map label_view labels.new.items
        ≡ map label_view labels.old.items ++ map number numbers.now) }
{
    for number in numbers {
        labels.push(Label::Int(*number))?;
    }
    Ok(())
}

/// The label that a name is, if it is UTF-8.
fn label_by(alloc: Global, name: &[u8]) -> Result<Option<Label>, AllocError>
    ensures { IfOk result (λ label. MatchOption label (IsUtf8 name.now → ⊥)
        (λ l. IsUtf8 name.now × (label_view l ≡ words name.now))) }
{
    match text_of(name) {
        Some(text) => Ok(Some(Label::Text(String::from_str(alloc, text)?))),
        None => Ok(None),
    }
}

/// Appends the claims of these names, and says whether all are UTF-8.
fn append_names(
    alloc: Global,
    labels: &mut Vec<Label>,
    names: &[Text<'_>],
) -> Result<bool, AllocError>
    ensures { IfOk result (λ whole. MatchBool whole
        (All (λ n. IsUtf8 n.bytes.now) names.now × (map label_view labels.new.items
        ≡ map label_view labels.old.items ++ map name_of names.now))
        (All (λ n. IsUtf8 n.bytes.now) names.now → ⊥)) }
{
    for name in names {
        match label_by(alloc, name.bytes)? {
            Some(label) => labels.push(label)?,
            None => return Ok(false),
        }
    }
    Ok(true)
}

/// The claims that have to be there, if their names are UTF-8.
fn needed_claims(alloc: Global, token: TokenChoice<'_>) -> Result<Option<Vec<Label>>, AllocError>
    ensures { IfOk result (λ labels. MatchOption labels
        (All (λ n. IsUtf8 n.bytes.now) token.entry.named.now → ⊥)
        (λ v. All (λ n. IsUtf8 n.bytes.now) token.entry.named.now
        × (map label_view v.items ≡ needed_by token.entry))) }
{
    let mut labels = Vec::new(alloc);
    append_numbers(&mut labels, token.needed)?;
    if append_names(alloc, &mut labels, token.named)? {
        Ok(Some(labels))
    } else {
        Ok(None)
    }
}

/// Whom it has to be for, of whom this is the name.
fn audience_by<'a>(token: TokenChoice<'_>, name: &'a str) -> Audience<'a>
    ensures { name.now ≡ token.entry.audience.now → receiver_of result ≡ receiver_by token.entry }
{
    if token.has_audience {
        Audience::Named(name)
    } else if token.any_audience {
        Audience::Anyone
    } else {
        Audience::Nobody
    }
}

/// The terms, of which these claims are those that have to be there, if issuer and receiver are
/// UTF-8.
fn token_terms<'a>(token: TokenChoice<'a>, needed: &'a [Label]) -> Option<TokenTerms<'a>>
    ensures { MatchOption result
        (IsUtf8 token.entry.issuer.now × IsUtf8 token.entry.audience.now → ⊥)
        (λ terms. IsUtf8 token.entry.issuer.now × IsUtf8 token.entry.audience.now
        × (map label_view needed.now ≡ needed_by token.entry
        → terms_view terms ≡ terms_by token.entry)) }
{
    let issuer = text_of(token.issuer)?;
    let audience = text_of(token.audience)?;
    Some(TokenTerms {
        earliest: token.earliest,
        latest: token.latest,
        issuer: if token.has_issuer { Some(issuer) } else { None },
        audience: audience_by(token, audience),
        needed,
    })
}

/// Asks about tokens, by the rules and under the key set of these bytes: as `ask_items`, and of an
/// item that is no token that passes the block says so.
pub(crate) fn ask_tokens(
    alloc: Global,
    choice: Choice,
    given: Given<'_>,
    token: TokenChoice<'_>,
    blocks: &mut [u8],
    lines: &mut [u8],
) -> Answer
    ensures { AsksTokens choice.nesting choice.layers choice.strict token.entry
        given.entry.keys.now given.entry.aad.now given.entry.input.now
        (buffers «blocks».old «lines».old) (buffers «blocks».new «lines».new) result }
{
    let Ok(needed) = needed_claims(alloc, token) else {
        return place_none(blocks, 4, stop_for_memory(lines, 0));
    };
    let Some(needed) = needed else {
        return no_limits();
    };
    match token_terms(token, &needed) {
        Some(terms) => ask_items(alloc, choice, given, Some(terms), blocks, lines),
        None => no_limits(),
    }
}
