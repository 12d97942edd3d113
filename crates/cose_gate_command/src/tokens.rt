//! The arguments of `cose-ask --cwt`.
ghost use Rattle.std.specs.Prelude.{◌≡◌, ◌<◌, ◌^◌, [], None, Some, Ok, Err, IfOk, IfSome, map};
ghost use Rattle.std.specs.Prelude.{option_map};
ghost use Rattle.std.specs.Prelude.{MatchResult, option_copied, string_bytes, unwrap_or};
ghost use Rattle.coset_labels.specs.View.{label_view};
ghost use Rattle.cose_rules.specs.TokenView.{receiver_of, terms_view};
ghost use Rattle.cose_gate_command.specs.CommandLine.{last_words, line_view, wrong_view};
ghost use Rattle.cose_gate_command.specs.TokenArguments as spec;
ghost use Rattle.cose_gate_command.specs.TokenArguments.{needed_by, token_view};

use crate::command_line::{CommandLine, Wrong};
use cose_ruled::{Audience, TokenTerms};
use coset_labels::Label;
use std::alloc::{AllocError, Global};

/// Which tokens pass, by the arguments of `--cwt`.
#[derive(Clone, Copy)]
pub struct TokenArguments<'a> {
    /// The earliest second since 1970 that it may be: now, less the leeway.
    pub earliest: i64,
    /// The latest: now, and the leeway.
    pub latest: i64,
    /// The issuer, if there has to be this one.
    pub issuer: Option<&'a str>,
    /// The receiver.
    pub audience: Audience<'a>,
    /// The names of claims that have to be there.
    pub needed: &'a [String],
}

/// A number with one more digit, if it is one and the number was below 10^15.
fn with_digit(number: u64, digit: u8) -> Option<u64>
    ensures value { result ≡ spec.with_digit number digit }
    ensures small { IfSome result (λ n. n < 10 ^ 16) }
{
    if 48 <= digit && digit <= 57 && number < 1_000_000_000_000_000 {
        Some(number * 10 + u64::from(digit - 48))
    } else {
        None
    }
}

/// A number below 10^16 in decimal digits.
pub fn number_in(word: &str) -> Option<u64>
    ensures value { result ≡ spec.number_in word.now }
    ensures small { IfSome result (λ n. n < 10 ^ 16) }
{
    let digits = word.as_bytes();
    if digits.is_empty() {
        return None;
    }
    let mut number = 0;
    for digit in digits {
        number = with_digit(number, *digit)?;
    }
    Some(number)
}

/// Now.
fn now_in(at: Option<&str>) -> Result<u64, Wrong<'static>>
    ensures value { MatchResult result (λ n. spec.now_in (option_copied at.entry) ≡ Ok n)
        (λ w. spec.now_in (option_copied at.entry) ≡ Err (wrong_view w)) }
    ensures small { IfOk result (λ n. n < 10 ^ 16) }
{
    let Some(word) = at else {
        return Err(Wrong::Says("--at is missing: now, in seconds since 1970"));
    };
    match number_in(word) {
        Some(number) => Ok(number),
        None => Err(Wrong::Says("--at: not in digits, or not below 10^16")),
    }
}

/// By how much clocks may differ.
fn leeway_in(leeway: Option<&str>) -> Result<u64, Wrong<'static>>
    ensures value { MatchResult result (λ n. spec.leeway_in (option_copied leeway.entry) ≡ Ok n)
        (λ w. spec.leeway_in (option_copied leeway.entry) ≡ Err (wrong_view w)) }
    ensures small { IfOk result (λ n. n < 10 ^ 16) }
{
    let Some(word) = leeway else {
        return Ok(0);
    };
    match number_in(word) {
        Some(number) => Ok(number),
        None => Err(Wrong::Says("--leeway: not in digits, or not below 10^16")),
    }
}

/// Whom a token may be for.
fn audience_in<'a>(anyone: bool, name: Option<&'a str>) -> Result<Audience<'a>, Wrong<'static>>
    ensures { MatchResult result
        (λ a. spec.receiver_in anyone (option_copied name.entry) ≡ Ok (receiver_of a))
        (λ w. spec.receiver_in anyone (option_copied name.entry) ≡ Err (wrong_view w)) }
{
    match name {
        Some(_) if anyone => Err(Wrong::Says("--aud is given, and --any-aud too")),
        Some(name) => Ok(Audience::Named(name)),
        None if anyone => Ok(Audience::Anyone),
        None => Ok(Audience::Nobody),
    }
}

/// The words after `--need`.
fn needed_in<'a>(line: CommandLine<'a>) -> &'a [String]
    ensures { map string_bytes result.now ≡ unwrap_or (last_words (line_view line.entry)) [] }
{
    match line.last_words() {
        Some(words) => words,
        None => &[],
    }
}

/// What is asked of tokens.
fn terms_in<'a>(line: CommandLine<'a>) -> Result<TokenArguments<'a>, Wrong<'a>>
    ensures { MatchResult result
        (λ t. spec.terms_in (line_view line.entry) ≡ Ok (token_view t))
        (λ w. spec.terms_in (line_view line.entry) ≡ Err (wrong_view w)) }
{
    let now = now_in(line.value("--at"))?;
    let leeway = leeway_in(line.value("--leeway"))?;
    let audience = audience_in(line.has("--any-aud"), line.value("--aud"))?;
    Ok(TokenArguments {
        earliest: now as i64 - leeway as i64,
        latest: now as i64 + leeway as i64,
        issuer: line.value("--iss"),
        audience,
        needed: needed_in(line),
    })
}

/// Whether one of the terms is there.
pub(crate) fn has_terms(line: CommandLine<'_>) -> bool
    ensures { result ≡ spec.has_terms (line_view line.entry) }
{
    line.value("--at").is_some()
        || line.value("--leeway").is_some()
        || line.value("--iss").is_some()
        || line.value("--aud").is_some()
        || line.has("--any-aud")
        || line.last_words().is_some()
}

/// Which tokens pass, if items have to be tokens.
///
/// # Errors
/// What is wrong with the words.
pub(crate) fn token_in<'a>(line: CommandLine<'a>) -> Result<Option<TokenArguments<'a>>, Wrong<'a>>
    ensures { MatchResult result
        (λ t. spec.token_in (line_view line.entry) ≡ Ok (option_map token_view t))
        (λ w. spec.token_in (line_view line.entry) ≡ Err (wrong_view w)) }
{
    if line.has("--cwt") {
        return Ok(Some(terms_in(line)?));
    }
    if has_terms(line) {
        return Err(Wrong::Says("--cwt is missing: what is asked of tokens is for it"));
    }
    Ok(None)
}

/// A claim by its name.
fn claim_of(alloc: Global, name: &str) -> Result<Label, AllocError>
    ensures { IfOk result (λ label. label_view label ≡ spec.claim_of name.now) }
{
    Ok(match name {
        "iss" => Label::Int(1),
        "sub" => Label::Int(2),
        "aud" => Label::Int(3),
        "exp" => Label::Int(4),
        "nbf" => Label::Int(5),
        "iat" => Label::Int(6),
        "cti" => Label::Int(7),
        _ => Label::Text(String::from_str(alloc, name)?),
    })
}

fn claims_of(alloc: Global, names: &[String]) -> Result<Vec<Label>, AllocError>
    ensures { IfOk result (λ labels. map label_view labels.items
        ≡ map spec.claim_of (map string_bytes names.now)) }
{
    let mut labels = Vec::new(alloc);
    for name in names {
        let label = claim_of(alloc, name.as_str())?;
        labels.push(label)?;
    }
    Ok(labels)
}

/// The claims that have to be there.
pub(crate) fn needed_claims(
    alloc: Global,
    token: Option<TokenArguments<'_>>,
) -> Result<Vec<Label>, AllocError>
    ensures { IfOk result (λ labels. map label_view labels.items ≡ needed_by token.entry) }
{
    match token {
        Some(token) => claims_of(alloc, token.needed),
        None => Ok(Vec::new(alloc)),
    }
}

/// The terms, of which these claims are those that have to be there.
pub(crate) fn token_terms<'a>(
    token: Option<TokenArguments<'a>>,
    needed: &'a [Label],
) -> Option<TokenTerms<'a>>
    ensures { map label_view needed.now ≡ needed_by token.entry
        → option_map terms_view result ≡ option_map token_view token.entry }
{
    match token {
        Some(token) => Some(TokenTerms {
            earliest: token.earliest,
            latest: token.latest,
            issuer: token.issuer,
            audience: token.audience,
            needed,
        }),
        None => None,
    }
}
