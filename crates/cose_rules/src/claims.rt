//! The claims of a token at a time.
ghost use Rattle.std.specs.Prelude.{◌≡◌, is_some, map, option_map, option_copied, pos};
ghost use Rattle.std.specs.List.{list_all, list_any};
ghost use Rattle.ciborium_value.specs.Kinds.{is_text};
ghost use Rattle.ciborium_value.specs.View.{view};
ghost use Rattle.coset_headers.specs.View.{entry_view};
ghost use Rattle.coset_labels.specs.View.{label_view};
ghost use Rattle.coset_claims.specs.Claims.{time_of};
ghost use Rattle.coset_claims.specs.Seconds.{number_of, time_against};
ghost use Rattle.coset_claims.specs.View.{time_view};
ghost use Rattle.cose_rules.specs.Claims as spec;
ghost use Rattle.cose_rules.specs.Labels.{same_label, value_under, value_at};
ghost use Rattle.cose_rules.specs.TokenView.{receiver_of, terms_view};

use crate::labels::{is_same, value_of};
use ciborium_ll::Float;
use ciborium_value::Value;
use coset_claims::cwt::Timestamp;
use coset_labels::Label;
use std::cmp::Ordering;

/// Whom a token may be for.
#[derive(Clone, Copy)]
pub enum Audience<'a> {
    /// Nobody in particular: one with an audience is refused.
    Nobody,
    /// This receiver, who has to be named.
    Named(&'a str),
    /// Anyone: its audience isn't looked at.
    Anyone,
}

/// What a receiver asks of the claims of a token.
#[derive(Clone, Copy)]
pub struct TokenTerms<'a> {
    /// The earliest second since 1970 that it may be: now, less the leeway of clocks.
    pub earliest: i64,
    /// The latest: now, and the leeway.
    pub latest: i64,
    /// Who has to have issued it, if anybody.
    pub issuer: Option<&'a str>,
    /// Whom it has to be for.
    pub audience: Audience<'a>,
    /// The claims that have to be there.
    pub needed: &'a [Label],
}

/// Why a claim is no time.
#[derive(Debug, Clone, Copy, PartialEq, Eq)]
pub enum TimeFault {
    /// It is neither an integer of 64 bits nor a float.
    NotNumber,
    /// It is an infinity or a NaN.
    NotFinite,
}

/// Why claims don't let a token pass.
#[derive(Debug, Clone, Copy, PartialEq, Eq)]
pub enum ClaimRefusal {
    /// A claim that is needed isn't there.
    Missing,
    /// exp is no time.
    Expiry(TimeFault),
    /// exp isn't to come.
    Expired,
    /// nbf is no time.
    NotBefore(TimeFault),
    /// nbf is to come.
    NotYet,
    /// iss isn't there or isn't the issuer.
    OtherIssuer,
    /// aud is neither a text nor an array of texts.
    AudienceNotText,
    /// aud is there, and no receiver is named.
    SomeReceiver,
    /// aud isn't there or hasn't the receiver.
    OtherReceiver,
}

/// A time, or none if it isn't one.
fn timestamp(value: &Value) -> Option<Timestamp>
    ensures { option_map time_view result ≡ time_of (view value.now) }
{
    match value {
        Value::Integer(integer) => match i64::try_from(*integer) {
            Ok(seconds) => Some(Timestamp::WholeSeconds(seconds)),
            Err(_) => None,
        },
        Value::Float(float) => Some(Timestamp::FractionalSeconds(*float)),
        _ => None,
    }
}

/// Whether a float is a finite number: not all bits of its exponent are ones.
fn is_multiple(float: Float) -> bool
    ensures { result ≡ spec.is_multiple (number_of float) }
{
    match float {
        Float::Half(bits) => bits / 1_024 % 32 != 31,
        Float::Single(bits) => bits / 8_388_608 % 256 != 255,
        Float::Double(bits) => bits / 4_503_599_627_370_496 % 2_048 != 2_047,
    }
}

fn is_finite(time: &Timestamp) -> bool
    ensures { result ≡ spec.is_finite (time_view time.now) }
{
    match time {
        Timestamp::WholeSeconds(_) => true,
        Timestamp::FractionalSeconds(float) => is_multiple(*float),
    }
}

fn is_greater(order: Ordering) -> bool
    ensures { result ≡ spec.is_greater order }
{
    match order {
        Ordering::Less | Ordering::Equal => false,
        Ordering::Greater => true,
    }
}

fn is_some_greater(order: Option<Ordering>) -> bool
    ensures { result ≡ spec.is_some_greater order }
{
    match order {
        Some(order) => is_greater(order),
        None => false,
    }
}

fn later(time: &Timestamp, seconds: i64) -> Result<bool, TimeFault>
    ensures { result ≡ spec.later (time_view time.now) seconds }
{
    if is_finite(time) {
        Ok(is_some_greater(time.partial_cmp_seconds(seconds)))
    } else {
        Err(TimeFault::NotFinite)
    }
}

/// Whether a time is after a second, or why it is none.
fn is_after(value: &Value, seconds: i64) -> Result<bool, TimeFault>
    ensures { result ≡ spec.is_after (view value.now) seconds }
{
    match timestamp(value) {
        Some(time) => later(&time, seconds),
        None => Err(TimeFault::NotNumber),
    }
}

fn expiry_refusal(earliest: i64, value: Option<&Value>) -> Option<ClaimRefusal>
    ensures { result ≡ spec.expiry_refusal earliest (option_map view (option_copied value.entry)) }
{
    match value {
        Some(value) => match is_after(value, earliest) {
            Ok(true) => None,
            Ok(false) => Some(ClaimRefusal::Expired),
            Err(fault) => Some(ClaimRefusal::Expiry(fault)),
        },
        None => None,
    }
}

fn begin_refusal(latest: i64, value: Option<&Value>) -> Option<ClaimRefusal>
    ensures { result ≡ spec.begin_refusal latest (option_map view (option_copied value.entry)) }
{
    match value {
        Some(value) => match is_after(value, latest) {
            Ok(true) => Some(ClaimRefusal::NotYet),
            Ok(false) => None,
            Err(fault) => Some(ClaimRefusal::NotBefore(fault)),
        },
        None => None,
    }
}

fn is_text_of(value: &Value, wanted: &str) -> bool
    ensures { result ≡ spec.is_text_of wanted.now (view value.now) }
{
    match value {
        Value::Text(own) => own.as_str() == wanted,
        _ => false,
    }
}

fn is_issuer(issuer: Option<&str>, value: Option<&Value>) -> bool
    ensures { result ≡ spec.is_issuer (option_copied issuer.entry)
        (option_map view (option_copied value.entry)) }
{
    match (issuer, value) {
        (None, _) => true,
        (Some(_), None) => false,
        (Some(issuer), Some(value)) => is_text_of(value, issuer),
    }
}

fn all_texts(values: &[Value]) -> bool
    ensures { result ≡ list_all (λ v. is_text (view v)) values.now }
{
    values.iter().all(|each| each.is_text())
}

fn any_text_of(values: &[Value], wanted: &str) -> bool
    ensures { result ≡ list_any (λ v. spec.is_text_of wanted.now (view v)) values.now }
{
    values.iter().any(|each| is_text_of(each, wanted))
}

/// Whether a value is a text or an array of texts.
fn is_audience(value: &Value) -> bool
    ensures { result ≡ spec.is_audience (view value.now) }
{
    match value.as_array() {
        Some(receivers) => all_texts(receivers),
        None => value.is_text(),
    }
}

/// Whether an audience is this receiver, or has it.
fn is_for(value: &Value, wanted: &str) -> bool
    ensures { result ≡ spec.is_for wanted.now (view value.now) }
{
    match value.as_array() {
        Some(receivers) => any_text_of(receivers, wanted),
        None => is_text_of(value, wanted),
    }
}

fn for_one(wanted: &str, value: &Value) -> Option<ClaimRefusal>
    ensures { result ≡ spec.for_one wanted.now (view value.now) }
{
    if !is_audience(value) {
        Some(ClaimRefusal::AudienceNotText)
    } else if is_for(value, wanted) {
        None
    } else {
        Some(ClaimRefusal::OtherReceiver)
    }
}

fn for_nobody(value: &Value) -> Option<ClaimRefusal>
    ensures { result ≡ spec.for_nobody (view value.now) }
{
    if is_audience(value) {
        Some(ClaimRefusal::SomeReceiver)
    } else {
        Some(ClaimRefusal::AudienceNotText)
    }
}

fn audience_refusal(audience: Audience<'_>, value: Option<&Value>) -> Option<ClaimRefusal>
    ensures { result ≡ spec.audience_refusal (receiver_of audience.entry)
        (option_map view (option_copied value.entry)) }
{
    match audience {
        Audience::Anyone => None,
        Audience::Nobody => match value {
            Some(value) => for_nobody(value),
            None => None,
        },
        Audience::Named(name) => match value {
            Some(value) => for_one(name, value),
            None => Some(ClaimRefusal::OtherReceiver),
        },
    }
}

fn any_same(claims: &[(Label, Value)], label: &Label) -> bool
    ensures { result ≡ list_any (λ e. same_label (label_view e.0) (label_view label.now)) claims.now }
{
    claims.iter().any(|entry| is_same(&entry.0, label))
}

/// Whether a claim is there.
pub fn has_claim(claims: &[(Label, Value)], label: &Label) -> bool
    ensures { result ≡ is_some (value_under (label_view label.now) (map entry_view claims.now)) }
{
    any_same(claims, label)
}

fn all_there(claims: &[(Label, Value)], needed: &[Label]) -> bool
    ensures { result ≡ list_all
        (λ l. is_some (value_under (label_view l) (map entry_view claims.now))) needed.now }
{
    needed.iter().all(|label| has_claim(claims, label))
}

fn has_all(needed: &[Label], claims: &[(Label, Value)]) -> bool
    ensures { result ≡ spec.has_all (map label_view needed.now) (map entry_view claims.now) }
{
    all_there(claims, needed)
}

fn expiry_in(earliest: i64, claims: &[(Label, Value)]) -> Option<ClaimRefusal>
    ensures { result ≡ spec.expiry_refusal earliest
        (value_at (pos 4) (map entry_view claims.now)) }
{
    expiry_refusal(earliest, value_of(claims, 4))
}

fn begin_in(latest: i64, claims: &[(Label, Value)]) -> Option<ClaimRefusal>
    ensures { result ≡ spec.begin_refusal latest
        (value_at (pos 5) (map entry_view claims.now)) }
{
    begin_refusal(latest, value_of(claims, 5))
}

fn issuer_in(issuer: Option<&str>, claims: &[(Label, Value)]) -> bool
    ensures { result ≡ spec.is_issuer (option_copied issuer.entry)
        (value_at (pos 1) (map entry_view claims.now)) }
{
    is_issuer(issuer, value_of(claims, 1))
}

fn audience_in(audience: Audience<'_>, claims: &[(Label, Value)]) -> Option<ClaimRefusal>
    ensures { result ≡ spec.audience_refusal (receiver_of audience.entry)
        (value_at (pos 3) (map entry_view claims.now)) }
{
    audience_refusal(audience, value_of(claims, 3))
}

/// Why iss or aud doesn't let a token pass.
fn party_refusal(terms: TokenTerms<'_>, claims: &[(Label, Value)]) -> Option<ClaimRefusal>
    ensures { result ≡ spec.party_refusal (terms_view terms.entry) (map entry_view claims.now) }
{
    if issuer_in(terms.issuer, claims) {
        audience_in(terms.audience, claims)
    } else {
        Some(ClaimRefusal::OtherIssuer)
    }
}

/// The same of nbf, or else of iss or aud.
fn begin_or(terms: TokenTerms<'_>, claims: &[(Label, Value)]) -> Option<ClaimRefusal>
    ensures { result ≡ spec.begin_or (terms_view terms.entry) (map entry_view claims.now) }
{
    match begin_in(terms.latest, claims) {
        Some(refusal) => Some(refusal),
        None => party_refusal(terms, claims),
    }
}

fn expiry_or(terms: TokenTerms<'_>, claims: &[(Label, Value)]) -> Option<ClaimRefusal>
    ensures { result ≡ spec.expiry_or (terms_view terms.entry) (map entry_view claims.now) }
{
    match expiry_in(terms.earliest, claims) {
        Some(refusal) => Some(refusal),
        None => begin_or(terms, claims),
    }
}

/// Why the claims of a token don't let it pass; none if they do. `claims` are the entries of its
/// claims set, in which no label is repeated. The first reason that holds is named.
pub fn claims_refusal(terms: TokenTerms<'_>, claims: &[(Label, Value)]) -> Option<ClaimRefusal>
    ensures { result ≡ spec.claims_refusal (terms_view terms.entry) (map entry_view claims.now) }
{
    if has_all(terms.needed, claims) {
        expiry_or(terms, claims)
    } else {
        Some(ClaimRefusal::Missing)
    }
}
