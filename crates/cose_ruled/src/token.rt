//! Whether an item is a token that passes.
ghost use Rattle.std.specs.Prelude.{◌≡◌, ◌≢◌, IfOk, MatchBool, MatchOption, option_copied};
ghost use Rattle.std.specs.Prelude.{option_map};
ghost use Rattle.ciborium_value.specs.Tree.{Tree};
ghost use Rattle.ciborium_value.specs.View.{view, views};
ghost use Rattle.ciborium.specs.Front.{Reads};
ghost use Rattle.ciborium.specs.Items.{nesting};
ghost use Rattle.coset_labels.specs.declared.error.CoseError.TheVariants.{Memory};
ghost use Rattle.cose_rules.specs.ClaimsSet as set;
ghost use Rattle.cose_rules.specs.TokenView.{terms_view};
ghost use Rattle.cose_rules.specs.Keys as keys;
ghost use Rattle.cose_ruled.specs.Tokens as spec;
ghost use Rattle.cose_ruled.specs.Tokens.{Covers, IsOutcome, IsTokenRuling};

use ciborium_value::Value;
use cose_gate_core::{Refusal, Verdict};
use cose_rules::{ClaimRefusal, NoClaims, TimeFault, TokenTerms, claims_of, claims_refusal};
use coset_labels::{CborSerializable, CoseError};
use std::alloc::{AllocError, Global};

/// Why an item is no token that passes.
#[derive(Debug, Clone, Copy, PartialEq, Eq)]
pub(crate) enum TokenRefusal {
    /// The payload is not one item of CBOR.
    NoItem,
    /// It is no claims set.
    NoClaims(NoClaims),
    /// A claim forbids it.
    Claim(ClaimRefusal),
}

/// What the block of an item says of it.
#[derive(Debug, Clone, Copy, PartialEq, Eq)]
pub(crate) enum Outcome {
    /// Its signatures may be checked, and if it has to be a token that passes, it is one.
    Passed,
    /// The gate refuses it, or the rules do.
    Refused(Refusal),
    /// It is no token that passes.
    NoToken(TokenRefusal),
}

fn expiry_words(fault: TimeFault) -> &'static str
    ensures { result.now ≡ spec.expiry_text fault }
{
    match fault {
        TimeFault::NotNumber => "exp is not a number",
        TimeFault::NotFinite => "exp is not a finite time",
    }
}

fn begin_words(fault: TimeFault) -> &'static str
    ensures { result.now ≡ spec.begin_text fault }
{
    match fault {
        TimeFault::NotNumber => "nbf is not a number",
        TimeFault::NotFinite => "nbf is not a finite time",
    }
}

fn claim_words(refusal: ClaimRefusal) -> &'static str
    ensures { result.now ≡ spec.claim_text refusal }
{
    match refusal {
        ClaimRefusal::Missing => "a claim that is needed is not there",
        ClaimRefusal::Expiry(fault) => expiry_words(fault),
        ClaimRefusal::Expired => "expired",
        ClaimRefusal::NotBefore(fault) => begin_words(fault),
        ClaimRefusal::NotYet => "not valid yet",
        ClaimRefusal::OtherIssuer => "of another issuer",
        ClaimRefusal::AudienceNotText => "aud is neither a string nor an array of strings",
        ClaimRefusal::SomeReceiver => "for a receiver, and none is named here",
        ClaimRefusal::OtherReceiver => "for another receiver",
    }
}

fn no_claims_words(fault: NoClaims) -> &'static str
    ensures { result.now ≡ spec.no_claims_text fault }
{
    match fault {
        NoClaims::NotMap => "the payload is not a map",
        NoClaims::NotLabels => "a key of the payload is neither an integer of 64 bits nor a string",
        NoClaims::Repeated => "a claim is there twice",
        NoClaims::Memory => "out of memory",
    }
}

impl TokenRefusal {
    /// Why, in words.
    pub(crate) fn words(self) -> &'static str
        ensures { result.now ≡ spec.token_text self }
    {
        match self {
            TokenRefusal::NoItem => "the payload is not one item of CBOR",
            TokenRefusal::NoClaims(fault) => no_claims_words(fault),
            TokenRefusal::Claim(refusal) => claim_words(refusal),
        }
    }
}

fn is_memory(error: &CoseError) -> bool
    ensures { MatchBool result (error.now ≡ Memory) (error.now ≢ Memory) }
{
    matches!(error, CoseError::Memory)
}

/// The one item that bytes are; none if they are no such.
fn item_of(alloc: Global, bytes: &[u8]) -> Result<Option<Value>, AllocError>
    ensures { IfOk result (λ item. MatchOption item ((t : Tree) → Reads bytes.now nesting t → ⊥)
        (λ v. Reads bytes.now nesting (view v))) }
{
    match Value::from_slice(alloc, bytes) {
        Ok(value) => Ok(Some(value)),
        Err(error) => {
            if is_memory(&error) {
                return Err(AllocError);
            }
            Ok(None)
        }
    }
}

fn bytes_of(value: &Value) -> Option<&[u8]>
    ensures { option_copied result ≡ keys.bytes_of (view value.now) }
{
    match value {
        Value::Bytes(content) => Some(content.as_slice()),
        _ => None,
    }
}

fn last_bytes(values: &[Value]) -> Option<&[u8]>
    ensures { option_copied result ≡ spec.last_bytes (views values.now) }
{
    match values.last() {
        Some(value) => bytes_of(value),
        None => None,
    }
}

/// The payload in a structure that is covered.
fn payload_in(structure: &Value) -> Option<&[u8]>
    ensures { option_copied result ≡ spec.payload_in (view structure.now) }
{
    match structure.as_array() {
        Some(elements) => last_bytes(elements),
        None => None,
    }
}

/// The item that the payload is; none if it is no such.
fn payload_item(alloc: Global, covered: &[u8]) -> Result<Option<Value>, AllocError>
    ensures { IfOk result (λ item. MatchOption item ((t : Tree) → Covers covered.now t → ⊥)
        (λ v. Covers covered.now (view v))) }
{
    match item_of(alloc, covered)? {
        Some(structure) => match payload_in(&structure) {
            Some(payload) => item_of(alloc, payload),
            None => Ok(None),
        },
        None => Ok(None),
    }
}

/// Why a payload isn't that of a token that passes; none if it is.
fn by_claims(
    alloc: Global,
    terms: TokenTerms<'_>,
    payload: Value,
) -> Result<Option<TokenRefusal>, AllocError>
    ensures { IfOk result (λ refusal.
        refusal ≡ spec.by_claims (terms_view terms.entry) (set.claims_of (view payload))) }
{
    match claims_of(alloc, payload) {
        Ok(claims) => Ok(match claims_refusal(terms, &claims) {
            Some(refusal) => Some(TokenRefusal::Claim(refusal)),
            None => None,
        }),
        Err(NoClaims::Memory) => Err(AllocError),
        Err(fault) => Ok(Some(TokenRefusal::NoClaims(fault))),
    }
}

/// Why an item whose signatures cover this isn't a token that passes; none if it is.
fn token_refusal(
    alloc: Global,
    terms: TokenTerms<'_>,
    covered: &[u8],
) -> Result<Option<TokenRefusal>, AllocError>
    ensures { IfOk result (λ refusal.
        IsTokenRuling (terms_view terms.entry) covered.now refusal) }
{
    match payload_item(alloc, covered)? {
        Some(payload) => by_claims(alloc, terms, payload),
        None => Ok(Some(TokenRefusal::NoItem)),
    }
}

/// What the block says of an item with this verdict, whose first signature covers this.
pub(crate) fn outcome_of(
    alloc: Global,
    token: Option<TokenTerms<'_>>,
    verdict: Verdict,
    covered: &[u8],
) -> Result<Outcome, AllocError>
    ensures { IfOk result (λ outcome.
        IsOutcome (option_map terms_view token.entry) verdict covered.now outcome) }
{
    match (verdict, token) {
        (Verdict::Refused(refusal), _) => Ok(Outcome::Refused(refusal)),
        (Verdict::Passed, None) => Ok(Outcome::Passed),
        (Verdict::Passed, Some(terms)) => match token_refusal(alloc, terms, covered)? {
            Some(refusal) => Ok(Outcome::NoToken(refusal)),
            None => Ok(Outcome::Passed),
        },
    }
}
