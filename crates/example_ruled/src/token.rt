//! Whether a token may pass.
use crate::hmac::Hmac;
use cose_gate::{Decoder, End, Entry, GateFault, Mem, Refusal, Verdict, gate};
use cose_ruled::RuledJudge;
use cose_rules::{ClaimRefusal, NoClaims, TokenTerms, claims_of, claims_refusal, untagged};
use coset::cbor::Value;
use coset::{CborSerializable, CoseError, CoseMac0, TaggedCborSerializable};
use std::alloc::Global;

/// Why a token is refused.
#[derive(Debug, Drop)]
pub enum Refused {
    /// It can't be read.
    Unreadable(GateFault<End>),
    /// It isn't one item.
    NotOne,
    /// It is no message that is judged.
    Message(Refusal),
    /// The rules refuse to ask about its tag.
    Rules(cose_rules::Refusal),
    /// Its tag isn't good under a key that the rules allow.
    Tag,
    /// Its payload can't be read.
    Payload(CoseError),
    /// Its payload is no claims set.
    NoClaims(NoClaims),
    /// Its claims don't let it pass.
    Claims(ClaimRefusal),
}

/// Whether a token, which may have the tag 61 in front, passes on these terms.
pub fn check(
    alloc: Global,
    judge: &mut RuledJudge<'_, Hmac>,
    terms: TokenTerms<'_>,
    token: &[u8],
) -> Result<(), Refused> {
    let message = judged(alloc, judge, untagged(token))?;
    let payload = payload(alloc, &message).map_err(Refused::Payload)?;
    let claims = claims_of(alloc, payload).map_err(Refused::NoClaims)?;
    match claims_refusal(terms, &claims) {
        Some(refusal) => Err(Refused::Claims(refusal)),
        None => Ok(()),
    }
}

/// The message, if it is one and the judge says yes.
fn judged(
    alloc: Global,
    judge: &mut RuledJudge<'_, Hmac>,
    message: &[u8],
) -> Result<Vec<u8>, Refused> {
    let mut decoder = Decoder::from(message);
    let mut out = Mem::new(Vec::new(alloc));
    let mut entries: Vec<Entry> = Vec::new(alloc);
    gate(alloc, &mut decoder, &mut out, &mut entries, b"", judge).map_err(Refused::Unreadable)?;
    let [entry] = entries.as_slice() else {
        return Err(Refused::NotOne);
    };
    match entry.verdict {
        Verdict::Passed => Ok(out.into_inner()),
        Verdict::Refused(Refusal::Judged(_)) => match judge.refusal() {
            Some(refusal) => Err(Refused::Rules(refusal)),
            None => Err(Refused::Tag),
        },
        Verdict::Refused(refusal) => Err(Refused::Message(refusal)),
    }
}

/// The payload of a COSE_Mac0; that of a detached one is empty.
fn payload(alloc: Global, message: &[u8]) -> Result<Value, CoseError> {
    let message = CoseMac0::from_tagged_slice(alloc, message)?;
    match &message.payload {
        Some(payload) => Value::from_slice(alloc, payload),
        None => Value::from_slice(alloc, &[]),
    }
}
