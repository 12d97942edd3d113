//! What a refusal or a fault of the gate means.
use cbor_diag::Page;
use cose_gate_core::{Refusal, SemanticKind, de};
use std::fmt;

/// Writes what a refusal means, if the judge has no part in it.
pub fn write_refusal<P: fmt::Write>(refusal: Refusal, page: &mut Page<'_, P>) {
    match refusal {
        Refusal::NotTagged => page.write_str("no tag; a COSE_Mac0 is in tag 17"),
        Refusal::OtherTag(61) => page.write_str(WEB_TOKEN),
        Refusal::OtherTag(number) => write!(page, "tag {number}"),
        Refusal::Encrypted => page.write_str("a COSE_Encrypt or COSE_Encrypt0"),
        Refusal::Shape(error) => write!(page, "{error}"),
        Refusal::Detached => page.write_str("the message doesn't carry its payload"),
        Refusal::NoSignature => page.write_str("a COSE_Sign without a signature"),
        Refusal::NotShortest => page.write_str(NOT_CANONICAL),
        Refusal::Judged(_) => {}
    }
}

const WEB_TOKEN: &str =
    "tag 61 (a CBOR Web Token); cose-gate takes a message in it, without this tag";

const NOT_CANONICAL: &str = "not in canonical encoding; cose-show --strict shows where";

/// Writes what is wrong with an item that stops the gate.
pub fn write_damage<P: fmt::Write, E>(error: &de::Error<E>, page: &mut Page<'_, P>) {
    match error {
        de::Error::Io(_) => page.write_str("the input ends inside the item"),
        de::Error::Syntax(at) => write!(page, "no CBOR item at {at}"),
        de::Error::Semantic(_, kind) => page.write_str(kind_text(*kind)),
        de::Error::RecursionLimitExceeded => {
            page.write_str("the item nests deeper than 256 levels");
        }
        de::Error::Memory => page.write_str("out of memory"),
        de::Error::TooLong => page.write_str("the input is too long"),
    }
}

fn kind_text(kind: SemanticKind) -> &'static str {
    match kind {
        SemanticKind::Simple => "a simple value that isn't assigned",
        SemanticKind::Break => "a break in place of an item",
        SemanticKind::BigNegative => "a negative bignum below -2^127",
        _ => "an item that has no value here",
    }
}
