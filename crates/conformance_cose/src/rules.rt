//! Which signatures and MACs may be asked about, and which claims let a token pass.
use crate::items::read;
use crate::protected;
use cose_rules::{
    Audience, Layer, Ruling, Scheme, TokenTerms, VERIFY, claims_of, claims_refusal,
    first_candidate, fits, rule, untagged,
};
use coset::cbor::Value;
use coset::{CoseKey, CoseKeySet, Header, Label, ProtectedHeader};
use test_tools::{NoAnswer, Out};

/// A protected header and an unprotected one.
fn headers(to: &mut Out, protected: &str, unprotected: &str) -> Option<(ProtectedHeader, Header)> {
    let protected = protected::read(to, protected);
    let unprotected = read::<Header>(to, unprotected);
    protected.zip(unprotected)
}

/// These, lent.
fn layer(headers: &(ProtectedHeader, Header)) -> Layer<'_> {
    Layer {
        protected: &headers.0,
        unprotected: &headers.1,
    }
}

/// The ruling on a message without signers of its own, whose key is for this operation.
pub fn of_message(to: &mut Out, [operation, keys, protected, unprotected]: [&str; 4]) {
    let operation = to.number(operation);
    if let Some(keys) = read::<CoseKeySet>(to, keys) {
        if let Some(message) = headers(to, protected, unprotected) {
            let ruling = rule(operation, &keys.0, layer(&message), None);
            ruled(to, &keys.0, ruling);
        }
    }
}

/// The ruling on a signature of a COSE_Sign, with the headers of its signer last.
pub fn of_signer(to: &mut Out, keys: &str, [protected, unprotected, first, second]: [&str; 4]) {
    if let Some(keys) = read::<CoseKeySet>(to, keys) {
        if let Some(message) = headers(to, protected, unprotected) {
            if let Some(signer) = headers(to, first, second) {
                let ruling = rule(VERIFY, &keys.0, layer(&message), Some(layer(&signer)));
                ruled(to, &keys.0, ruling);
            }
        }
    }
}

/// The algorithm and the places of the keys that are candidates, or why nothing is asked.
fn ruled(to: &mut Out, keys: &[CoseKey], ruling: Ruling<'_>) {
    match ruling {
        Ruling::Ask(scheme, id) => candidates(to, keys, scheme, id),
        Ruling::Refuse(refusal) => to.debug(&refusal),
    }
}

fn candidates(to: &mut Out, keys: &[CoseKey], scheme: Scheme, id: &[u8]) {
    to.text("ask ");
    to.show(&scheme.number);
    to.text(", first ");
    match first_candidate(keys, scheme, id) {
        Some(place) => to.show(&place),
        None => to.text("none"),
    }
    to.text(" of");
    for (place, key) in keys.iter().enumerate() {
        if fits(key, scheme, id) {
            to.text(" ");
            to.show(&place);
        }
    }
}

/// Whether these claims let a token pass: the seconds that it may be at the earliest and at the
/// latest, and `-` or what else is asked, as `iss=me,aud=you,need=4`.
pub fn of_claims(to: &mut Out, [earliest, latest, asked, claims]: [&str; 4]) {
    let mut needed = Vec::new(to.alloc());
    let mut terms = Asked {
        issuer: None,
        audience: Audience::Nobody,
    };
    for word in asked.split(',') {
        terms = terms.with(to, &mut needed, word);
    }
    let terms = TokenTerms {
        earliest: to.number(earliest),
        latest: to.number(latest),
        issuer: terms.issuer,
        audience: terms.audience,
        needed: &needed,
    };
    if let Some(claims) = read::<Value>(to, claims) {
        decided(to, terms, claims);
    }
}

fn decided(to: &mut Out, terms: TokenTerms<'_>, claims: Value) {
    match claims_of(to.alloc(), claims) {
        Ok(claims) => match claims_refusal(terms, &claims) {
            Some(refusal) => to.debug(&refusal),
            None => to.text("passes"),
        },
        Err(why) => {
            to.text("no claims: ");
            to.debug(&why);
        }
    }
}

/// Who has to have issued a token, and whom it is for.
#[derive(Clone, Copy)]
struct Asked<'a> {
    issuer: Option<&'a str>,
    audience: Audience<'a>,
}

impl<'a> Asked<'a> {
    /// And what this word asks.
    fn with(self, to: &mut Out, needed: &mut Vec<Label>, word: &'a str) -> Asked<'a> {
        match word.split_once('=') {
            Some(("iss", name)) => Asked {
                issuer: Some(name),
                ..self
            },
            Some(("aud", name)) => Asked {
                audience: Audience::Named(name),
                ..self
            },
            Some(("need", label)) => {
                need(to, needed, label);
                self
            }
            Some(_) => {
                to.refuse(NoAnswer::NoArgument);
                self
            }
            None if word == "any-aud" => Asked {
                audience: Audience::Anyone,
                ..self
            },
            None => self,
        }
    }
}

/// One more claim that has to be there, by its number or its name.
fn need(to: &mut Out, needed: &mut Vec<Label>, label: &str) {
    let label = match label.parse::<i64>() {
        Ok(number) => Ok(Label::Int(number)),
        Err(_) => String::from_str(to.alloc(), label).map(Label::Text),
    };
    if let Some(label) = to.kept(label) {
        if needed.push(label).is_err() {
            to.refuse(NoAnswer::Memory);
        }
    }
}

/// What is in the tags 61 and 55799 at the front of an item.
pub fn inside(to: &mut Out, item: &str) {
    let item = to.bytes(item);
    to.hex(untagged(&item));
}
