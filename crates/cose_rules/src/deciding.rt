//! The ruling on a question.
ghost use Rattle.std.specs.Prelude.{◌≡◌, ◌&&◌, ℕ, ℤ, List, Bool, Option, Some, None, map, option_copied};
ghost use Rattle.std.specs.List.{find, list_any, position};
ghost use Rattle.coset_headers.specs.View.{header_view, protected_view};
ghost use Rattle.coset_keys.specs.Fields.{KeyFields};
ghost use Rattle.coset_keys.specs.View.{key_view};
ghost use Rattle.cose_rules.specs.Keys as one;
ghost use Rattle.cose_rules.specs.Rule as spec;
ghost use Rattle.cose_rules.specs.Ruled.{algorithm_view, ruling_view, layer_view, signer_view};

use crate::algorithms::{Scheme, scheme_for};
use crate::headers::{HeaderFault, layer_fault};
use crate::keys::{KeyFault, fits, has_id, key_fault};
use coset_headers::{Header, ProtectedHeader};
use coset_keys::CoseKey;
use coset_labels::Algorithm;
use std::fmt;

/// The headers of a message or a signer.
#[derive(Clone, Copy)]
pub struct Layer<'a> {
    /// The protected header.
    pub protected: &'a ProtectedHeader,
    /// The unprotected header.
    pub unprotected: &'a Header,
}

/// Why a question isn't asked.
#[derive(Debug, Clone, Copy, PartialEq, Eq)]
pub enum Refusal {
    /// The message's headers forbid it.
    Message(HeaderFault),
    /// The signer's headers forbid it.
    Signer(HeaderFault),
    /// The protected header names no algorithm.
    NoAlgorithm,
    /// It names one that isn't known here for such messages.
    UnknownAlgorithm,
    /// No key has the key id.
    NoKey,
    /// No key with the key id is one for the algorithm: the first of them for this reason.
    UnfitKey(KeyFault),
    /// The message has recipients, and its key is theirs. `rule` is not for such messages.
    Recipients,
}

impl fmt::Display for Refusal {
    ghost use Rattle.std.specs.Prelude.{Some};
    ghost use Rattle.cose_rules.specs.RefusalTexts.{refusal_text};

    ghost output = { λ why. Some (refusal_text why) };

    fn fmt<W: fmt::Write>(&self, f: &mut fmt::Formatter<W>) -> fmt::Result {
        match self {
            Refusal::Message(fault) => fault.fmt(f),
            Refusal::Signer(fault) => write!(f, "of a signer: {fault}"),
            Refusal::NoAlgorithm => f.write_str("the protected header names no algorithm"),
            Refusal::UnknownAlgorithm => {
                f.write_str("the algorithm is not known for such messages")
            }
            Refusal::NoKey => f.write_str("no key has its key id"),
            Refusal::UnfitKey(fault) => fault.fmt(f),
            Refusal::Recipients => f.write_str("its key is that of its recipients"),
        }
    }
}

impl std::error::Error for Refusal {}

/// Whether a question may be asked.
#[derive(Clone, Copy)]
pub enum Ruling<'a> {
    /// By this scheme, and the keys that fit it and this key id.
    Ask(Scheme, &'a [u8]),
    /// It may not.
    Refuse(Refusal),
}

/// The first of two ids, or the second if it is empty.
fn id_or<'a>(first: &'a [u8], second: &'a [u8]) -> &'a [u8]
    ensures { result.now ≡ spec.id_or first.now second.now }
{
    if first.is_empty() {
        return second;
    }
    first
}

/// The key id of a message or a signer: the protected one, or the unprotected one if that is empty
/// (RFC 9052, section 3.1).
pub fn id_in<'a>(layer: Layer<'a>) -> &'a [u8]
    ensures { result.now ≡ spec.id_in (layer_view layer.entry) }
{
    id_or(&layer.protected.header.key_id, &layer.unprotected.key_id)
}

fn fits_one(keys: &[CoseKey], scheme: Scheme, id: &[u8]) -> bool
    ensures { result ≡ list_any (λ k. one.fits scheme id.now (key_view k)) keys.now }
{
    keys.iter().any(|key| fits(key, scheme, id))
}

/// The place of the first candidate of a set, for messages with this key id. The next one is among
/// the keys after it.
pub fn first_candidate(keys: &[CoseKey], scheme: Scheme, id: &[u8]) -> Option<usize>
    ensures { result ≡ position (λ k. one.fits scheme id.now (key_view k)) keys.now }
{
    keys.iter().position(|key| fits(key, scheme, id))
}

/// Whether a key is a candidate.
fn any_fits(keys: &[CoseKey], scheme: Scheme, id: &[u8]) -> bool
    ensures { result ≡ spec.any_fits scheme id.now (map key_view keys.now) }
{
    fits_one(keys, scheme, id)
}

/// The first key with this id.
fn first_with<'a>(keys: &'a [CoseKey], id: &[u8]) -> Option<&'a CoseKey>
    ensures { option_copied result ≡ find (λ k. one.has_id id.now (key_view k)) keys.now }
{
    keys.iter().find(|key| has_id(key, id))
}

/// What is wrong with the first key with this id, if there is one.
fn first_fault(keys: &[CoseKey], scheme: Scheme, id: &[u8]) -> Option<KeyFault>
    ensures { result ≡ spec.first_fault scheme id.now (map key_view keys.now) }
{
    match first_with(keys, id) {
        Some(key) => key_fault(key, scheme),
        None => None,
    }
}

fn by_keys<'a>(keys: &[CoseKey], id: &'a [u8], scheme: Scheme) -> Ruling<'a>
    ensures { ruling_view result ≡ spec.by_keys (map key_view keys.now) id.now scheme }
{
    if any_fits(keys, scheme, id) {
        return Ruling::Ask(scheme, id);
    }
    match first_fault(keys, scheme, id) {
        Some(fault) => Ruling::Refuse(Refusal::UnfitKey(fault)),
        None => Ruling::Refuse(Refusal::NoKey),
    }
}

fn by_algorithm<'a>(
    operation: i64,
    keys: &[CoseKey],
    id: &'a [u8],
    algorithm: &Option<Algorithm>,
) -> Ruling<'a>
    ensures { ruling_view result ≡ spec.by_algorithm operation (map key_view keys.now) id.now
        (algorithm_view algorithm.now) }
{
    match algorithm {
        Some(algorithm) => match scheme_for(algorithm, operation) {
            Some(scheme) => by_keys(keys, id, scheme),
            None => Ruling::Refuse(Refusal::UnknownAlgorithm),
        },
        None => Ruling::Refuse(Refusal::NoAlgorithm),
    }
}

fn by_layer<'a>(operation: i64, keys: &[CoseKey], layer: Layer<'a>) -> Ruling<'a>
    ensures { ruling_view result
        ≡ spec.by_layer operation (map key_view keys.now) (layer_view layer.entry) }
{
    by_algorithm(operation, keys, id_in(layer), &layer.protected.header.alg)
}

fn of_signer(signer: Option<Layer<'_>>) -> Option<Refusal>
    ensures { result ≡ spec.of_signer (signer_view signer.entry) }
{
    match signer {
        Some(layer) => match layer_fault(layer.protected, layer.unprotected) {
            Some(fault) => Some(Refusal::Signer(fault)),
            None => None,
        },
        None => None,
    }
}

/// Why headers forbid a question: the message's, or else the signer's.
fn header_refusal(message: Layer<'_>, signer: Option<Layer<'_>>) -> Option<Refusal>
    ensures { result ≡ spec.header_refusal (layer_view message.entry) (signer_view signer.entry) }
{
    match layer_fault(message.protected, message.unprotected) {
        Some(fault) => Some(Refusal::Message(fault)),
        None => of_signer(signer),
    }
}

fn own_layer<'a>(message: Layer<'a>, signer: Option<Layer<'a>>) -> Layer<'a>
    ensures { layer_view result ≡ spec.own_layer (layer_view message.entry) (signer_view signer.entry) }
{
    match signer {
        Some(layer) => layer,
        None => message,
    }
}

/// The ruling on a signature (operation 2) or MAC (operation 10) of a message with these headers,
/// and of a signer if there is one: ask by the scheme of the algorithm that the protected header
/// names, under the keys that fit, or don't, for the first reason that holds.
pub fn rule<'a>(
    operation: i64,
    keys: &[CoseKey],
    message: Layer<'a>,
    signer: Option<Layer<'a>>,
) -> Ruling<'a>
    ensures { ruling_view result ≡ spec.ruling operation (map key_view keys.now)
        (layer_view message.entry) (signer_view signer.entry) }
{
    match header_refusal(message, signer) {
        Some(refusal) => Ruling::Refuse(refusal),
        None => by_layer(operation, keys, own_layer(message, signer)),
    }
}
