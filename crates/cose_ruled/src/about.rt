//! What a question is about, as its block says it.
ghost use Rattle.std.specs.Prelude.{◌≡◌, ◌++◌, [], ◌∷◌, IfOk, OnOk, flat_map, map, if◌then◌else◌};
ghost use Rattle.std.specs.Int.{w64, cast_unsigned};
ghost use Rattle.cose_rules.specs.Keys.{fits as spec_fits};
ghost use Rattle.coset_keys.specs.View.{key_view};
ghost use Rattle.cose_gate_core.specs.Lent.{subject_of};
ghost use Rattle.cose_gate_records.specs.Framing.{eight};
ghost use Rattle.cose_ruled.specs.Blocks as spec;
ghost use Rattle.cose_ruled.specs.Told.{about_in};

use crate::ruling::ruled;
use cose_gate_core::{About, MessageKind};
use cose_gate_records::{append, eight};
use cose_rules::{Refusal, Ruling, Scheme, fits};
use coset_keys::CoseKey;
use std::alloc::{AllocError, Global};

/// Appends the place of a key, if it is a candidate.
fn append_place(
    places: &mut Vec<u8>,
    place: usize,
    key: &CoseKey,
    scheme: Scheme,
    id: &[u8],
) -> Result<(), AllocError>
    ensures { OnOk result (places.new.items ≡ places.old.items
        ++ flat_map eight (if spec_fits scheme id.now (key_view key.now) then place ∷ [] else [])) }
{
    if fits(key, scheme, id) {
        places.extend_from_slice(&eight(place))
    } else {
        Ok(())
    }
}

/// The places of the candidates, eight bytes each.
fn places(alloc: Global, keys: &[CoseKey], scheme: Scheme, id: &[u8]) -> Result<Vec<u8>, AllocError>
    ensures { IfOk result (λ places. places.items
        ≡ flat_map eight (spec.places scheme id.now (map key_view keys.now))) }
{
    let mut places = Vec::new(alloc);
    for (place, key) in keys.iter().enumerate() {
        append_place(&mut places, place, key, scheme, id)?;
    }
    Ok(places)
}

/// A number in eight bytes, in two's complement, the lowest first.
fn signed(number: i64) -> [u8; 8]
    ensures { result ≡ eight (cast_unsigned w64 number) }
{
    number.to_le_bytes()
}

/// What a question is about that is asked by this scheme, under the keys at these places.
fn text_of(
    alloc: Global,
    kind: MessageKind,
    scheme: Scheme,
    places: &[u8],
) -> Result<Vec<u8>, AllocError>
    ensures { IfOk result (λ text. text.items ≡ spec.about_by kind scheme places.now) }
{
    let mut text = Vec::new(alloc);
    text.extend_from_slice(&eight(kind.tag() as usize))?;
    text.extend_from_slice(&signed(scheme.number))?;
    append(&mut text, places)?;
    Ok(text)
}

/// What a question about this is about, or why the rules refuse it.
pub(crate) fn about_text(
    alloc: Global,
    keys: &[CoseKey],
    about: &About,
) -> Result<Result<Vec<u8>, Refusal>, AllocError>
    ensures { IfOk result (λ text. about_in text
        ≡ spec.about_of (map key_view keys.now) (subject_of about.now)) }
{
    match ruled(keys, about) {
        Ruling::Ask(scheme, id) => {
            let places = places(alloc, keys, scheme, id)?;
            let text = text_of(alloc, about.kind, scheme, &places)?;
            Ok(Ok(text))
        }
        Ruling::Refuse(refusal) => Ok(Err(refusal)),
    }
}
