//! Reads KDF contexts and their parts, elements from the last to the first.
ghost use Rattle.std.specs.Prelude.{◌≡◌, option_map, Some, MatchResult};
ghost use Rattle.ciborium_value.specs.View.{view};
ghost use Rattle.coset_labels.specs.Faults.{OrMemory, fault_of};
ghost use Rattle.coset_labels.specs.Limits.{nesting, layers};
ghost use Rattle.coset_kdf.specs.Contexts.{HasContext, HasParty, HasPublic, length_of, nonce_of};
ghost use Rattle.coset_kdf.specs.Steps.{HasTwo, WrongTwo};
ghost use Rattle.coset_kdf.specs.View.{context_view, nonce_view, party_view, public_view};
ghost use Rattle.coset_kdf.specs.Wrong.{WrongContext, WrongLength, WrongNonce, WrongParty};
ghost use Rattle.coset_kdf.specs.Wrong.{WrongPublic};

use crate::context::{CoseKdfContext, Nonce, PartyInfo, SuppPubInfo};
use crate::items::pop_private;
use ciborium_value::Value;
use coset_headers::ProtectedHeader;
use coset_labels::tuples::{four, three, two};
use coset_labels::{Algorithm, AsCborValue, CoseError, ValueTryAs, cbor_type_error};
use std::alloc::Global;

/// Reads what a party brings.
pub(crate) fn read_party(value: Value) -> Result<PartyInfo, CoseError>
    ensures { MatchResult result (λ p. HasParty (view value) (party_view p))
        (λ e. WrongParty (view value) (fault_of e)) }
{
    let items = value.try_as_array()?;
    let Some((first, second, third)) = three(items) else {
        return Err(CoseError::UnexpectedItem("array", "array with 3 items"));
    };
    let other = third.try_as_bytes_or_nil("bstr / nil")?;
    let nonce = read_nonce(second)?;
    let identity = first.try_as_bytes_or_nil("bstr / nil")?;
    Ok(PartyInfo {
        identity,
        nonce,
        other,
    })
}

fn read_nonce(value: Value) -> Result<Option<Nonce>, CoseError>
    ensures { MatchResult result (λ n. nonce_of (view value) ≡ Some (option_map nonce_view n))
        (λ e. WrongNonce (view value) (fault_of e)) }
{
    match value {
        Value::Bytes(bytes) => Ok(Some(Nonce::Bytes(bytes))),
        Value::Integer(i) => match i64::try_from(i) {
            Ok(n) => Ok(Some(Nonce::Integer(n))),
            Err(_) => Err(CoseError::OutOfRangeIntegerValue),
        },
        Value::Null => Ok(None),
        other => Err(cbor_type_error(&other, "bstr / int / nil")),
    }
}

/// Reads what both parties know.
pub(crate) fn read_public(alloc: Global, value: Value) -> Result<SuppPubInfo, CoseError>
    ensures { MatchResult result (λ s. HasPublic nesting (view value) (public_view s) layers)
        (λ e. OrMemory (WrongPublic nesting (view value) layers) e) }
{
    let items = value.try_as_array()?;
    if items.len() == 2 {
        let Some((first, second)) = two(items) else {
            unreachable!();
        };
        return read_two(alloc, first, second, None);
    }
    let Some((first, second, third)) = three(items) else {
        return Err(CoseError::UnexpectedItem("array", "array with 2 or 3 items"));
    };
    let other = third.try_as_bytes()?;
    read_two(alloc, first, second, Some(other))
}

/// Reads the first two elements of what both parties know.
fn read_two(
    alloc: Global,
    first: Value,
    second: Value,
    other: Option<Vec<u8>>,
) -> Result<SuppPubInfo, CoseError>
    ensures { MatchResult result
        (λ s. HasTwo (view first) (view second) (option_map (λ v. v.items) other) (public_view s))
        (λ e. OrMemory (WrongTwo (view first) (view second)) e) }
{
    let protected = ProtectedHeader::from_cbor_bstr(alloc, second)?;
    let key_data_length = read_length(first)?;
    Ok(SuppPubInfo {
        key_data_length,
        protected,
        other,
    })
}

fn read_length(value: Value) -> Result<u64, CoseError>
    ensures { MatchResult result (λ n. length_of (view value) ≡ Some n)
        (λ e. WrongLength (view value) (fault_of e)) }
{
    match value {
        Value::Integer(i) => match u64::try_from(i) {
            Ok(n) => Ok(n),
            Err(_) => Err(CoseError::OutOfRangeIntegerValue),
        },
        other => Err(cbor_type_error(&other, "int")),
    }
}

/// Reads a context.
pub(crate) fn read_context(alloc: Global, value: Value) -> Result<CoseKdfContext, CoseError>
    ensures { MatchResult result (λ c. HasContext nesting (view value) (context_view c) layers)
        (λ e. OrMemory (WrongContext nesting (view value) layers) e) }
{
    let mut items = value.try_as_array()?;
    let supp_priv_info = pop_private(alloc, &mut items)?;
    let Some((first, second, third, fourth)) = four(items) else {
        return Err(CoseError::UnexpectedItem("array", "array with at least 4 items"));
    };
    let supp_pub_info = read_public(alloc, fourth)?;
    let party_v_info = read_party(third)?;
    let party_u_info = read_party(second)?;
    let algorithm_id = Algorithm::from_cbor_value(alloc, first)?;
    Ok(CoseKdfContext {
        algorithm_id,
        party_u_info,
        party_v_info,
        supp_pub_info,
        supp_priv_info,
    })
}
