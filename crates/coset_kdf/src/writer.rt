//! Writes KDF contexts and their parts. They are moved into the values that stand for them.
ghost use Rattle.std.specs.Prelude.{◌≡◌, ◌++◌, map, option_map, Some, MatchResult};
ghost use Rattle.ciborium_value.specs.Tree.{bytes};
ghost use Rattle.ciborium_value.specs.View.{view};
ghost use Rattle.coset_labels.specs.Faults.{CantWrite};
ghost use Rattle.coset_labels.specs.declared.error.CoseError.TheVariants.{Memory};
ghost use Rattle.coset_kdf.specs.View.{context_view, nonce_view, party_view, public_view};
ghost use Rattle.coset_kdf.specs.Written.{bytes_or_nil_tree, context_tree, nonce_tree, party_tree};
ghost use Rattle.coset_kdf.specs.Written.{public_tree};

use crate::context::{CoseKdfContext, Nonce, PartyInfo, SuppPubInfo};
use ciborium_value::{Integer, Value};
use coset_labels::{AsCborValue, CoseError};
use std::alloc::Global;

fn bytes_or_null(bytes: Option<Vec<u8>>) -> Value
    ensures { view result ≡ bytes_or_nil_tree (option_map (λ v. v.items) bytes) }
{
    match bytes {
        Some(bytes) => Value::Bytes(bytes),
        None => Value::Null,
    }
}

fn nonce_or_null(nonce: Option<Nonce>) -> Value
    ensures { view result ≡ nonce_tree (option_map nonce_view nonce) }
{
    match nonce {
        Some(Nonce::Bytes(bytes)) => Value::Bytes(bytes),
        Some(Nonce::Integer(i)) => Value::Integer(Integer::from(i)),
        None => Value::Null,
    }
}

/// The array that stands for what a party brings.
pub(crate) fn write_party(alloc: Global, info: PartyInfo) -> Result<Value, CoseError>
    ensures { MatchResult result (λ v. view v ≡ party_tree (party_view info)) (λ e. e ≡ Memory) }
{
    let items = vec![in alloc;
        bytes_or_null(info.identity),
        nonce_or_null(info.nonce),
        bytes_or_null(info.other),
    ]?;
    Ok(Value::Array(items))
}

/// The array that stands for what both parties know.
pub(crate) fn write_public(alloc: Global, info: SuppPubInfo) -> Result<Value, CoseError>
    ensures { MatchResult result (λ v. public_tree (public_view info) ≡ Some (view v))
        (λ e. CantWrite (public_tree (public_view info)) e) }
{
    let protected = info.protected.cbor_bstr(alloc)?;
    let length = Value::Integer(Integer::from(info.key_data_length));
    let mut items = vec![in alloc; length, protected]?;
    if let Some(other) = info.other {
        items.push(Value::Bytes(other))?;
    }
    Ok(Value::Array(items))
}

/// The array that stands for a context.
pub(crate) fn write_context(alloc: Global, context: CoseKdfContext) -> Result<Value, CoseError>
    ensures { MatchResult result (λ v. context_tree (context_view context) ≡ Some (view v))
        (λ e. CantWrite (context_tree (context_view context)) e) }
{
    let algorithm = context.algorithm_id.to_cbor_value(alloc)?;
    let party_u = write_party(alloc, context.party_u_info)?;
    let party_v = write_party(alloc, context.party_v_info)?;
    let public = write_public(alloc, context.supp_pub_info)?;
    let mut items = vec![in alloc; algorithm, party_u, party_v, public]?;
    push_private(&mut items, context.supp_priv_info)?;
    Ok(Value::Array(items))
}

fn push_private(items: &mut Vec<Value>, private: Vec<Vec<u8>>) -> Result<(), CoseError>
    ensures { MatchResult result
        (λ _. map view items.new.items
        ≡ map view items.old.items ++ map bytes (map (λ v. v.items) private.items))
        (λ e. e ≡ Memory) }
{
    'private: for bytes in private {
        items.push(Value::Bytes(bytes))?;
    }
    Ok(())
}
