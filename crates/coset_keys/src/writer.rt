//! Writes keys. They are moved into the values that stand for them.
ghost use Rattle.std.specs.Prelude.{◌≡◌, ◌++◌, map, Some, option_map, MatchResult};
ghost use Rattle.cose_iana.specs.Algorithms.{algorithm_number};
ghost use Rattle.cose_iana.specs.Keys.{key_types, key_operations};
ghost use Rattle.ciborium_value.specs.View.{view, view_pair};
ghost use Rattle.coset_labels.specs.Faults.{CantWrite};
ghost use Rattle.coset_labels.specs.Labels.{named_tree};
ghost use Rattle.coset_labels.specs.View.{registered_view, named_view};
ghost use Rattle.coset_labels.specs.declared.error.CoseError.TheVariants.{Memory};
ghost use Rattle.coset_headers.specs.Written.{name_entry, entry_tree};
ghost use Rattle.coset_keys.specs.View.{key_view};
ghost use Rattle.coset_keys.specs.Written.{key_tree, ops_entry};

use crate::key::{CoseKey, KeyOperation};
use ciborium_value::{Integer, Value};
use coset_headers::{push_bytes, push_rest, repeats};
use coset_labels::{Algorithm, AsCborValue, CoseError, KeyType};
use std::alloc::Global;
use std::collections::BTreeSet;

/// The map that stands for a key.
pub(crate) fn write_key(alloc: Global, key: CoseKey) -> Result<Value, CoseError>
    ensures { MatchResult result (λ v. key_tree (key_view key) ≡ Some (view v))
        (λ e. CantWrite (key_tree (key_view key)) e) }
{
    if repeats(alloc, &key.params)? {
        return Err(CoseError::DuplicateMapKey);
    }
    let CoseKey {
        kty,
        key_id,
        alg,
        key_ops,
        base_iv,
        params,
    } = key;
    let mut entries = Vec::new(alloc);
    push_type(alloc, &mut entries, kty)?;
    push_bytes(&mut entries, 2, key_id)?;
    push_alg(alloc, &mut entries, alg)?;
    push_operations(alloc, &mut entries, key_ops)?;
    push_bytes(&mut entries, 5, base_iv)?;
    push_rest(alloc, &mut entries, params)?;
    Ok(Value::Map(entries))
}

type Entries = Vec<(Value, Value)>;

fn push_type(alloc: Global, entries: &mut Entries, kty: KeyType) -> Result<(), CoseError>
    ensures { MatchResult result (λ _. map view_pair entries.new.items
        ≡ map view_pair entries.old.items
        ++ map entry_tree (name_entry 1 (Some (registered_view key_types.number kty))))
        (λ e. e ≡ Memory) }
{
    let kty = kty.to_cbor_value(alloc)?;
    entries.push((Value::Integer(Integer::from(1i64)), kty))?;
    Ok(())
}

fn push_alg(alloc: Global, entries: &mut Entries, alg: Option<Algorithm>) -> Result<(), CoseError>
    ensures { MatchResult result (λ _. map view_pair entries.new.items
        ≡ map view_pair entries.old.items
        ++ map entry_tree (name_entry 3 (option_map (named_view algorithm_number) alg)))
        (λ e. e ≡ Memory) }
{
    if let Some(alg) = alg {
        let alg = alg.to_cbor_value(alloc)?;
        entries.push((Value::Integer(Integer::from(3i64)), alg))?;
    }
    Ok(())
}

fn push_operations(
    alloc: Global,
    entries: &mut Entries,
    operations: BTreeSet<KeyOperation>,
) -> Result<(), CoseError>
    ensures { MatchResult result (λ _. map view_pair entries.new.items
        ≡ map view_pair entries.old.items
        ++ map entry_tree (ops_entry (map (registered_view key_operations.number) operations.keys)))
        (λ e. e ≡ Memory) }
{
    if operations.is_empty() {
        return Ok(());
    }
    let items = write_operations(alloc, operations)?;
    entries.push((Value::Integer(Integer::from(4i64)), Value::Array(items)))?;
    Ok(())
}

fn write_operations(
    alloc: Global,
    operations: BTreeSet<KeyOperation>,
) -> Result<Vec<Value>, CoseError>
    ensures { MatchResult result
        (λ v. map view v.items
        ≡ map named_tree (map (registered_view key_operations.number) operations.keys))
        (λ e. e ≡ Memory) }
{
    let mut items = Vec::with_capacity(alloc, operations.len())?;
    'operations: for operation in operations {
        items.push(operation.to_cbor_value(alloc)?)?;
    }
    Ok(items)
}
