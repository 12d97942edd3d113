//! Reads keys. Values are moved into their fields, and nothing but labels is copied.
ghost use Rattle.std.specs.Prelude.{List, map, MatchResult};
ghost use Rattle.ciborium_value.specs.Tree.{Tree};
ghost use Rattle.ciborium_value.specs.View.{view, views, view_pairs};
ghost use Rattle.coset_labels.specs.Faults.{OrMemory};
ghost use Rattle.coset_labels.specs.Fields.{LabelFields};
ghost use Rattle.coset_keys.specs.Keys.{HasKey, HaveKeys, HasKeySet};
ghost use Rattle.coset_keys.specs.Parts.{HasEntries, KnownIn, Added};
ghost use Rattle.coset_keys.specs.View.{key_view, key_set_view};
ghost use Rattle.coset_keys.specs.Wrong.{WrongKey, WrongEntries, WrongEntry, WrongKeys};
ghost use Rattle.coset_keys.specs.Wrong.{WrongKeySet};

use crate::key::{CoseKey, CoseKeySet};
use ciborium_value::Value;
use coset_labels::{AsCborValue, CoseError, KeyType, Label, SeenLabels, ValueTryAs};
use std::alloc::Global;

/// Reads a key. That it has a type is seen after all entries.
pub(crate) fn read_key(alloc: Global, value: Value) -> Result<CoseKey, CoseError>
    ensures { MatchResult result (λ k. HasKey (view value) (key_view k))
        (λ e. OrMemory (WrongKey (view value)) e) }
{
    let entries = value.try_as_map()?;
    let key = read_entries(alloc, entries)?;
    if key.kty == KeyType::default() {
        return Err(CoseError::UnexpectedItem("no kty label", "mandatory kty label"));
    }
    Ok(key)
}

fn read_entries(alloc: Global, entries: Vec<(Value, Value)>) -> Result<CoseKey, CoseError>
    ensures { MatchResult result (λ k. HasEntries (view_pairs entries.items) (key_view k))
        (λ e. OrMemory (WrongEntries (view_pairs entries.items)) e) }
{
    let mut seen = SeenLabels::new(alloc);
    let mut key = CoseKey::new(alloc);
    'entries: for entry in entries {
        read_entry(alloc, &mut seen, &mut key, entry.0, entry.1)?;
    }
    Ok(key)
}

/// Reads one entry after those that were seen: its label, whether it was there before, its value.
fn read_entry(
    alloc: Global,
    seen: &mut SeenLabels<Label>,
    key: &mut CoseKey,
    label: Value,
    value: Value,
) -> Result<(), CoseError>
    ensures { (es : List (LabelFields × Tree)) → KnownIn es seen.old key.old
        → MatchResult result (λ _. Added es (view label) (view value) seen.new key.new)
        (λ e. OrMemory (WrongEntry es (view label) (view value)) e) }
{
    let label = Label::from_cbor_value(alloc, label)?;
    let fresh = seen.add(alloc, &label)?;
    if !fresh {
        return Err(CoseError::DuplicateMapKey);
    }
    key.fill(alloc, label, value)
}

/// Reads a set of keys, from the first to the last.
pub(crate) fn read_key_set(alloc: Global, value: Value) -> Result<CoseKeySet, CoseError>
    ensures { MatchResult result (λ s. HasKeySet (view value) (key_set_view s))
        (λ e. OrMemory (WrongKeySet (view value)) e) }
{
    let items = value.try_as_array()?;
    let keys = read_keys(alloc, items)?;
    Ok(CoseKeySet(keys))
}

fn read_keys(alloc: Global, items: Vec<Value>) -> Result<Vec<CoseKey>, CoseError>
    ensures { MatchResult result (λ v. HaveKeys (views items.items) (map key_view v.items))
        (λ e. OrMemory (WrongKeys (views items.items)) e) }
{
    let mut keys = Vec::new(alloc);
    'items: for item in items {
        let key = read_key(alloc, item)?;
        keys.push(key)?;
    }
    Ok(keys)
}
