//! What `cbor!` is made of: each call gives a part, or hands on the first error.
ghost use Rattle.std.specs.Prelude.{◌≡◌, IfOk, IfErr, OnOk, OnErr, Err};
ghost use Rattle.ciborium_value.specs.Tree as tree;
ghost use Rattle.ciborium_value.specs.Tree.{Tree, Trees, Pairs, no_trees, no_pairs};
ghost use Rattle.ciborium_value.specs.View.{view, views, view_pairs};
ghost use Rattle.ciborium_traits.specs.declared.error.Error.TheVariants as error;
ghost use Rattle.ciborium.specs.Building.{Adds, entry_of, one_last, pair_last};

use crate::value::{Error, Value};
use ciborium_typed::{Serialize, ValueTyped};
use std::alloc::Global;

/// The item that a value is written as.
///
/// # Errors
/// Only `Memory`.
pub fn leaf<T: Serialize>(alloc: Global, value: &T) -> Result<Value, Error>
    ensures ok { IfOk result (λ v. view v ≡ T.put value.now) }
    ensures err { IfErr result (λ e. e ≡ error.Memory) }
{
    Value::serialized(alloc, value)
}

/// Null. Never an error.
pub fn null() -> Result<Value, Error>
    ensures ok { IfOk result (λ v. view v ≡ tree.simple 22) }
    ensures made { OnErr result ⊥ }
{
    Ok(Value::Null)
}

/// No items yet. Never an error.
pub fn no_items(alloc: Global) -> Result<Vec<Value>, Error>
    ensures ok { IfOk result (λ v. views v.items ≡ no_trees) }
    ensures made { OnErr result ⊥ }
{
    Ok(Vec::new(alloc))
}

/// One more item.
///
/// # Errors
/// That of the list, else that of the item, else `Memory`.
pub fn with_item(
    items: Result<Vec<Value>, Error>,
    item: Result<Value, Error>,
) -> Result<Vec<Value>, Error>
    ensures adds { Adds (λ v. v.items) items item result }
    ensures view { (ts : Trees) (t : Tree) → IfOk items (λ v. views v.items ≡ ts)
        → IfOk item (λ v. view v ≡ t) → IfOk result (λ v. views v.items ≡ one_last ts t) }
{
    let mut items = items?;
    let item = item?;
    match items.push(item) {
        Ok(()) => Ok(items),
        Err(_) => Err(Error::Memory),
    }
}

/// The array of the items.
///
/// # Errors
/// That of the items.
pub fn array(items: Result<Vec<Value>, Error>) -> Result<Value, Error>
    ensures ok { (ts : Trees) → IfOk items (λ v. views v.items ≡ ts)
        → IfOk result (λ v. view v ≡ tree.array ts) }
    ensures err { IfErr items (λ e. result ≡ Err e) }
    ensures made { OnOk items (OnErr result ⊥) }
{
    Ok(Value::Array(items?))
}

/// No entries yet. Never an error.
pub fn no_entries(alloc: Global) -> Result<Vec<(Value, Value)>, Error>
    ensures ok { IfOk result (λ v. view_pairs v.items ≡ no_pairs) }
    ensures made { OnErr result ⊥ }
{
    Ok(Vec::new(alloc))
}

/// One more entry.
///
/// # Errors
/// That of the entries, else that of the key, else that of the value, else `Memory`.
pub fn with_entry(
    entries: Result<Vec<(Value, Value)>, Error>,
    key: Result<Value, Error>,
    value: Result<Value, Error>,
) -> Result<Vec<(Value, Value)>, Error>
    ensures adds { Adds (λ v. v.items) entries (entry_of key value) result }
    ensures view { (ps : Pairs) (k : Tree) (t : Tree) → IfOk entries (λ v. view_pairs v.items ≡ ps)
        → IfOk key (λ v. view v ≡ k) → IfOk value (λ v. view v ≡ t)
        → IfOk result (λ v. view_pairs v.items ≡ pair_last ps k t) }
{
    let mut entries = entries?;
    let key = key?;
    let value = value?;
    match entries.push((key, value)) {
        Ok(()) => Ok(entries),
        Err(_) => Err(Error::Memory),
    }
}

/// The map of the entries.
///
/// # Errors
/// That of the entries.
pub fn map(entries: Result<Vec<(Value, Value)>, Error>) -> Result<Value, Error>
    ensures ok { (ps : Pairs) → IfOk entries (λ v. view_pairs v.items ≡ ps)
        → IfOk result (λ v. view v ≡ tree.map ps) }
    ensures err { IfErr entries (λ e. result ≡ Err e) }
    ensures made { OnOk entries (OnErr result ⊥) }
{
    Ok(Value::Map(entries?))
}
