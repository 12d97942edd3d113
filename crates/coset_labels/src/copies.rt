//! Copies of what several types hold.
ghost use Rattle.std.specs.Prelude.{◌≡◌, IfOk, map, option_map};
ghost use Rattle.coset_labels.specs.View.{entry_view};

use crate::seen_labels::EntryKey;
use ciborium_value::Value;
use std::alloc::{AllocError, Global};

/// A copy of bytes, if there are any.
///
/// # Errors
/// Only if out of memory.
pub fn clone_bytes(alloc: Global, bytes: &Option<Vec<u8>>) -> Result<Option<Vec<u8>>, AllocError>
    ensures { IfOk result
        (λ copy. option_map (λ v. v.items) copy ≡ option_map (λ v. v.items) bytes.now) }
{
    match bytes {
        Some(bytes) => Ok(Some(bytes.as_slice().to_vec(alloc)?)),
        None => Ok(None),
    }
}

/// A copy of a label or a name, if there is one.
///
/// # Errors
/// Only if out of memory.
pub fn clone_key<K: EntryKey>(alloc: Global, key: &Option<K>) -> Result<Option<K>, AllocError>
    ensures { IfOk result (λ copy. option_map K.fields copy ≡ option_map K.fields key.now) }
{
    match key {
        Some(key) => Ok(Some(key.clone_in(alloc)?)),
        None => Ok(None),
    }
}

/// A copy of the entries of a map, each with its key.
///
/// # Errors
/// Only if out of memory.
pub fn clone_entries<K: EntryKey>(
    alloc: Global,
    entries: &[(K, Value)],
) -> Result<Vec<(K, Value)>, AllocError>
    ensures { IfOk result
        (λ copies. map (entry_view K.fields) copies.items ≡ map (entry_view K.fields) entries.now) }
{
    let mut copies = Vec::with_capacity(alloc, entries.len())?;
    for entry in entries {
        let key = entry.0.clone_in(alloc)?;
        let value = entry.1.clone(alloc)?;
        copies.push((key, value))?;
    }
    Ok(copies)
}
