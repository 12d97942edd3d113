//! Copies of keys.
ghost use Rattle.std.specs.Prelude.{◌≡◌, IfOk, map};
ghost use Rattle.cose_iana.specs.Keys.{key_operations};
ghost use Rattle.coset_labels.specs.View.{registered_view};
ghost use Rattle.coset_keys.specs.View.{key_view, key_set_view};

use crate::key::{CoseKey, CoseKeySet, KeyOperation};
use coset_labels::{clone_entries, clone_key};
use std::alloc::{AllocError, Global};
use std::collections::BTreeSet;

impl CoseKey {
    /// A key equal to this one.
    ///
    /// # Errors
    /// Only if out of memory.
    pub fn clone(&self, alloc: Global) -> Result<CoseKey, AllocError>
        ensures { IfOk result (λ copy. key_view copy ≡ key_view self.now) }
    {
        Ok(CoseKey {
            kty: self.kty.clone(alloc)?,
            key_id: self.key_id.as_slice().to_vec(alloc)?,
            alg: clone_key(alloc, &self.alg)?,
            key_ops: clone_operations(alloc, &self.key_ops)?,
            base_iv: self.base_iv.as_slice().to_vec(alloc)?,
            params: clone_entries(alloc, &self.params)?,
        })
    }
}

impl CoseKeySet {
    /// A set equal to this one.
    ///
    /// # Errors
    /// Only if out of memory.
    pub fn clone(&self, alloc: Global) -> Result<CoseKeySet, AllocError>
        ensures { IfOk result (λ copy. key_set_view copy ≡ key_set_view self.now) }
    {
        Ok(CoseKeySet(clone_keys(alloc, &self.0)?))
    }
}

fn clone_keys(alloc: Global, keys: &[CoseKey]) -> Result<Vec<CoseKey>, AllocError>
    ensures { IfOk result (λ copies. map key_view copies.items ≡ map key_view keys.now) }
{
    let mut copies = Vec::with_capacity(alloc, keys.len())?;
    for key in keys {
        copies.push(key.clone(alloc)?)?;
    }
    Ok(copies)
}

fn clone_operations(
    alloc: Global,
    operations: &BTreeSet<KeyOperation>,
) -> Result<BTreeSet<KeyOperation>, AllocError>
    ensures { IfOk result (λ copy. map (registered_view key_operations.number) copy.keys
        ≡ map (registered_view key_operations.number) operations.now.keys) }
{
    let mut copies = BTreeSet::new(alloc);
    'operations: for operation in operations {
        copies.insert(operation.clone(alloc)?)?;
    }
    Ok(copies)
}
