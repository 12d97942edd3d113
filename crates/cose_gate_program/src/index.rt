//! The keys of a judge, as they are or by their ids.
ghost use Rattle.std.specs.Prelude.{◌≡◌, IfSome, OnOk, map, option_map, option_copied};
ghost use Rattle.std.proofs.Props.{props};
ghost use Rattle.coset_keys.specs.View.{key_view, key_set_view};
ghost use Rattle.cose_gate_program.specs.Indexed.{IsIndexOf, AddsKey, Enters};
ghost use Rattle.cose_gate_program.specs.Keys.{secret_under};

use crate::keys::serving_secret;
use crate::prepared::PreparedSecret;
use coset_keys::{CoseKey, CoseKeySet};
use std::alloc::{AllocError, Global};
use std::collections::BTreeMap;

/// The secrets of a set that a message can choose: of each key id that of the first key that fits.
#[derive(Drop)]
pub(crate) struct KeyIndex<'a> {
    /// The set of keys, which contracts speak of in place of the index.
    pub(crate) set: &'a CoseKeySet,
    by_id: BTreeMap<&'a [u8], PreparedSecret<'a>>,
    ghost whole: { IsIndexOf by_id (key_set_view set.now) } by { Prim.hlevel props },
}

/// The keys of a judge.
#[derive(Drop)]
pub(crate) enum Keys<'a> {
    /// As they are: each message looks through them, and hashes the one that fits.
    Set(&'a CoseKeySet),
    /// By their ids, each hashed once.
    Index(KeyIndex<'a>),
}

impl<'a> KeyIndex<'a> {
    /// The index of a set; none if out of memory.
    pub(crate) fn new(alloc: Global, set: &'a CoseKeySet) -> Option<KeyIndex<'a>>
        ensures { IfSome result (λ index. key_set_view index.set.now ≡ key_set_view set.now) }
    {
        match secrets_by_id(alloc, &set.0) {
            Some(by_id) => Some(KeyIndex { set, by_id }),
            None => None,
        }
    }

    /// The secret of the first key that fits a message with this key id, in the time of a search
    /// among sorted ids.
    pub(crate) fn find(&self, id: &[u8]) -> Option<&PreparedSecret<'a>>
        ensures { option_map (λ s. s.secret.now) (option_copied result)
            ≡ secret_under id.now (key_set_view self.now.set.now) }
    {
        self.by_id.get(id)
    }
}

/// The secrets of the keys that serve, of each key id the first; none if out of memory.
fn secrets_by_id<'a>(
    alloc: Global,
    keys: &'a [CoseKey],
) -> Option<BTreeMap<&'a [u8], PreparedSecret<'a>>>
    ensures { IfSome result (λ by_id. IsIndexOf by_id (map key_view keys.now)) }
{
    let mut by_id = BTreeMap::new(alloc);
    for key in keys {
        match add_key(&mut by_id, key) {
            Ok(()) => {}
            Err(_) => return None,
        }
    }
    Some(by_id)
}

/// Adds the secret of a key, if it serves and no key before it has its id.
fn add_key<'a>(
    by_id: &mut BTreeMap<&'a [u8], PreparedSecret<'a>>,
    key: &'a CoseKey,
) -> Result<(), AllocError>
    ensures { OnOk result (AddsKey by_id.old (key_view key.now) by_id.new) }
{
    match serving_secret(key) {
        Some(secret) => add_secret(by_id, &key.key_id, secret),
        None => Ok(()),
    }
}

/// Adds a secret, if its id has none.
fn add_secret<'a>(
    by_id: &mut BTreeMap<&'a [u8], PreparedSecret<'a>>,
    id: &'a [u8],
    secret: &'a [u8],
) -> Result<(), AllocError>
    ensures { OnOk result (Enters by_id.old id.now secret.now by_id.new) }
{
    if by_id.contains_key(id) {
        return Ok(());
    }
    match by_id.insert(id, PreparedSecret::new(secret)) {
        Ok(_) => Ok(()),
        Err(_) => Err(AllocError),
    }
}
