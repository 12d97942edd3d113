//! The keys of a judge, by their ids.
use crate::stop::Stop;
use cose_gate_program::{CoseKeySet, fits, secret_of};
use cose_notation::{Keys, Look, keys_in};
use coset_keys::CoseKey;
use coset_labels::{CborSerializable, CoseError};
use std::alloc::Global;
use std::collections::BTreeMap;

/// The keys of a set by their ids.
#[derive(Drop)]
pub struct KeyBook<'a> {
    alloc: Global,
    /// What is shown of an id.
    look: Look,
    by_id: BTreeMap<&'a [u8], Held<'a>>,
}

/// The key of an id.
#[derive(Clone, Copy)]
pub struct Held<'a> {
    /// The first key with this id that fits, or, if none fits, the first that has it.
    pub key: &'a CoseKey,
    /// Whether another key has it too.
    pub is_shared: bool,
}

impl<'a> KeyBook<'a> {
    /// The keys of this set, with their secrets shown in ids, or not.
    ///
    /// # Errors
    /// `Memory`.
    pub fn new(alloc: Global, look: Look, keys: &'a CoseKeySet) -> Result<KeyBook<'a>, Stop> {
        let mut by_id = BTreeMap::new(alloc);
        for key in &keys.0 {
            add_key(&mut by_id, key)?;
        }
        Ok(KeyBook { alloc, look, by_id })
    }

    /// Where memory comes from.
    pub fn alloc(&self) -> Global {
        self.alloc
    }

    /// What is shown of an id.
    pub fn look(&self) -> Look {
        self.look
    }

    /// The key that a message with this id is judged by, or would be if it fitted.
    pub fn find(&self, id: &[u8]) -> Option<Held<'a>> {
        self.by_id.get(id).copied()
    }

    /// The ids, by their bytes.
    pub fn ids(&self) -> &BTreeMap<&'a [u8], Held<'a>> {
        &self.by_id
    }
}

fn add_key<'a>(by_id: &mut BTreeMap<&'a [u8], Held<'a>>, key: &'a CoseKey) -> Result<(), Stop> {
    let id = key.key_id.as_slice();
    let first = by_id.get(id).copied();
    match by_id.insert(id, held_of(first, key)) {
        Ok(_) => Ok(()),
        Err(_) => Err(Stop::Memory),
    }
}

/// What is held of an id, if this was held of it, and this key has it too.
fn held_of<'a>(first: Option<Held<'a>>, key: &'a CoseKey) -> Held<'a> {
    let id = key.key_id.as_slice();
    match first {
        None => Held {
            key,
            is_shared: false,
        },
        Some(held) if fits(held.key, id) || !fits(key, id) => Held {
            key: held.key,
            is_shared: true,
        },
        Some(_) => Held {
            key,
            is_shared: true,
        },
    }
}

/// So many bytes can't be guessed.
const LONG: usize = 16;

/// Whether a key of the set has a secret that can be guessed, as it is of fewer than 16 bytes.
pub fn has_short_secret(keys: &CoseKeySet) -> bool {
    keys.0.iter().any(|key| matches!(secret_of(key), Some(secret) if secret.len() < LONG))
}

/// The key set that the bytes of a file are.
///
/// # Errors
/// `OneKey` and `NoKeys` if they are none; `Memory`.
pub fn read_keys(alloc: Global, bytes: &[u8]) -> Result<CoseKeySet, Stop> {
    match CoseKeySet::from_slice(alloc, bytes) {
        Ok(keys) => Ok(keys),
        Err(CoseError::Memory) => Err(Stop::Memory),
        Err(error) => match keys_in(alloc, bytes)? {
            Some(Keys::One) => Err(Stop::OneKey),
            _ => Err(Stop::NoKeys(error)),
        },
    }
}
