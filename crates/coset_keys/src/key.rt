//! Keys as they are in memory.
ghost use Rattle.std.specs.Prelude.{◌≡◌, []};
ghost use Rattle.coset_keys.specs.Fields.{no_key};
ghost use Rattle.coset_keys.specs.View.{key_view, key_set_view};

use ciborium_value::Value;
use coset_labels::{Algorithm, KeyType, Label, RegisteredLabel, iana};
use std::alloc::Global;
use std::collections::BTreeSet;

/// What a key may be used for (RFC 9052, section 7.1).
pub type KeyOperation = RegisteredLabel<iana::KeyOperation>;

/// A key (RFC 9052, section 7). An empty field is an absent one.
#[derive(Debug, PartialEq, Eq, Drop)]
pub struct CoseKey {
    /// The type of the key, label 1.
    pub kty: KeyType,
    /// The key id, label 2.
    pub key_id: Vec<u8>,
    /// The algorithm that the key is for, label 3.
    pub alg: Option<Algorithm>,
    /// The operations that the key is for, label 4.
    pub key_ops: BTreeSet<KeyOperation>,
    /// The base of initialization vectors, label 5.
    pub base_iv: Vec<u8>,
    /// The other entries, in their order.
    pub params: Vec<(Label, Value)>,
}

/// A set of keys (RFC 9052, section 7).
#[derive(Debug, PartialEq, Eq, Drop)]
pub struct CoseKeySet(pub Vec<CoseKey>);

impl CoseKey {
    /// A key of the reserved type with no other field. It takes no memory.
    pub fn new(alloc: Global) -> CoseKey
        ensures { key_view result ≡ no_key }
    {
        CoseKey {
            kty: KeyType::default(),
            key_id: Vec::new(alloc),
            alg: None,
            key_ops: BTreeSet::new(alloc),
            base_iv: Vec::new(alloc),
            params: Vec::new(alloc),
        }
    }
}

impl CoseKeySet {
    /// A set of no key. It takes no memory.
    pub fn new(alloc: Global) -> CoseKeySet
        ensures { key_set_view result ≡ [] }
    {
        CoseKeySet(Vec::new(alloc))
    }
}
