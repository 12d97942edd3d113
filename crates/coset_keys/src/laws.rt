//! Laws of the definitions.
ghost use Rattle.std.specs.Prelude.{◌≡◌, ◌↔◌, ◌+◌, ◌<◌, ◌^◌, ℕ, List, Some, IsTrue, length, map};
ghost use Rattle.std.specs.Prelude.{option_map};
ghost use Rattle.cose_iana.specs.Algorithms.{algorithm_number};
ghost use Rattle.cose_iana.specs.Keys.{key_operations};
ghost use Rattle.ciborium_value.specs.Tree.{Tree};
ghost use Rattle.ciborium_value.specs.Encoding.{enc, Fits, FitPairs};
ghost use Rattle.ciborium_value.specs.View.{pairs};
ghost use Rattle.coset_labels.specs.declared.order.CborOrdering.{CborOrdering};
ghost use Rattle.coset_labels.specs.View.{registered_view, named_view};
ghost use Rattle.coset_headers.specs.View.{entry_view};
ghost use Rattle.coset_headers.specs.Written.{entry_tree};
ghost use Rattle.coset_labels.specs.Faults.{CoseFault};
ghost use Rattle.coset_labels.specs.Reading.{HasItem};
ghost use Rattle.coset_keys.specs.Fields.{KeyFields};
ghost use Rattle.coset_keys.specs.Fitting.{KeysFit, NameFits, NamesFit};
ghost use Rattle.coset_keys.specs.Keys.{HasKey, HasKeySet};
ghost use Rattle.coset_keys.specs.Sorted.{Canonicalized, SameButOrder};
ghost use Rattle.coset_keys.specs.View.{key_view, key_set_view};
ghost use Rattle.coset_keys.specs.Written.{key_tree, key_set_tree};
ghost use Rattle.coset_keys.specs.Wrong.{WrongKey, WrongKeySet};

use crate::key::{CoseKey, CoseKeySet, KeyOperation};
use ciborium_value::Value;
use ciborium_value::laws::value_fits;
use coset_labels::laws::{bytes_fit, label_fits, name_fits, registered_fits};
use coset_labels::{Algorithm, Label};
use std::collections::BTreeSet;

/// A value has the fields of at most one key, and of at most one set of keys.
pub fn one_key()
    ensures key { (t : Tree) (k l : KeyFields) → HasKey t k → HasKey t l → k ≡ l }
    ensures set { (t : Tree) (ks ls : List KeyFields) → HasKeySet t ks → HasKeySet t ls → ks ≡ ls }
{}

/// A value with a fault has no fields.
pub fn wrong_has_none()
    ensures key { (t : Tree) (e : CoseFault) (k : KeyFields) → WrongKey t e → HasKey t k → ⊥ }
    ensures set { (t : Tree) (e : CoseFault) (ks : List KeyFields) → WrongKeySet t e
        → HasKeySet t ks → ⊥ }
{}

/// A key that was read can be written, and from what is written the same key is read; so also if
/// its `params` were put into another order. The same holds of sets.
pub fn written_is_read()
    ensures key { (t : Tree) (k : KeyFields) → HasKey t k
        → (u : Tree) × (key_tree k ≡ Some u) × HasKey u k }
    ensures sorted { (t : Tree) (k l : KeyFields) → HasKey t k → SameButOrder k l
        → (u : Tree) × (key_tree l ≡ Some u) × HasKey u l }
    ensures set { (t : Tree) (ks : List KeyFields) → HasKeySet t ks
        → (u : Tree) × (key_set_tree ks ≡ Some u) × HasKeySet u ks }
{}

/// Keys are equal if they say the same, their other entries in the same order.
pub fn keys_compare(a: &CoseKey, b: &CoseKey)
    ensures { IsTrue (⟦<CoseKey as std::cmp::PartialEq>⟧.eq a.now b.now)
        ↔ (key_view a.now ≡ key_view b.now) }
{}

/// Sets are equal if their keys are, in their order.
pub fn key_sets_compare(a: &CoseKeySet, b: &CoseKeySet)
    ensures { IsTrue (⟦<CoseKeySet as std::cmp::PartialEq>⟧.eq a.now b.now)
        ↔ (key_set_view a.now ≡ key_set_view b.now) }
{}

fn alg_fits(alg: &Option<Algorithm>)
    ensures { NameFits (option_map (named_view algorithm_number) alg.now) }
{
    match alg {
        Some(alg) => name_fits(alg),
        None => {}
    }
}

fn operations_fit(operations: &BTreeSet<KeyOperation>)
    ensures names { NamesFit (map (registered_view key_operations.number) operations.now.keys) }
    ensures short { length operations.now.keys < 2 ^ 64 }
{
    let _len = operations.len();
    'operations: for operation in operations {
        registered_fits(operation);
    }
}

fn params_fit(params: &[(Label, Value)])
    ensures entries { FitPairs (pairs (map entry_tree (map entry_view params.now))) }
    ensures short { length params.now + 5 < 2 ^ 64 }
{
    let _len = params.len();
    'entries: for entry in params {
        label_fits(&entry.0);
        value_fits(&entry.1);
    }
}

/// What a key is written as fits, and so do its other entries: each number is in its range, each
/// text is UTF-8, and each length is one that a head can have.
pub fn key_fits(key: &CoseKey)
    ensures tree { (t : Tree) → key_tree (key_view key.now) ≡ Some t → Fits t }
    ensures params { FitPairs (pairs (map entry_tree (key_view key.now).params)) }
{
    registered_fits(&key.kty);
    bytes_fit(&key.key_id);
    alg_fits(&key.alg);
    operations_fit(&key.key_ops);
    bytes_fit(&key.base_iv);
    params_fit(&key.params);
}

fn keys_fit(keys: &[CoseKey])
    ensures all { KeysFit (map key_view keys.now) }
    ensures short { length keys.now < 2 ^ 64 }
{
    let _len = keys.len();
    'keys: for key in keys {
        key_fits(key);
    }
}

/// As `key_fits`, of a set of keys.
pub fn key_set_fits(set: &CoseKeySet)
    ensures { (t : Tree) → key_set_tree (key_set_view set.now) ≡ Some t → Fits t }
{
    keys_fit(&set.0);
}

/// A key that was read from bytes can be written, and from the bytes that it is written as the same
/// key is read; so also if its `params` were put into another order.
pub fn key_reads_again(key: &CoseKey)
    ensures same { (b : List ℕ) → HasItem HasKey b (key_view key.now)
        → (t : Tree) × (key_tree (key_view key.now) ≡ Some t)
        × HasItem HasKey (enc t) (key_view key.now) }
    ensures sorted { (b : List ℕ) (k : KeyFields) → HasItem HasKey b k
        → SameButOrder k (key_view key.now)
        → (t : Tree) × (key_tree (key_view key.now) ≡ Some t)
        × HasItem HasKey (enc t) (key_view key.now) }
{
    key_fits(key);
}

/// A set of keys that was read from bytes can be written, and from the bytes that it is written as
/// the same set is read.
pub fn key_set_reads_again(set: &CoseKeySet)
    ensures { (b : List ℕ) → HasItem HasKeySet b (key_set_view set.now)
        → (t : Tree) × (key_set_tree (key_set_view set.now) ≡ Some t)
        × HasItem HasKeySet (enc t) (key_set_view set.now) }
{
    key_set_fits(set);
}

/// Two keys that were read, each canonicalized in the same ordering, have equal bytes exactly when
/// they differed at most in the order of their `params`.
pub fn one_spelling(a: &CoseKey, b: &CoseKey)
    ensures { (o : CborOrdering) (t s : Tree) (k l : KeyFields) → HasKey t k → HasKey s l
        → Canonicalized o k (key_view a.now) → Canonicalized o l (key_view b.now)
        → (option_map enc (key_tree (key_view a.now)) ≡ option_map enc (key_tree (key_view b.now)))
        ↔ SameButOrder k l }
{
    key_fits(a);
    key_fits(b);
}
