//! Which keys of a map were there before.
ghost use Rattle.std.specs.Prelude.{◌≡◌, ◌↔◌, List, [], ◌∷◌, ◌++◌, IsTrue, IfOk, MatchResult};
ghost use Rattle.std.specs.Prelude.{MatchBool, true, false};
ghost use Rattle.std.specs.Ordering.{is_eq};
ghost use Rattle.ciborium_value.specs.Tree.{Tree};
ghost use Rattle.coset_labels.specs.Entries.{IsIn};
ghost use Rattle.coset_labels.specs.Facts.Orders.{labels_same, names_same};
ghost use Rattle.coset_labels.specs.SeenLabels.{Sees, Grows, Keeps, holds, has_seen};
ghost use Rattle.coset_labels.specs.View.{label_view, named_view};
ghost use Rattle.coset_labels.specs.declared.error.CoseError.TheVariants.{Memory};

use crate::error::CoseError;
use crate::label::Label;
use crate::registered::RegisteredLabelWithPrivate;
use crate::traits::AsCborValue;
use cose_iana::WithPrivateRange;
use std::alloc::{AllocError, Global};
use std::collections::BTreeSet;

/// What the entries of a map are told apart by.
pub trait EntryKey: AsCborValue + Ord {
    /// A key equal to this one.
    ///
    /// # Errors
    /// Only if out of memory.
    fn clone_in(&self, alloc: Global) -> Result<Self, AllocError>
        ensures { IfOk result (λ copy. Self.fields copy ≡ Self.fields self.now) };

    /// Keys are equal in their order exactly when they say the same.
    ghost same: { (a b : Self) → IsTrue (is_eq (Self.cmp a b)) ↔ (Self.fields a ≡ Self.fields b) };
}

impl EntryKey for Label {
    ghost same = { λ a b. labels_same (label_view a) (label_view b) };

    fn clone_in(&self, alloc: Global) -> Result<Label, AllocError> {
        self.clone(alloc)
    }
}

impl<T: WithPrivateRange> EntryKey for RegisteredLabelWithPrivate<T> {
    ghost same = { λ a b. names_same (named_view T.number a) (named_view T.number b) };

    fn clone_in(&self, alloc: Global) -> Result<RegisteredLabelWithPrivate<T>, AllocError> {
        self.clone(alloc)
    }
}

/// The keys of some entries. The first two are here and take no memory but that of their texts,
/// which are copied; a key is found among the others in as many steps as their number has digits.
#[derive(Drop)]
pub struct SeenLabels<K: Ord> {
    pub(crate) first: Option<K>,
    pub(crate) second: Option<K>,
    pub(crate) others: BTreeSet<K>,
}

impl<K: EntryKey> SeenLabels<K> {
    /// No key was seen. It takes no memory.
    pub fn new(alloc: Global) -> SeenLabels<K>
        ensures { Sees K.cmp K.fields result [] }
    {
        SeenLabels {
            first: None,
            second: None,
            others: BTreeSet::new(alloc),
        }
    }

    /// Adds a copy of the key, and tells whether it is new. A key that was there before changes
    /// nothing.
    ///
    /// # Errors
    /// Only if out of memory.
    pub fn add(&mut self, alloc: Global, key: &K) -> Result<bool, CoseError>
        ensures { (es : List (K.Fields × Tree)) → Sees K.cmp K.fields self.old es
            → MatchResult result
            (λ fresh. MatchBool fresh ((IsIn (K.fields key.now) es → ⊥)
            × ((v : Tree) → Sees K.cmp K.fields self.new (es ++ (K.fields key.now, v) ∷ [])))
            (IsIn (K.fields key.now) es × Sees K.cmp K.fields self.new es))
            (λ e. e ≡ Memory) }
    {
        let copy = key.clone_in(alloc)?;
        let fresh = self.insert(copy)?;
        Ok(fresh)
    }

    fn insert(&mut self, key: K) -> Result<bool, AllocError>
        ensures { IfOk result
            (λ fresh. MatchBool fresh
            ((has_seen K.cmp self.old key ≡ false) × Grows K.cmp self.old self.new key)
            ((has_seen K.cmp self.old key ≡ true) × Keeps K.cmp self.old self.new)) }
    {
        if is_same(&self.first, &key) || is_same(&self.second, &key) {
            return Ok(false);
        }
        if self.second.is_some() {
            let fresh = self.others.insert(key)?;
            return Ok(fresh);
        }
        if self.others.contains(&key) {
            return Ok(false);
        }
        if self.first.is_some() {
            self.second = Some(key);
        } else {
            self.first = Some(key);
        }
        Ok(true)
    }
}

/// Whether the place holds this key.
fn is_same<K: EntryKey>(place: &Option<K>, key: &K) -> bool
    ensures { result ≡ holds K.cmp place.now key.now }
{
    match place {
        Some(held) => held.cmp(key).is_eq(),
        None => false,
    }
}
