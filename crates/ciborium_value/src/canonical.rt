//! Values in the order of their encodings.
ghost use Rattle.std.specs.Prelude.{refl};
ghost use Rattle.std.specs.Cmp.{partial_equiv_from_equiv, on_equiv, eq_by_cmp_equiv, on_total};
ghost use Rattle.std.specs.Cmp.{partial_order_from_agreeing_total};
ghost use Rattle.std.specs.Ordering.{on, eq_by_cmp, as_partial_cmp};
ghost use Rattle.ciborium_value.specs.Canonical.{canonical_cmp};
ghost use Rattle.ciborium_value.specs.View.{view};
ghost use Rattle.ciborium_value.specs.Facts.TextTotal.{canonical_total};
ghost use Rattle.ciborium_value.specs.Facts.CanonicalHash.{hashed_by_canonical};

use crate::order::cmp_value;
use crate::value::Value;
use std::alloc::{AllocError, Global};
use std::cmp::Ordering;
use std::hash::{Hash, Hasher};

/// A value that is compared by its encoding, as `cmp_value` does (RFC 8949, section 4.2.3).
#[derive(Debug, Drop)]
pub struct CanonicalValue(pub Value);

impl CanonicalValue {
    ghost use Rattle.std.specs.Prelude.{◌≡◌, IfOk};

    /// A value equal to this one.
    ///
    /// # Errors
    /// Only if out of memory.
    pub fn clone(&self, alloc: Global) -> Result<CanonicalValue, AllocError>
        ensures { IfOk result (λ copy. view copy.0 ≡ view self.now.0) }
    {
        Ok(CanonicalValue(self.0.clone(alloc)?))
    }
}

impl PartialEq for CanonicalValue {
    ghost eq = { on (λ v. view v.0) (eq_by_cmp canonical_cmp) };

    ghost laws = { partial_equiv_from_equiv
        (on_equiv (λ v. view v.0) (eq_by_cmp_equiv canonical_total)) };

    fn eq(&self, other: &CanonicalValue) -> bool {
        cmp_value(&self.0, &other.0).is_eq()
    }
}

impl Eq for CanonicalValue {
    ghost laws = { on_equiv (λ v. view v.0) (eq_by_cmp_equiv canonical_total) };
}

impl Ord for CanonicalValue {
    ghost cmp = { on (λ v. view v.0) canonical_cmp };

    ghost total = { on_total (λ v. view v.0) canonical_total };

    ghost matches_partial_cmp = { λ a b. refl };

    ghost matches_eq = { λ a b. refl };

    fn cmp(&self, other: &CanonicalValue) -> Ordering {
        cmp_value(&self.0, &other.0)
    }
}

impl PartialOrd for CanonicalValue {
    ghost partial_cmp = { as_partial_cmp (on (λ v. view v.0) canonical_cmp) };

    ghost laws = { partial_order_from_agreeing_total (on (λ v. view v.0) canonical_cmp)
        (on_total (λ v. view v.0) canonical_total) (λ a b. refl) (λ a b. refl) };

    fn partial_cmp(&self, other: &CanonicalValue) -> Option<Ordering> {
        Some(self.cmp(other))
    }
}

impl Hash for CanonicalValue {
    ghost hash_input = { λ v. ⟦<Value as std::hash::Hash>⟧.hash_input v.0 };

    ghost respects_eq = { λ a b. hashed_by_canonical a.0 b.0 };

    fn hash<H: Hasher>(&self, state: &mut H) {
        self.0.hash(state);
    }
}

impl From<Value> for CanonicalValue {
    ghost use Rattle.std.specs.Prelude.{◌≡◌};

    ghost from_gives = { λ v c. c.0 ≡ v };

    fn from(value: Value) -> CanonicalValue {
        CanonicalValue(value)
    }
}

impl From<CanonicalValue> for Value {
    ghost use Rattle.std.specs.Prelude.{◌≡◌};

    ghost from_gives = { λ c v. v ≡ c.0 };

    fn from(canonical: CanonicalValue) -> Value {
        canonical.0
    }
}
