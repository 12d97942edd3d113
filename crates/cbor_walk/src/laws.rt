//! Facts about items by their heads, for proofs. The calls do nothing at run time.
ghost use Rattle.std.specs.Prelude.{ℕ, List};
ghost use Rattle.cbor_walk.specs.Grammar.{Item};
ghost use Rattle.cbor_walk.specs.Walking.{Goes, IsNothing, IsOne, IsSound, IsDeep};
ghost use Rattle.cbor_walk.specs.Walking.{Counts, wanted_by};
ghost use Rattle.cbor_walk.specs.declared.walk.Walk.{Walk};

/// Bytes that lead from an item to nothing are one item, and no other item begins with them or
/// begins them.
pub fn whole_items()
    ensures { (x : List ℕ) → Goes Item IsNothing x → IsOne x }
{}

/// What is too deep after some bytes of an item is so as they are counted: more items are open, or
/// 2^64 bytes are due.
pub fn deep_is_counted()
    ensures { (most : ℕ) (w : Walk) (x : List ℕ) → IsSound w → Goes Item (wanted_by w) x
        → IsDeep Item most x → Counts most w }
{}
