//! Facts about items by their heads, for proofs. The calls do nothing at run time.
ghost use Rattle.std.specs.Prelude.{◌≡◌, ℕ, List, Bool, false};
ghost use Rattle.ciborium.specs.Front.{Reads};
ghost use Rattle.ciborium_value.specs.Tree.{Tree};
ghost use Rattle.cbor_walk.specs.Grammar.{Item};
ghost use Rattle.cose_sift.specs.Sifting.{Sifted, AsReceived, IsReadThrough};
ghost use Rattle.cose_sift.specs.Untagging.{Content};
ghost use Rattle.cose_sift.specs.declared.sifting.Options.{Options};

/// What ciborium reads as an item is one.
pub fn readable_items()
    ensures { (b : List ℕ) (limit : ℕ) (v : Tree) → Reads b limit v → Item b }
{}

/// Of an item one thing is to be written.
pub fn one_content()
    ensures { (untag : Bool) (b x y : List ℕ) → Content untag b x → Content untag b y → x ≡ y }
{}

/// If no tags are taken off, the items that are kept are written as they are.
pub fn as_received()
    ensures { (o : Options) (b out : List ℕ) (n k : ℕ) → o.untag ≡ false → Sifted o b out n k
        → AsReceived o.max b out n k }
{}

/// A gate over what was sifted stops nowhere, and has as many items as were written.
pub fn read_through()
    ensures { (o : Options) (b out : List ℕ) (n k : ℕ) → Sifted o b out n k
        → IsReadThrough out n }
{}
