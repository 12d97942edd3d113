//! Values that are already as they would be written.
ghost use Rattle.std.specs.Prelude.{◌≡◌, ℕ, Option, Some, MatchBool};
ghost use Rattle.ciborium_value.specs.Tree.{Tree};
ghost use Rattle.ciborium_value.specs.View.{view};

use crate::traits::AsCborValue;
use ciborium_value::Value;

/// A type whose value can be asked, before it is read, whether it is already the one that would be
/// written.
pub trait AsWritten: AsCborValue {
    /// What a value of the type says: its `Fields`.
    ghost Content: { Type 0 };

    /// Which content a tree has as this type, under a nesting limit of protected bytes and so many
    /// layers of them.
    ghost has: { ℕ → Tree → Content → ℕ → Type 0 };

    /// The tree that content is written as: `written`.
    ghost tree_of: { Content → Option Tree };

    /// Whether the value is the very one that would be written of what it is read as: true exactly
    /// if it is. Of a value that isn't read as this type it says nothing. It takes no memory.
    fn is_as_written(value: &Value) -> bool
        ensures { (n k : ℕ) (x : Content) → has n (view value.now) x k
            → MatchBool result (tree_of x ≡ Some (view value.now))
            (tree_of x ≡ Some (view value.now) → ⊥) };

    /// If a value is read as some fields, it has a content that is written as these fields are.
    ghost read: { (t : Tree) (x : Self.Fields) → Self.shape t x
        → (n : ℕ) × (k : ℕ) × (c : Content) × has n t c k × (tree_of c ≡ Self.written x) };
}
