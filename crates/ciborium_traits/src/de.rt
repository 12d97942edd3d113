//! What values are read from, and what can be read.
ghost use Rattle.std.specs.Prelude.{◌≡◌, ◌⊎◌, Bool, IfOk, IfErr, Option, None};
ghost use Rattle.ciborium_value.specs.Tree.{Tree};
ghost use Rattle.ciborium_value.specs.View.{view};
ghost use Rattle.ciborium_value.specs.declared.kind.Kind.{Kind as KindOf};
ghost use Rattle.ciborium_traits.specs.declared.error.Error.{Error as ErrorOf};
ghost use Rattle.ciborium_traits.specs.Reading.{IsRefusal};

use crate::error::Error;
use ciborium_value::{Kind, Value};
use std::alloc::Global;

/// Gives items, one after another.
///
/// An implementation says in its meaning which item a call gives and what it then is (`gives`), how
/// a call fails (`fails`), and which of its faults stands for the refusal of an item that it gave
/// (`refused`).
pub trait Source {
    /// Why no item came, or why the item was refused.
    type Error;

    /// In the first state the source gives the item, and is in the second then.
    ghost gives: { Self → Tree → Self → Type 0 };

    /// In the first state the source gives no item, for this reason, and is in the second then.
    ghost fails: { Self → Self.Error → Self → Type 0 };

    /// The fault for a refused item.
    ghost refused: { ErrorOf → Self.Error };

    /// The next item, its bignums folded.
    fn item(&mut self) -> Result<Value, Self::Error>
        ensures ok { IfOk result (λ v. gives self.old (view v) self.new) }
        ensures err { IfErr result (λ e. fails self.old e self.new) };

    /// The fault that stands for the refusal of an item.
    fn refuse(error: Error) -> Self::Error
        ensures { result ≡ refused error };
}

/// A type whose values can be read.
pub trait Deserialize: Drop {
    /// Why an item isn't of this type; none if it is.
    ghost refusal: { Tree → Option KindOf };

    /// This value is taken from the item.
    ghost takes: { Tree → Self → Type 0 };

    /// Whether taking may need memory: a type that only moves what the item holds never runs out of
    /// it.
    ghost grows: { Bool };

    /// Takes the value, whose bignums are folded.
    ///
    /// # Errors
    /// The value's fault if it isn't of this type, or `Memory` if the type grows.
    fn take(alloc: Global, value: Value) -> Result<Self, Error>
        ensures ok { IfOk result (λ x. (refusal (view value) ≡ None) × takes (view value) x) }
        ensures err { IfErr result (λ e. IsRefusal grows (refusal (view value)) e) };

    /// Takes the next item of the source.
    ///
    /// # Errors
    /// The source's, also if it gave an item that isn't of this type.
    fn deserialize<S: Source>(alloc: Global, source: &mut S) -> Result<Self, S::Error>
        ensures ok { IfOk result (λ x. (t : Tree) × S.gives source.old t source.new
            × (refusal t ≡ None) × takes t x) }
        ensures err { IfErr result (λ e. S.fails source.old e source.new
            ⊎ ((t : Tree) × (f : ErrorOf) × S.gives source.old t source.new
            × IsRefusal grows (refusal t) f × (e ≡ S.refused f))) }
    {
        let value = source.item()?;
        match Self::take(alloc, value) {
            Ok(x) => Ok(x),
            Err(error) => Err(S::refuse(error)),
        }
    }
}
