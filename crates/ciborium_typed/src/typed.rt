//! Values made of typed values, and typed values taken from values.
ghost use Rattle.std.specs.Prelude.{◌≡◌, true, Some, None, IfOk, IfErr};
ghost use Rattle.ciborium_value.specs.Folding.{fold};
ghost use Rattle.ciborium_value.specs.Tree.{Tree};
ghost use Rattle.ciborium_value.specs.View.{view};
ghost use Rattle.ciborium_traits.specs.declared.error.Error.TheVariants.{Memory};
ghost use Rattle.ciborium_traits.specs.Reading.{IsRefusal};
ghost use Rattle.ciborium_typed.specs.Unfolded.{unread};

use crate::folded::folded;
use crate::value_sink::ValueSink;
use ciborium_traits::{Deserialize, Error, Serialize};
use ciborium_value::{Kind, Value};
use std::alloc::Global;

/// Typed values into a value, and out of it.
pub trait ValueTyped {
    /// The item that it stands for.
    ghost tree: { Self → Tree };

    /// The value that the typed one is written as. Its bignums are as they are written.
    ///
    /// # Errors
    /// Only `Memory`.
    fn serialized<T: Serialize>(alloc: Global, value: &T) -> Result<Self, Error>
        ensures ok { IfOk result (λ v. tree v ≡ T.put value.now) }
        ensures err { IfErr result (λ e. e ≡ Memory) };

    /// The typed value that this one is read as; its bignums are folded first (RFC 8949, section
    /// 3.4.3).
    ///
    /// # Errors
    /// Why the type doesn't take it, `BigNegative` if it holds a negative bignum below -2^127, or
    /// `Memory`.
    fn deserialized<T: Deserialize>(&self, alloc: Global) -> Result<T, Error>
        ensures ok { IfOk result (λ x. (u : Tree) × (fold (tree self.now) ≡ Some u)
            × (T.refusal u ≡ None) × T.takes u x) }
        ensures err { IfErr result (λ e. IsRefusal true
            (unread T.refusal (fold (tree self.now))) e) };
}

impl ValueTyped for Value {
    ghost tree = { view };

    fn serialized<T: Serialize>(alloc: Global, value: &T) -> Result<Value, Error> {
        let mut sink = ValueSink::new(alloc);
        value.serialize(&mut sink)?;
        match sink.into_items().pop() {
            Some(item) => Ok(item),
            None => unreachable!(),
        }
    }

    fn deserialized<T: Deserialize>(&self, alloc: Global) -> Result<T, Error> {
        match folded(alloc, self) {
            Ok(Some(value)) => T::take(alloc, value),
            Ok(None) => Err(Error::Kind(Kind::BigNegative)),
            Err(_) => Err(Error::Memory),
        }
    }
}
