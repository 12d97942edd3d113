//! One value as a source.
ghost use Rattle.std.specs.Prelude.{◌≡◌, true, None, Some};
ghost use Rattle.ciborium_value.specs.Folding.{fold};
ghost use Rattle.ciborium_value.specs.View.{view};
ghost use Rattle.ciborium_value.specs.declared.value.Value.{Value as ValueOf};
ghost use Rattle.ciborium_traits.specs.Reading.{IsRefusal};
ghost use Rattle.ciborium_typed.specs.Unfolded.{missing};

use crate::folded::folded;
use ciborium_traits::{Error, Source};
use ciborium_value::{Kind, Value};
use std::alloc::Global;

/// Gives the one value that it is made of, its bignums folded, and then no more: `Length`.
#[derive(Drop)]
pub struct ValueSource {
    alloc: Global,
    item: Option<Value>,
}

impl ValueSource {
    /// A source of this value.
    pub fn new(alloc: Global, value: Value) -> ValueSource
        ensures { result.item ≡ Some value }
    {
        ValueSource {
            alloc,
            item: Some(value),
        }
    }
}

/// After an error the source is as it was: `Memory`, `BigNegative` if the value holds a negative
/// bignum below -2^127, or `Length` if the value was given.
impl Source for ValueSource {
    type Error = Error;

    ghost gives = { λ s t s2. (v : ValueOf) × (s.item ≡ Some v) × (fold (view v) ≡ Some t)
        × (s2.item ≡ None) };

    ghost fails = { λ s e s2. IsRefusal true (missing s.item) e × (s2.item ≡ s.item) };

    ghost refused = { λ e. e };

    fn item(&mut self) -> Result<Value, Error> {
        let copy = match &self.item {
            Some(value) => folded(self.alloc, value),
            None => return Err(Error::Kind(Kind::Length)),
        };
        match copy {
            Ok(Some(value)) => {
                self.item = None;
                Ok(value)
            }
            Ok(None) => Err(Error::Kind(Kind::BigNegative)),
            Err(_) => Err(Error::Memory),
        }
    }

    fn refuse(error: Error) -> Error {
        error
    }
}
