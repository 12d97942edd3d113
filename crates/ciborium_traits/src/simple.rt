//! Booleans and null.
ghost use Rattle.std.specs.Prelude.{◌≡◌, None, Some, false};
ghost use Rattle.ciborium_value.specs.Kinds.{is_bool, is_null};
ghost use Rattle.ciborium_value.specs.Tree as spec;
ghost use Rattle.ciborium_value.specs.View.{bool_tree};
ghost use Rattle.ciborium_traits.specs.Reading.{bare, unless};

use crate::de::Deserialize;
use crate::error::Error;
use crate::ser::{Serialize, Sink};
use crate::untagged::bare;
use ciborium_value::{Kind, Value};
use std::alloc::Global;

impl Serialize for bool {
    ghost put = { bool_tree };

    #[tactic(auto, using(crate::proofs::Opened::boolean_opened))]
    fn serialize<S: Sink>(&self, sink: &mut S) -> Result<(), S::Error> {
        sink.boolean(*self)
    }
}

impl Deserialize for bool {
    ghost refusal = { λ t. unless (is_bool (bare t)) };

    ghost takes = { λ t b. bare t ≡ bool_tree b };

    ghost grows = { false };

    fn take(_alloc: Global, value: Value) -> Result<bool, Error> {
        match bare(value) {
            Value::Bool(b) => Ok(b),
            _ => Err(Error::Kind(Kind::WrongType)),
        }
    }
}

impl Serialize for () {
    ghost put = { λ _. spec.simple 22 };

    fn serialize<S: Sink>(&self, sink: &mut S) -> Result<(), S::Error> {
        sink.null()
    }
}

impl Deserialize for () {
    ghost refusal = { λ t. unless (is_null (bare t)) };

    ghost takes = { λ t _. bare t ≡ spec.simple 22 };

    ghost grows = { false };

    fn take(_alloc: Global, value: Value) -> Result<(), Error> {
        match bare(value) {
            Value::Null => Ok(()),
            _ => Err(Error::Kind(Kind::WrongType)),
        }
    }
}
