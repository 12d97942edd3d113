//! Values that may be absent: null stands for none.
ghost use Rattle.ciborium_traits.specs.Lists.{optional_tree, optional_refusal, OptionalTaken};

use crate::de::Deserialize;
use crate::error::Error;
use crate::ser::{Serialize, Sink};
use ciborium_value::Value;
use std::alloc::Global;

impl<T: Serialize> Serialize for Option<T> {
    ghost put = { optional_tree T.put };

    fn serialize<S: Sink>(&self, sink: &mut S) -> Result<(), S::Error> {
        match self {
            Some(x) => x.serialize(sink),
            None => sink.null(),
        }
    }
}

impl<T: Deserialize> Deserialize for Option<T> {
    ghost refusal = { optional_refusal T.refusal };

    ghost takes = { OptionalTaken T.takes };

    ghost grows = { T.grows };

    fn take(alloc: Global, value: Value) -> Result<Option<T>, Error> {
        match value {
            Value::Null => Ok(None),
            other => Ok(Some(T::take(alloc, other)?)),
        }
    }
}
