//! Lists.
ghost use Rattle.std.specs.Prelude.{◌≡◌, None, IfOk, IfErr, map, true};
ghost use Rattle.ciborium_value.specs.Tree as spec;
ghost use Rattle.ciborium_value.specs.Tree.{Trees};
ghost use Rattle.ciborium_value.specs.View.{views, trees};
ghost use Rattle.ciborium_traits.specs.Lists.{first_refusal, array_refusal, EachTaken};
ghost use Rattle.ciborium_traits.specs.Reading.{bare, IsRefusal};

use crate::de::Deserialize;
use crate::error::Error;
use crate::ser::{Serialize, Sink};
use crate::untagged::bare;
use ciborium_value::{Kind, Value};
use std::alloc::Global;

impl<T: Serialize> Serialize for Vec<T> {
    ghost put = { λ v. spec.array (trees (map T.put v.items)) };

    #[tactic(auto, using(crate::proofs::Written::trees_counted))]
    fn serialize<S: Sink>(&self, sink: &mut S) -> Result<(), S::Error> {
        sink.array(self.len())?;
        for item in self {
            item.serialize(sink)?;
        }
        Ok(())
    }
}

impl<T: Deserialize> Deserialize for Vec<T> {
    ghost refusal = { λ t. array_refusal (first_refusal T.refusal) (bare t) };

    ghost takes = { λ t v. (ts : Trees) × (bare t ≡ spec.array ts) × EachTaken T.takes ts v.items };

    ghost grows = { true };

    fn take(alloc: Global, value: Value) -> Result<Vec<T>, Error> {
        match bare(value) {
            Value::Array(items) => take_items(alloc, items),
            _ => Err(Error::Kind(Kind::WrongType)),
        }
    }
}

/// The values that are taken from the items.
fn take_items<T: Deserialize>(alloc: Global, items: Vec<Value>) -> Result<Vec<T>, Error>
    ensures ok { IfOk result (λ v. (first_refusal T.refusal (views items.items) ≡ None)
        × EachTaken T.takes (views items.items) v.items) }
    ensures err { IfErr result (λ e. IsRefusal true
        (first_refusal T.refusal (views items.items)) e) }
{
    let mut taken = Vec::new(alloc);
    for item in items {
        let x = T::take(alloc, item)?;
        taken.push(x)?;
    }
    Ok(taken)
}
