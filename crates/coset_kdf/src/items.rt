//! The items of a context after the fourth.
ghost use Rattle.std.specs.Prelude.{◌≡◌, ◌≢◌, ◌++◌, ◌∷◌, [], map, MatchResult};
ghost use Rattle.ciborium_value.specs.View.{view};
ghost use Rattle.coset_labels.specs.Faults.{OrMemory};
ghost use Rattle.coset_kdf.specs.Steps.{Popped, WrongPopped};

use ciborium_value::Value;
use coset_labels::{CoseError, ValueTryAs};
use std::alloc::Global;

/// Takes the last item.
fn last(items: &mut Vec<Value>) -> Value
    requires { items.old.items ≢ [] }
    ensures { items.old.items ≡ items.new.items ++ result ∷ [] }
{
    match items.pop() {
        Some(item) => item,
        None => unreachable!(),
    }
}

/// Takes the items after the fourth, which have to be byte strings, from the last to the first, and
/// gives them in their order.
pub(crate) fn pop_private(alloc: Global, items: &mut Vec<Value>) -> Result<Vec<Vec<u8>>, CoseError>
    ensures { MatchResult result
        (λ v. Popped (map view items.old.items) (map view items.new.items)
        (map (λ b. b.items) v.items))
        (λ e. OrMemory (WrongPopped (map view items.old.items)) e) }
{
    let mut private = Vec::new(alloc);
    while items.len() > 4 {
        let bytes = last(items).try_as_bytes()?;
        private.push(bytes)?;
    }
    private.reverse();
    Ok(private)
}
