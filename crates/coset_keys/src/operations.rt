//! The operations of a key.
ghost use Rattle.std.specs.Prelude.{◌≢◌, [], map, MatchResult};
ghost use Rattle.cose_iana.specs.Keys.{key_operations};
ghost use Rattle.ciborium_value.specs.Tree as spec;
ghost use Rattle.ciborium_value.specs.View.{view, views};
ghost use Rattle.coset_labels.specs.Faults.{OrMemory};
ghost use Rattle.coset_labels.specs.View.{registered_view};
ghost use Rattle.coset_keys.specs.Keys.{HasOperations};
ghost use Rattle.coset_keys.specs.Wrong.{WrongOperations};

use crate::key::KeyOperation;
use ciborium_value::Value;
use coset_labels::{AsCborValue, CoseError, ValueTryAs};
use std::alloc::Global;
use std::collections::BTreeSet;

/// Reads operations: a list that is not empty and has none twice.
pub(crate) fn read_operations(
    alloc: Global,
    value: Value,
) -> Result<BTreeSet<KeyOperation>, CoseError>
    ensures { MatchResult result
        (λ s. HasOperations (view value) (map (registered_view key_operations.number) s.keys))
        (λ e. OrMemory (WrongOperations (view value)) e) }
{
    let items = value.try_as_array()?;
    if items.is_empty() {
        return Err(CoseError::UnexpectedItem("empty array", "non-empty array"));
    }
    collect_operations(alloc, items)
}

fn collect_operations(alloc: Global, items: Vec<Value>) -> Result<BTreeSet<KeyOperation>, CoseError>
    requires { items.items ≢ [] }
    ensures { MatchResult result
        (λ s. HasOperations (spec.array (views items.items))
        (map (registered_view key_operations.number) s.keys))
        (λ e. OrMemory (WrongOperations (spec.array (views items.items))) e) }
{
    let mut operations = BTreeSet::new(alloc);
    'items: for item in items {
        let operation = KeyOperation::from_cbor_value(alloc, item)?;
        let fresh = operations.insert(operation)?;
        if !fresh {
            return Err(CoseError::UnexpectedItem("repeated array entry", "unique array label"));
        }
    }
    Ok(operations)
}
