//! `cbor!`.
ghost use Rattle.std.specs.Prelude.{◌≡◌, pos, codes, IfOk};
ghost use Rattle.ciborium.specs.Tree.{integer, text, array, map, simple};
ghost use Rattle.ciborium.specs.Tree.{one_more, no_trees, pair_more, no_pairs};
ghost use Rattle.ciborium.specs.View.{view};

use crate::checks::{is_written, same};
use ciborium::cbor;
use ciborium::value::{Error, Value, ValueTyped};
use std::alloc::Global;
use std::process::Abort;

/// A map of an array and a map: parts keep the order in which they are written, and a key comes
/// before its value.
fn in_place(alloc: Global, n: u8) -> Result<Value, Error>
    ensures { IfOk result (λ v. view v
        ≡ map (pair_more (text (codes "a"))
        (array (one_more (integer (pos n)) (one_more (simple 21) (one_more (simple 22) no_trees))))
        (pair_more (integer (pos 7)) (map (pair_more (simple 22) (integer (pos n)) no_pairs))
        no_pairs))) }
{
    cbor!(alloc, {"a" => [n, true, null], 7u8 => {null => n}})
}

/// A map of an array.
fn inner(alloc: Global) -> Result<Value, Error> {
    cbor!(alloc, {"a" => [1, true, null]})
}

/// An array of a map, which has that one in it, and of two other items.
fn outer(alloc: Global) -> Result<Value, Error> {
    let value = inner(alloc)?;
    cbor!(alloc, [{1 => value, [] => {}}, null, -1 - 1])
}

/// A value was made that is written as this.
fn is_made(rt: &impl Abort, alloc: Global, made: Result<Value, Error>, want: &str) {
    let value = made.expect(rt, "memory");
    is_written(rt, alloc, &value, want, "what is made");
}

#[test]
fn values_stand_in_place(rt: HostRuntime) {
    let alloc = rt.alloc();
    is_made(&rt, alloc, inner(alloc), "a161618301f5f6");
    is_made(&rt, alloc, outer(alloc), "83a201a161618301f5f680a0f621");
    let value = cbor!(alloc, null).expect(&rt, "null");
    same(&rt, &value, &Value::Null, "null");
    let value = cbor!(alloc, 7).expect(&rt, "memory");
    let number = value.deserialized::<u8>(alloc);
    same(&rt, &number, &Ok(7), "a number");
}
