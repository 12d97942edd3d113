//! What is written is read back, for any type with the law.
ghost use Rattle.std.specs.Prelude.{◌≡◌, IfOk, IfErr};
ghost use Rattle.ciborium_traits.specs.declared.error.Error.TheVariants.{Memory};

use crate::checks::same;
use ciborium_typed::tag::Captured;
use ciborium_typed::{Error, RoundTrip, Value, ValueTyped};
use std::alloc::Global;
use std::fmt::Debug;
use std::process::Abort;

/// The value as it is written and read back: one that is written alike, unless out of memory.
fn again<T: RoundTrip>(alloc: Global, value: &T) -> Result<T, Error>
    requires { T.kept value.now }
    ensures same { IfOk result (λ x. T.put x ≡ T.put value.now) }
    ensures memory { IfErr result (λ e. e ≡ Memory) }
{
    let written = Value::serialized(alloc, value)?;
    written.deserialized(alloc)
}

/// The value is the same as what is written of it and read back.
fn comes_back<T: RoundTrip + PartialEq + Debug>(rt: &impl Abort, alloc: Global, value: &T)
    requires { T.kept value.now }
{
    let got = again(alloc, value).expect(rt, "memory");
    same(rt, &got, value, "what is read back");
}

#[test]
fn values_come_back(rt: HostRuntime) {
    comes_back(&rt, rt.alloc(), &-129i16);
    let text = String::from_str(rt.alloc(), "a").expect(&rt, "memory");
    comes_back(&rt, rt.alloc(), &text);
    comes_back(&rt, rt.alloc(), &Captured(Some(5), true));
    comes_back(&rt, rt.alloc(), &(true, false));
}
