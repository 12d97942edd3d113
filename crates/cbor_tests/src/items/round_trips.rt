//! What is written is read back, for any type with the law.
ghost use Rattle.std.specs.Prelude.{◌≡◌, ◌≤◌, IfOk, IfErr};
ghost use Rattle.ciborium.specs.Items.{nesting};
ghost use Rattle.ciborium.specs.Tree.{depth};
ghost use Rattle.ciborium.specs.declared.de.Error.TheVariants.{Memory};

use crate::checks::same;
use ciborium::de::Error;
use ciborium::laws::written_is_read;
use ciborium::types::RoundTrip;
use ciborium::{End, Mem, from_reader, into_writer};
use std::alloc::Global;

/// The value as it is written to memory and read back: one that is written alike, unless out of
/// memory.
fn again<T: RoundTrip>(alloc: Global, value: &T) -> Result<T, Error<End>>
    requires kept { T.kept value.now }
    requires shallow { depth (T.put value.now) ≤ nesting }
    ensures same { IfOk result (λ x. T.put x ≡ T.put value.now) }
    ensures memory { IfErr result (λ e. e ≡ Memory) }
{
    written_is_read(value);
    let mut out = Mem::new(Vec::new(alloc));
    match into_writer(value, &mut out) {
        Ok(()) => {}
        Err(_) => return Err(Error::Memory),
    }
    let mut bytes = out.as_written();
    from_reader(alloc, &mut bytes)
}

#[test]
fn values_come_back(rt: HostRuntime) {
    same(&rt, &again(rt.alloc(), &-129i16), &Ok(-129), "a number");
    let pair = again(rt.alloc(), &(true, 250u8));
    same(&rt, &pair, &Ok((true, 250)), "a pair");
}
