//! A relay of what a relay wrote: it changes nothing. `cose_gate` is the one crate that it names.
ghost use Rattle.std.specs.Prelude.{◌<◌, ◌^◌, length, All, IfOk};
ghost use Rattle.callers.specs.Judging.{Unchanged};

use crate::judging::KeyIds;
use crate::relaying::relay;
use crate::tally::Tally;
use cose_gate::laws::{every_input_run, output_is_fixed};
use cose_gate::{Counts, End, GateFault};
use std::alloc::Global;

/// A slice is bytes, fewer than 2^64.
pub(crate) fn bytes_below(bytes: &[u8])
    ensures few { length bytes.now < 2 ^ 64 }
    ensures low { All (λ x. x < 256) bytes.now }
{
    let _len = bytes.len();
}

/// What a relay writes and counts.
pub type Relay = (Vec<u8>, Counts);

/// What a relay with these ids writes, and what it writes of that: the same.
///
/// # Errors
/// Those of `relay`.
pub fn relay_twice(
    alloc: Global,
    input: &[u8],
    aad: &[u8],
    judge: &mut KeyIds,
    tally: &mut Tally,
) -> Result<(Relay, Relay), GateFault<End>>
    ensures { IfOk result (λ r. Unchanged r.0.0.items r.1.0.items r.0.1 r.1.1) }
{
    bytes_below(input);
    every_input_run();
    output_is_fixed();
    let (once, first) = relay(alloc, input, aad, judge, tally)?;
    let (again, second) = relay(alloc, &once, aad, judge, tally)?;
    Ok(((once, first), (again, second)))
}
