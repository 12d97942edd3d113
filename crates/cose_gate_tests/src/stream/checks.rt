//! A check, and what it gave.
ghost use Rattle.std.specs.Prelude.{◌<◌, length};

use cose_gate::{Decoder, Judge, Limits, Read, StreamFault, stream_check, stream_check_with};
use std::alloc::Global;

/// The result of a check of what this reader gives, within limits if there are some. Its contract
/// is only that the buffer isn't empty: so the clauses of `stream_check` are not proved over again
/// in each test.
pub fn checked<R: Read + Drop, J: Judge>(
    alloc: Global,
    limits: Option<Limits>,
    reader: R,
    buffer: &mut [u8],
    aad: &[u8],
    judge: &mut J,
) -> Result<bool, StreamFault<R::Error>>
    requires { 0 < length buffer.old }
{
    let mut decoder = Decoder::from(reader);
    match limits {
        Some(limits) => stream_check_with(alloc, limits, &mut decoder, buffer, aad, judge),
        None => stream_check(alloc, &mut decoder, buffer, aad, judge),
    }
}
