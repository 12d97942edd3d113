//! Whether an item can be read.
ghost use Rattle.std.specs.Prelude.{◌≡◌, ◌≢◌, ◌⊎◌, IfOk, IfErr, MatchBool, false};
ghost use Rattle.ciborium.specs.declared.de.Error.TheVariants as code;
ghost use Rattle.cose_sift.specs.Reading.{IsReadable, Unread};
ghost use Rattle.cbor_walk.specs.Walking.{IsOne};
ghost use Rattle.cose_sift.specs.declared.items.Halt.TheVariants as halt;
ghost use Rattle.cose_sift.specs.declared.taking.Stop.TheVariants as stop;

use crate::items::Halt;
use crate::taking::Stop;
use ciborium::de;
use ciborium_ll::{Decoder, End};
use std::alloc::Global;

/// Whether ciborium reads the item, of at most `RECURSION_LIMIT` levels.
///
/// # Errors
/// `Decode` with `Memory`, or with `TooLong` if its bytes are within 4,096 of 2^64.
pub fn is_readable(alloc: Global, item: &[u8]) -> Result<bool, Halt>
    requires { IsOne item.now }
    ensures ok { IfOk result (λ yes. MatchBool yes (IsReadable item.now)
        (IsReadable item.now → ⊥)) }
    ensures err { IfErr result (Unread item.now) }
{
    let mut decoder = Decoder::from(item);
    match de::from_decoder(alloc, &mut decoder, de::RECURSION_LIMIT) {
        Ok(value) => {
            drop(value);
            Ok(true)
        }
        Err(error) => unread(error),
    }
}

/// What an error says of an item: it can't be read, unless nothing is said.
fn unread(error: de::Error<End>) -> Result<bool, Halt>
    ensures ok { IfOk result (λ yes. (yes ≡ false) × (error ≢ code.Memory)
        × (error ≢ code.TooLong)) }
    ensures err { IfErr result (λ h.
        ((error ≡ code.Memory) × (h ≡ halt.Decode stop.Memory))
        ⊎ ((error ≡ code.TooLong) × (h ≡ halt.Decode stop.TooLong))) }
{
    match error {
        de::Error::Memory => Err(Halt::Decode(Stop::Memory)),
        de::Error::TooLong => Err(Halt::Decode(Stop::TooLong)),
        de::Error::Io(_) => Ok(false),
        de::Error::Syntax(_) => Ok(false),
        de::Error::Semantic(_, _) => Ok(false),
        de::Error::RecursionLimitExceeded => Ok(false),
    }
}
