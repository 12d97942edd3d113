//! Reads the one item that bytes are, and writes one.
ghost use Rattle.std.specs.Prelude.{◌≡◌, ◌+◌, ◌^◌, ◌<◌, length, MatchResult};
ghost use Rattle.ciborium_value.specs.View.{view};
ghost use Rattle.ciborium_value.specs.Encoding.{enc};
ghost use Rattle.ciborium.specs.Front.{Reads};
ghost use Rattle.coset_labels.specs.Faults.{OrMemory};
ghost use Rattle.coset_labels.specs.Reading.{NotReadable};
ghost use Rattle.coset_labels.specs.declared.error.CoseError.TheVariants.{Memory};

use crate::error::CoseError;
use ciborium::de::from_decoder;
use ciborium::into_writer;
use ciborium_ll::{Decoder, Mem};
use ciborium_value::Value;
use std::alloc::Global;

/// Reads the one item that the bytes are, of at most `limit` levels.
///
/// # Errors
/// `DecodeFailed` with the damage of the bytes, `ExtraneousData` if they go on after their item, or
/// `Memory`.
pub fn read_to_value(alloc: Global, bytes: &[u8], limit: usize) -> Result<Value, CoseError>
    ensures { MatchResult result (λ v. Reads bytes.now limit (view v))
        (λ e. OrMemory (NotReadable bytes.now limit) e) }
{
    is_short(bytes);
    let mut decoder = Decoder::from(bytes);
    let value = from_decoder(alloc, &mut decoder, limit)?;
    if decoder.offset() < bytes.len() {
        return Err(CoseError::ExtraneousData);
    }
    Ok(value)
}

/// No slice is so long that offsets into it could not be counted.
pub fn is_short(bytes: &[u8])
    ensures { length bytes.now + 4096 < 2 ^ 64 }
{
    let _len = bytes.len();
}

/// The encoded value (RFC 8949, section 4.1).
///
/// # Errors
/// Only if out of memory.
pub fn write_to_vec(alloc: Global, value: &Value) -> Result<Vec<u8>, CoseError>
    ensures { MatchResult result (λ b. b.items ≡ enc (view value.now)) (λ e. e ≡ Memory) }
{
    let mut out = Mem::new(Vec::new(alloc));
    match into_writer(value, &mut out) {
        Ok(()) => Ok(out.into_inner()),
        // a writer to memory fails if out of memory, and no other way
        Err(_) => Err(CoseError::Memory),
    }
}
