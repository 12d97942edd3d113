//! One item of any type, read and written.
ghost use Rattle.std.specs.Prelude.{◌≡◌, ◌++◌, ℕ, List, IfOk};
ghost use Rattle.ciborium.specs.Encoding.{enc};
ghost use Rattle.ciborium.specs.Items.{nesting};
ghost use Rattle.ciborium.specs.Typed.{ReadsAs};

use ciborium::de::{self, Deserialize};
use ciborium::ser::Serialize;
use ciborium::{End, Mem, from_reader, into_writer};
use std::alloc::{AllocError, Global};

/// What the item at the front of the bytes is as this type. The bytes are then those after it.
///
/// # Errors
/// The fault of the bytes, or `Semantic` if the item is none of this type.
pub fn first<T: Deserialize>(alloc: Global, input: &mut &[u8]) -> Result<T, de::Error<End>>
    ensures { IfOk result (λ x. (front : List ℕ) × (input.old.now ≡ front ++ input.new.now)
        × ReadsAs T.refusal T.takes nesting x front) }
{
    from_reader(alloc, input)
}

/// The canonical encoding of the item that a value is written as.
///
/// # Errors
/// Only if out of memory.
pub fn encoded<T: Serialize>(alloc: Global, value: &T) -> Result<Vec<u8>, AllocError>
    ensures { IfOk result (λ bytes. bytes.items ≡ enc (T.put value.now)) }
{
    let mut out = Mem::new(Vec::new(alloc));
    match into_writer(value, &mut out) {
        Ok(()) => Ok(out.into_inner()),
        Err(_) => Err(AllocError),
    }
}
