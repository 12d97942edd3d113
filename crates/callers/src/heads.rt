//! A walk over heads. `ciborium_ll` is the one crate that it names.
ghost use Rattle.std.specs.Prelude.{◌≡◌, ◌++◌, ℕ, List, length, IfOk, IfErr, OnOk, flat_map, Some};
ghost use Rattle.ciborium_ll.specs.Title.{Begins, title_of};
ghost use Rattle.ciborium_ll.specs.Copies.{Copies};
ghost use Rattle.ciborium_ll.specs.Views.{memory_of};
ghost use Rattle.ciborium_ll.specs.declared.hdr.Header.{Header as Head};
ghost use Rattle.ciborium_ll.specs.declared.hdr.Header.TheVariants.{Array, Positive};
ghost use Rattle.callers.specs.Heads.{IsNoHead, len_of};

use ciborium_ll::{Decoder, Encoder, End, Error, Header, Mem, RecodeError, recode};
use std::alloc::AllocError;

/// The head at the front of the bytes, whatever its width.
///
/// # Errors
/// `Syntax(0)` if the first byte begins none, `Io` if the bytes end in it.
pub fn first_head(input: &[u8]) -> Result<Header, Error<End>>
    ensures ok { IfOk result (λ h. (rest : List ℕ) × Begins input.now h rest) }
    ensures err { IfErr result (IsNoHead input.now) }
{
    Decoder::from(input).pull()
}

/// The length in the head of an array at the front of the bytes, or none if another item begins
/// there or the array is open.
///
/// # Errors
/// Those of `first_head`.
pub fn array_len(input: &[u8]) -> Result<Option<usize>, Error<End>>
    ensures ok { IfOk result (λ o. (h : Head) × (rest : List ℕ)
        × Begins input.now h rest × (o ≡ len_of h)) }
    ensures err { IfErr result (IsNoHead input.now) }
{
    match first_head(input) {
        Ok(Header::Array(len)) => Ok(len),
        Ok(_) => Ok(None),
        Err(e) => Err(e),
    }
}

/// Writes an array of numbers in its shortest heads, after what is in `out`.
///
/// # Errors
/// Only if out of memory.
pub fn write_numbers(out: &mut Mem<Vec<u8>>, numbers: &[u64]) -> Result<(), AllocError>
    ensures { OnOk result ((memory_of out.new).items
        ≡ (memory_of out.old).items ++ (title_of (Array (Some (length numbers.now)))
        ++ flat_map (λ n. title_of (Positive n)) numbers.now)) }
{
    let mut encoder = Encoder::from(out);
    encoder.push(Header::Array(Some(numbers.len())))?;
    for n in numbers {
        encoder.push(Header::Positive(*n))?;
    }
    Ok(())
}

/// The next `count` heads and strings of the bytes in their shortest heads, after what is in `out`.
///
/// # Errors
/// `Read` if the bytes don't begin with so many, and `Write` if out of memory.
pub fn shortened(
    input: &[u8],
    count: usize,
    out: &mut Mem<Vec<u8>>,
) -> Result<(), RecodeError<End, AllocError>>
    ensures { OnOk result ((bytes : List ℕ) × (copy : List ℕ) × (rest : List ℕ)
        × (input.now ≡ bytes ++ rest) × Copies count bytes copy
        × ((memory_of out.new).items ≡ (memory_of out.old).items ++ copy)) }
{
    let mut buffer = [0; 64];
    let mut decoder = Decoder::from(input);
    let mut encoder = Encoder::from(out);
    recode(&mut decoder, &mut encoder, count, &mut buffer)
}
