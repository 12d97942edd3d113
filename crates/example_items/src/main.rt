//! Values, heads and headers written, and read again: what is written is printed in hex, and what
//! is read as it is.
#![tactic(auto)]

mod floats;

use crate::floats::{array_of, number_of};
use ciborium::value::Value;
use ciborium::{Float, Mem, cbor, from_reader, into_writer};
use ciborium_ll::{Decoder, Header as Head};
use coset_base::{CborSerializable, CoseError, Header, HeaderBuilder, iana};
use std::alloc::Global;

fn main(rt: HostRuntime) -> anyhow::Result<()> {
    let alloc = rt.alloc();
    let bytes = reading(alloc)?;
    println!(rt; "{}", hex::encode(alloc, bytes.as_slice())?)?;
    let value: Value = from_reader(alloc, &mut bytes.as_slice())?;
    println!(rt; "{value:?}")?;
    let (station, numbers): (String, Vec<u64>) = from_reader(alloc, &mut bytes.as_slice())?;
    println!(rt; "{station} {numbers:?}")?;
    println!(rt; "{:?}", array_of(alloc, 1.5)?)?;
    println!(rt; "{}", number_of(Float::Half(0x3e00)))?;
    println!(rt; "{}", number_of(Float::Half(0x8001)))?;
    println!(rt; "{:?}", sum(b"\x83\x01\x18\x64\x19\x01\x00"))?;
    let bytes = header(alloc)?.to_vec(alloc)?;
    println!(rt; "{}", hex::encode(alloc, bytes.as_slice())?)?;
    println!(rt; "{:?}", Header::from_slice(alloc, &bytes)?.alg)?;
    Ok(())
}

/// A text and some numbers, as bytes.
fn reading(alloc: Global) -> anyhow::Result<Vec<u8>> {
    let value = cbor!(alloc, ["roof", [21, 22, 1000]])?;
    let mut out = Mem::new(Vec::new(alloc));
    into_writer(&value, &mut out)?;
    Ok(out.into_inner())
}

/// The sum of an array of numbers, without memory. There is none if it has other items, or the sum
/// is too large.
fn sum(bytes: &[u8]) -> Option<u64> {
    let mut decoder = Decoder::from(bytes);
    let Ok(Head::Array(Some(len))) = decoder.pull() else {
        return None;
    };
    let mut sum = 0u64;
    for _ in 0..len {
        let Ok(Head::Positive(number)) = decoder.pull() else {
            return None;
        };
        sum = sum.checked_add(number)?;
    }
    Some(sum)
}

/// A header with an algorithm and a key id.
fn header(alloc: Global) -> Result<Header, CoseError> {
    let key_id = b"11".to_vec(alloc)?;
    Ok(
        HeaderBuilder::new(alloc)
            .algorithm(iana::Algorithm::ES256)
            .key_id(key_id)
            .build(),
    )
}
