//! A struct as a map with text keys, as serde's derive writes it.
use ciborium::de::{self, Deserialize};
use ciborium::value::{Error, Value};
use ciborium::{End, Mem, cbor, from_reader, into_writer};
use std::alloc::Global;
use std::collections::BTreeMap;

/// A reading of a station.
#[derive(Debug, PartialEq, Eq, Drop)]
pub struct Reading {
    pub station: String,
    pub degrees: i64,
}

/// The reading in a map with these text keys; none if one is missing or of another type. Other keys
/// are ignored.
///
/// # Errors
/// The fault of the bytes, or `Semantic` if the item at the front is no map with text keys.
pub fn read(alloc: Global, input: &mut &[u8]) -> Result<Option<Reading>, de::Error<End>> {
    let mut map: BTreeMap<String, Value> = from_reader(alloc, input)?;
    let (Some(station), Some(degrees)) = (map.remove("station"), map.remove("degrees")) else {
        return Ok(None);
    };
    let (Ok(station), Ok(degrees)) = (station.into_text(), i64::take(alloc, degrees)) else {
        return Ok(None);
    };
    Ok(Some(Reading { station, degrees }))
}

/// The encoding of a reading, as a map.
///
/// # Errors
/// Only if out of memory.
pub fn write(alloc: Global, reading: &Reading) -> Result<Vec<u8>, Error> {
    let value =
        cbor!(alloc, {"station" => reading.station.as_str(), "degrees" => reading.degrees})?;
    let mut out = Mem::new(Vec::new(alloc));
    match into_writer(&value, &mut out) {
        Ok(()) => Ok(out.into_inner()),
        Err(_) => Err(Error::Memory),
    }
}
