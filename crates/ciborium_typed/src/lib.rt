//! Typed reading and writing of CBOR values (RFC 8949), without bytes: what a type puts into a
//! sink, and what it takes from a value.
#![tactic(auto)]

mod bytes;
mod folded;
pub mod laws;
pub mod tag;
pub mod typed;
pub mod value;
mod value_sink;
mod value_source;

pub use crate::bytes::ByteBuf;
pub use crate::typed::ValueTyped;
pub use crate::value_sink::ValueSink;
pub use crate::value_source::ValueSource;
pub use ciborium_traits::{
    Deserialize, Error, MapKey, RoundTrip, Serialize, Sink, Source, bare, de, ser,
};
pub use ciborium_value::{CanonicalValue, Integer, Kind, Value, cmp_value, fold_tag};
