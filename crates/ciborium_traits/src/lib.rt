//! What is written to a sink and read from a source, and how Rust's own types and values of CBOR
//! (RFC 8949) are written and read.
#![tactic(auto)]

pub mod de;
mod error;
pub mod laws;
mod list;
mod map;
mod numbers;
mod option;
mod round_trip;
pub mod ser;
mod simple;
mod texts;
mod tuples;
mod untagged;
mod values;
mod wide;

pub use crate::de::{Deserialize, Source};
pub use crate::error::Error;
pub use crate::round_trip::{MapKey, RoundTrip};
pub use crate::ser::{Serialize, Sink};
pub use crate::untagged::bare;
