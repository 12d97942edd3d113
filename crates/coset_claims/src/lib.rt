//! Claims of CBOR web tokens (RFC 8392).
#![tactic(auto)]

mod builder;
mod copies;
pub mod cwt;
mod entries;
pub mod laws;
mod reader;
mod seconds;
