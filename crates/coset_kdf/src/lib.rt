//! Contexts of key derivation (RFC 9053, section 5.2).
#![tactic(auto)]

mod builder;
mod context;
mod copies;
mod items;
pub mod laws;
mod reader;
mod serial;
mod writer;

pub use crate::builder::{CoseKdfContextBuilder, PartyInfoBuilder, SuppPubInfoBuilder};
pub use crate::context::{CoseKdfContext, Nonce, PartyInfo, SuppPubInfo};
