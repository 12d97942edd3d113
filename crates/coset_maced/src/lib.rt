//! Authenticated messages of COSE (RFC 9052, section 6).
#![tactic(auto)]

mod as_written;
pub mod laws;
mod mac;
mod mac0;
mod mac0_builder;
mod mac0_serial;
mod mac_builder;
mod mac_serial;
mod sink;

pub use crate::mac::CoseMac;
pub use crate::mac_builder::CoseMacBuilder;
pub use crate::mac0::CoseMac0;
pub use crate::mac0_builder::CoseMac0Builder;
pub use crate::sink::{put_mac, put_mac0, put_tagged_mac, put_tagged_mac0};
pub use coset_recipients::{CoseRecipient, CoseRecipientBuilder};
