//! Encrypted messages of COSE (RFC 9052, section 5).
#![tactic(auto)]

mod encrypt;
mod encrypt0;
mod encrypt0_builder;
mod encrypt0_serial;
mod encrypt_builder;
mod encrypt_serial;
pub mod laws;

pub use crate::encrypt::CoseEncrypt;
pub use crate::encrypt_builder::CoseEncryptBuilder;
pub use crate::encrypt0::CoseEncrypt0;
pub use crate::encrypt0_builder::CoseEncrypt0Builder;
