//! Signed messages of COSE, with one signature and with several (RFC 9052, sections 4.1 and 4.2).
#![tactic(auto)]

mod as_written;
pub mod laws;
mod sign;
mod sign1;
mod sign1_builder;
mod sign1_serial;
mod sign_builder;
mod sign_serial;
mod sink;

pub use crate::sign::CoseSign;
pub use crate::sign_builder::CoseSignBuilder;
pub use crate::sign1::CoseSign1;
pub use crate::sign1_builder::CoseSign1Builder;
pub use crate::sink::{put_sign, put_sign1, put_tagged_sign, put_tagged_sign1};
