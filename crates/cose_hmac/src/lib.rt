//! HMAC with SHA-256 (RFC 2104), whole and in pieces, and the comparison of tags.
#![tactic(auto)]

mod block;
mod mac;
mod tag;

pub use crate::mac::{HmacSha256, hmac_sha256};
pub use crate::tag::same_tag;
