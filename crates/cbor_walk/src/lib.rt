//! A walk over the heads of a CBOR item (RFC 8949, section 3), of any depth and without recursion,
//! that keeps only how many items are due.
#![tactic(auto)]

mod laws;
mod walk;
mod whole;

pub use crate::laws::{deep_is_counted, whole_items};
pub use crate::walk::{Fault, Holds, Level, Walk};
pub use crate::whole::{begins_item, body_of};
