//! Headers of COSE, protected ones and counter signatures in them (RFC 9052, sections 3 and 4.1).
#![tactic(auto)]

mod as_written;
mod copies;
mod entries;
mod equal;
mod fields;
mod fits;
mod header;
pub mod laws;
mod reader;
mod received;
mod serial;
mod values;
mod writer;

pub use crate::as_written::{
    are_canonical_elements, are_canonical_signatures, is_canonical_signature,
};
pub use crate::entries::{push_bytes, push_rest, repeats};
pub use crate::header::{CoseSignature, Header, ProtectedHeader};
pub use crate::received::are_received;
pub use crate::writer::show_protected;
