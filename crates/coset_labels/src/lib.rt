//! Labels of COSE and the errors of all its crates (RFC 9052).
#![tactic(auto)]

mod alike;
mod as_written;
mod copies;
mod error;
mod kinds;
mod label;
pub mod laws;
mod limits;
mod order;
mod reading;
mod registered;
mod seen_labels;
mod traits;
pub mod tuples;

pub use crate::as_written::AsWritten;
pub use crate::copies::{clone_bytes, clone_entries, clone_key};
pub use crate::error::{CoseError, EndOfFile, Fault, Result};
pub use crate::kinds::{ValueTryAs, cbor_type_error};
pub use crate::label::Label;
pub use crate::limits::Limits;
pub use crate::order::CborOrdering;
pub use crate::reading::{is_short, read_to_value, write_to_vec};
pub use crate::registered::{
    Algorithm, ContentType, KeyType, RegisteredLabel, RegisteredLabelWithPrivate,
};
pub use crate::seen_labels::{EntryKey, SeenLabels};
pub use crate::traits::{AsCborValue, CborSerializable, TaggedCborSerializable, to_cbor_array};
pub use cose_iana as iana;
