//! Keys of COSE and sets of them (RFC 9052, section 7), and the points of keys over elliptic curves
//! as octet strings (SEC 1).
#![tactic(auto)]

mod builder;
mod canonical;
mod copies;
mod key;
pub mod laws;
mod ml_dsa;
mod operations;
mod reader;
mod sec1;
mod serial;
mod values;
mod writer;

pub use crate::builder::CoseKeyBuilder;
pub use crate::key::{CoseKey, CoseKeySet, KeyOperation};
pub use crate::ml_dsa::MlDsaVariant;
pub use crate::sec1::{ParseSec1OctetStringError, ToSec1OctetStringError};
