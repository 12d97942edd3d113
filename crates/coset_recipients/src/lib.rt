//! Recipients of encrypted and authenticated messages of COSE (RFC 9052, sections 5.1 and 5.3), and
//! the parts that each message and each recipient begins with.
#![tactic(auto)]

mod as_written;
mod builder;
mod calls;
mod copies;
pub mod laws;
mod parts;
mod parts_sink;
mod reader;
mod recipient;
mod serial;
mod sink;
mod writer;

pub use crate::as_written::are_canonical_recipients;
pub use crate::builder::CoseRecipientBuilder;
pub use crate::copies::clone_recipients;
pub use crate::parts::{Elements, PartValues, Parts, content_bytes, optional_value, write_parts};
pub use crate::parts_sink::begin_parts;
pub use crate::reader::read_recipients;
pub use crate::recipient::CoseRecipient;
pub use crate::sink::{put_recipient, put_recipients};
pub use crate::writer::write_recipients;
