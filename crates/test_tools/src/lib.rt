//! What tests and the programs that read rows share: rows and their answers, readers and writers
//! that fail in mid-stream, a reader of std that gives one byte a call, and a reader of a message
//! that isn't held in memory.
#![tactic(auto)]

mod devices;
mod long;
mod out;
pub mod rows;

pub use crate::devices::{Broken, OneByOne, Sink, Source};
pub use crate::long::LongMessage;
pub use crate::out::{NoAnswer, Out};
