//! What `cose-show` shows of a CBOR sequence, item by item, as text or as JSON, and where it may be
//! cut into pieces of whole items.
#![tactic(auto)]

mod asking;
mod cut;
mod decoding;
mod gated;
mod lines;
mod looks;
mod object;
mod printer;
mod said;
mod shape;
mod show;
mod source;
mod telling;
mod verdict;
mod words;

pub use crate::cut::{Cutter, Share};
pub use crate::printer::Printer;
pub use crate::show::show_as;
pub use crate::telling::{write_stop, write_wrong};
pub use crate::words::{Cut, Encoding, Options, Words, Wrong, read_words};
pub use cbor_diag::Page;
pub use cose_reasons::Stop;
