//! The command line `cose-gate --stream`: one message is checked as it comes, and its payload
//! written.
#![tactic(auto)]

mod arguments;
mod folder;
mod putting;
mod stop;
mod streaming;
mod telling;
mod under;
mod usage;

pub use crate::arguments::{StreamArguments, stream_arguments};
pub use crate::folder::Folder;
pub use crate::putting::{StreamEnd, stream_into};
pub use crate::stop::{StreamRefusal, StreamStop};
pub use crate::streaming::{StreamTerms, stream};
pub use crate::telling::{EndTeller, end_status, tell_end};
pub use crate::under::{NoFile, NotMade, Under};
pub use crate::usage::end_wrong;
