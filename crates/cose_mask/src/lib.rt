//! A copy of bytes in which some are blank, so that it says nothing of them.
#![tactic(auto)]

mod mask;

pub use crate::mask::{Blank, masked, says_nothing};
