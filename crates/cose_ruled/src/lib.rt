//! A judge of the gate by rules and a check of signatures (RFC 9052, sections 3, 3.1, 4.4, 6.3 and
//! 7.1), and which signatures of which tokens are to be checked (RFC 8392).
#![tactic(auto)]

mod about;
mod asker;
mod beside;
mod judge;
pub mod laws;
mod questions;
mod ruling;
mod running;
mod token;
mod told;

pub use crate::asker::RuledAsker;
pub use crate::judge::RuledJudge;
pub use crate::running::{Rules, ask_ruled};
pub use cose_rules::{Audience, HeaderFault, KeyFault, Refusal, TokenTerms, Verify};
