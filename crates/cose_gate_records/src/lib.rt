//! Judges whose answers come from elsewhere: one that tells each question as a record, and two that
//! say yes to the questions whose records, or digests, they were handed. And the gate over buffers
//! that the caller owns: four calls, which `cose_gate_c` exports to C.
#![tactic(auto)]

mod accepted;
mod answer;
mod asker;
mod asking;
mod checking;
mod choice;
mod digest;
mod digested;
mod framing;
mod front;
mod growing;
mod headers;
mod held;
pub mod laws;
mod lines;
mod nowhere;
mod ordered;
mod passing;
mod placing;
mod running;
mod tally;
mod text;
mod verifier;
mod verifying;

pub use crate::accepted::Accepted;
pub use crate::answer::{Answer, no_limits};
pub use crate::asker::Asker;
pub use crate::asking::ask;
pub use crate::checking::check;
pub use crate::choice::Choice;
pub use crate::digested::Digested;
pub use crate::framing::{append, eight, split_first, split_number};
pub use crate::growing::Growing;
pub use crate::headers::{has_algorithm, has_known_crit, key_id, key_layer};
pub use crate::held::Held;
pub use crate::lines::{Lines, stop_for_memory};
pub use crate::nowhere::Nowhere;
pub use crate::passing::{pass, pass_digests};
pub use crate::placing::{place, place_none};
pub use crate::running::{Ended, RunTerms};
pub use crate::text::{logged, logged_record};
pub use crate::verifier::Verifier;
pub use crate::verifying::VerifierJudge;
