//! The program `cose-gate KEYS [AADHEX]` over any reader and writers: arguments, and a run of the
//! gate with the judge by HMAC, or with any other. The judge says which tags of a COSE_Mac0 are
//! good, with SHA-256 and under the key of a set that fits the message (RFC 9052, sections 6.2, 6.3
//! and 7). A user names `cose_gate`, which passes it on.
#![tactic(auto)]

mod arguments;
mod beginning;
mod blocks;
mod devices;
mod index;
mod judge;
mod keys;
mod lines;
mod macs;
mod out_blocks;
mod prepared;
mod program;
mod stack;
mod telling;
mod verdict;

pub use crate::arguments::words;
pub use crate::beginning::{Beginning, NotBegun, begin};
pub use crate::blocks::Blocks;
pub use crate::devices::{Input, InputFault, OutputFault};
pub use crate::judge::HmacJudge;
pub use crate::keys::{find_key, fits, secret_of};
pub use crate::lines::{hand_on, write_logged, write_notice, write_number};
pub use crate::out_blocks::OutBlocks;
pub use crate::program::{
    last_of, run, run_judged, run_over, run_over_told, run_told, run_with, status_after,
};
pub use crate::stack::has_stack;
pub use crate::telling::{Notice, Teller};
pub use crate::verdict::{alg_is_hmac, is_good_tag, secret_for};
pub use cose_gate_core::{GateFault, Limits, Terms};
pub use coset_keys::CoseKeySet;
