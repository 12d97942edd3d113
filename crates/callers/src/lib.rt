//! Callers of the crates of this repository, as a user writes them: what they show is that each
//! public surface can be reached, and that its contracts are of use.
#![tactic(auto)]

pub mod asking;
pub mod checking;
pub mod choosing;
pub mod gatings;
pub mod heading;
pub mod heads;
pub mod items;
pub mod judging;
pub mod keeping;
pub mod relaying;
pub mod roads;
pub mod ruling;
pub mod signing;
pub mod tagged;
pub mod tally;
pub mod twice;
pub mod watched;
