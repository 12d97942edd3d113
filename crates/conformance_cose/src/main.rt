//! `conformance_cose`: reads rows from standard input, each a call with its arguments and the
//! answer that is due, as `header a10126 -> a10126`. It prints each row whose answer is another,
//! and last how many rows there were and how many differ.
#![tactic(auto)]

mod calls;
mod errors;
mod exact;
mod items;
mod keys;
mod limits;
mod messages;
mod parts;
mod protected;
mod received;
mod rules;
mod structures;
mod tags;
mod widest;

use std::io;
use test_tools::rows;

fn main(rt: HostRuntime) -> io::Result<()> {
    rows::run(&rt, calls::answer)
}
