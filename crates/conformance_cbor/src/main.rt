//! `conformance_cbor`: reads rows from standard input, each a call with its arguments and the
//! answer that is due, as `item 256 1818 -> 1818 taken 2`, and prints each row whose answer is
//! another, and how many rows there were.
#![tactic(auto)]

mod accessors;
mod calls;
mod heads;
mod items;
mod labels;
mod notation;
mod orders;
mod pieces;
mod registries;
mod shown;
mod typed;
mod values;

use std::io;
use test_tools::rows;

fn main(rt: HostRuntime) -> io::Result<()> {
    rows::run(&rt, calls::answer)
}
