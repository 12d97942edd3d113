//! `conformance_gate`: reads rows of a call and its answer from standard input, and prints each row
//! whose call returns otherwise, and how many rows there were. README.md beside src/ says which
//! calls there are.
#![tactic(auto)]

mod asking;
mod buffers;
mod calls;
mod checking;
mod cutting;
mod gating;
mod heads;
mod items;
mod judging;
mod keeping;
mod program;
mod relaying;
mod showing;
mod signing;
mod streaming;
mod uses;
mod words;

use std::io;
use test_tools as out;

fn main(rt: HostRuntime) -> io::Result<()> {
    out::rows::run(&rt, calls::answer)
}
