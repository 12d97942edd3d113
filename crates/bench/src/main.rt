//! `bench`: prints how many seconds decoding and writing of a CBOR document take, or the check of
//! one large message.
#![tactic(auto)]

mod cbor;
mod gate;
mod message;

use crate::cbor::Task;
use std::env;
use std::io::{self, Write};
use std::process::ExitCode;

const USAGE: &str = "\
usage: bench cbor decode|encode FILE ROUNDS
       bench gate BYTES
";

/// The status if the arguments are not those of the usage.
const MISUSED: u8 = 2;

/// The status if a file can't be read or decoded, the message does not pass, or memory, the clock
/// or an output fails.
pub const FAILED: u8 = 1;

fn main(rt: HostRuntime) -> ExitCode {
    match run(&rt) {
        Ok(status) => ExitCode::from(status),
        Err(_) => ExitCode::from(FAILED),
    }
}

/// Does what the arguments say, and returns the status.
fn run(rt: &HostRuntime) -> io::Result<u8> {
    let all = env::args(rt)?.skip(1).collect::<Vec<String>>(rt.alloc())?;
    match all.as_slice() {
        [what, how, path, rounds] if what.as_str() == "cbor" => {
            match (Task::named(how.as_str()), rounds.as_str().parse::<u32>()) {
                (Some(task), Ok(rounds)) => cbor::run(rt, task, path.as_str(), rounds),
                _ => misused(rt),
            }
        }
        [what, size] if what.as_str() == "gate" => match size.as_str().parse::<usize>() {
            Ok(size) => gate::measure(rt, size),
            Err(_) => misused(rt),
        },
        _ => misused(rt),
    }
}

fn misused(rt: &HostRuntime) -> io::Result<u8> {
    rt.stderr().write_all(USAGE.as_bytes())?;
    Ok(MISUSED)
}
