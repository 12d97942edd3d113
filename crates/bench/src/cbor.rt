//! How many seconds a CBOR document takes to be decoded as one value, or that value to be written.
use crate::FAILED;
use ciborium::de::{RECURSION_LIMIT, from_decoder};
use ciborium::{Decoder, Mem, Value, into_writer};
use std::time::Instant;
use std::{fs, io};

/// What is measured.
#[derive(Debug, Clone, Copy, PartialEq, Eq)]
pub enum Task {
    Decode,
    Encode,
}

impl Task {
    /// The task with this name.
    pub fn named(name: &str) -> Option<Task> {
        match name {
            "decode" => Some(Task::Decode),
            "encode" => Some(Task::Encode),
            _ => None,
        }
    }
}

/// Does the task so many times with the document in this file, and returns the status.
pub fn run(rt: &HostRuntime, task: Task, path: &str, rounds: u32) -> io::Result<u8> {
    let bytes = fs::read(rt, path)?;
    match task {
        Task::Decode => decode(rt, &bytes, rounds),
        Task::Encode => encode(rt, &bytes, rounds),
    }
}

/// Decodes the document so many times.
fn decode(rt: &HostRuntime, bytes: &[u8], rounds: u32) -> io::Result<u8> {
    for _ in 0..rounds {
        let mut decoder = Decoder::from(bytes);
        let start = Instant::now(rt)?;
        let read = from_decoder(rt.alloc(), &mut decoder, RECURSION_LIMIT);
        print_seconds(rt, start)?;
        if let Err(e) = read {
            eprintln!(rt; "{e:?}")?;
            return Ok(FAILED);
        }
    }
    Ok(0)
}

/// Decodes the document once and writes it so many times. What is written has to be the document:
/// the first output is compared with it.
fn encode(rt: &HostRuntime, bytes: &[u8], rounds: u32) -> io::Result<u8> {
    let mut decoder = Decoder::from(bytes);
    let Ok(value) = from_decoder(rt.alloc(), &mut decoder, RECURSION_LIMIT) else {
        return Ok(FAILED);
    };
    if !is_written_as(rt, &value, bytes) {
        return Ok(FAILED);
    }
    for _ in 0..rounds {
        let mut text = Mem::new(Vec::new(rt.alloc()));
        let start = Instant::now(rt)?;
        let written = into_writer(&value, &mut text);
        print_seconds(rt, start)?;
        if written.is_err() {
            return Ok(FAILED);
        }
    }
    Ok(0)
}

/// Whether the value is written as these bytes.
fn is_written_as(rt: &HostRuntime, value: &Value, bytes: &[u8]) -> bool {
    let mut text = Mem::new(Vec::new(rt.alloc()));
    into_writer(value, &mut text).is_ok() && text.as_written() == bytes
}

/// Prints the seconds since the start on a line of their own.
fn print_seconds(rt: &HostRuntime, start: Instant) -> io::Result<()> {
    let elapsed = start.elapsed(rt)?;
    println!(rt; "{}.{:06}", elapsed.as_secs(), elapsed.subsec_micros())
}
