//! How many seconds it takes to check a COSE_Mac0 by `stream_check`, how many to hash what its tag
//! covers, and the first number divided by the second. The payload is never held in memory.
use crate::FAILED;
use crate::message::{checked, new_buffer, tag};
use coset_keys::CoseKeySet;
use coset_labels::CborSerializable;
use std::io;
use std::time::{Duration, Instant};

/// A set of one symmetric key with the secret 00.
const KEYS: &[u8] = b"\x81\xa2\x01\x04\x20\x41\x00";

/// Times both for a payload of so many bytes, and returns the status.
pub fn measure(rt: &HostRuntime, size: usize) -> io::Result<u8> {
    let Ok(keys) = CoseKeySet::from_slice(rt.alloc(), KEYS) else {
        return Ok(FAILED);
    };
    let mut buffer = new_buffer(rt.alloc())?;
    let start = Instant::now(rt)?;
    let tag = tag(&mut buffer, size);
    let hashing = start.elapsed(rt)?;
    let Ok(tag) = tag else {
        return Ok(FAILED);
    };
    let start = Instant::now(rt)?;
    let answer = checked(rt.alloc(), &keys, &mut buffer, size, &tag);
    let checking = start.elapsed(rt)?;
    if answer != Ok(true) {
        return Ok(FAILED);
    }
    print(rt, hashing, checking)
}

fn print(rt: &HostRuntime, hashing: Duration, checking: Duration) -> io::Result<u8> {
    println!(rt; "hashing {:.6} s", hashing.as_secs_f64())?;
    println!(rt; "checking {:.6} s", checking.as_secs_f64())?;
    println!(rt; "quotient {:.4}", checking.div_duration_f64(hashing))?;
    Ok(0)
}
