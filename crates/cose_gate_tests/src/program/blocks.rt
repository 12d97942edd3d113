//! A reader of std in blocks: what is read is the same as without blocks, whatever a block holds.
use crate::messages::{KEYS, TAGGED};
use cose_gate::{Blocks, InputFault, Mem, Read, Write, run};
use cose_gate_program::OutBlocks;
use std::alloc::Global;
use std::io;
use std::io::{BufReader, BufWriter};
use std::process::Abort;
use test_tools::OneByOne;

/// How many bytes each read asks for, and what it gives: its last byte, or its fault.
type Row = (usize, Result<u8, InputFault>);

/// Over the bytes 1 to 9 in blocks of 4: inside a block, over its end, a whole one, more than are
/// left, and at the end.
const ENDS: [Row; 6] = [
    (1, Ok(1)),
    (3, Ok(4)),
    (3, Ok(7)),
    (0, Ok(0)),
    (4, Err(InputFault::End)),
    (1, Err(InputFault::End)),
];

/// Over the bytes 1 to 3 and a failure.
const FAILS: [Row; 4] = [
    (2, Ok(2)),
    (1, Ok(3)),
    (1, Err(InputFault::Failed)),
    (2, Err(InputFault::Failed)),
];

/// What a read of so many bytes gives; 0 is the last byte of none.
fn last_read<R: io::Read>(blocks: &mut Blocks<R>, len: usize) -> Result<u8, InputFault> {
    let mut data = [0; 4];
    let part = &mut data[..len.min(4)];
    blocks.read_exact(part)?;
    match part.last() {
        Some(byte) => Ok(*byte),
        None => Ok(0),
    }
}

/// Each read of the rows gives what is there.
fn all_so<R: io::Read + Drop>(rt: &impl Abort, alloc: Global, reader: R, rows: &[Row]) {
    let buffered = BufReader::with_capacity(alloc, 4, reader).expect(rt, "no memory");
    let mut blocks = Blocks::new(buffered);
    for row in rows {
        assert!(rt; last_read(&mut blocks, row.0) == row.1);
    }
}

#[test]
fn reads_over_blocks_ends_and_faults(rt: HostRuntime) {
    let bytes: &[u8] = &[1, 2, 3, 4, 5, 6, 7, 8, 9];
    all_so(&rt, rt.alloc(), bytes, &ENDS);
    let reader = OneByOne {
        bytes: &[1, 2, 3],
        is_broken: true,
    };
    all_so(&rt, rt.alloc(), reader, &FAILS);
}

#[test]
fn a_program_reads_in_blocks(rt: HostRuntime) {
    let alloc = rt.alloc();
    let input = BufReader::with_capacity(alloc, 16, TAGGED).expect(&rt, "no fault");
    let mut blocks = Blocks::new(input);
    let mut out = Mem::new(Vec::new(alloc));
    let mut err = Mem::new(Vec::new(alloc));
    assert_eq!(rt;
        run(alloc, Some(KEYS), None, &mut blocks, &mut out, &mut err),
        1
    );
    assert!(rt; out.as_written().is_empty());
}

#[test]
fn a_flush_reaches_the_writer(rt: HostRuntime) {
    let alloc = rt.alloc();
    let block = Vec::with_capacity(alloc, 16).expect(&rt, "memory");
    let mut room = [0; 2];
    let mut out = OutBlocks::new(block, room.as_mut_slice());
    assert!(rt; out.write_all(b"abc").is_ok());
    assert!(rt; out.flush().is_err());
}

#[test]
fn a_flush_goes_through_both_blocks(rt: HostRuntime) {
    let alloc = rt.alloc();
    let block = Vec::with_capacity(alloc, 16).expect(&rt, "memory");
    let mut room = [0; 2];
    let blocks = BufWriter::with_capacity(alloc, 16, room.as_mut_slice());
    let mut out = OutBlocks::new(block, blocks.expect(&rt, "memory"));
    assert!(rt; out.write_all(b"abc").is_ok());
    assert!(rt; out.flush().is_err());
}

#[test]
fn what_follows_a_full_block_is_held(rt: HostRuntime) {
    let alloc = rt.alloc();
    let block = Vec::with_capacity(alloc, 4).expect(&rt, "memory");
    let mut room = [0; 3];
    let mut out = OutBlocks::new(block, room.as_mut_slice());
    assert!(rt; out.write_all(b"abc").is_ok());
    assert!(rt; out.write_all(b"de").is_ok());
    assert!(rt; out.flush().is_err());
}
