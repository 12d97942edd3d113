//! Items of many levels: reading and writing them are loops, so that they need no stack. A test
//! reads one item, since unproved and with its checks that takes twenty seconds, and a test has 60.
use cbor_diag::{Fault, NotWritten, Page, Style, Why, item_len, write_item};
use std::alloc::{AllocError, Global};
use std::process::Abort;
use std::test::Fail;

/// How many levels are read.
const LEVELS: usize = 1_000_000;

/// How many levels are written. A call for each of them would need more than a stack of 8 MiB
/// holds.
const WRITTEN: usize = 200_000;

/// The beginnings of levels, so many times, and a byte after them.
fn nested(alloc: Global, levels: &[u8], times: usize, last: u8) -> Result<Vec<u8>, AllocError> {
    let mut bytes = Vec::new(alloc);
    for _ in 0..times {
        bytes.extend_from_slice(levels)?;
    }
    bytes.push(last)?;
    Ok(bytes)
}

/// These levels, so many times, with an integer inside the last one, are one item.
fn are_read(rt: &impl Abort, alloc: Global, levels: &[u8], times: usize) -> Result<(), Fail> {
    let bytes = nested(alloc, levels, times, 0)?;
    assert_eq!(rt; bytes.len(), LEVELS + 1);
    assert_eq!(rt; item_len(alloc, &bytes), Ok(LEVELS + 1));
    Ok(())
}

/// These levels, so many times, are read up to a byte that begins no item.
fn are_passed(rt: &impl Abort, alloc: Global, levels: &[u8], times: usize) -> Result<(), Fail> {
    let bytes = nested(alloc, levels, times, 0x1c)?;
    let fault = Fault {
        why: Why::NoHead,
        at: LEVELS,
    };
    assert_eq!(rt; item_len(alloc, &bytes), Err(fault));
    Ok(())
}

/// Arrays of one item and tags in turn.
#[test]
fn a_million_levels(rt: HostRuntime) -> Result<(), Fail> {
    are_read(&rt, rt.alloc(), &[0x81, 0xc1], LEVELS / 2)
}

/// Open arrays, open maps, maps and arrays in turn, each first in the one around it.
#[test]
fn a_million_open_levels(rt: HostRuntime) -> Result<(), Fail> {
    let levels = [0x9f, 0xbf, 0xa1, 0x81];
    are_passed(&rt, rt.alloc(), &levels, LEVELS / 4)
}

#[test]
fn a_million_open_byte_strings(rt: HostRuntime) -> Result<(), Fail> {
    are_passed(&rt, rt.alloc(), &[0x5f], LEVELS)
}

#[test]
fn a_million_open_texts(rt: HostRuntime) -> Result<(), Fail> {
    are_passed(&rt, rt.alloc(), &[0x7f], LEVELS)
}

/// Writes the notation of these levels, so many times, and returns what `write_item` returned.
fn are_written(
    rt: &impl Abort,
    alloc: Global,
    levels: &[u8],
    times: usize,
) -> Result<Result<usize, NotWritten>, Fail> {
    let bytes = nested(alloc, levels, times, 0)?;
    assert_eq!(rt; bytes.len(), WRITTEN + 1);
    let mut text = String::new(alloc);
    let answer = write_item(alloc, &bytes, Style::full(), 0, &mut Page::new(&mut text));
    assert!(rt; text.len() > WRITTEN);
    assert!(rt; text.len() < 5 * WRITTEN);
    Ok(answer)
}

#[test]
fn many_levels_are_written(rt: HostRuntime) -> Result<(), Fail> {
    let answer = are_written(&rt, rt.alloc(), &[0x81, 0xc1], WRITTEN / 2)?;
    assert_eq!(rt; answer, Ok(WRITTEN + 1));
    // maps that are each the key of the one around it: after the integer a value would follow
    let answer = are_written(&rt, rt.alloc(), &[0xa1], WRITTEN)?;
    let cut = Fault {
        why: Why::Cut,
        at: WRITTEN + 1,
    };
    assert_eq!(rt; answer, Err(NotWritten::Fault(cut)));
    Ok(())
}
