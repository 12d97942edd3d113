//! The file of the records that were accepted.
ghost use Rattle.std.specs.Prelude.{◌≡◌, ◌⊎◌, ◌++◌, ◌∷◌, ◌<◌, ◌≤◌, ◌-◌, ℕ, List, true, false};
ghost use Rattle.std.specs.Prelude.{length, drop, get_or, Ok};
ghost use Rattle.std.specs.Prelude.{MatchOption, MatchResult, OnOk, IfErr, IfOk};
ghost use Rattle.std.specs.List.{list_all};
ghost use Rattle.hex.specs.Hex.{decode_of};
ghost use Rattle.cose_gate_command.specs.Accepted as spec;
ghost use Rattle.cose_gate_command.specs.Accepted.{HasLines, HasNoLines, HasRecord, IsRecord};
ghost use Rattle.cose_gate_command.specs.Accepted.{IsBad, IsBadField, IsLastField};
ghost use Rattle.cose_gate_command.specs.Passing.{AcceptsNot, IsAccepted, is_binary};
ghost use Rattle.cose_gate_command.specs.declared.not_run.NotRun.TheVariants as unrun;

use crate::not_run::NotRun;
use crate::question::read_question;
use hex::FromHexError;
use std::alloc::Global;

/// The records in the bytes of a file, which has them binary or as lines of text.
///
/// The file is binary if its eighth byte is 0: it is the highest byte of the length of the first
/// record, which is below 2^56, and no text has it. Else each line that isn't blank has one record
/// as its last field, in hex; spaces and tabs separate fields.
///
/// Binary bytes are returned as they are: whether they are records is left to the judge.
///
/// # Errors
/// `LineNotHex` or `LineNoRecord` with the number of the first bad line, and `Memory`.
pub fn read_accepted(alloc: Global, bytes: Vec<u8>) -> Result<Vec<u8>, NotRun>
    ensures { MatchResult result (λ records. IsAccepted bytes.items records.items)
        (λ why. AcceptsNot bytes.items why) }
{
    if is_binary(&bytes) {
        return Ok(bytes);
    }
    read_lines(alloc, &bytes)
}

/// Whether a file is binary.
fn is_binary(bytes: &[u8]) -> bool
    ensures { result ≡ is_binary bytes.now }
{
    matches!(bytes.get(7), Some(0))
}

/// The records of the lines of a text.
fn read_lines(alloc: Global, bytes: &[u8]) -> Result<Vec<u8>, NotRun>
    ensures { MatchResult result (λ records. HasLines bytes.now records.items)
        (HasNoLines bytes.now) }
{
    let mut records = Vec::new(alloc);
    let mut rest = bytes;
    let mut number = 1;
    while let Some((line, after)) = split_line(rest) {
        add_line(alloc, line, number, &mut records)?;
        rest = after;
        number += 1;
    }
    add_line(alloc, rest, number, &mut records)?;
    Ok(records)
}

/// The first line, and what is after its line feed; `None` if there is no line feed.
fn split_line(bytes: &[u8]) -> Option<(&[u8], &[u8])>
    ensures { MatchOption result (spec.is_one_line bytes.now ≡ true)
        (λ r. (bytes.now ≡ r.0.now ++ 10 ∷ r.1.now) × (spec.is_one_line r.0.now ≡ true)) }
{
    for at in 0..bytes.len() {
        if bytes[at] == b'\n' {
            return Some((&bytes[..at], &bytes[at + 1..]));
        }
    }
    None
}

/// Adds the record of a line.
fn add_line(alloc: Global, line: &[u8], number: u64, records: &mut Vec<u8>) -> Result<(), NotRun>
    ensures ok { OnOk result ((bytes : List ℕ) × HasRecord line.now bytes
        × (records.new.items ≡ records.old.items ++ bytes)) }
    ensures err { IfErr result (λ why. IsBad why number line.now) }
{
    let field = last_field(line);
    if field.is_empty() {
        return Ok(());
    }
    let record = read_record(alloc, field, number)?;
    match records.extend_from_slice(&record) {
        Ok(()) => Ok(()),
        Err(_) => Err(NotRun::Memory),
    }
}

/// The last field of a line.
fn last_field(line: &[u8]) -> &[u8]
    ensures { IsLastField line.now result.now }
{
    let end = black_end(line);
    let line = &line[..end];
    &line[field_start(line)..]
}

/// Where the blanks at the end of a line begin.
fn black_end(line: &[u8]) -> usize
    ensures within { result ≤ length line.now }
    ensures back { list_all spec.is_blank (drop result line.now) ≡ true }
    ensures black { 0 < result → spec.is_blank (get_or line.now (result - 1) 0) ≡ false }
{
    let mut end = line.len();
    while 0 < end {
        if !is_blank(line[end - 1]) {
            return end;
        }
        end -= 1;
    }
    0
}

/// Where the last field begins of a line that has no blank at its end.
fn field_start(line: &[u8]) -> usize
    ensures within { result ≤ length line.now }
    ensures field { list_all spec.is_black (drop result line.now) ≡ true }
    ensures blank { 0 < result → spec.is_blank (get_or line.now (result - 1) 0) ≡ true }
{
    let mut start = line.len();
    while 0 < start {
        if is_blank(line[start - 1]) {
            return start;
        }
        start -= 1;
    }
    0
}

/// Whether it separates fields: a space, a tab or a carriage return.
fn is_blank(byte: u8) -> bool
    ensures { result ≡ spec.is_blank byte }
{
    matches!(byte, b' ' | b'\t' | b'\r')
}

/// The record that the field of this line encodes in hex.
fn read_record(alloc: Global, field: &[u8], line: u64) -> Result<Vec<u8>, NotRun>
    ensures ok { IfOk result (λ r. (decode_of field.now ≡ Ok r.items) × IsRecord r.items) }
    ensures err { IfErr result (λ why. (why ≡ unrun.Memory) ⊎ IsBadField why line field.now) }
{
    let record = match hex::decode(alloc, field) {
        Ok(record) => record,
        Err(FromHexError::OutOfMemory) => return Err(NotRun::Memory),
        Err(_) => return Err(NotRun::LineNotHex(line)),
    };
    match read_question(&record) {
        Some(_) => Ok(record),
        None => Err(NotRun::LineNoRecord(line)),
    }
}

#[cfg(test)]
mod tests {
    use super::*;

    #[test]
    fn files_that_are_not_records(rt: HostRuntime) {
        let alloc = rt.alloc();
        for (file, fault) in [
            (b"00".as_slice(), NotRun::LineNoRecord(1)),
            (b"\n \t\r\nSign1 - -".as_slice(), NotRun::LineNotHex(3)),
            (b"\nSign1 0011 \n00".as_slice(), NotRun::LineNoRecord(2)),
            (b"001\n".as_slice(), NotRun::LineNotHex(1)),
        ] {
            let mut bytes = Vec::new(alloc);
            bytes.extend_from_slice(file).expect(&rt, "memory");
            let read = read_accepted(alloc, bytes);
            assert_eq!(rt; read.err(), Some(fault));
        }
    }

    #[test]
    fn a_field_of_a_megabyte(rt: HostRuntime) {
        let alloc = rt.alloc();
        let field = Vec::from_elem(alloc, b'0', 1048577).expect(&rt, "memory");
        let read = read_accepted(alloc, field);
        assert_eq!(rt; read.err(), Some(NotRun::LineNotHex(1)));
    }

    #[test]
    fn files_without_lines(rt: HostRuntime) {
        let alloc = rt.alloc();
        for (file, count) in [
            (b"".as_slice(), 0),
            (b"\n\n \r\n".as_slice(), 0),
            (b"\x02\0\0\0\0\0\0\0ab".as_slice(), 10),
        ] {
            let mut bytes = Vec::new(alloc);
            bytes.extend_from_slice(file).expect(&rt, "memory");
            let read = read_accepted(alloc, bytes).expect(&rt, "records");
            assert_eq!(rt; read.len(), count);
        }
    }
}
