//! How a program starts and ends.
ghost use Rattle.std.specs.Prelude.{◌≡◌, [], None, Some, IfErr, IfOk, MatchResult, drop, map};
ghost use Rattle.std.specs.Prelude.{option_copied, string_bytes};
ghost use Rattle.std.specs.Io.Buffered.{reader_buffer, reader_inner};
ghost use Rattle.std.specs.IoError.{error_kind};
ghost use Rattle.std.specs.Vec.Iter.{into_iter_items};
ghost use Rattle.cose_gate_program.specs.OutOfBlocks.{out_blocks_failures, out_blocks_held};
ghost use Rattle.cose_gate_program.specs.OutOfBlocks.{out_blocks_writer};
ghost use Rattle.cose_gate_program.specs.Writing.{Wrote};
ghost use Rattle.cose_gate_command.specs.Asking.{SentText, status_of};
ghost use Rattle.cose_gate_command.specs.Starting as spec;
ghost use Rattle.cose_gate_command.specs.Starting.{NoContentFor, why_line, why_no_words};
ghost use Rattle.cose_gate_command.specs.Usage.{lines_of};

use crate::not_run::NotRun;
use crate::usage::{Usage, say_wrong};
use ciborium_ll::Write;
use cose_gate_program::{OutBlocks, has_stack, write_number};
use std::alloc::{AllocError, Global};
use std::io::BufReader;
use std::{env, io};

/// Bytes are read and written in blocks of this length, and lines too.
const BLOCK: usize = 65536;

/// The arguments after the program's name.
///
/// # Errors
/// `Usage` if one isn't UTF-8, and `Memory`, also if there is no stack for a run.
pub fn words_of(alloc: Global, all: io::Result<env::Args>) -> Result<Vec<String>, NotRun>
    ensures { MatchResult all
        (λ given. MatchResult result (λ words. words.items ≡ drop 1 (into_iter_items given))
        (λ why. why ≡ NotRun.Memory))
        (λ e. result ≡ Err (why_no_words (error_kind e))) }
{
    match all {
        Ok(all) => match words_after_first(alloc, all) {
            Ok(words) if has_stack(words.len()) => Ok(words),
            Ok(_) | Err(_) => Err(NotRun::Memory),
        },
        Err(error) => Err(match error.kind() {
            io::ErrorKind::OutOfMemory => NotRun::Memory,
            _ => NotRun::Usage,
        }),
    }
}

fn words_after_first(alloc: Global, all: env::Args) -> Result<Vec<String>, AllocError>
    ensures { IfOk result (λ words. words.items ≡ drop 1 (into_iter_items all)) }
{
    all.skip(1).collect(alloc)
}

/// The page that the first argument before `--` asks for that asks for one: the help, or the
/// version. A file with such a name is `./-h`.
pub fn page_for<'a>(words: &[String], help: &'a str, version: &'a str) -> Option<&'a str>
    ensures { option_copied result
        ≡ spec.page_for help.now version.now (map string_bytes words.now) }
{
    let mut rest = words;
    while let Some((word, after)) = rest.split_first() {
        if word.as_str() == "--" {
            return None;
        }
        if let Some(page) = page_of(word.as_str(), help, version) {
            return Some(page);
        }
        rest = after;
    }
    None
}

/// The page that one argument asks for.
fn page_of<'a>(word: &str, help: &'a str, version: &'a str) -> Option<&'a str>
    ensures { option_copied result ≡ spec.page_of help.now version.now word.now }
{
    match word {
        "-h" | "--help" => Some(help),
        "--version" => Some(version),
        _ => None,
    }
}

/// A reader in blocks.
///
/// # Errors
/// `Memory`.
pub fn read_in_blocks<R: io::Read + Drop>(alloc: Global, reader: R) -> Result<BufReader<R>, NotRun>
    ensures reader { IfOk result (λ input. reader_inner input ≡ reader) }
    ensures block { IfOk result (λ input. reader_buffer input ≡ []) }
    ensures err { IfErr result (λ why. why ≡ NotRun.Memory) }
{
    match BufReader::with_capacity(alloc, BLOCK, reader) {
        Ok(reader) => Ok(reader),
        Err(_) => Err(NotRun::Memory),
    }
}

/// A writer in blocks, which tells what it holds back.
///
/// # Errors
/// `Memory`.
pub fn write_in_blocks<W: io::Write + Drop>(
    alloc: Global,
    writer: W,
) -> Result<OutBlocks<W>, NotRun>
    ensures writer { IfOk result (λ out. out_blocks_writer out ≡ writer) }
    ensures held { IfOk result (λ out. out_blocks_held out ≡ []) }
    ensures failed { IfOk result (λ out. out_blocks_failures out ≡ 0) }
    ensures err { IfErr result (λ why. why ≡ NotRun.Memory) }
{
    match Vec::with_capacity(alloc, BLOCK) {
        Ok(block) => Ok(OutBlocks::new(block, writer)),
        Err(_) => Err(NotRun::Memory),
    }
}

/// Writes a page, and returns the status.
///
/// # Errors
/// `Output`.
pub fn write_page<W: Write>(page: &str, out: &mut W) -> Result<u8, NotRun>
    ensures sent { SentText W.Write out.old out.new result page.now }
    ensures status { IfOk result (λ status. status ≡ 0) }
    ensures err { IfErr result (λ why. why ≡ NotRun.Output) }
{
    match out.write_all(page.as_bytes()) {
        Ok(()) => Ok(0),
        Err(_) => Err(NotRun::Output),
    }
}

/// The status of a program that ended so. Why it didn't run is told in a line, or in those of wrong
/// arguments.
pub fn ended<E: Write>(end: Result<u8, NotRun>, usage: Usage<'_>, err: &mut E) -> u8
    ensures status { MatchResult end (λ status. result ≡ status) (λ why. result ≡ status_of why) }
    ensures said { MatchResult end (λ _. err.new ≡ err.old)
        (λ why. Wrote E.Write err.old err.new (why_line (lines_of usage.entry) why)) }
{
    match end {
        Ok(status) => status,
        Err(why) => {
            write_why(why, usage, err);
            why.status()
        }
    }
}

/// Writes why a program didn't run.
fn write_why<E: Write>(why: NotRun, usage: Usage<'_>, err: &mut E)
    ensures { Wrote E.Write err.old err.new (why_line (lines_of usage.entry) why) }
{
    match why {
        NotRun::Usage => say_wrong(usage, err),
        NotRun::NotHex => write("aad: not hex\n", err),
        NotRun::NoFile => write("accepted: cannot be read\n", err),
        NotRun::NoRecords => write("accepted: no records\n", err),
        NotRun::NoDigests => write("accepted: no digests\n", err),
        NotRun::LineNotHex(number) => write_line_fault(number, ": not hex\n", err),
        NotRun::LineNoRecord(number) => write_line_fault(number, ": no record\n", err),
        NotRun::Memory => write("stopped: memory\n", err),
        NotRun::Output => write("stopped: write\n", err),
    }
}

/// Writes what is wrong with a line of ACCEPTED.
fn write_line_fault<E: Write>(number: u64, fault: &str, err: &mut E)
    ensures { Wrote E.Write err.old err.new (spec.line_fault number fault.now) }
{
    write("accepted: line ", err);
    write_number(number as usize, err);
    write(fault, err);
}

/// Writes a text.
pub(crate) fn write<E: Write>(text: &str, err: &mut E)
    ensures { Wrote E.Write err.old err.new text.now }
{
    let _ = err.write_all(text.as_bytes());
}

/// A fault of a file, in words.
pub(crate) fn file_fault(kind: io::ErrorKind) -> &'static str
    ensures { result.now ≡ spec.file_fault kind }
{
    match kind {
        io::ErrorKind::NotFound => "no such file",
        io::ErrorKind::PermissionDenied => "no permission",
        io::ErrorKind::IsADirectory => "a folder",
        _ => "it can't be read",
    }
}

/// What a file holds.
#[derive(Debug, PartialEq, Eq, Drop)]
pub struct Content {
    /// Its bytes; none if it can't be read.
    pub bytes: Option<Vec<u8>>,
    /// Why it can't be read, if it can't.
    pub fault: &'static str,
}

impl Content {
    /// What reading a file gave.
    ///
    /// # Errors
    /// `Memory`.
    pub fn of_file(read: io::Result<Vec<u8>>) -> Result<Content, NotRun>
        ensures { MatchResult read
            (λ bytes. MatchResult result (λ content. content.bytes ≡ Some bytes) (λ why. ⊥))
            (λ e. NoContentFor (error_kind e) result) }
    {
        match read {
            Ok(bytes) => Ok(Content {
                bytes: Some(bytes),
                fault: "",
            }),
            Err(error) => match error.kind() {
                io::ErrorKind::OutOfMemory => Err(NotRun::Memory),
                kind => Ok(Content::none(file_fault(kind))),
            },
        }
    }

    /// None, and why.
    pub fn none(fault: &'static str) -> Content
        ensures bytes { result.bytes ≡ None }
        ensures fault { result.fault.now ≡ fault.now }
    {
        Content { bytes: None, fault }
    }
}
