//! What is said of an end.
ghost use Rattle.std.specs.Prelude.{◌≡◌, Err, true, option_copied};
ghost use Rattle.cose_stream.specs.declared.stop.StreamStop.TheVariants as stop;
ghost use Rattle.cose_gate_program.specs.Writing.{Wrote};
ghost use Rattle.cose_gate_command.specs.RunLines.{AddsReasons};
ghost use Rattle.cose_stream.specs.Lines as spec;
ghost use Rattle.cose_stream.specs.Lines.{SaysEnd};

use crate::putting::StreamEnd;
use crate::stop::{StreamRefusal, StreamStop};
use crate::under::NoFile;
use ciborium_ll::Write;
use cose_gate::{GateFault, InputFault, Notice, write_notice};
use cose_gate_command::{
    KeyFile, Note, say_fault, say_keys, say_not_begun, say_reason, visible_or, write_indented,
    write_more, write_reason,
};
use cose_gate_program::hand_on;
use std::alloc::Global;
use std::cell::RefCell;

/// What an end is told by.
#[derive(Clone, Copy)]
pub struct EndTeller<'a> {
    /// Whether more is said of a refusal and of a stop.
    pub verbose: bool,
    /// The file KEYS.
    pub file: KeyFile<'a>,
    /// The external data in hex.
    pub aad: Option<&'a str>,
    /// The name of the file for the payload.
    pub payload: Option<&'a str>,
    /// The reason of a no.
    pub note: &'a RefCell<Note>,
}

/// Writes the line of an end, and flushes it; after that of a KEYS that can't be used, or of no
/// file for the payload, one that says why, and after that of a run that has passed over parts of
/// other runs one that says so. If it is verbose, lines that begin with two blanks say more. A
/// fault of the writer is ignored.
pub fn tell_end<E: Write>(alloc: Global, ended: &StreamEnd, teller: EndTeller<'_>, err: &mut E)
    ensures { SaysEnd E.Write teller.entry.verbose teller.entry.file.fault.now
        (option_copied teller.entry.file.bytes) (option_copied teller.entry.payload)
        ended.now.end ended.now.others err.old err.new }
{
    write_end(&ended.end, err);
    if teller.verbose {
        say_why(alloc, &ended.end, teller, err);
        say_others(ended.others, teller.payload, err);
        say_keys(teller.note, err);
    } else {
        write_why(&ended.end, teller.file, teller.payload, err);
        write_others(ended.others, teller.payload, err);
    }
}

/// Writes the line of an end.
fn write_end<E: Write>(end: &Result<(), StreamStop>, err: &mut E)
    ensures { Wrote E.Write err.old err.new (spec.end_line end.now) }
{
    match end {
        Ok(()) => write("passed\n", err),
        Err(StreamStop::NotBegun(why)) => write_notice(&Notice::NotBegun(*why), err),
        Err(StreamStop::Refused(why)) => write(refused_line(*why), err),
        Err(StreamStop::Stopped(fault)) => write_stopped(fault, err),
        Err(StreamStop::NoFile(_)) => write("stopped: write\n", err),
    }
}

fn write_stopped<E: Write>(fault: &GateFault<InputFault>, err: &mut E)
    ensures { Wrote E.Write err.old err.new (spec.end_line (Err (stop.Stopped fault.now))) }
{
    let fault = match fault {
        GateFault::Decode(error) => GateFault::Decode(*error),
        GateFault::Write => GateFault::Write,
        GateFault::Memory => GateFault::Memory,
    };
    write_notice(&Notice::Stopped(fault), err);
}

/// Writes why KEYS can't be used, or why there is no file for the payload.
fn write_why<E: Write>(
    end: &Result<(), StreamStop>,
    file: KeyFile<'_>,
    payload: Option<&str>,
    err: &mut E,
)
    ensures { Wrote E.Write err.old err.new (spec.why_line file.entry.fault.now
        (option_copied file.entry.bytes) (option_copied payload.entry) end.now) }
{
    match end {
        Err(StreamStop::NotBegun(why)) => write_reason(*why, file, err),
        Err(StreamStop::NoFile(why)) => {
            write_indented(file_name(payload), no_file_text(*why), err);
        }
        Ok(()) | Err(StreamStop::Refused(_)) | Err(StreamStop::Stopped(_)) => {}
    }
}

/// Writes that parts of other runs are there, if they are, and flushes the writer.
fn write_others<E: Write>(others: u8, payload: Option<&str>, err: &mut E)
    ensures { Wrote E.Write err.old err.new
        (spec.others_line (option_copied payload.entry) others) }
{
    if others == 0 {
        hand_on(err);
        return;
    }
    write_indented(file_name(payload), OTHERS, err);
    let _ = err.flush();
}

/// What is said after the name of FILE.
const OTHERS: &str = ".part is there: another run is at it, or was killed";

/// The name of FILE in a line.
fn file_name(payload: Option<&str>) -> &str
    ensures { result.now ≡ spec.file_name (option_copied payload.entry) }
{
    match payload {
        Some(name) => visible_or("FILE", name),
        None => "FILE",
    }
}

/// Says why a run ended so.
fn say_why<E: Write>(
    alloc: Global,
    end: &Result<(), StreamStop>,
    teller: EndTeller<'_>,
    err: &mut E,
)
    ensures { AddsReasons E.Write true err.old err.new }
{
    match end {
        Ok(()) => {}
        Err(StreamStop::NotBegun(why)) => {
            say_not_begun(alloc, *why, teller.file, teller.aad, err);
        }
        Err(StreamStop::Refused(StreamRefusal::Judged)) => say_reason(teller.note, err),
        Err(StreamStop::Refused(why)) => write_more(refusal_text(*why), "", err),
        Err(StreamStop::Stopped(fault)) => say_fault(fault, teller.note, err),
        Err(StreamStop::NoFile(why)) => {
            write_more(file_name(teller.payload), no_file_text(*why), err);
        }
    }
}

/// Says that parts of other runs are there, if they are.
fn say_others<E: Write>(others: u8, payload: Option<&str>, err: &mut E)
    ensures { AddsReasons E.Write true err.old err.new }
{
    if 0 < others {
        return write_more(file_name(payload), OTHERS, err);
    }
    write_more("", "", err);
}

/// What a refusal means in which the judge has no part.
fn refusal_text(why: StreamRefusal) -> &'static str {
    match why {
        StreamRefusal::NotTagged => "no tag; a COSE_Mac0 is in tag 17",
        StreamRefusal::OtherTag => "another tag; a COSE_Mac0 is in tag 17",
        StreamRefusal::Shape => "the item isn't a message of its tag",
        StreamRefusal::Detached => "the message doesn't carry its payload",
        StreamRefusal::Unsized => {
            "the payload doesn't state its length in front; without --stream it may"
        }
        StreamRefusal::Judged => "",
        StreamRefusal::ExtraneousData => {
            "bytes follow the message; without --stream a sequence is read"
        }
    }
}

/// Why there is no file for the payload: what is said after the name of FILE.
fn no_file_text(why: NoFile) -> &'static str
    ensures { result.now ≡ spec.no_file_text why }
{
    match why {
        NoFile::Dash => ": a payload goes into a file, once its MAC is checked",
        NoFile::Other => ": it is there, and no regular file",
        NoFile::Unknown => ": it can't be told whether it is there",
        NoFile::NoFolder => ".part: no such folder",
        NoFile::NoPermission => ".part: no permission",
        NoFile::NotMade => ".part: it can't be made",
        NoFile::Taken => ".part: it is there, and so are .part1 to .part99",
    }
}

/// The status of the program after this end.
pub fn end_status(end: &Result<(), StreamStop>) -> u8
    ensures { result ≡ spec.end_status end.now }
{
    match end {
        Ok(()) => 0,
        Err(StreamStop::NotBegun(why)) => why.status(),
        Err(StreamStop::Refused(_)) => 1,
        Err(StreamStop::Stopped(_)) | Err(StreamStop::NoFile(_)) => 4,
    }
}

fn refused_line(why: StreamRefusal) -> &'static str
    ensures { result.now ≡ spec.refused_line why }
{
    match why {
        StreamRefusal::NotTagged => "refused: NotTagged\n",
        StreamRefusal::OtherTag => "refused: OtherTag\n",
        StreamRefusal::Shape => "refused: Shape\n",
        StreamRefusal::Detached => "refused: Detached\n",
        StreamRefusal::Unsized => "refused: Unsized\n",
        StreamRefusal::Judged => "refused: Judged\n",
        StreamRefusal::ExtraneousData => "refused: ExtraneousData\n",
    }
}

/// Writes a line, and flushes it.
pub(crate) fn write<E: Write>(line: &str, err: &mut E)
    ensures { Wrote E.Write err.old err.new line.now }
{
    let _ = err.write_all(line.as_bytes());
    let _ = err.flush();
}
