//! The check of one message.
ghost use Rattle.std.specs.Prelude.{◌≡◌, None, option_copied};
ghost use Rattle.std.specs.Prelude.{Err, IfErr, IfOk, OnOk};
ghost use Rattle.ciborium_ll.specs.Views.{left_of, offset_of, reader_of, waiting_of};
ghost use Rattle.cose_stream.specs.Streams.{StreamEnds, IsEnd, IsNoEnd, Streams, failures_after};

use crate::stop::{StreamRefusal, StreamStop, stopped_by};
use ciborium_ll::{Decoder, Error, Read, Write};
use cose_gate::{GateFault, HmacJudge, InputFault, Judge, Limits, de, stream_check_into};
use cose_gate_command::{Explained, Note, Reasons};
use cose_gate_program::begin;
use std::alloc::Global;
use std::cell::RefCell;

/// The payload is read so many bytes at a time.
const PIECE: usize = 4096;

/// By what a message is checked.
#[derive(Clone, Copy)]
pub struct StreamTerms<'a> {
    /// What KEYS holds, if it can be read.
    pub keys: Option<&'a [u8]>,
    /// The external data in hex.
    pub aad: Option<&'a str>,
    /// Where the reason of a no is noted, if it is asked for.
    pub note: Option<&'a RefCell<Note>>,
}

/// Checks with the keys that KEYS holds and AADHEX as external data that the input is one COSE_Mac0
/// that states its payload's length, whose MAC is good, as `HmacJudge` says, and writes its payload
/// to `out` as it comes, and flushes it. What was written may be used only if the result is `Ok`.
///
/// # Errors
/// `NotBegun`, and then nothing was read. Else the first fault: `Refused` or `Stopped` as
/// `stream_check` has it; `Stopped` if the payload can't be written; `Judged`; `ExtraneousData` if
/// the input goes on.
pub fn stream<R: Read, W: Write>(
    alloc: Global,
    terms: StreamTerms<'_>,
    input: &mut R,
    out: &mut W,
) -> Result<(), StreamStop>
    ensures ran { Streams R.Read W.Write (option_copied terms.entry.keys)
        (option_copied terms.entry.aad) input.old input.new out.old out.new result }
    ensures kept { R.handle input.new ≡ R.handle input.old }
    ensures lent { W.handle out.new ≡ W.handle out.old }
{
    let beginning = begin(alloc, terms.keys, terms.aad)?;
    let aad = beginning.aad.as_slice();
    let judge = HmacJudge::new(&beginning.keys);
    let reasons = Reasons::noted(alloc, &beginning.keys, aad.len(), terms.note);
    let mut judge = Explained { judge, reasons };
    check(alloc, aad, &mut judge, input, out)
}

/// Checks the message by this judge.
fn check<R: Read, J: Judge, W: Write>(
    alloc: Global,
    aad: &[u8],
    judge: &mut J,
    input: &mut R,
    out: &mut W,
) -> Result<(), StreamStop>
    ensures ended { StreamEnds (J.yes (J.who judge.old)) aad.now (R.left input.old) W.Write out.old
        out.new result }
    ensures failed { R.failed input.new ≡ failures_after result (R.failed input.old) }
    ensures kept { R.handle input.new ≡ R.handle input.old }
    ensures lent { W.handle out.new ≡ W.handle out.old }
{
    let mut decoder = Decoder::from(input);
    let mut buffer = [0; PIECE];
    let limits = Limits::default();
    let streamed = match stream_check_into(
        alloc,
        limits,
        &mut decoder,
        &mut buffer,
        aad,
        judge,
        out,
    ) {
        Ok(streamed) => streamed,
        Err(fault) => return Err(stopped_by::<&mut R>(fault)),
    };
    if streamed.written.is_err() {
        return Err(StreamStop::Stopped(GateFault::Write));
    }
    if !streamed.yes {
        return Err(StreamStop::Refused(StreamRefusal::Judged));
    }
    if !has_ended(&mut decoder)? {
        return Err(StreamStop::Refused(StreamRefusal::ExtraneousData));
    }
    match out.flush() {
        Ok(()) => Ok(()),
        Err(_) => Err(StreamStop::Stopped(GateFault::Write)),
    }
}

/// Whether nothing is to come. If there is something, a byte of it is taken.
fn has_ended<R: Read>(decoder: &mut Decoder<R>) -> Result<bool, StreamStop>
    requires { waiting_of decoder.old ≡ None }
    ensures ok { IfOk result (IsEnd (left_of R.left decoder.old)) }
    ensures err { IfErr result (IsNoEnd (offset_of decoder.old)) }
    ensures kept { R.handle (reader_of decoder.new) ≡ R.handle (reader_of decoder.old) }
    ensures going { OnOk result (R.failed (reader_of decoder.new)
        ≡ R.failed (reader_of decoder.old)) }
    ensures failed { IfErr result (λ why. R.failed (reader_of decoder.new)
        ≡ failures_after (Err why) (R.failed (reader_of decoder.old))) }
{
    match decoder.read_exact(&mut [0]) {
        Ok(()) => Ok(false),
        Err(Error::Io(fault)) if R::is_end(&fault) => Ok(true),
        Err(Error::Io(_)) => Err(StreamStop::Stopped(GateFault::Decode(de::Error::Io(
            InputFault::Failed,
        )))),
        Err(_) => Err(StreamStop::Stopped(GateFault::Decode(de::Error::TooLong))),
    }
}
