//! The lines of a run. A fault of what they are written to is ignored.
ghost use Rattle.std.specs.Prelude.{◌≡◌, ◌≤◌, ◌++◌, ◌∷◌, [], List, length, codes, true};
ghost use Rattle.std.specs.Fmt.{decimal};
ghost use Rattle.cose_gate_program.specs.Lines as spec;
ghost use Rattle.cose_gate_program.specs.Lines.{line_of};
ghost use Rattle.ciborium_ll.specs.declared.log.Log.{Log};
ghost use Rattle.cose_gate_program.specs.Writing.{Wrote, WroteLines, WroteLines-prop};
ghost use Rattle.cose_gate_program.specs.Writing.{LentLines, HandedOn};
ghost use Rattle.cose_gate_program.specs.Writing.{HandedSince, HandedSince-prop};
ghost use Rattle.cose_gate_program.specs.Writing.{is_last as spec_last};

use crate::beginning::NotBegun;
use crate::devices::InputFault;
use crate::telling::{Notice, Teller};
use ciborium_ll::Write;
use ciborium_ll::log::Log;
use cose_gate_core::{Counts, Entry, GateFault, Verdict, de};
use coset_labels::CoseError;
use itoa::write_digits;

/// The bytes that the line of an item takes at most: 5 and 4 beside two numbers of at most 20, and
/// an end of at most 23.
const LINE: usize = 72;

/// What a line says of an input that has ended, after the name of that fault.
const ENDED: &[u8] = b"(EndOfFile)";

/// The bytes of a number at most.
const DIGITS: usize = 20;

/// Writes the line of a notice. The last line of a run is flushed, with those before it.
pub fn write_notice<W: Write>(notice: &Notice, out: &mut W)
    ensures wrote { Wrote W.Write out.old out.new (line_of notice.now) }
    ensures handed { spec_last notice.now ≡ true → HandedOn W.Write out.old out.new }
{
    write_line(notice, out);
    if !is_last(notice) {
        return;
    }
    hand_on(out);
}

/// Whether a notice is the last of a run.
fn is_last(notice: &Notice) -> bool
    ensures { result ≡ spec_last notice.now }
{
    !matches!(notice, Notice::Item(_))
}

/// Writes the line of a notice.
fn write_line<W: Write>(notice: &Notice, out: &mut W)
    ensures { Wrote W.Write out.old out.new (line_of notice.now) }
{
    match notice {
        Notice::Item(entry) => write_entry(*entry, out),
        Notice::Counts(counts) => write_counts(*counts, out),
        Notice::Stopped(fault) => write_stopped(fault, out),
        Notice::NotBegun(why) => write_not_begun(*why, out),
    }
}

/// The line of an item. It is put together from its end, so that each number is written into its
/// place.
fn write_entry<W: Write>(entry: Entry, out: &mut W)
    ensures { Wrote W.Write out.old out.new (spec.entry_line entry) }
{
    let mut line = [b'\n'; LINE];
    let (verdict, name) = ending_of(entry.verdict);
    let end = LINE - 1 - name.len();
    line[end..LINE - 1].copy_from_slice(name.as_bytes());
    let after = end - verdict.len();
    line[after..end].copy_from_slice(verdict.as_bytes());
    let offset = write_digits(entry.offset as u64, &mut line, after);
    line[offset - 4..offset].copy_from_slice(b" at ");
    let number = write_digits(entry.number as u64, &mut line, offset - 4);
    line[number - 5..number].copy_from_slice(b"item ");
    write(&line[number - 5..], out);
}

/// What the line of an item ends with, and the name of a refusal, without what that holds.
fn ending_of(verdict: Verdict) -> (&'static str, &'static str)
    ensures text { result.0.now ++ (result.1.now ++ codes "\n") ≡ spec.ending verdict }
    ensures short { (length result.0.now ≤ 11) × (length result.1.now ≤ 11) }
{
    match verdict {
        Verdict::Passed => (": passed", ""),
        Verdict::Refused(refusal) => (": refused: ", refusal.name()),
    }
}

/// The last line, which counts the items.
fn write_counts<W: Write>(counts: Counts, out: &mut W)
    ensures { Wrote W.Write out.old out.new (spec.counts_line counts) }
{
    write(b"passed ", out);
    write_number(counts.passed, out);
    write(b", refused ", out);
    write_number(counts.refused, out);
    write(b"\n", out);
}

/// The last line, which says what stopped the gate.
fn write_stopped<W: Write>(fault: &GateFault<InputFault>, out: &mut W)
    ensures { Wrote W.Write out.old out.new (spec.stopped_line fault.now) }
{
    write(b"stopped: ", out);
    write_fault(fault, out);
    write(b"\n", out);
}

/// What stopped the gate.
fn write_fault<W: Write>(fault: &GateFault<InputFault>, out: &mut W)
    ensures { Wrote W.Write out.old out.new (spec.fault_text fault.now) }
{
    match fault {
        GateFault::Decode(error) => {
            write(fault.name().as_bytes(), out);
            write(b": ", out);
            write_decode_fault(error, input_detail(error), out);
        }
        GateFault::Write | GateFault::Memory => write(fault.name().as_bytes(), out),
    }
}

/// What a line says of a fault of the input after its name.
fn input_detail(error: &de::Error<InputFault>) -> &'static [u8]
    ensures { result.now ≡ spec.input_detail error.now }
{
    match error {
        de::Error::Io(InputFault::Failed) => b"",
        _ => ENDED,
    }
}

/// The text of a fault of decoding, with `io` after the name of a reader's fault.
fn write_decode_fault<E, W: Write>(error: &de::Error<E>, io: &[u8], out: &mut W)
    ensures { Wrote W.Write out.old out.new (spec.decode_text io.now error.now) }
{
    write(error.name().as_bytes(), out);
    match error {
        de::Error::Io(_) => write(io, out),
        de::Error::Syntax(offset) => {
            write(b"(", out);
            write_number(*offset, out);
            write(b")", out);
        }
        de::Error::Semantic(_, kind) => {
            write(b"(", out);
            write(kind.name().as_bytes(), out);
            write(b")", out);
        }
        de::Error::RecursionLimitExceeded | de::Error::Memory | de::Error::TooLong => {}
    }
}

/// The one line if the gate isn't run.
fn write_not_begun<W: Write>(why: NotBegun, out: &mut W)
    ensures { Wrote W.Write out.old out.new (spec.not_begun_line why) }
{
    write_reason(why, out);
    write(b"\n", out);
}

/// Why the gate isn't run.
fn write_reason<W: Write>(why: NotBegun, out: &mut W)
    ensures { Wrote W.Write out.old out.new (spec.reason_text why) }
{
    match why {
        NotBegun::NoFile => write(b"keys: cannot be read", out),
        NotBegun::NotHex => write(b"aad: not hex", out),
        NotBegun::NoKeys(error) => {
            write(b"keys: ", out);
            write_cose_error(error, out);
        }
        NotBegun::Memory => write(b"stopped: memory", out),
    }
}

/// What is wrong with a key set.
fn write_cose_error<W: Write>(error: CoseError, out: &mut W)
    ensures { Wrote W.Write out.old out.new (spec.cose_text error) }
{
    match error {
        CoseError::DecodeFailed(error) => {
            write(b"decode CBOR failure: ", out);
            write_decode_fault(&error, ENDED, out);
        }
        CoseError::DuplicateMapKey => write(b"duplicate map key", out),
        CoseError::EncodeFailed => write(b"encode CBOR failure", out),
        CoseError::ExtraneousData => write(b"extraneous data in CBOR input", out),
        CoseError::OutOfRangeIntegerValue => write(b"out of range integer value", out),
        CoseError::UnexpectedItem(got, expected) => {
            write(b"got ", out);
            write(got.as_bytes(), out);
            write(b", expected ", out);
            write(expected.as_bytes(), out);
        }
        CoseError::UnregisteredIanaValue => write(b"expected recognized IANA value", out),
        CoseError::UnregisteredIanaNonPrivateValue => {
            write(b"expected value in IANA or private use range", out);
        }
        CoseError::Memory => write(b"out of memory", out),
        CoseError::TooManyLayers => write(b"too many protected layers", out),
    }
}

/// Writes a number.
pub fn write_number<W: Write>(number: usize, out: &mut W)
    ensures { Wrote W.Write out.old out.new (decimal number) }
{
    let mut digits = [0; DIGITS];
    let from = write_digits(number as u64, &mut digits, DIGITS);
    write(&digits[from..], out);
}

/// Writes a text.
fn write<W: Write>(text: &[u8], out: &mut W)
    ensures { Wrote W.Write out.old out.new text.now }
{
    let _ = out.write_all(text);
}

/// Hands on the lines that a writer holds back.
pub fn hand_on<W: Write>(out: &mut W)
    ensures wrote { (begun : Log W) (told : Log Notice) → WroteLines W.Write begun out.old told
        → WroteLines W.Write begun out.new told }
    ensures nothing { Wrote W.Write out.old out.new [] }
    ensures handed { HandedOn W.Write out.old out.new }
{
    let _ = out.flush();
}

/// The lines that `run` tells of, on a writer.
#[derive(Drop)]
pub(crate) struct Lines<'a, W: Write> {
    out: &'a mut W,
    /// What was told, and what the writer was at first. It is in contracts alone.
    told: &'a mut Log<Notice>,
    begun: Log<W>,
    ghost wrote: { WroteLines W.Write begun out.now told.now } by { WroteLines-prop W.Write _ _ _ },
    ghost handed: { HandedSince W.Write begun.items out.now told.now.items } by { HandedSince-prop W.Write _ _ _ },
}

impl<'a, W: Write> Lines<'a, W> {
    /// Lines on this writer, with a log of what is told.
    pub(crate) fn new(out: &'a mut W, told: &'a mut Log<Notice>) -> Lines<'a, W>
        ensures begun { result.begun.items ≡ out.old ∷ [] }
        ensures told { result.told.now.items ≡ [] }
        ensures kept { result.out.ghost_name ≡ out.entry.ghost_name }
    {
        *told = Log::new();
        let begun = Log::new().and(&*out);
        Lines { out, told, begun }
    }
}

/// Writes the line of a notice, and adds it to a log of what was told.
pub fn write_logged<W: Write>(notice: &Notice, out: &mut W, told: &mut Log<Notice>)
    ensures wrote { (begun : Log W) → WroteLines W.Write begun out.old told.old
        → WroteLines W.Write begun out.new told.new }
    ensures handed { (begun : Log W) → WroteLines W.Write begun out.old told.old
        → HandedSince W.Write begun.items out.new told.new.items }
    ensures told { told.new.items ≡ told.old.items ++ notice.now ∷ [] }
{
    write_notice(notice, out);
    *told = told.and(notice);
}

impl<'a, W: Write> Teller for Lines<'a, W> {
    ghost State = { LentLines W };

    ghost state = { λ l. record {
      name = l.out.ghost_name;
      begun = l.begun.items;
      told = l.told.now.items;
    } };

    ghost folded = { λ s notice. record s { told = s.told ++ notice ∷ [] } };

    fn tell(&mut self, notice: &Notice) {
        write_logged(notice, self.out, self.told);
    }

    fn rest(&mut self) {
        hand_on(self.out);
    }
}
