//! The items that can be read.
ghost use Rattle.std.specs.Prelude.{◌≡◌, ◌≢◌, ◌<◌, [], Ok, None, true, false};
ghost use Rattle.std.specs.Prelude.{IfOk, OnOk, IfErr, MatchBool};
ghost use Rattle.std.specs.Prelude.{◌⊎◌, ◌+◌};
ghost use Rattle.std.specs.Io.KnownBytes.{Keeps, Appends};
ghost use Rattle.ciborium_ll.specs.Device.{AppendsFront};
ghost use Rattle.ciborium_ll.specs.Views.{waiting_of, seen};
ghost use Rattle.ciborium_ll.specs.Views.{left_of};
ghost use Rattle.cose_sift.specs.Reading.{IsUntold};
ghost use Rattle.cose_sift.specs.Sifting.{Readably, IsUnreadable, Writes, Halts, status_of};
ghost use Rattle.cose_sift.specs.Taking.{IfKnown, failures_after, writer_failures};
ghost use Rattle.cbor_walk.specs.Walking.{IsOne};
ghost use Rattle.cose_sift.specs.declared.items.Halt.TheVariants as halt;
ghost use Rattle.cose_sift.specs.declared.sifting.Counts.{Counts};
ghost use Rattle.cose_sift.specs.declared.taking.Stop.TheVariants as stop;

use crate::items::{Halt, take_item};
use crate::lines::{write_end, write_left_out};
use crate::reading::is_readable;
use crate::taking::{Stop, Taking};
use crate::untagging::content_of;
use ciborium_ll::{Decoder, Read, Write};
use std::alloc::Global;

/// What is asked for.
#[derive(Debug, Clone, Copy, PartialEq, Eq)]
pub struct Options {
    /// The tags 61 and 55799 around an item are taken off.
    pub untag: bool,
    /// So many bytes an item may have, with those tags.
    pub max: usize,
}

/// How many items were written, and how many were left out.
#[derive(Debug, Clone, Copy, PartialEq, Eq)]
pub struct Counts {
    pub sifted: u64,
    pub dropped: u64,
}

impl Counts {
    /// One more; none past `u64::MAX`.
    fn and(self, is_sifted: bool) -> Result<Counts, Halt>
        ensures ok { IfOk result (λ c. MatchBool «is_sifted»
            ((c.sifted ≡ self.sifted + 1) × (c.dropped ≡ self.dropped))
            ((c.sifted ≡ self.sifted) × (c.dropped ≡ self.dropped + 1))) }
        ensures err { IfErr result (λ h. h ≡ halt.Decode stop.TooLong) }
    {
        let Counts { sifted, dropped } = self;
        if sifted == u64::MAX || dropped == u64::MAX {
            return Err(Halt::Decode(Stop::TooLong));
        }
        if is_sifted {
            return Ok(Counts {
                sifted: sifted + 1,
                dropped,
            });
        }
        Ok(Counts {
            sifted,
            dropped: dropped + 1,
        })
    }
}

/// What ends a run: the end of the input, if no byte of an item was taken.
fn ended(fault: Halt, from: usize, to: usize, counts: Counts) -> Result<Counts, Halt>
    ensures ok { IfOk result (λ c. (c ≡ «counts») × («fault» ≡ halt.Decode stop.End)
        × («to» ≡ «from»)) }
    ensures err { IfErr result (λ h. (h ≡ «fault»)
        × («fault» ≡ halt.Decode stop.End → «to» ≢ «from»)) }
{
    match fault {
        Halt::Decode(Stop::End) => {
            if to == from {
                return Ok(counts);
            }
            Err(fault)
        }
        _ => Err(fault),
    }
}

/// Hands on what the output holds back at the end of a run.
fn handed_on<W: Write>(counts: Counts, out: &mut W) -> Result<Counts, Halt>
    ensures ok { IfOk result (λ c. c ≡ counts) }
    ensures err { IfErr result (λ h. h ≡ halt.Write) }
    ensures out { Keeps (W.written out.old) (W.written out.new) }
    ensures handed { OnOk result (W.held out.new ≡ []) }
    ensures writer { W.failed out.new ≡ writer_failures result (W.failed out.old) }
{
    match out.flush() {
        Ok(()) => Ok(counts),
        Err(_) => Err(Halt::Write),
    }
}

/// Writes what is to be written of the item if that can be read, and says whether it was written.
fn pass<W: Write>(alloc: Global, untag: bool, item: &[u8], out: &mut W) -> Result<bool, Halt>
    requires { IsOne item.now }
    ensures ok { IfOk result (λ yes. MatchBool yes
        (Readably «untag» item.now (Appends (W.written out.old) (W.written out.new)))
        (IsUnreadable «untag» item.now × Keeps (W.written out.old) (W.written out.new))) }
    ensures err { IfErr result (λ h.
        (IsUntold h × Keeps (W.written out.old) (W.written out.new))
        ⊎ ((h ≡ halt.Write)
        × Readably «untag» item.now (AppendsFront (W.written out.old) (W.written out.new)))) }
    ensures writer { W.failed out.new ≡ writer_failures result (W.failed out.old) }
{
    let content = content_of(untag, item);
    match is_readable(alloc, content) {
        Ok(true) => {}
        Ok(false) => return Ok(false),
        Err(halt) => return Err(halt),
    }
    match out.write_all(content) {
        Ok(()) => Ok(true),
        Err(_) => Err(Halt::Write),
    }
}

/// Writes the items that have no more than `max` bytes and can be read, in order, byte for byte but
/// for the tags that are taken off, and a line for each of the others. Before it waits for input it
/// flushes, and at the end of the input.
///
/// # Errors
/// `Decode` if no item goes on where the input isn't at its end, and `Write`.
pub fn sift<R: Read, W: Write, E: Write>(
    alloc: Global,
    options: Options,
    decoder: &mut Decoder<R>,
    out: &mut W,
    lines: &mut E,
) -> Result<Counts, Halt>
    requires fresh { waiting_of decoder.old ≡ None }
    ensures ok { IfOk result (λ counts. IfKnown (left_of R.left decoder.old)
        (Writes «options» (W.written out.old) (W.written out.new) counts)) }
    ensures err { IfErr result (Halts «options» (seen R.Read decoder.old)
        (seen R.Read decoder.new) (W.written out.old) (W.written out.new)) }
    ensures failed { (seen R.Read decoder.new).failed
        ≡ failures_after result (seen R.Read decoder.old).failed }
    ensures writer { W.failed out.new ≡ writer_failures result (W.failed out.old) }
    ensures handed { OnOk result (W.held out.new ≡ []) }
{
    let mut taking = Taking::new(alloc, options.max);
    let mut counts = Counts {
        sifted: 0,
        dropped: 0,
    };
    'items: for _ in 0..u64::MAX {
        let at = decoder.offset();
        match take_item(alloc, &mut taking, decoder, out, lines) {
            Ok(()) => {}
            Err(halt) => match ended(halt, at, decoder.offset(), counts) {
                Ok(counts) => return handed_on(counts, out),
                Err(halt) => return Err(halt),
            },
        }
        let is_sifted = match taking.bytes() {
            Some(item) => match pass(alloc, options.untag, item, out) {
                Ok(yes) => yes,
                Err(halt) => return Err(halt),
            },
            None => false,
        };
        if !is_sifted {
            write_left_out(at, taking.bytes().is_none(), lines);
        }
        match counts.and(is_sifted) {
            Ok(more) => counts = more,
            Err(halt) => return Err(halt),
        }
        taking.restart();
    }
    Err(Halt::Decode(Stop::TooLong))
}

/// How a run ended, once what was written up to a stop is handed on.
fn stopped<W: Write>(end: Result<Counts, Halt>, out: &mut W) -> Result<Counts, Halt>
    ensures ok { OnOk «end» ((result ≡ «end») × (out.new ≡ out.old)) }
    ensures err { IfErr «end» (λ halt. IfOk result (λ counts. ⊥)) }
{
    let Err(halt) = end else {
        return end;
    };
    if out.flush().is_err() {
        return Err(Halt::Write);
    }
    Err(halt)
}

/// `sift`, and then the last line. The status is 0 if no item was left out, 1 if some were, and 4
/// if the run stopped. What was written is handed on before that line.
pub fn sift_told<R: Read, W: Write, E: Write>(
    alloc: Global,
    options: Options,
    decoder: &mut Decoder<R>,
    out: &mut W,
    lines: &mut E,
) -> u8
    requires fresh { waiting_of decoder.old ≡ None }
    ensures sifted { result < 2 → (counts : Counts) × (result ≡ status_of (Ok counts))
        × IfKnown (left_of R.left decoder.old)
        (Writes «options» (W.written out.old) (W.written out.new) counts) }
    ensures handed { result < 2 → W.held out.new ≡ [] }
    ensures writer { result < 2 → W.failed out.new ≡ W.failed out.old }
{
    let end = sift(alloc, options, decoder, out, lines);
    write_end(stopped(end, out), lines)
}
