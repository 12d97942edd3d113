//! The next item of a sequence.
ghost use Rattle.std.specs.Prelude.{◌≡◌, [], None, OnOk, IfErr};
ghost use Rattle.std.specs.Io.KnownBytes.{Keeps};
ghost use Rattle.ciborium_ll.specs.Seen.{Takes};
ghost use Rattle.ciborium_ll.specs.Views.{waiting_of, seen};
ghost use Rattle.cbor_walk.specs.Grammar.{Item};
ghost use Rattle.cbor_walk.specs.Walking.{Goes, IsOne, IsSound};
ghost use Rattle.cose_sift.specs.Taking.{due_by, IsDue, Held, ItemFails, IsPlace, failures_after};
ghost use Rattle.cose_sift.specs.Taking.{writer_failures, ItemDeepAt};
ghost use Rattle.cose_sift.specs.declared.items.Halt.TheVariants as halt;

use crate::taking::{Stop, Taking};
use ciborium_ll::{Decoder, Read, Write};
use std::alloc::Global;

/// A step waits for input only if fewer bytes are at hand.
const HEAD: usize = 9;

/// What stops a run.
#[derive(Debug, Clone, Copy, PartialEq, Eq)]
pub enum Halt {
    /// No item goes on.
    Decode(Stop),
    /// The output failed.
    Write,
}

/// Flushes the output and the lines if the next step may wait for input.
fn hand_on<R: Read, W: Write, E: Write>(
    decoder: &Decoder<R>,
    out: &mut W,
    lines: &mut E,
) -> Result<(), Halt>
    ensures out { Keeps (W.written out.old) (W.written out.new) }
    ensures lines { Keeps (E.written lines.old) (E.written lines.new) }
    ensures err { IfErr result (λ fault. fault ≡ halt.Write) }
    ensures writer { W.failed out.new ≡ writer_failures result (W.failed out.old) }
{
    if decoder.held().len() >= HEAD {
        return Ok(());
    }
    let _ = lines.flush();
    match out.flush() {
        Ok(()) => Ok(()),
        Err(_) => Err(Halt::Write),
    }
}

/// Takes the next item. Before it waits for input it flushes the output and the lines.
///
/// # Errors
/// `Decode` if no item begins, and `Write`.
pub fn take_item<R: Read, W: Write, E: Write>(
    alloc: Global,
    taking: &mut Taking,
    decoder: &mut Decoder<R>,
    out: &mut W,
    lines: &mut E,
) -> Result<(), Halt>
    requires starts { Goes Item (due_by taking.old) [] }
    requires held { Held taking.old [] }
    requires due { IsDue taking.old }
    requires fresh { waiting_of decoder.old ≡ None }
    ensures ok { OnOk result (Takes (seen R.Read decoder.old) (seen R.Read decoder.new)
        (λ x. IsOne x × Held taking.new x)) }
    ensures err { IfErr result (ItemFails (seen R.Read decoder.old) (seen R.Read decoder.new)) }
    ensures place { IsSound taking.old.walk → IfErr result (IsPlace (seen R.Read decoder.old)
        (seen R.Read decoder.new)) }
    ensures failed { (seen R.Read decoder.new).failed
        ≡ failures_after result (seen R.Read decoder.old).failed }
    ensures fresh { waiting_of decoder.new ≡ None }
    ensures out { Keeps (W.written out.old) (W.written out.new) }
    ensures lines { Keeps (E.written lines.old) (E.written lines.new) }
    ensures max { taking.new.max ≡ taking.old.max }
    ensures most { taking.new.walk.most ≡ taking.old.walk.most }
    ensures deep { IsSound taking.old.walk → IfErr result (ItemDeepAt taking.old.walk.most
        (seen R.Read decoder.old) (seen R.Read decoder.new)) }
    ensures writer { W.failed out.new ≡ writer_failures result (W.failed out.old) }
{
    'steps: for _ in 0..u64::MAX {
        match hand_on(decoder, out, lines) {
            Ok(()) => {}
            Err(halt) => return Err(halt),
        }
        match taking.step(alloc, decoder) {
            Ok(()) => {}
            Err(stop) => return Err(Halt::Decode(stop)),
        }
        if taking.is_done() {
            return Ok(());
        }
    }
    Err(Halt::Decode(Stop::TooLong))
}
