//! The gate.
ghost use Rattle.std.specs.Prelude.{◌≡◌, ◌+◌, ◌<◌, ◌^◌, [], Some, None, Ok, Err};
ghost use Rattle.std.specs.Prelude.{◌≤◌, ◌⊎◌, IfOk, IfErr, IfSome, OnOk, true, false, not};
ghost use Rattle.std.specs.Prelude.{if◌then◌else◌, length, List, ℕ};
ghost use Rattle.std.specs.Io.{StartsWith};
ghost use Rattle.std.specs.Io.KnownBytes.{Keeps};
ghost use Rattle.cbor_walk.specs.Walking.{BeginsItem};
ghost use Rattle.ciborium.specs.Damage.{Damage};
ghost use Rattle.ciborium.specs.Front.{HoldsOne};
ghost use Rattle.ciborium.specs.Fronts.{IsFront, IsMessage};
ghost use Rattle.ciborium.specs.declared.frames.Front.TheVariants.{Four};
ghost use Rattle.ciborium.specs.Reading.{NamesFault, Leaves, IsNoMemory, IfEnd, IsFar};
ghost use Rattle.ciborium_ll.specs.Seen.{Seen, Takes};
ghost use Rattle.ciborium_ll.specs.Views.{left_of, offset_of, waiting_of, reader_of, seen};
ghost use Rattle.coset_labels.specs.Limits.{nesting_of};
ghost use Rattle.cose_gate_core.specs.Calls.{rules_by, sight_of, item_rules, item_sight};
ghost use Rattle.cose_gate_core.specs.GateRun.{Ran};
ghost use Rattle.cose_gate_core.specs.Next.{IsNext, IsReadFault, IfNothing, Passes};
ghost use Rattle.cose_gate_core.specs.Next.{PassesNext, GoesOn};
ghost use Rattle.cose_gate_core.specs.Outcome.{IfTooLong, KeepsReader, reader_failures};
ghost use Rattle.cose_gate_core.specs.Outcome.{writer_failures};
ghost use Rattle.cose_gate_core.specs.Passing.{at_end};
ghost use Rattle.cose_gate_core.specs.ReasonNames.{fault_name};
ghost use Rattle.cose_gate_core.specs.Run.{has_passed};
ghost use Rattle.cose_gate_core.specs.Questions.{number_of};
ghost use Rattle.cose_gate_core.specs.Terms.{limits_of, IsTakenFront};
ghost use Rattle.cose_gate_core.specs.declared.gating.GateFault.TheVariants.{Write, Memory};

use crate::judge::Judge;
use crate::message::Four;
use crate::passing::{ItemFault, pass, pass_read};
use crate::report::{Entry, Report, Verdict};
use crate::terms::Terms;
use cbor_walk::begins_item;
use ciborium::{Front, Spare, de, read_front};
use ciborium_ll::{Decoder, Read, Write};
use coset_labels::TaggedCborSerializable;
use coset_maced::CoseMac0;
use coset_signed::CoseSign1;
use std::alloc::{AllocError, Global};
use std::fmt;

/// How many items passed, and how many were refused.
#[derive(Debug, Clone, Copy, PartialEq, Eq)]
pub struct Counts {
    /// How many passed.
    pub passed: usize,
    /// How many were refused.
    pub refused: usize,
}

/// What stopped the gate. Its text is `decode: ` and the fault's text, `write` or `memory`.
#[derive(Debug, PartialEq, Eq, Drop)]
pub enum GateFault<E> {
    /// No readable item begins here, or the reader failed. It never holds `Memory`.
    Decode(de::Error<E>),
    /// The writer failed; its own being out of memory is such a fault too.
    Write,
    /// Out of memory, also the judge's or the report's.
    Memory,
}

impl<E> GateFault<E> {
    /// Its name, with which its text begins.
    pub fn name(&self) -> &'static str
        ensures { result.now ≡ fault_name self.now }
    {
        match self {
            GateFault::Decode(_) => "decode",
            GateFault::Write => "write",
            GateFault::Memory => "memory",
        }
    }
}

impl<E: fmt::Display> fmt::Display for GateFault<E> {
    fn fmt<W: fmt::Write>(&self, f: &mut fmt::Formatter<W>) -> fmt::Result {
        f.write_str(self.name())?;
        match self {
            GateFault::Decode(error) => write!(f, ": {error}"),
            _ => Ok(()),
        }
    }
}

impl<E: fmt::Debug + fmt::Display + Drop> std::error::Error for GateFault<E> {}

/// No item was read.
impl<E> From<de::Error<E>> for GateFault<E> {
    ghost use Rattle.std.specs.Prelude.{◌≡◌};
    ghost use Rattle.cose_gate_core.specs.Passing.{fault_by};

    ghost from_gives = { λ e fault. fault ≡ fault_by e };

    fn from(error: de::Error<E>) -> GateFault<E> {
        match error {
            de::Error::Memory => GateFault::Memory,
            error => GateFault::Decode(error),
        }
    }
}

/// An item was stopped on its way.
impl<E> From<ItemFault> for GateFault<E> {
    ghost use Rattle.std.specs.Prelude.{◌≡◌};
    ghost use Rattle.cose_gate_core.specs.Passing.{stopped_by};

    ghost from_gives = { λ fault stop. stop ≡ stopped_by fault };

    fn from(fault: ItemFault) -> GateFault<E> {
        match fault {
            ItemFault::Write => GateFault::Write,
            ItemFault::Memory => GateFault::Memory,
        }
    }
}

/// The report is out of memory.
impl<E> From<AllocError> for GateFault<E> {
    ghost use Rattle.std.specs.Prelude.{◌≡◌};
    ghost use Rattle.cose_gate_core.specs.declared.gating.GateFault.TheVariants as fault;

    ghost from_gives = { λ _ stop. stop ≡ fault.Memory };

    fn from(_: AllocError) -> GateFault<E> {
        GateFault::Memory
    }
}

/// Whether the fault is an end of the bytes.
fn is_end<R: Read>(error: &de::Error<R::Error>) -> bool
    ensures { result ≡ at_end R.ends error.now }
{
    match error {
        de::Error::Io(e) => R::is_end(e),
        _ => false,
    }
}

/// Reads an item, and if a strict gate asks it tells whether its bytes are the one encoding of its
/// value. A gate that isn't strict may get the heads of a message alone.
fn front_of<R: Read>(
    alloc: Global,
    terms: Terms,
    decoder: &mut Decoder<R>,
    spare: &mut Spare,
) -> Result<(Front, bool), de::Error<R::Error>>
    requires { terms.strict ≡ true → waiting_of decoder.old ≡ None }
    ensures ok { IfOk result (λ r. Takes (seen R.Read decoder.old) (seen R.Read decoder.new)
        (IsTakenFront terms r.0 r.1)) }
    ensures message { IfOk result (λ r. IsMessage r.0) }
    ensures err { IfErr result (NamesFault R.ends
        (λ stop b f. Damage stop b (nesting_of terms.limits) f)
        (seen R.Read decoder.old) (seen R.Read decoder.new)) }
    ensures nothing { left_of R.left decoder.old ≡ Some [] → IfErr result IsNoMemory }
    ensures some { left_of R.left decoder.old ≡ Some [] → OnOk result ⊥ }
    ensures ended { left_of R.left decoder.old ≡ Some []
        → IfErr result (IfEnd R.ends (left_of R.left decoder.new ≡ Some [])) }
    ensures leaves { Leaves R.ends HoldsOne result
        (seen R.Read decoder.old) (seen R.Read decoder.new) }
    ensures fits { offset_of decoder.new < 2 ^ 64 }
{
    let nesting = terms.limits.nesting();
    if terms.strict || decoder.is_waiting() {
        let (value, exact) = de::from_decoder_by(alloc, decoder, nesting, terms.strict)?;
        return Ok((Front::Item(value), exact));
    }
    let front = read_front(alloc, decoder, nesting, spare)?;
    Ok((front, false))
}

/// The next item or the heads of the next message, or `None` if no byte is left.
fn next_front<R: Read>(
    alloc: Global,
    terms: Terms,
    decoder: &mut Decoder<R>,
    spare: &mut Spare,
) -> Result<Option<(Front, bool)>, GateFault<R::Error>>
    requires { terms.strict ≡ true → waiting_of decoder.old ≡ None }
    ensures next { IfOk result (IsNext terms (seen R.Read decoder.old) (seen R.Read decoder.new)) }
    ensures message { IfOk result (λ next. IfSome next (λ f. IsMessage f.0)) }
    ensures err { IfErr result (IsReadFault R.ends (nesting_of terms.limits)
        (left_of R.left decoder.old) (left_of R.left decoder.new)
        (offset_of decoder.old) (offset_of decoder.new)) }
    ensures nothing { IfNothing (seen R.Read decoder.old) (seen R.Read decoder.new) result }
    ensures reader { KeepsReader R.ends result (seen R.Read decoder.old) (seen R.Read decoder.new) }
{
    let offset = decoder.offset();
    match front_of(alloc, terms, decoder, spare) {
        Ok(front) => Ok(Some(front)),
        Err(error) if is_end::<R>(&error) && decoder.offset() == offset => Ok(None),
        Err(error) => Err(GateFault::from(error)),
    }
}

/// Reads a message of which the heads were taken, asks the judge about it, and writes it if it has
/// passed. The gate isn't strict.
fn pass_four<M: Four, R: Read, W: Write, J: Judge>(
    alloc: Global,
    item: ItemTerms<'_>,
    decoder: &mut Decoder<R>,
    out: &mut W,
    judge: &mut J,
    spare: &mut Spare,
) -> Result<Verdict, GateFault<R::Error>>
    requires fresh { waiting_of decoder.old ≡ None }
    requires lax { item.terms.strict ≡ false }
    ensures ran { (start : Seen) → (number_of M.kind ≡ 17) ⊎ (number_of M.kind ≡ 18)
        → Takes start (seen R.Read decoder.old)
        (IsFront (nesting_of item.entry.terms.limits) (Four (number_of M.kind)))
        → Passes R.ends (item_rules J.Judge judge.old item.entry)
        start.left (left_of R.left decoder.new) start.offset (offset_of decoder.new)
        (item_sight W.Write J.Judge out.old judge.old)
        (item_sight W.Write J.Judge out.new judge.new) result }
    ensures reader { KeepsReader R.ends result (seen R.Read decoder.old) (seen R.Read decoder.new) }
    ensures writer { W.failed out.new ≡ W.failed out.old + writer_failures result }
    ensures lent { W.handle out.new ≡ W.handle out.old }
    ensures who { J.who judge.new ≡ J.who judge.old }
{
    let mut message = M::empty(alloc);
    let nesting = item.terms.limits.nesting();
    let read = message.walk(alloc, item.terms, nesting - 2, decoder, spare)?;
    let verdict = pass_read(item, &message, read, true, out, judge)?;
    Ok(verdict)
}

/// Takes the next item, asks the judge about it, and writes it if it has passed; `None` if no byte
/// is left.
fn pass_next<R: Read, W: Write, J: Judge>(
    alloc: Global,
    item: ItemTerms<'_>,
    decoder: &mut Decoder<R>,
    out: &mut W,
    judge: &mut J,
    spare: &mut Spare,
) -> Result<Option<Verdict>, GateFault<R::Error>>
    requires fresh { item.terms.strict ≡ true → waiting_of decoder.old ≡ None }
    ensures ran { PassesNext R.ends (item_rules J.Judge judge.old item.entry)
        (left_of R.left decoder.old) (left_of R.left decoder.new)
        (offset_of decoder.old) (offset_of decoder.new)
        (item_sight W.Write J.Judge out.old judge.old)
        (item_sight W.Write J.Judge out.new judge.new) result }
    ensures nothing { IfNothing (seen R.Read decoder.old) (seen R.Read decoder.new) result }
    ensures reader { KeepsReader R.ends result (seen R.Read decoder.old) (seen R.Read decoder.new) }
    ensures writer { W.failed out.new ≡ W.failed out.old + writer_failures result }
    ensures lent { W.handle out.new ≡ W.handle out.old }
    ensures who { J.who judge.new ≡ J.who judge.old }
{
    let Some((front, exact)) = next_front(alloc, item.terms, decoder, spare)? else {
        return Ok(None);
    };
    match front {
        Front::Item(value) => {
            let verdict = pass(alloc, item, exact, value, out, judge)?;
            Ok(Some(verdict))
        }
        Front::Four(CoseSign1::TAG) => {
            let verdict = pass_four::<CoseSign1, R, W, J>(alloc, item, decoder, out, judge, spare)?;
            Ok(Some(verdict))
        }
        Front::Four(_) => {
            let verdict = pass_four::<CoseMac0, R, W, J>(alloc, item, decoder, out, judge, spare)?;
            Ok(Some(verdict))
        }
    }
}

/// One item more.
fn counted(counts: Counts, verdict: Verdict) -> Counts
    requires { counts.passed + counts.refused + 1 < 2 ^ 64 }
    ensures passed { result.passed ≡ counts.passed + (if has_passed verdict then 1 else 0) }
    ensures refused { result.refused
        ≡ counts.refused + (if not (has_passed verdict) then 1 else 0) }
    ensures one { result.passed + result.refused ≡ counts.passed + counts.refused + 1 }
{
    match verdict {
        Verdict::Passed => Counts {
            passed: counts.passed + 1,
            refused: counts.refused,
        },
        Verdict::Refused(_) => Counts {
            passed: counts.passed,
            refused: counts.refused + 1,
        },
    }
}

/// The entry of the last item that is counted.
fn entry_of(counts: Counts, offset: usize, verdict: Verdict) -> Entry
    requires { counts.passed + counts.refused < 2 ^ 64 }
    ensures { result
        ≡ record { number = counts.passed + counts.refused; offset = offset; verdict = verdict } }
{
    Entry {
        number: counts.passed + counts.refused,
        offset,
        verdict,
    }
}

/// What the next item goes by.
#[derive(Clone, Copy)]
pub struct ItemTerms<'a> {
    /// The limits, and whether the gate is strict.
    pub terms: Terms,
    /// The external data.
    pub aad: &'a [u8],
    /// How many items before it passed, and how many were refused.
    pub counts: Counts,
}

/// One item more of what `gate_by` does: the counts with it, or `None` if no byte is left. The
/// contract goes on from what was seen at the first of the items that are counted, and from the
/// steps that these were: it was one step more, or the run had exactly these.
///
/// # Errors
/// Those of `gate_by`.
pub fn gate_next<R: Read, W: Write, P: Report, J: Judge>(
    alloc: Global,
    item: ItemTerms<'_>,
    decoder: &mut Decoder<R>,
    out: &mut W,
    report: &mut P,
    judge: &mut J,
    spare: &mut Spare,
) -> Result<Option<Counts>, GateFault<R::Error>>
    requires fresh { item.terms.strict ≡ true → waiting_of decoder.old ≡ None }
    requires room { item.counts.passed + item.counts.refused ≤ offset_of decoder.old }
    ensures ran { GoesOn R.ends
        (rules_by (limits_of item.entry.terms) P.Report J.Judge judge.old item.entry.aad.now)
        item.entry.counts
        (sight_of R.Read W.Write P.Report J.Judge decoder.old out.old report.old judge.old)
        (sight_of R.Read W.Write P.Report J.Judge decoder.new out.new report.new judge.new) result }
    ensures more { IfOk result (λ next. IfSome next (λ c.
        (offset_of decoder.old < offset_of decoder.new) × (c.passed + c.refused
        ≡ item.entry.counts.passed + item.entry.counts.refused + 1))) }
    ensures nothing { IfNothing (seen R.Read decoder.old) (seen R.Read decoder.new) result }
    ensures far { IfErr result (IfTooLong (IsFar (offset_of decoder.new))) }
    ensures reader { R.failed (reader_of decoder.new)
        ≡ R.failed (reader_of decoder.old) + reader_failures R.ends result }
    ensures writer { W.failed out.new ≡ W.failed out.old + writer_failures result }
    ensures who { J.who judge.new ≡ J.who judge.old }
    ensures kept { R.handle (reader_of decoder.new) ≡ R.handle (reader_of decoder.old) }
    ensures lent { W.handle out.new ≡ W.handle out.old }
    ensures fits { offset_of decoder.new < 2 ^ 64 }
    ensures fresh { waiting_of decoder.new ≡ None }
{
    let offset = decoder.offset();
    let Some(verdict) = pass_next(alloc, item, decoder, out, judge, spare)? else {
        return Ok(None);
    };
    let counts = counted(item.counts, verdict);
    report.note(&entry_of(counts, offset, verdict))?;
    Ok(Some(counts))
}

/// If so many bytes are at hand, or more, the next item isn't looked at.
const MANY: usize = 4096;

/// Whether the bytes at hand hold the whole item that they begin with, or are many. The answer may
/// be no though they do, if it has strings, arrays or maps of open length.
fn is_whole(alloc: Global, held: &[u8]) -> bool
    ensures { result ≡ true → (4096 ≤ length held.now) ⊎ BeginsItem held.now }
{
    held.len() >= MANY || begins_item(alloc, held)
}

/// If the gate is live, hands on what passed, and then what is noted of it, unless the next item is
/// at hand as a whole.
///
/// # Errors
/// `Write` if the output can't be flushed. The report holds back what it held then.
fn hand_over<R: Read, W: Write, P: Report>(
    alloc: Global,
    live: bool,
    decoder: &Decoder<R>,
    out: &mut W,
    report: &mut P,
) -> Result<(), GateFault<R::Error>>
    ensures written { Keeps (W.written out.old) (W.written out.new) }
    ensures failed { W.failed out.new ≡ W.failed out.old + writer_failures result }
    ensures lent { W.handle out.new ≡ W.handle out.old }
    ensures noted { P.state report.new ≡ P.state report.old }
    ensures stops { IfErr result (λ fault. (fault ≡ Write) × (live ≡ true)) }
    ensures handed { live ≡ true → OnOk result ((W.held out.new ≡ []) ⊎ ((b : List ℕ)
        × ((4096 ≤ length b) ⊎ BeginsItem b)
        × IfSome (left_of R.left decoder.now) (λ xs. StartsWith xs b))) }
{
    if !live {
        return Ok(());
    }
    if is_whole(alloc, decoder.held()) {
        return Ok(());
    }
    if out.flush().is_err() {
        return Err(GateFault::Write);
    }
    report.rest();
    Ok(())
}

/// Asks the judge about each tagged COSE_Sign1, COSE_Mac0, COSE_Sign and COSE_Mac of a CBOR
/// sequence that carries its payload, over exactly the bytes that its signature or tag covers, with
/// `aad` as external data, and writes those that passed, each as its canonical encoding (definite
/// lengths, shortest heads, header fields in fixed order; RFC 8949, section 4.2). About a COSE_Sign
/// it asks once for each signature, in order up to the first no, with that signature's headers as
/// the signer's; it has passed if the answer to each is yes, and one without a signature is
/// refused. Every item is noted in the report; one that is no such message is refused there, and
/// the gate goes on. If it is `live`, what passed, and then what is noted of it, is handed on after
/// each item, unless the next one is at hand as a whole; else it doesn't flush.
///
/// Items, and anew those in protected headers, nest no deeper than `terms.limits.nesting()` levels,
/// and no more than `terms.limits.layers()` protected headers are inside one another. If
/// `terms.strict`, a message passes only if its item is already what would be written; any other is
/// refused as `NotShortest`, and the judge isn't asked about it. Then no header may wait in the
/// decoder. No copy of an item's bytes is kept.
///
/// It ends with `Ok` if nothing is left after an item: the offset has grown by all bytes then, and
/// a reader that tells what is to come tells that nothing is. No header waits after any result.
/// What the clause `ran` says holds of the bytes that were there, also over a reader that doesn't
/// tell which are to come; if they are known, it holds of those. Of no bytes it ends with `Ok`,
/// unless the reader fails or offsets grow too long: the law `nothing_is_whole`.
///
/// # Errors
/// `Decode` if no readable item begins: all items before it were asked about, noted and written. Of
/// the bytes after these some were taken, or none, but of an item that is cut some; the offset has
/// grown by their count. They may end inside an item, so don't read on from there. `Decode` also if
/// the reader failed: then all that was asked, noted and written are the first items. `Write` if
/// the writer failed: a beginning of the encoding of a message was written after the output before
/// it, and the reader is after that message; or what passed could not be handed on. `Memory` if out
/// of memory: whole encodings were written, and of the questions about the item at hand a beginning
/// was asked; once all are asked, its encoding is written if it passes, which takes no memory, and
/// only its entry can be missing. If there is no such item, some of the bytes after the last one
/// were taken, or none, but none after the item that was due.
pub fn gate_by<R: Read, W: Write, P: Report, J: Judge>(
    alloc: Global,
    terms: Terms,
    live: bool,
    decoder: &mut Decoder<R>,
    out: &mut W,
    report: &mut P,
    aad: &[u8],
    judge: &mut J,
) -> Result<Counts, GateFault<R::Error>>
    requires { terms.strict ≡ true → waiting_of decoder.old ≡ None }
    ensures ran { Ran R.ends live
        (rules_by (limits_of terms) P.Report J.Judge judge.old aad.now)
        (sight_of R.Read W.Write P.Report J.Judge decoder.old out.old report.old judge.old)
        (sight_of R.Read W.Write P.Report J.Judge decoder.new out.new report.new judge.new) result }
    ensures far { IfErr result (IfTooLong (IsFar (offset_of decoder.new))) }
    ensures reader { R.failed (reader_of decoder.new)
        ≡ R.failed (reader_of decoder.old) + reader_failures R.ends result }
    ensures writer { W.failed out.new ≡ W.failed out.old + writer_failures result }
    ensures who { J.who judge.new ≡ J.who judge.old }
    ensures kept { R.handle (reader_of decoder.new) ≡ R.handle (reader_of decoder.old) }
    ensures lent { W.handle out.new ≡ W.handle out.old }
    ensures fits { offset_of decoder.new < 2 ^ 64 }
    ensures fresh { waiting_of decoder.new ≡ None }
{
    let mut counts = Counts {
        passed: 0,
        refused: 0,
    };
    let mut spare = Spare::new(alloc);
    'items: loop {
        let item = ItemTerms { terms, aad, counts };
        let Some(next) = gate_next(alloc, item, decoder, out, report, judge, &mut spare)? else {
            return Ok(counts);
        };
        counts = next;
        hand_over(alloc, live, decoder, out, report)?;
    }
}
