//! One item on its way through the gate.
ghost use Rattle.std.specs.Prelude.{◌≡◌, ◌≢◌, ℕ, ◌+◌, List, true, false, pos, Some, None};
ghost use Rattle.std.specs.Prelude.{MatchBool, MatchOption, IfOk, IfErr, OnOk, OnErr};
ghost use Rattle.std.specs.Io.KnownBytes.{Appends};
ghost use Rattle.ciborium_value.specs.Encoding.{Fits, enc};
ghost use Rattle.ciborium_value.specs.Tree.{Tree, tag};
ghost use Rattle.ciborium_value.specs.View.{view};
ghost use Rattle.cose_iana.specs.Tags.{cbor_tags};
ghost use Rattle.coset_labels.specs.declared.error.CoseError.TheVariants.{Memory};
ghost use Rattle.cose_gate_core.specs.Calls.{item_rules, item_sight};
ghost use Rattle.cose_gate_core.specs.Findings.{Bounds, judged, HasMessage, IsEncryptedTag};
ghost use Rattle.cose_gate_core.specs.Findings.{Finds};
ghost use Rattle.cose_gate_core.specs.Misshapen.{IsReadAs};
ghost use Rattle.cose_gate_core.specs.Passing.{IsRefused, IsTold, IsHandled};
ghost use Rattle.cose_gate_core.specs.Passing.{IsWriteFault, item_failures};
ghost use Rattle.cose_gate_core.specs.Put.{tagged_put, is_as_received};
ghost use Rattle.cose_gate_core.specs.Questions.{number_of, tag_of, message_tree};
ghost use Rattle.cose_gate_core.specs.Received.{IsReceivedMessage};
ghost use Rattle.cose_gate_core.specs.Terms.{limits_of, IsTaken};
ghost use Rattle.cose_gate_core.specs.declared.report.Refusal.TheVariants.{Shape};

use crate::gating::ItemTerms;
use crate::judge::Judge;
use crate::message::Message;
use crate::report::{Refusal, Verdict};
use crate::writing::Written;
use ciborium::{Value, into_writer};
use ciborium_ll::Write;
use ciborium_value::laws::value_fits;
use cose_iana::{CborTag, EnumI64};
use coset_labels::{CoseError, TaggedCborSerializable};
use coset_maced::{CoseMac, CoseMac0};
use coset_signed::{CoseSign, CoseSign1};
use std::alloc::{AllocError, Global};

/// What stopped an item.
#[derive(Debug, Clone, Copy, PartialEq, Eq)]
pub enum ItemFault {
    /// The writer failed.
    Write,
    /// Out of memory.
    Memory,
}

impl From<AllocError> for ItemFault {
    ghost use Rattle.cose_gate_core.specs.declared.passing.ItemFault.TheVariants as fault;

    ghost from_gives = { λ _ e. e ≡ fault.Memory };

    fn from(_: AllocError) -> ItemFault {
        ItemFault::Memory
    }
}

fn is_memory(error: &CoseError) -> bool
    ensures { MatchBool result (error.now ≡ Memory) (error.now ≢ Memory) }
{
    matches!(error, CoseError::Memory)
}

/// The refusal of the content of a tag that can't be read as a message of the tag's kind.
fn shape_refusal(error: CoseError) -> Result<Refusal, AllocError>
    ensures ok { IfOk result (λ refusal. (refusal ≡ Shape error) × (error ≢ Memory)) }
    ensures err { OnErr result (error ≡ Memory) }
{
    if is_memory(&error) {
        return Err(AllocError);
    }
    Ok(Refusal::Shape(error))
}

/// Whether a strict gate may pass a message of this content of its tag. A gate that isn't strict
/// doesn't ask.
fn is_shortest<M: Message>(strict: bool, exact: bool, content: &Value) -> bool
    ensures { (limits : Bounds) (m : M) → HasMessage limits (view content.now) (M.message m)
        → MatchBool result (strict ≡ true → (exact ≡ true)
        × (message_tree (M.message m) ≡ Some (view content.now)))
        ((strict ≡ true) × Fits (view content.now)
        × (exact ≡ true → message_tree (M.message m) ≡ Some (view content.now) → ⊥)) }
{
    if !strict {
        return true;
    }
    if exact && M::is_as_written(content) {
        return true;
    }
    value_fits(content);
    false
}

/// Why a message that was read is not judged, if it isn't. One without a payload is detached,
/// whether it has signatures or not; `NotShortest` is said only of one that would else be judged.
fn bar_of<M: Message>(message: &M, shortest: bool) -> Option<Refusal>
    ensures { (limits : Bounds) (b : List ℕ) (u : Tree)
        → HasMessage limits u (M.message message.now)
        → IsTold limits b (M.message message.now) shortest
        → MatchOption result
        (Finds limits b (tag (tag_of (M.message message.now)) u)
        (judged (M.message message.now)))
        (IsRefused limits b (tag (tag_of (M.message message.now)) u)) }
{
    if !message.is_carried() {
        return Some(Refusal::Detached);
    }
    if message.is_unsigned() {
        return Some(Refusal::NoSignature);
    }
    if !shortest {
        return Some(Refusal::NotShortest);
    }
    None
}

/// Writes the canonical encoding of a message with its tag. That takes no memory.
fn write_message<M: Message, W: Write>(message: &M, out: &mut W) -> Result<(), ItemFault>
    requires { is_as_received (M.message message.now) ≡ true }
    ensures ok { OnOk result (Appends (W.written out.old) (W.written out.new)
        (enc (tagged_put (M.message message.now)))) }
    ensures err { IfErr result (IsWriteFault (W.written out.old) (W.written out.new)
        (enc (tagged_put (M.message message.now)))) }
    ensures kept { W.handle out.new ≡ W.handle out.old }
    ensures failed { W.failed out.new ≡ W.failed out.old + item_failures result }
{
    match into_writer(&Written { message }, out) {
        Ok(()) => Ok(()),
        Err(_) => Err(ItemFault::Write),
    }
}

/// Asks the judge about a message, and writes it if it has passed. After the last answer it takes
/// no memory.
fn pass_message<M: Message, W: Write, J: Judge>(
    item: ItemTerms<'_>,
    message: &M,
    out: &mut W,
    judge: &mut J,
) -> Result<Verdict, ItemFault>
    requires received { IsReceivedMessage (M.message message.now) }
    requires put { is_as_received (M.message message.now) ≡ true }
    ensures handled { (bytes : List ℕ) (t : Tree)
        → Finds (limits_of item.entry.terms) bytes t (judged (M.message message.now))
        → IsHandled (item_rules J.Judge judge.old item.entry) bytes t
        (item_sight W.Write J.Judge out.old judge.old)
        (item_sight W.Write J.Judge out.new judge.new) result }
    ensures who { J.who judge.new ≡ J.who judge.old }
    ensures kept { W.handle out.new ≡ W.handle out.old }
    ensures failed { W.failed out.new ≡ W.failed out.old + item_failures result }
{
    match message.ask(item.aad, judge)? {
        Some(index) => Ok(Verdict::Refused(Refusal::Judged(index))),
        None => {
            write_message(message, out)?;
            Ok(Verdict::Passed)
        }
    }
}

/// Asks the judge about a message that was read of the content of its kind's tag, and writes it if
/// it has passed. `shortest` says whether a strict gate may pass it.
pub fn pass_read<M: Message, W: Write, J: Judge>(
    item: ItemTerms<'_>,
    message: &M,
    read: Result<(), CoseError>,
    shortest: bool,
    out: &mut W,
    judge: &mut J,
) -> Result<Verdict, ItemFault>
    requires { (u : Tree) × IsReadAs (limits_of item.terms) M.kind (M.message message.now) u read }
    ensures handled { (b : List ℕ) (u : Tree)
        → IsReadAs (limits_of item.entry.terms) M.kind (M.message message.now) u read
        → OnOk read (IsTold (limits_of item.entry.terms) b (M.message message.now) shortest)
        → IsHandled (item_rules J.Judge judge.old item.entry) b (tag (number_of M.kind) u)
        (item_sight W.Write J.Judge out.old judge.old)
        (item_sight W.Write J.Judge out.new judge.new) result }
    ensures who { J.who judge.new ≡ J.who judge.old }
    ensures kept { W.handle out.new ≡ W.handle out.old }
    ensures failed { W.failed out.new ≡ W.failed out.old + item_failures result }
{
    match read {
        Ok(()) => {}
        Err(error) => return Ok(Verdict::Refused(shape_refusal(error)?)),
    }
    match bar_of(message, shortest) {
        Some(refusal) => Ok(Verdict::Refused(refusal)),
        None => pass_message(item, message, out, judge),
    }
}

/// Reads the content of a tag as a message of the tag's kind, asks the judge about it, and writes
/// it if it has passed.
fn pass_as<M: Message, W: Write, J: Judge>(
    alloc: Global,
    item: ItemTerms<'_>,
    exact: bool,
    content: Value,
    out: &mut W,
    judge: &mut J,
) -> Result<Verdict, ItemFault>
    ensures handled { (b : List ℕ)
        → IsTaken item.entry.terms b (tag (number_of M.kind) (view content)) exact
        → IsHandled (item_rules J.Judge judge.old item.entry)
        b (tag (number_of M.kind) (view content))
        (item_sight W.Write J.Judge out.old judge.old)
        (item_sight W.Write J.Judge out.new judge.new) result }
    ensures who { J.who judge.new ≡ J.who judge.old }
    ensures kept { W.handle out.new ≡ W.handle out.old }
    ensures failed { W.failed out.new ≡ W.failed out.old + item_failures result }
{
    let shortest = is_shortest::<M>(item.terms.strict, exact, &content);
    let mut message = M::empty(alloc);
    let read = message.read(alloc, item.terms, content);
    pass_read(item, &message, read, shortest, out, judge)
}

/// Whether this is the tag's number in the registry (RFC 9052, section 2).
fn is_tag(number: u64, tag: CborTag) -> bool
    ensures { MatchBool result (pos number ≡ cbor_tags.number tag)
        (pos number ≢ cbor_tags.number tag) }
{
    i128::from(number) == i128::from(tag.to_i64())
}

/// Whether this is the tag of an encrypted message.
fn is_encrypted(number: u64) -> bool
    ensures { MatchBool result (IsEncryptedTag number) (IsEncryptedTag number → ⊥) }
{
    is_tag(number, CborTag::CoseEncrypt0) || is_tag(number, CborTag::CoseEncrypt)
}

/// Tests an item that was read, asks the judge about it, and writes it if it has passed.
pub fn pass<W: Write, J: Judge>(
    alloc: Global,
    item: ItemTerms<'_>,
    exact: bool,
    value: Value,
    out: &mut W,
    judge: &mut J,
) -> Result<Verdict, ItemFault>
    ensures handled { (bytes : List ℕ) → IsTaken item.entry.terms bytes (view value) exact
        → IsHandled (item_rules J.Judge judge.old item.entry) bytes (view value)
        (item_sight W.Write J.Judge out.old judge.old)
        (item_sight W.Write J.Judge out.new judge.new) result }
    ensures who { J.who judge.new ≡ J.who judge.old }
    ensures kept { W.handle out.new ≡ W.handle out.old }
    ensures failed { W.failed out.new ≡ W.failed out.old + item_failures result }
{
    let Ok((number, content)) = value.into_tag() else {
        return Ok(Verdict::Refused(Refusal::NotTagged));
    };
    let content = Box::into_inner(content);
    match number {
        CoseSign1::TAG => pass_as::<CoseSign1, W, J>(alloc, item, exact, content, out, judge),
        CoseMac0::TAG => pass_as::<CoseMac0, W, J>(alloc, item, exact, content, out, judge),
        CoseSign::TAG => pass_as::<CoseSign, W, J>(alloc, item, exact, content, out, judge),
        CoseMac::TAG => pass_as::<CoseMac, W, J>(alloc, item, exact, content, out, judge),
        _ if is_encrypted(number) => Ok(Verdict::Refused(Refusal::Encrypted)),
        _ => Ok(Verdict::Refused(Refusal::OtherTag(number))),
    }
}
