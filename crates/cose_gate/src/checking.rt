//! The streaming check.
ghost use Rattle.std.specs.Prelude.{◌≡◌, ◌<◌, IfOk, IfErr, OnErr, length, false};
ghost use Rattle.ciborium_ll.specs.Seen.{Takes};
ghost use Rattle.ciborium_ll.specs.Views.{left_of, offset_of, seen};
ghost use Rattle.cose_gate_core.specs.Findings.{usual};
ghost use Rattle.cose_gate_core.specs.Terms.{limits_by};
ghost use Rattle.cose_gate.specs.StreamFaults.{IsFarFor, NamesWhy, Steady};
ghost use Rattle.cose_gate.specs.Streaming.{CheckedBy, CopiedBy, CopiedPart, WritesAll, IsPlaced};
ghost use Rattle.cose_gate.specs.Streaming.{UnstreamedBy, AnswersStatedBy};

use crate::fault::StreamFault;
use crate::feeding::{feed_front, feed_payload};
use crate::parts::{protected_part, signature_part, unprotected_part};
use crate::titles::{close, four, message_tag, payload_size};
use ciborium_ll::{Decoder, Read, Write};
use cose_gate_core::{About, Judge, Limits, received};
use cose_gate_records::Nowhere;
use std::alloc::Global;

/// Checks one tagged COSE_Sign1 or COSE_Mac0 that carries its payload as a byte string of stated
/// length: the payload passes through the buffer, piece by piece, and is never gathered. The judge
/// is asked the same question as by `gate`, with this external data; the result is the judge's
/// answer.
///
/// The whole message is read before the judge decides. After a fault the judge was told nothing;
/// how much of the input was taken then is open.
///
/// # Errors
/// `NotTagged` and `OtherTag` by the first title. `Detached` and `Unsized` by the title in the
/// payload's place, after two headers. `Shape` with the fault of the first part that is wrong, also
/// if what follows is damaged. If an item is readable, it has this fault as a message of its tag;
/// of an open array that ends at another length, the fault may be one of a header. `Decode` if no
/// item is readable, or the reader failed, or `TooLong`: only if the offset is within 4,096 bytes
/// of 2^64 then, or within the buffer's length if that is more. `Memory`: after the tag of such a
/// message and the title of an array of four. `Shape` comes after such a tag too.
pub fn stream_check<R: Read, J: Judge>(
    alloc: Global,
    decoder: &mut Decoder<R>,
    buffer: &mut [u8],
    aad: &[u8],
    judge: &mut J,
) -> Result<bool, StreamFault<R::Error>>
    requires room { 0 < length buffer.old }

    // A judged message of a stated length was taken whole; the answer is the judge's to its
    // questions, and it was told of them alone.
    ensures ok { IfOk result (λ yes. Takes (seen R.Read decoder.old) (seen R.Read decoder.new)
        (CheckedBy usual J.decided (J.yes (J.who judge.old)) aad.now (J.told judge.old)
        (J.told judge.new) (length buffer.old) (J.pieces judge.new) yes)) }

    // Each fault says what is true of the bytes, and the judge was told nothing.
    ensures err { IfErr result (NamesWhy R.ends (UnstreamedBy usual) (length buffer.old)
        (seen R.Read decoder.old)) }
    ensures told { OnErr result (J.told judge.new ≡ J.told judge.old) }
    ensures who { J.who judge.new ≡ J.who judge.old }
    ensures steady { Steady R.ends result (seen R.Read decoder.old) (seen R.Read decoder.new) }

    // `TooLong` comes only if the offset is that near to 2^64, whether or not the reader tells its
    // bytes.
    ensures far { IfErr result (IsFarFor (length buffer.old) (offset_of decoder.new)) }

    // If such a message is in front, the result is Ok or a fault of memory, of the reader, or of an
    // offset that grows too long.
    ensures exactly { AnswersStatedBy usual R.ends (length buffer.old)
        (seen R.Read decoder.old) result }
{
    stream_check_with(alloc, Limits::default(), decoder, buffer, aad, judge)
}

/// As `stream_check`, within these limits: the message, and anew the headers in its protected
/// bytes, nest no deeper than `limits.nesting()` levels, and no more than `limits.layers()`
/// protected headers lie inside one another. One whose headers go beyond is no message: `Shape`.
///
/// # Errors
/// Those of `stream_check`.
pub fn stream_check_with<R: Read, J: Judge>(
    alloc: Global,
    limits: Limits,
    decoder: &mut Decoder<R>,
    buffer: &mut [u8],
    aad: &[u8],
    judge: &mut J,
) -> Result<bool, StreamFault<R::Error>>
    requires room { 0 < length buffer.old }

    // A judged message of a stated length was taken whole; the answer is the judge's to its
    // questions, and it was told of them alone.
    ensures ok { IfOk result (λ yes. Takes (seen R.Read decoder.old) (seen R.Read decoder.new)
        (CheckedBy (limits_by limits false) J.decided
        (J.yes (J.who judge.old)) aad.now (J.told judge.old) (J.told judge.new)
        (length buffer.old) (J.pieces judge.new) yes)) }

    // Each fault says what is true of the bytes, and the judge was told nothing.
    ensures err { IfErr result (NamesWhy R.ends
        (UnstreamedBy (limits_by limits false)) (length buffer.old)
        (seen R.Read decoder.old)) }
    ensures told { OnErr result (J.told judge.new ≡ J.told judge.old) }
    ensures who { J.who judge.new ≡ J.who judge.old }
    ensures steady { Steady R.ends result (seen R.Read decoder.old) (seen R.Read decoder.new) }

    // `TooLong` comes only if the offset is that near to 2^64, whether or not the reader tells its
    // bytes.
    ensures far { IfErr result (IsFarFor (length buffer.old) (offset_of decoder.new)) }

    // If such a message is in front, the result is Ok or a fault of memory, of the reader, or of an
    // offset that grows too long.
    ensures exactly { AnswersStatedBy (limits_by limits false) R.ends
        (length buffer.old) (seen R.Read decoder.old) result }
{
    match stream_check_into(alloc, limits, decoder, buffer, aad, judge, &mut Nowhere) {
        Ok(streamed) => Ok(streamed.yes),
        Err(fault) => Err(fault),
    }
}

/// Where the payload of a message is in the input.
#[derive(Debug, Clone, Copy, PartialEq, Eq)]
pub struct Place {
    /// The decoder's offset where it begins.
    pub at: usize,
    /// Its bytes.
    pub length: usize,
}

/// How a message was checked whose payload was written.
#[derive(Debug, PartialEq, Eq, Drop)]
pub struct Streamed<E> {
    /// The judge's answer.
    pub yes: bool,
    /// Whether the whole payload was written; if not, the writer's fault.
    pub written: Result<(), E>,
    /// Where the payload is.
    pub payload: Place,
}

/// As `stream_check_with`, and writes each piece of the payload to `out` once it was read. What is
/// written may be used only after a yes. If the writer fails, nothing more is written, and the
/// message is checked to its end.
///
/// # Errors
/// Those of `stream_check`. Nothing is written then, or a beginning of the payload: bytes that
/// follow the title in its place, from the first one on, and no more than it states. After them the
/// message may be cut or damaged.
pub fn stream_check_into<R: Read, J: Judge, W: Write>(
    alloc: Global,
    limits: Limits,
    decoder: &mut Decoder<R>,
    buffer: &mut [u8],
    aad: &[u8],
    judge: &mut J,
    out: &mut W,
) -> Result<Streamed<W::Error>, StreamFault<R::Error>>
    requires room { 0 < length buffer.old }

    // A judged message of a stated length was taken whole, and its payload written, if the writer
    // didn't fail; the answer is the judge's to its questions, and it was told of them alone.
    ensures ok { IfOk result (λ s. Takes (seen R.Read decoder.old) (seen R.Read decoder.new)
        (CopiedBy (limits_by limits false) J.decided
        (J.yes (J.who judge.old)) aad.now (J.told judge.old) (J.told judge.new)
        (length buffer.old) (J.pieces judge.new)
        (WritesAll W.Write out.old out.new s.written) s.yes)) }

    // The payload of that message is in this place.
    ensures place { IfOk result (λ s. IsPlaced (seen R.Read decoder.old) s.payload) }

    // Each fault says what is true of the bytes, and the judge was told nothing.
    ensures err { IfErr result (NamesWhy R.ends
        (UnstreamedBy (limits_by limits false)) (length buffer.old)
        (seen R.Read decoder.old)) }
    ensures told { OnErr result (J.told judge.new ≡ J.told judge.old) }
    ensures who { J.who judge.new ≡ J.who judge.old }
    ensures far { IfErr result (IsFarFor (length buffer.old) (offset_of decoder.new)) }
    ensures steady { Steady R.ends result (seen R.Read decoder.old) (seen R.Read decoder.new) }

    // Whatever the result, nothing was written but a beginning of the payload, once, up to its end
    // or to one failure of the writer.
    ensures part { CopiedPart (limits_by limits false) W.Write out.old out.new
        (left_of R.left decoder.old) }
    ensures lent { W.handle out.new ≡ W.handle out.old }
{
    let form = message_tag(decoder)?;
    let count = four(decoder)?;
    let protected = protected_part(alloc, limits, decoder)?;
    let unprotected = unprotected_part(alloc, limits, decoder)?;
    let size = payload_size(decoder, form)?;
    let payload = Place {
        at: decoder.offset(),
        length: size,
    };
    let about = About::alone(form.kind(), &protected, &unprotected);
    judge.begin(&about)?;
    feed_front(form, received(&protected), aad, size, judge)?;
    let written = feed_payload(decoder, buffer, size, judge, out)?;
    let signature = signature_part(alloc, limits, decoder)?;
    close(decoder, count)?;
    let yes = judge.decide(&signature);
    Ok(Streamed {
        yes,
        written,
        payload,
    })
}
