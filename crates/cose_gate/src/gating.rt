//! The gate.
ghost use Rattle.std.specs.Prelude.{◌≡◌, None, true, false};
ghost use Rattle.ciborium_ll.specs.Views.{waiting_of};
ghost use Rattle.cose_gate_core.specs.Findings.{usual, usual_exact};
ghost use Rattle.cose_gate_core.specs.Terms.{limits_by};
ghost use Rattle.cose_gate.specs.Gate.{Gates, call_of};

use ciborium_ll::{Decoder, Read, Write};
use cose_gate_core::{Counts, GateFault, Judge, Limits, Report, Terms, gate_by};
use std::alloc::Global;

/// Asks the judge about each tagged COSE_Sign1, COSE_Mac0, COSE_Sign and COSE_Mac of a CBOR
/// sequence that carries its payload, over exactly the bytes that its signature or tag covers, with
/// `aad` as external data, and writes those that passed, each as its canonical encoding (definite
/// lengths, shortest heads, header fields in fixed order; RFC 8742, RFC 9052, RFC 8949, section
/// 4.2). About a COSE_Sign it asks once for each signature, in order up to the first no, with that
/// signature's headers as the signer's; it has passed if the answer to each is yes, and one without
/// a signature is refused. Every item is noted in the report; one that is no such message is
/// refused there, and the gate goes on. It doesn't flush.
///
/// It ends with `Ok` only if nothing is left after an item: the offset has grown by all bytes then,
/// and a reader that tells what is to come tells that nothing is. No header waits after any result.
/// The contract is the record `Gates`, a field for each fact. What its field `ran` says of one run
/// holds of the bytes that were there, also over a reader that doesn't tell which are to come; if
/// they are known, it holds of those, and the law `ran_is_run` compares it with the run of the
/// input.
///
/// # Errors
/// `Decode` if no readable item begins: all items before it were asked about, noted and written. Of
/// the bytes after these some were taken, or none, but of an item that is cut some; the offset has
/// grown by their count. They may end inside an item, so don't read on from there. `Decode` also if
/// the reader failed: all that was asked, noted and written are the first items then. `Write` if
/// the writer failed: a beginning of the encoding of a message that passes was written after the
/// output before it, and the reader is after that message. `Memory` if out of memory: whole
/// encodings were written, and of the questions about the item at hand a beginning was asked; once
/// all are asked, its encoding is written if it passes, which takes no memory, and only its entry
/// can be missing. If there is no such item, some of the bytes after the last one were taken, or
/// none, but none after the item that was due.
pub fn gate<R: Read, W: Write, P: Report, J: Judge>(
    alloc: Global,
    decoder: &mut Decoder<R>,
    out: &mut W,
    report: &mut P,
    aad: &[u8],
    judge: &mut J,
) -> Result<Counts, GateFault<R::Error>>
    ensures { Gates (call_of R.Read W.Write P.Report J.Judge false usual aad.now
        decoder.old out.old report.old judge.old decoder.new out.new report.new judge.new) result }
{
    gate_with(alloc, Limits::default(), decoder, out, report, aad, judge)
}

/// As `gate`, within these limits: items, and anew those in protected headers, nest no deeper than
/// `limits.nesting()` levels, and no more than `limits.layers()` protected headers are inside one
/// another. One whose headers go beyond is no message: `Shape`.
pub fn gate_with<R: Read, W: Write, P: Report, J: Judge>(
    alloc: Global,
    limits: Limits,
    decoder: &mut Decoder<R>,
    out: &mut W,
    report: &mut P,
    aad: &[u8],
    judge: &mut J,
) -> Result<Counts, GateFault<R::Error>>
    ensures { Gates (call_of R.Read W.Write P.Report J.Judge false (limits_by limits false) aad.now
        decoder.old out.old report.old judge.old decoder.new out.new report.new judge.new) result }
{
    let terms = Terms {
        limits,
        strict: false,
    };
    gate_by(alloc, terms, false, decoder, out, report, aad, judge)
}

/// As `gate`, and strict: a message passes only if its item is already what would be written for it
/// (RFC 8949, section 4.2, with the fields of headers in fixed order). One that is encoded
/// otherwise is refused as `NotShortest`, and the judge isn't asked about it. So the output is the
/// received bytes of the messages that pass, joined: the law `output_is_received`. No header may
/// wait in the decoder. No copy of an item's bytes is kept.
pub fn gate_strict<R: Read, W: Write, P: Report, J: Judge>(
    alloc: Global,
    decoder: &mut Decoder<R>,
    out: &mut W,
    report: &mut P,
    aad: &[u8],
    judge: &mut J,
) -> Result<Counts, GateFault<R::Error>>
    requires { waiting_of decoder.old ≡ None }
    ensures { Gates (call_of R.Read W.Write P.Report J.Judge false usual_exact aad.now
        decoder.old out.old report.old judge.old decoder.new out.new report.new judge.new) result }
{
    gate_strict_with(alloc, Limits::default(), decoder, out, report, aad, judge)
}

/// As `gate_strict`, within these limits.
pub fn gate_strict_with<R: Read, W: Write, P: Report, J: Judge>(
    alloc: Global,
    limits: Limits,
    decoder: &mut Decoder<R>,
    out: &mut W,
    report: &mut P,
    aad: &[u8],
    judge: &mut J,
) -> Result<Counts, GateFault<R::Error>>
    requires { waiting_of decoder.old ≡ None }
    ensures { Gates (call_of R.Read W.Write P.Report J.Judge false (limits_by limits true) aad.now
        decoder.old out.old report.old judge.old decoder.new out.new report.new judge.new) result }
{
    let terms = Terms {
        limits,
        strict: true,
    };
    gate_by(alloc, terms, false, decoder, out, report, aad, judge)
}
