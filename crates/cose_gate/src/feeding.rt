//! What is fed to the judge: the front of the structure, and the payload as it passes.
ghost use Rattle.std.specs.Prelude.{◌≡◌, ◌<◌, ◌++◌, [], ℕ, List, None, IfErr, IfOk, OnOk, length};
ghost use Rattle.ciborium_ll.specs.Seen.{Takes};
ghost use Rattle.ciborium_ll.specs.Views.{left_of, offset_of, waiting_of, seen};
ghost use Rattle.coset_base.specs.Structure.{structure};
ghost use Rattle.cose_gate_core.specs.Questions.{Subject};
ghost use Rattle.cose_gate.specs.ElementFaults.{CopiedNext, ShortFault, Split};
ghost use Rattle.cose_gate.specs.Forms.{context_of};
ghost use Rattle.cose_gate.specs.StreamFaults.{IsFarFor, NamesWhy, Steady};
ghost use Rattle.cose_gate.specs.Streaming.{WritesAll};

use crate::fault::StreamFault;
use crate::form::Form;
use ciborium_ll::{Decoder, Read, Write};
use cose_gate_core::Judge;
use coset_base::bytes_title;
use std::alloc::AllocError;

/// Feeds what is in front of the payload's bytes in the structure (RFC 9052, sections 4.4 and 6.3).
/// The length of each byte string is written anew, by its shortest title.
pub fn feed_front<J: Judge>(
    form: Form,
    protected: &[u8],
    aad: &[u8],
    size: usize,
    judge: &mut J,
) -> Result<(), AllocError>
    ensures ok { OnOk result ((front : List ℕ)
        × ((subject : Subject) → J.holds judge.old subject [] → J.holds judge.new subject front)
        × ((payload : List ℕ) → length payload ≡ size
        → structure (context_of form) protected.now None aad.now payload ≡ front ++ payload)) }
    ensures told { J.told judge.new ≡ J.told judge.old }
    ensures who { J.who judge.new ≡ J.who judge.old }
{
    judge.feed(form.prefix())?;
    judge.feed(bytes_title(protected.len()).as_slice())?;
    judge.feed(protected)?;
    judge.feed(bytes_title(aad.len()).as_slice())?;
    judge.feed(aad)?;
    judge.feed(bytes_title(size).as_slice())?;
    Ok(())
}

/// Feeds the bytes of the payload, as many at a time as the buffer holds, and writes them, until
/// the writer fails.
pub fn feed_payload<R: Read, J: Judge, W: Write>(
    decoder: &mut Decoder<R>,
    buffer: &mut [u8],
    size: usize,
    judge: &mut J,
    out: &mut W,
) -> Result<Result<(), W::Error>, StreamFault<R::Error>>
    requires fresh { waiting_of decoder.old ≡ None }
    requires room { 0 < length buffer.old }
    ensures ok { IfOk result (λ written. Takes (seen R.Read decoder.old) (seen R.Read decoder.new)
        (λ b. (length b ≡ size) × (((subject : Subject) (bytes : List ℕ)
        → J.holds judge.old subject bytes → J.holds judge.new subject (bytes ++ b))
        × WritesAll W.Write out.old out.new written b))) }
    ensures pieces { OnOk result (Split size (length buffer.old) (J.pieces judge.old)
        (J.pieces judge.new)) }
    ensures err { IfErr result (NamesWhy R.ends (λ stop b. ShortFault size b) (length buffer.old)
        (seen R.Read decoder.old)) }
    ensures part { CopiedNext W.Write out.old out.new (left_of R.left decoder.old) size }
    ensures told { J.told judge.new ≡ J.told judge.old }
    ensures who { J.who judge.new ≡ J.who judge.old }
    ensures far { IfErr result (IsFarFor (length buffer.old) (offset_of decoder.new)) }
    ensures steady { Steady R.ends result (seen R.Read decoder.old) (seen R.Read decoder.new) }
    ensures lent { W.handle out.new ≡ W.handle out.old }
{
    let room = buffer.len();
    let mut due = size;
    let mut written = Ok(());
    'pieces: while due > 0 {
        let count = due.min(room);
        decoder.read_exact(&mut buffer[..count])?;
        judge.feed(&buffer[..count])?;
        written = write_on(written, &buffer[..count], out);
        due -= count;
    }
    Ok(written)
}

/// Writes the next piece, if those before it were written.
fn write_on<W: Write>(
    written: Result<(), W::Error>,
    piece: &[u8],
    out: &mut W,
) -> Result<(), W::Error>
    ensures grows { (first : W) (b : List ℕ) → WritesAll W.Write first out.old written b
        → WritesAll W.Write first out.new result (b ++ piece.now) }
    ensures lent { W.handle out.new ≡ W.handle out.old }
{
    match written {
        Ok(()) => out.write_all(piece),
        Err(fault) => Err(fault),
    }
}
