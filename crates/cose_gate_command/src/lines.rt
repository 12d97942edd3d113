//! Questions as lines of text.
ghost use Rattle.std.specs.Prelude.{◌≡◌, ◌<◌, ◌∷◌, ◌++◌, [], flat_map, slice_index};
ghost use Rattle.hex.specs.Hex.{encode_lower, lower_digits};
ghost use Rattle.cose_gate_command.specs.Asking.{SentText};
ghost use Rattle.cose_gate_command.specs.Lines as spec;
ghost use Rattle.cose_gate_command.specs.Hex.{hex_field};
ghost use Rattle.cose_gate_command.specs.Lines.{full_line, line_by, next_field, parts_of, told_as};
ghost use Rattle.cose_gate_command.specs.Read.{texts_read};
ghost use Rattle.cose_gate_core.specs.Questions as questions;
ghost use Rattle.cose_gate_records.specs.Records.{record_of};

use crate::options::Form;
use crate::question::{Question, read_question};
use ciborium_ll::Write;
use cose_gate_core::MessageKind;

/// Writes a question by its record: the record, or its line with these fields after the kind. Of
/// bytes that are no record no line is written.
///
/// # Errors
/// Those of the writer.
pub(crate) fn write_question<W: Write>(
    form: Form,
    fields: &[u8],
    record: &[u8],
    out: &mut W,
) -> Result<(), W::Error>
    ensures sent { (q : questions.Question) → (fields.now, «record».now) ≡ parts_of form q
        → SentText W.Write out.old out.new result (told_as form q) }
    ensures lent { W.handle out.new ≡ W.handle out.old }
{
    match form {
        Form::Records => out.write_all(record),
        Form::Lines | Form::Fields => write_line(fields, record, out),
    }
}

/// Writes the line of a record: the kind of the message by name, these fields, and in hex the seven
/// texts of the record and the record, with a space before each. An empty text is `-`.
fn write_line<W: Write>(fields: &[u8], record: &[u8], out: &mut W) -> Result<(), W::Error>
    ensures sent { (q : questions.Question) → «record».now ≡ record_of q
        → SentText W.Write out.old out.new result (full_line fields.now q) }
    ensures lent { W.handle out.new ≡ W.handle out.old }
{
    match read_question(record) {
        Some(question) => write_fields(&question, fields, record, out),
        None => Ok(()),
    }
}

/// Writes the line of this question, which has this record.
fn write_fields<W: Write>(
    question: &Question,
    fields: &[u8],
    record: &[u8],
    out: &mut W,
) -> Result<(), W::Error>
    ensures sent { SentText W.Write out.old out.new result (line_by question.now.kind fields.now
        (texts_read question.now ++ «record».now ∷ [])) }
    ensures lent { W.handle out.new ≡ W.handle out.old }
{
    out.write_all(name_of(question.kind).as_bytes())?;
    out.write_all(fields)?;
    write_texts(
        &[
            question.protected,
            question.unprotected,
            question.signer_protected,
            question.signer_unprotected,
            question.recipients,
            question.covered,
            question.signature,
            record,
        ],
        out,
    )?;
    out.write_all(b"\n")
}

/// Writes these texts, each with a space before it.
fn write_texts<W: Write>(texts: &[&[u8]], out: &mut W) -> Result<(), W::Error>
    ensures sent { SentText W.Write out.old out.new result
        (flat_map (λ t. next_field t.now) texts.now) }
    ensures lent { W.handle out.new ≡ W.handle out.old }
{
    for text in texts {
        out.write_all(b" ")?;
        write_field(text, out)?;
    }
    Ok(())
}

/// Writes a field.
fn write_field<W: Write>(text: &[u8], out: &mut W) -> Result<(), W::Error>
    ensures sent { SentText W.Write out.old out.new result (hex_field «text».now) }
    ensures lent { W.handle out.new ≡ W.handle out.old }
{
    if text.is_empty() {
        return out.write_all(b"-");
    }
    write_hex(text, out)
}

/// Writes bytes in hex.
fn write_hex<W: Write>(bytes: &[u8], out: &mut W) -> Result<(), W::Error>
    ensures sent { SentText W.Write out.old out.new result (encode_lower bytes.now) }
    ensures lent { W.handle out.new ≡ W.handle out.old }
{
    for byte in bytes {
        out.write_all(&digits(*byte))?;
    }
    Ok(())
}

/// The two hex digits of a byte.
fn digits(byte: u8) -> [u8; 2]
    ensures { result ≡ encode_lower (byte ∷ []) }
{
    [digit(byte / 16), digit(byte % 16)]
}

const DIGITS: &[u8; 16] = b"0123456789abcdef";

/// The hex digit of a value below 16.
fn digit(value: u8) -> u8
    requires { value < 16 }
    ensures { result ≡ slice_index lower_digits value }
{
    DIGITS[usize::from(value)]
}

/// The name of a kind of message.
fn name_of(kind: MessageKind) -> &'static str
    ensures { result.now ≡ spec.name_of kind }
{
    match kind {
        MessageKind::Sign1 => "Sign1",
        MessageKind::Mac0 => "Mac0",
        MessageKind::Sign => "Sign",
        MessageKind::Mac => "Mac",
    }
}
