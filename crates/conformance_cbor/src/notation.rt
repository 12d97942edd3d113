//! Diagnostic notation (RFC 8949, section 8).
use ciborium::{Float, Value};
use coset_labels::read_to_value;
use test_tools::Out;

/// The item that all of these bytes are in diagnostic notation, or the text of the error.
pub fn diagnostic(to: &mut Out, bytes: &[u8], limit: usize) {
    match read_to_value(to.alloc(), bytes, limit) {
        Ok(value) => note(to, &value),
        Err(error) => to.failure(&error),
    }
}

/// A value in diagnostic notation. A float is its bits in hex, so that its width is seen.
pub fn note(to: &mut Out, value: &Value) {
    match value {
        Value::Array(items) => {
            to.text("[");
            for (index, item) in items.iter().enumerate() {
                note_comma(to, index);
                note(to, item);
            }
            to.text("]");
        }
        Value::Map(entries) => {
            to.text("{");
            for (index, (key, item)) in entries.iter().enumerate() {
                note_comma(to, index);
                note(to, key);
                to.text(": ");
                note(to, item);
            }
            to.text("}");
        }
        Value::Tag(number, content) => {
            to.show(number);
            to.text("(");
            note(to, content);
            to.text(")");
        }
        leaf => note_leaf(to, leaf),
    }
}

fn note_comma(to: &mut Out, index: usize) {
    if index > 0 {
        to.text(", ");
    }
}

fn note_leaf(to: &mut Out, value: &Value) {
    match value {
        Value::Integer(n) => to.show(&i128::from(*n)),
        Value::Bytes(bytes) => note_digits(to, "h'", bytes),
        Value::Text(text) => to.debug(&text.as_str()),
        Value::Float(Float::Half(bits)) => note_digits(to, "float'", &bits.to_be_bytes()),
        Value::Float(Float::Single(bits)) => note_digits(to, "float'", &bits.to_be_bytes()),
        Value::Float(Float::Double(bits)) => note_digits(to, "float'", &bits.to_be_bytes()),
        Value::Bool(value) => to.show(value),
        _ => to.text("null"),
    }
}

/// Bytes in hex between this and a mark.
pub fn note_digits(to: &mut Out, front: &str, bytes: &[u8]) {
    to.text(front);
    to.digits(bytes);
    to.text("'");
}
