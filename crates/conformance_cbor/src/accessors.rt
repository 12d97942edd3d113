//! What a value gives by its accessors.
use crate::items::item_of;
use crate::notation::note;
use ciborium_value::{Integer, Value};
use test_tools::Out;

/// The accessors that take a value apart.
const TAKING: [&str; 5] = [
    "into_integer",
    "into_float",
    "into_bool",
    "into_array",
    "into_map",
];

/// Each accessor that gives something of the item, or of a copy of it, with what it gives: of an
/// array or a map that is seen how long it is, and of a part that is changed the value then: a text
/// with a mark after it, bytes, an array or a map with nothing in it, tag 98 over 5 for a tag.
/// `lost` if one changes another value or doesn't give it back.
pub fn accessors(to: &mut Out, item: &str) {
    let value = item_of(to, item);
    tell_parts(to, &value);
    tell_lengths(to, &value);
    for name in TAKING {
        tell_taken(to, name, &value);
    }
    tell_changed(to, &value);
    if to.is_empty() {
        to.text("none");
    }
}

/// A copy of the value.
fn copied(to: &mut Out, value: &Value) -> Value {
    let copy = value.clone(to.alloc());
    to.kept(copy).unwrap_or(Value::Null)
}

/// The name of one of them, in front of what it gives.
fn name(to: &mut Out, name: &str) {
    to.apart(", ");
    to.text(name);
    to.text(" ");
}

/// What is seen of a float, a text or a truth value.
fn tell_parts(to: &mut Out, value: &Value) {
    if let Some(float) = value.as_float() {
        name(to, "as_float");
        note(to, &Value::Float(float));
    }
    if let Some(content) = value.as_text() {
        name(to, "as_text");
        to.debug(&content);
    }
    if let Some(truth) = value.as_bool() {
        name(to, "as_bool");
        to.show(&truth);
    }
}

/// How long an array or a map is that is seen.
fn tell_lengths(to: &mut Out, value: &Value) {
    if let Some(items) = value.as_array() {
        name(to, "as_array");
        to.show(&items.len());
    }
    if let Some(entries) = value.as_map() {
        name(to, "as_map");
        to.show(&entries.len());
    }
}

/// What this accessor takes out of a copy, or that it gives another value back.
fn tell_taken(to: &mut Out, accessor: &str, value: &Value) {
    let copy = copied(to, value);
    match taken_by(accessor, copy) {
        Ok(content) => {
            name(to, accessor);
            note(to, &content);
        }
        Err(back) => tell_lost(to, accessor, back == *value),
    }
}

fn tell_lost(to: &mut Out, accessor: &str, is_back: bool) {
    if !is_back {
        name(to, accessor);
        to.text("lost");
    }
}

/// What this accessor takes out of a value, as a value again, or the value that it gives back.
fn taken_by(accessor: &str, value: Value) -> Result<Value, Value> {
    match accessor {
        "into_integer" => value.into_integer().map(Value::Integer),
        "into_float" => value.into_float().map(Value::Float),
        "into_bool" => value.into_bool().map(Value::Bool),
        "into_array" => value.into_array().map(Value::Array),
        _ => value.into_map().map(Value::Map),
    }
}

/// The copy with a part of it changed.
fn tell_changed(to: &mut Out, value: &Value) {
    let mut copy = copied(to, value);
    match changed(to, &mut copy) {
        Some(accessor) => {
            name(to, accessor);
            note(to, &copy);
        }
        None => tell_lost(to, "mut", copy == *value),
    }
}

/// Changes a part of a value, and names the accessor by which it did.
fn changed(to: &mut Out, value: &mut Value) -> Option<&'static str> {
    if let Some(content) = value.as_text_mut() {
        let done = content.push_str("!");
        to.note(done);
        return Some("as_text_mut");
    }
    if let Some(content) = value.as_bytes_mut() {
        content.clear();
        return Some("as_bytes_mut");
    }
    if let Some(items) = value.as_array_mut() {
        items.clear();
        return Some("as_array_mut");
    }
    if let Some(entries) = value.as_map_mut() {
        entries.clear();
        return Some("as_map_mut");
    }
    if let Some((number, content)) = value.as_tag_mut() {
        *number = 98;
        *content = Value::Integer(Integer::from(5u64));
        return Some("as_tag_mut");
    }
    None
}
