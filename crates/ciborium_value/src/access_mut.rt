//! The parts of a value, to be changed.
ghost use Rattle.std.specs.Prelude.{◌≡◌, MatchOption, string_bytes, false};
ghost use Rattle.std.specs.Borrow.{LendsIf, sem};
ghost use Rattle.ciborium_value.specs.Tree as spec;
ghost use Rattle.ciborium_value.specs.Tree.{is_bytes};
ghost use Rattle.ciborium_value.specs.Kinds.{is_text, is_tag, is_array, is_map};

use crate::value::Value;

impl Value {
    ghost use Rattle.ciborium_value.specs.View.{view, views, view_pairs};
    ghost use Rattle.ciborium_value.specs.Rows.{bytes_row, text_row, items_row, entries_row};
    ghost use Rattle.ciborium_value.specs.contracts.value.Value.{the_row};
    ghost use Rattle.ciborium_value.specs.declared.value.Value.TheVariants as code;

    /// The bytes of a byte string, to be changed, or none for a value of another kind, which stays
    /// as it was.
    pub fn as_bytes_mut(&mut self) -> Option<&mut Vec<u8>>
        ensures* writes_back { sem 𝓛 (LendsIf the_row bytes_row self.entry result code.Bytes
            self.old) }
        ensures part { MatchOption result (is_bytes (view self.old) ≡ false)
            (λ v. view self.old ≡ spec.bytes v.now.items) }
    {
        if let Value::Bytes(content) = self {
            Some(content)
        } else {
            None
        }
    }

    /// The text of a text string, to be changed, or none for a value of another kind, which stays
    /// as it was.
    pub fn as_text_mut(&mut self) -> Option<&mut String>
        ensures* writes_back { sem 𝓛 (LendsIf the_row text_row self.entry result code.Text
            self.old) }
        ensures part { MatchOption result (is_text (view self.old) ≡ false)
            (λ s. view self.old ≡ spec.text (string_bytes s.now)) }
    {
        if let Value::Text(text) = self {
            Some(text)
        } else {
            None
        }
    }

    /// The items of an array, to be changed, or none for a value of another kind, which stays as it
    /// was.
    pub fn as_array_mut(&mut self) -> Option<&mut Vec<Value>>
        ensures* writes_back { sem 𝓛 (LendsIf the_row items_row self.entry result code.Array
            self.old) }
        ensures part { MatchOption result (is_array (view self.old) ≡ false)
            (λ v. view self.old ≡ spec.array (views v.now.items)) }
    {
        if let Value::Array(items) = self {
            Some(items)
        } else {
            None
        }
    }

    /// The entries of a map, to be changed, or none for a value of another kind, which stays as it
    /// was.
    pub fn as_map_mut(&mut self) -> Option<&mut Vec<(Value, Value)>>
        ensures* writes_back { sem 𝓛 (LendsIf the_row entries_row self.entry result code.Map
            self.old) }
        ensures part { MatchOption result (is_map (view self.old) ≡ false)
            (λ v. view self.old ≡ spec.map (view_pairs v.now.items)) }
    {
        if let Value::Map(entries) = self {
            Some(entries)
        } else {
            None
        }
    }

    /// The number of a tag and its item, to be changed, or none for a value of another kind.
    ///
    /// What the two are at the call is proved. That a value of another kind stays as it was, and
    /// that what is written through the two is in the tag afterwards, is only tested: no clause can
    /// say it of two parts of one value. `into_tag` is proved to give a value of another kind back.
    pub fn as_tag_mut(&mut self) -> Option<(&mut u64, &mut Value)>
        ensures { MatchOption result (is_tag (view self.old) ≡ false)
            (λ p. view self.old ≡ spec.tag p.0.now (view p.1.now)) }
    {
        if let Value::Tag(tag, content) = self {
            Some((tag, content))
        } else {
            None
        }
    }
}
