//! The parts of a value, by its kind. A refused call gives the value back or leaves it as it was.
ghost use Rattle.std.specs.Prelude.{◌≡◌, MatchOption, MatchResult, string_bytes, false};
ghost use Rattle.ciborium_value.specs.Tree as spec;
ghost use Rattle.ciborium_value.specs.Tree.{is_bytes};
ghost use Rattle.ciborium_value.specs.Kinds.{is_integer, is_float, is_text, is_bool, is_null};
ghost use Rattle.ciborium_value.specs.Kinds.{is_tag, is_array, is_map};

use crate::integer::Integer;
use crate::value::Value;
use ciborium_ll::Float;

impl Value {
    ghost use Rattle.ciborium_value.specs.View.{view, number_of, views, view_pairs, bool_tree};

    /// Whether this is an integer.
    pub fn is_integer(&self) -> bool
        ensures { result ≡ is_integer (view self.now) }
    {
        matches!(self, Value::Integer(_))
    }

    /// The integer, or none for a value of another kind.
    pub fn as_integer(&self) -> Option<Integer>
        ensures { MatchOption result (is_integer (view self.now) ≡ false)
            (λ i. view self.now ≡ spec.integer (number_of i)) }
    {
        match self {
            Value::Integer(number) => Some(*number),
            _ => None,
        }
    }

    /// The integer.
    ///
    /// # Errors
    /// A value of another kind is given back.
    pub fn into_integer(self) -> Result<Integer, Value>
        ensures { MatchResult result (λ i. view self ≡ spec.integer (number_of i))
            (λ back. (view back ≡ view self) × (is_integer (view self) ≡ false)) }
    {
        match self {
            Value::Integer(number) => Ok(number),
            other => Err(other),
        }
    }

    /// Whether this is a byte string.
    pub fn is_bytes(&self) -> bool
        ensures { result ≡ is_bytes (view self.now) }
    {
        matches!(self, Value::Bytes(_))
    }

    /// The bytes of a byte string, or none for a value of another kind.
    pub fn as_bytes(&self) -> Option<&Vec<u8>>
        ensures { MatchOption result (is_bytes (view self.now) ≡ false)
            (λ v. view self.now ≡ spec.bytes v.now.items) }
    {
        match self {
            Value::Bytes(content) => Some(content),
            _ => None,
        }
    }

    /// The bytes of a byte string.
    ///
    /// # Errors
    /// A value of another kind is given back.
    pub fn into_bytes(self) -> Result<Vec<u8>, Value>
        ensures { MatchResult result (λ v. view self ≡ spec.bytes v.items)
            (λ back. (view back ≡ view self) × (is_bytes (view self) ≡ false)) }
    {
        match self {
            Value::Bytes(content) => Ok(content),
            other => Err(other),
        }
    }

    /// Whether this is a float.
    pub fn is_float(&self) -> bool
        ensures { result ≡ is_float (view self.now) }
    {
        matches!(self, Value::Float(_))
    }

    /// The width and bits of a float, or none for a value of another kind.
    pub fn as_float(&self) -> Option<Float>
        ensures { MatchOption result (is_float (view self.now) ≡ false)
            (λ f. view self.now ≡ spec.float f) }
    {
        match self {
            Value::Float(float) => Some(*float),
            _ => None,
        }
    }

    /// The width and bits of a float.
    ///
    /// # Errors
    /// A value of another kind is given back.
    pub fn into_float(self) -> Result<Float, Value>
        ensures { MatchResult result (λ f. view self ≡ spec.float f)
            (λ back. (view back ≡ view self) × (is_float (view self) ≡ false)) }
    {
        match self {
            Value::Float(float) => Ok(float),
            other => Err(other),
        }
    }

    /// Whether this is a text string.
    pub fn is_text(&self) -> bool
        ensures { result ≡ is_text (view self.now) }
    {
        matches!(self, Value::Text(_))
    }

    /// The text of a text string, or none for a value of another kind.
    pub fn as_text(&self) -> Option<&str>
        ensures { MatchOption result (is_text (view self.now) ≡ false)
            (λ s. view self.now ≡ spec.text s.now) }
    {
        match self {
            Value::Text(content) => Some(content.as_str()),
            _ => None,
        }
    }

    /// The text of a text string.
    ///
    /// # Errors
    /// A value of another kind is given back.
    pub fn into_text(self) -> Result<String, Value>
        ensures { MatchResult result (λ s. view self ≡ spec.text (string_bytes s))
            (λ back. (view back ≡ view self) × (is_text (view self) ≡ false)) }
    {
        match self {
            Value::Text(content) => Ok(content),
            other => Err(other),
        }
    }

    /// Whether this is a bool.
    pub fn is_bool(&self) -> bool
        ensures { result ≡ is_bool (view self.now) }
    {
        matches!(self, Value::Bool(_))
    }

    /// The bool, or none for a value of another kind.
    pub fn as_bool(&self) -> Option<bool>
        ensures { MatchOption result (is_bool (view self.now) ≡ false)
            (λ b. view self.now ≡ bool_tree b) }
    {
        match self {
            Value::Bool(truth) => Some(*truth),
            _ => None,
        }
    }

    /// The bool.
    ///
    /// # Errors
    /// A value of another kind is given back.
    pub fn into_bool(self) -> Result<bool, Value>
        ensures { MatchResult result (λ b. view self ≡ bool_tree b)
            (λ back. (view back ≡ view self) × (is_bool (view self) ≡ false)) }
    {
        match self {
            Value::Bool(truth) => Ok(truth),
            other => Err(other),
        }
    }

    /// Whether this is null.
    pub fn is_null(&self) -> bool
        ensures { result ≡ is_null (view self.now) }
    {
        matches!(self, Value::Null)
    }

    /// Whether this is a tag.
    pub fn is_tag(&self) -> bool
        ensures { result ≡ is_tag (view self.now) }
    {
        matches!(self, Value::Tag(_, _))
    }

    /// The number of a tag and its item, or none for a value of another kind.
    pub fn as_tag(&self) -> Option<(u64, &Value)>
        ensures { MatchOption result (is_tag (view self.now) ≡ false)
            (λ p. view self.now ≡ spec.tag p.0 (view p.1.now)) }
    {
        match self {
            Value::Tag(tag, content) => Some((*tag, content)),
            _ => None,
        }
    }

    /// The number of a tag and its item.
    ///
    /// # Errors
    /// A value of another kind is given back.
    pub fn into_tag(self) -> Result<(u64, Box<Value>), Value>
        ensures { MatchResult result (λ p. view self ≡ spec.tag p.0 (view p.1.value))
            (λ back. (view back ≡ view self) × (is_tag (view self) ≡ false)) }
    {
        match self {
            Value::Tag(tag, content) => Ok((tag, content)),
            other => Err(other),
        }
    }

    /// Whether this is an array.
    pub fn is_array(&self) -> bool
        ensures { result ≡ is_array (view self.now) }
    {
        matches!(self, Value::Array(_))
    }

    /// The items of an array, or none for a value of another kind.
    pub fn as_array(&self) -> Option<&Vec<Value>>
        ensures { MatchOption result (is_array (view self.now) ≡ false)
            (λ v. view self.now ≡ spec.array (views v.now.items)) }
    {
        match self {
            Value::Array(items) => Some(items),
            _ => None,
        }
    }

    /// The items of an array.
    ///
    /// # Errors
    /// A value of another kind is given back.
    pub fn into_array(self) -> Result<Vec<Value>, Value>
        ensures { MatchResult result (λ v. view self ≡ spec.array (views v.items))
            (λ back. (view back ≡ view self) × (is_array (view self) ≡ false)) }
    {
        match self {
            Value::Array(items) => Ok(items),
            other => Err(other),
        }
    }

    /// Whether this is a map.
    pub fn is_map(&self) -> bool
        ensures { result ≡ is_map (view self.now) }
    {
        matches!(self, Value::Map(_))
    }

    /// The entries of a map, in their order, or none for a value of another kind.
    pub fn as_map(&self) -> Option<&Vec<(Value, Value)>>
        ensures { MatchOption result (is_map (view self.now) ≡ false)
            (λ v. view self.now ≡ spec.map (view_pairs v.now.items)) }
    {
        match self {
            Value::Map(entries) => Some(entries),
            _ => None,
        }
    }

    /// The entries of a map, in their order.
    ///
    /// # Errors
    /// A value of another kind is given back.
    pub fn into_map(self) -> Result<Vec<(Value, Value)>, Value>
        ensures { MatchResult result (λ v. view self ≡ spec.map (view_pairs v.items))
            (λ back. (view back ≡ view self) × (is_map (view self) ≡ false)) }
    {
        match self {
            Value::Map(entries) => Ok(entries),
            other => Err(other),
        }
    }
}
