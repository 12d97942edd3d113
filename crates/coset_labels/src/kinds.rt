//! Values of CBOR taken by kind.
ghost use Rattle.std.specs.Prelude.{◌≡◌, ◌≢◌, ◌⊎◌, MatchResult, MatchOption, Some, false};
ghost use Rattle.std.specs.Prelude.{string_bytes};
ghost use Rattle.ciborium_value.specs.Tree as spec;
ghost use Rattle.ciborium_value.specs.Tree.{Tree, is_bytes};
ghost use Rattle.ciborium_value.specs.View.{view, views, view_pairs, number_of};
ghost use Rattle.coset_labels.specs.Converting.{GivesAll, FailsFirst, Converts, CantConvert};
ghost use Rattle.coset_labels.specs.Faults.{fault_of, unexpected};
ghost use Rattle.ciborium_value.specs.Kinds.{is_integer, is_text, is_map, is_array, is_tag};
ghost use Rattle.coset_labels.specs.Kinds.{some_bytes, WrongBytes};
ghost use Rattle.coset_labels.specs.declared.error.CoseError.TheVariants.{Memory};

use crate::error::CoseError;
use ciborium_value::{Integer, Value};
use std::alloc::Global;

/// The name of a value's kind in an error.
fn cbor_type_name(value: &Value) -> &'static str {
    match value {
        Value::Integer(_) => "int",
        Value::Bytes(_) => "bstr",
        Value::Float(_) => "float",
        Value::Text(_) => "tstr",
        Value::Bool(_) => "bool",
        Value::Null => "nul",
        Value::Tag(_, _) => "tag",
        Value::Array(_) => "array",
        Value::Map(_) => "map",
    }
}

/// The error of a value that has another kind than what was expected.
pub fn cbor_type_error(value: &Value, want: &'static str) -> CoseError
    ensures { fault_of result ≡ unexpected }
{
    CoseError::UnexpectedItem(cbor_type_name(value), want)
}

/// What a value holds, if it is of the kind that is asked for. Nothing is copied.
pub trait ValueTryAs {
    /// The tree that a value is.
    ghost tree: { Self → Tree };

    /// An integer.
    ///
    /// # Errors
    /// `UnexpectedItem` for a value of another kind.
    fn try_as_integer(self) -> Result<Integer, CoseError>
        ensures { MatchResult result (λ i. tree self ≡ spec.integer (number_of i))
            (λ e. (fault_of e ≡ unexpected) × (is_integer (tree self) ≡ false)) };

    /// The bytes of a byte string.
    ///
    /// # Errors
    /// `UnexpectedItem` for a value of another kind.
    fn try_as_bytes(self) -> Result<Vec<u8>, CoseError>
        ensures { MatchResult result (λ b. tree self ≡ spec.bytes b.items)
            (λ e. (fault_of e ≡ unexpected) × (is_bytes (tree self) ≡ false)) };

    /// The bytes of a byte string that is not empty.
    ///
    /// # Errors
    /// `UnexpectedItem` for an empty byte string, and for a value of another kind.
    fn try_as_nonempty_bytes(self) -> Result<Vec<u8>, CoseError>
        ensures { MatchResult result (λ b. some_bytes (tree self) ≡ Some b.items)
            (λ e. WrongBytes (tree self) (fault_of e)) };

    /// The bytes of a byte string, or none for null. The caller names what it wants, for the text
    /// of the error.
    ///
    /// # Errors
    /// `UnexpectedItem` for a value of another kind.
    fn try_as_bytes_or_nil(self, want: &'static str) -> Result<Option<Vec<u8>>, CoseError>
        ensures { MatchResult result
            (λ o. MatchOption o (tree self ≡ spec.simple 22) (λ b. tree self ≡ spec.bytes b.items))
            (λ e. (fault_of e ≡ unexpected) × (is_bytes (tree self) ≡ false)
            × (tree self ≢ spec.simple 22)) };

    /// The items of an array.
    ///
    /// # Errors
    /// `UnexpectedItem` for a value of another kind.
    fn try_as_array(self) -> Result<Vec<Value>, CoseError>
        ensures { MatchResult result (λ v. tree self ≡ spec.array (views v.items))
            (λ e. (fault_of e ≡ unexpected) × (is_array (tree self) ≡ false)) };

    /// The items of an array, converted by the caller's function, the first item first.
    ///
    /// # Errors
    /// `UnexpectedItem` for a value of another kind, the first error of the function, or `Memory`.
    fn try_as_array_then_convert<T: Drop, E: Drop + From<CoseError>, F: Fn(Value) -> Result<T, E>>(
        self,
        alloc: Global,
        f: F,
    ) -> Result<Vec<T>, E>
        requires { F.IsAlwaysCallable f }
        ensures { MatchResult result (λ v. Converts (F.post f) (tree self) v.items)
            (λ e. E.from_gives Memory e ⊎ CantConvert (F.post f) E.from_gives (tree self) e) };

    /// The entries of a map, in their order.
    ///
    /// # Errors
    /// `UnexpectedItem` for a value of another kind.
    fn try_as_map(self) -> Result<Vec<(Value, Value)>, CoseError>
        ensures { MatchResult result (λ m. tree self ≡ spec.map (view_pairs m.items))
            (λ e. (fault_of e ≡ unexpected) × (is_map (tree self) ≡ false)) };

    /// A tag's number and its content.
    ///
    /// # Errors
    /// `UnexpectedItem` for a value of another kind.
    fn try_as_tag(self) -> Result<(u64, Box<Value>), CoseError>
        ensures { MatchResult result (λ t. tree self ≡ spec.tag t.0 (view t.1.value))
            (λ e. (fault_of e ≡ unexpected) × (is_tag (tree self) ≡ false)) };

    /// A text.
    ///
    /// # Errors
    /// `UnexpectedItem` for a value of another kind.
    fn try_as_string(self) -> Result<String, CoseError>
        ensures { MatchResult result (λ s. tree self ≡ spec.text (string_bytes s))
            (λ e. (fault_of e ≡ unexpected) × (is_text (tree self) ≡ false)) };
}

/// What the function gives for each item, the first item first.
fn convert_all<T: Drop, E: Drop + From<CoseError>, F: Fn(Value) -> Result<T, E>>(
    alloc: Global,
    items: Vec<Value>,
    f: F,
) -> Result<Vec<T>, E>
    requires { F.IsAlwaysCallable f }
    ensures { MatchResult result (λ v. GivesAll (F.post f) items.items v.items)
        (λ e. E.from_gives Memory e ⊎ FailsFirst (F.post f) items.items e) }
{
    let mut converted = Vec::new(alloc);
    'items: for item in items {
        match f(item) {
            Ok(result) => match converted.push(result) {
                Ok(()) => {}
                Err(_) => return Err(E::from(CoseError::Memory)),
            },
            Err(error) => return Err(error),
        }
    }
    Ok(converted)
}

impl ValueTryAs for Value {
    ghost tree = { view };

    fn try_as_integer(self) -> Result<Integer, CoseError> {
        match self {
            Value::Integer(i) => Ok(i),
            other => Err(cbor_type_error(&other, "int")),
        }
    }

    fn try_as_bytes(self) -> Result<Vec<u8>, CoseError> {
        match self {
            Value::Bytes(bytes) => Ok(bytes),
            other => Err(cbor_type_error(&other, "bstr")),
        }
    }

    fn try_as_nonempty_bytes(self) -> Result<Vec<u8>, CoseError> {
        let bytes = self.try_as_bytes()?;
        if bytes.is_empty() {
            return Err(CoseError::UnexpectedItem("empty bstr", "non-empty bstr"));
        }
        Ok(bytes)
    }

    fn try_as_bytes_or_nil(self, want: &'static str) -> Result<Option<Vec<u8>>, CoseError> {
        match self {
            Value::Bytes(bytes) => Ok(Some(bytes)),
            Value::Null => Ok(None),
            other => Err(cbor_type_error(&other, want)),
        }
    }

    fn try_as_array(self) -> Result<Vec<Value>, CoseError> {
        match self {
            Value::Array(items) => Ok(items),
            other => Err(cbor_type_error(&other, "array")),
        }
    }

    fn try_as_array_then_convert<T: Drop, E: Drop + From<CoseError>, F: Fn(Value) -> Result<T, E>>(
        self,
        alloc: Global,
        f: F,
    ) -> Result<Vec<T>, E> {
        match self.try_as_array() {
            Ok(items) => convert_all(alloc, items, f),
            Err(error) => Err(E::from(error)),
        }
    }

    fn try_as_map(self) -> Result<Vec<(Value, Value)>, CoseError> {
        match self {
            Value::Map(entries) => Ok(entries),
            other => Err(cbor_type_error(&other, "map")),
        }
    }

    fn try_as_tag(self) -> Result<(u64, Box<Value>), CoseError> {
        match self {
            Value::Tag(number, content) => Ok((number, content)),
            other => Err(cbor_type_error(&other, "tag")),
        }
    }

    fn try_as_string(self) -> Result<String, CoseError> {
        match self {
            Value::Text(text) => Ok(text),
            other => Err(cbor_type_error(&other, "tstr")),
        }
    }
}
