//! Types that values of CBOR stand for.
ghost use Rattle.std.specs.Prelude.{◌≡◌, ℕ, Option, Some, MatchResult, option_map, map};
ghost use Rattle.ciborium_value.specs.Tree.{Tree, tag};
ghost use Rattle.ciborium_value.specs.Encoding.{enc};
ghost use Rattle.ciborium_value.specs.View.{view};
ghost use Rattle.coset_labels.specs.Faults.{CoseFault, OrMemory, CantWrite};
ghost use Rattle.coset_labels.specs.Arrays.{array_of};
ghost use Rattle.coset_labels.specs.Reading.{HasItem, WrongItem, Tagged, WrongTagged, NeverWrong};

use crate::error::CoseError;
use crate::kinds::ValueTryAs;
use crate::reading::{read_to_value, write_to_vec};
use ciborium::de::RECURSION_LIMIT;
use ciborium_value::Value;
use std::alloc::Global;

/// A type that can be read from a value of CBOR and written as one.
pub trait AsCborValue: Drop + Sized {
    /// What a value of the type says, as one that holds no memory.
    ghost Fields: { Type 0 };

    /// What this value says.
    ghost fields: { Self → Fields };

    /// Which fields a tree has as this type.
    ghost shape: { Tree → Fields → Type 0 };

    /// Which faults a tree has as this type.
    ghost wrong: { Tree → CoseFault → Type 0 };

    /// The tree that fields are written as; none if a label would be written twice in one map.
    ghost written: { Fields → Option Tree };

    /// Reads a value. Its byte strings are moved, which is only read in the code; what is inside
    /// that of a protected header is decoded anew.
    ///
    /// # Errors
    /// A fault that the value has, or `Memory`.
    fn from_cbor_value(alloc: Global, value: Value) -> Result<Self, CoseError>
        ensures { MatchResult result (λ x. shape (view value) (fields x))
            (λ e. OrMemory (wrong (view value)) e) };

    /// The value that stands for this one.
    ///
    /// # Errors
    /// `DuplicateMapKey` exactly when a label would be written twice in one map, or `Memory`.
    fn to_cbor_value(self, alloc: Global) -> Result<Value, CoseError>
        ensures { MatchResult result (λ v. written (fields self) ≡ Some (view v))
            (λ e. CantWrite (written (fields self)) e) };
}

/// A type that can be read from the bytes of one item and written as such.
pub trait CborSerializable: AsCborValue {
    /// Reads the one item that the bytes are, of at most 256 levels.
    ///
    /// # Errors
    /// `DecodeFailed` with the damage of the bytes, `ExtraneousData` if they go on after their
    /// item, a fault that the item has, or `Memory`.
    fn from_slice(alloc: Global, slice: &[u8]) -> Result<Self, CoseError>
        ensures { MatchResult result (λ x. HasItem Self.shape slice.now (Self.fields x))
            (λ e. OrMemory (WrongItem Self.wrong slice.now) e) }
    {
        let value = read_to_value(alloc, slice, RECURSION_LIMIT)?;
        Self::from_cbor_value(alloc, value)
    }

    /// The encoded item (RFC 8949, section 4.1).
    ///
    /// # Errors
    /// `DuplicateMapKey` exactly when a label would be written twice in one map, or `Memory`.
    fn to_vec(self, alloc: Global) -> Result<Vec<u8>, CoseError>
        ensures { MatchResult result
            (λ b. option_map enc (Self.written (Self.fields self)) ≡ Some b.items)
            (λ e. CantWrite (Self.written (Self.fields self)) e) }
    {
        let value = self.to_cbor_value(alloc)?;
        write_to_vec(alloc, &value)
    }
}

/// Any value stands for itself.
impl AsCborValue for Value {
    ghost Fields = { Tree };

    ghost fields = { view };

    ghost shape = { λ t f. t ≡ f };

    ghost wrong = { NeverWrong };

    ghost written = { Some };

    fn from_cbor_value(_alloc: Global, value: Value) -> Result<Value, CoseError> {
        Ok(value)
    }

    fn to_cbor_value(self, _alloc: Global) -> Result<Value, CoseError> {
        Ok(self)
    }
}

impl CborSerializable for Value {}

/// A type that is written with a tag of its own.
pub trait TaggedCborSerializable: AsCborValue {
    /// The number of the tag.
    ghost TAG: { ℕ };

    /// The number of the tag.
    const TAG: u64;

    /// Reads the one item that the bytes are: the tag, and the value in it. The item has at most
    /// 256 levels.
    ///
    /// # Errors
    /// As `from_slice`; `UnexpectedItem` for an item without the tag.
    fn from_tagged_slice(alloc: Global, slice: &[u8]) -> Result<Self, CoseError>
        ensures { MatchResult result
            (λ x. HasItem (Tagged TAG Self.shape) slice.now (Self.fields x))
            (λ e. OrMemory (WrongItem (WrongTagged TAG Self.wrong) slice.now) e) }
    {
        let value = read_to_value(alloc, slice, RECURSION_LIMIT)?;
        let (tag, content) = value.try_as_tag()?;
        if tag != Self::TAG {
            return Err(CoseError::UnexpectedItem("tag", "other tag"));
        }
        Self::from_cbor_value(alloc, Box::into_inner(content))
    }

    /// The encoded tag over this value (RFC 8949, section 4.1).
    ///
    /// # Errors
    /// `DuplicateMapKey` exactly when a label would be written twice in one map, or `Memory`.
    fn to_tagged_vec(self, alloc: Global) -> Result<Vec<u8>, CoseError>
        ensures { MatchResult result
            (λ b. option_map (λ t. enc (tag TAG t)) (Self.written (Self.fields self))
            ≡ Some b.items)
            (λ e. CantWrite (Self.written (Self.fields self)) e) }
    {
        let content = self.to_cbor_value(alloc)?;
        let value = Value::Tag(Self::TAG, Box::new(alloc, content)?);
        write_to_vec(alloc, &value)
    }
}

/// The array of the values that the items stand for.
///
/// # Errors
/// `DuplicateMapKey` exactly when a label would be written twice in one map of an item, or
/// `Memory`.
pub fn to_cbor_array<T: AsCborValue>(alloc: Global, items: Vec<T>) -> Result<Value, CoseError>
    ensures { MatchResult result
        (λ v. array_of T.written (map T.fields items.items) ≡ Some (view v))
        (λ e. CantWrite (array_of T.written (map T.fields items.items)) e) }
{
    let mut values = Vec::with_capacity(alloc, items.len())?;
    'items: for item in items {
        values.push(item.to_cbor_value(alloc)?)?;
    }
    Ok(Value::Array(values))
}
