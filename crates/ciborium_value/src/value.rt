//! Values of CBOR.
ghost use Rattle.std.specs.Prelude.{◌≡◌, IfOk};

use crate::integer::Integer;
use ciborium_ll::Float;
use std::alloc::{AllocError, Global};

/// A data item as a user holds it (RFC 8949). Equality and order go by the variant, then by what it
/// holds.
#[derive(Debug, PartialEq, Eq, PartialOrd, Ord, Hash, Drop)]
pub enum Value {
    /// An integer from -2^64 to 2^64 - 1.
    Integer(Integer),
    /// A byte string.
    Bytes(Vec<u8>),
    /// A float by its width and bits.
    Float(Float),
    /// A text string.
    Text(String),
    /// The simple values 20 and 21.
    Bool(bool),
    /// The simple value 22. Undefined, 23, is read as this one.
    Null,
    /// A tag and its item.
    Tag(u64, Box<Value>),
    /// The items of an array.
    Array(Vec<Value>),
    /// The entries of a map in their order; a key may come again.
    Map(Vec<(Value, Value)>),
}

impl Value {
    ghost use Rattle.ciborium_value.specs.View.{view};

    /// A value equal to this one.
    ///
    /// # Errors
    /// Only if out of memory.
    pub fn clone(&self, alloc: Global) -> Result<Value, AllocError>
        ensures { IfOk result (λ copy. view copy ≡ view self.now) }
    {
        match self {
            Value::Integer(i) => Ok(Value::Integer(*i)),
            Value::Bytes(b) => Ok(Value::Bytes(b.as_slice().to_vec(alloc)?)),
            Value::Float(f) => Ok(Value::Float(*f)),
            Value::Text(s) => Ok(Value::Text(String::from_str(alloc, s.as_str())?)),
            Value::Bool(b) => Ok(Value::Bool(*b)),
            Value::Null => Ok(Value::Null),
            Value::Tag(n, v) => Ok(Value::Tag(*n, Box::new(alloc, (**v).clone(alloc)?)?)),
            Value::Array(items) => {
                let mut copies = Vec::new(alloc);
                for item in items {
                    copies.push(item.clone(alloc)?)?;
                }
                Ok(Value::Array(copies))
            }
            Value::Map(entries) => {
                let mut copies = Vec::new(alloc);
                for entry in entries {
                    let key = entry.0.clone(alloc)?;
                    let value = entry.1.clone(alloc)?;
                    copies.push((key, value))?;
                }
                Ok(Value::Map(copies))
            }
        }
    }
}
