//! Values with their bignums folded.
ghost use Rattle.std.specs.Prelude.{◌≡◌, None, Some, IfOk, MatchOption};
ghost use Rattle.ciborium_value.specs.Folding.{fold};
ghost use Rattle.ciborium_value.specs.View.{view};

use ciborium_value::{Value, fold_tag};
use std::alloc::{AllocError, Global};

/// A copy of the value with each bignum in it folded (RFC 8949, section 3.4.3), or none if one is a
/// negative bignum below -2^127.
///
/// # Errors
/// Only if out of memory.
pub(crate) fn folded(alloc: Global, value: &Value) -> Result<Option<Value>, AllocError>
    ensures { IfOk result (λ o. MatchOption o (fold (view value.now) ≡ None)
        (λ v. fold (view value.now) ≡ Some (view v))) }
{
    match value {
        Value::Integer(number) => Ok(Some(Value::Integer(*number))),
        Value::Bytes(bytes) => Ok(Some(Value::Bytes(bytes.as_slice().to_vec(alloc)?))),
        Value::Float(float) => Ok(Some(Value::Float(*float))),
        Value::Text(text) => Ok(Some(Value::Text(String::from_str(alloc, text.as_str())?))),
        Value::Bool(b) => Ok(Some(Value::Bool(*b))),
        Value::Null => Ok(Some(Value::Null)),
        Value::Tag(tag, content) => match folded(alloc, content)? {
            Some(copy) => fold_tag(alloc, *tag, copy),
            None => Ok(None),
        },
        Value::Array(items) => {
            let mut copies = Vec::new(alloc);
            'items: for item in items {
                match folded(alloc, item)? {
                    Some(copy) => copies.push(copy)?,
                    None => return Ok(None),
                }
            }
            Ok(Some(Value::Array(copies)))
        }
        Value::Map(entries) => {
            let mut copies = Vec::new(alloc);
            'entries: for entry in entries {
                let Some(key) = folded(alloc, &entry.0)? else {
                    return Ok(None);
                };
                let Some(value) = folded(alloc, &entry.1)? else {
                    return Ok(None);
                };
                copies.push((key, value))?;
            }
            Ok(Some(Value::Map(copies)))
        }
    }
}
