//! Values made of Rust's own types. Moves take no memory.
ghost use Rattle.std.specs.Prelude.{◌≡◌, pos, negsuc, string_bytes, encode_utf8, IfOk};
ghost use Rattle.ciborium_value.specs.Tree as spec;
ghost use Rattle.ciborium_value.specs.Numbers.{number_tree, fewest_bytes};
ghost use Rattle.ciborium_value.specs.View.{view, number_of, views, view_pairs, bool_tree};

use crate::bignum;
use crate::fold::tag_over;
use crate::integer::Integer;
use crate::value::Value;
use ciborium_ll::{Float, tag};
use std::alloc::{AllocError, Global};

impl Value {
    /// The value of a number: an integer up to 2^64 - 1, else tag 2 over the fewest bytes (RFC
    /// 8949, section 3.4.3).
    ///
    /// # Errors
    /// Only if out of memory.
    pub fn from_u128(alloc: Global, n: u128) -> Result<Value, AllocError>
        ensures { IfOk result (λ v. view v ≡ number_tree (pos n)) }
    {
        match u64::try_from(n) {
            Ok(short) => Ok(Value::Integer(Integer::from(short))),
            Err(_) => bignum_of(alloc, tag::BIGPOS, n),
        }
    }

    /// The value of a number: an integer from -2^64 to 2^64 - 1, else tag 2 over the fewest bytes
    /// of it, or tag 3 over those of -1 - n (RFC 8949, section 3.4.3).
    ///
    /// # Errors
    /// Only if out of memory.
    pub fn from_i128(alloc: Global, n: i128) -> Result<Value, AllocError>
        ensures { IfOk result (λ v. view v ≡ number_tree n) }
    {
        if n < 0 {
            return below_zero(alloc, n.unsigned_abs() - 1);
        }
        Value::from_u128(alloc, n.unsigned_abs())
    }

    /// A text string with a copy of this text.
    ///
    /// # Errors
    /// Only if out of memory.
    pub fn from_str(alloc: Global, text: &str) -> Result<Value, AllocError>
        ensures { IfOk result (λ v. view v ≡ spec.text text.now) }
    {
        Ok(Value::Text(String::from_str(alloc, text)?))
    }

    /// A byte string with a copy of these bytes.
    ///
    /// # Errors
    /// Only if out of memory.
    pub fn from_byte_slice(alloc: Global, bytes: &[u8]) -> Result<Value, AllocError>
        ensures { IfOk result (λ v. view v ≡ spec.bytes bytes.now) }
    {
        Ok(Value::Bytes(bytes.to_vec(alloc)?))
    }

    /// A text string of one character.
    ///
    /// # Errors
    /// Only if out of memory.
    pub fn from_char(alloc: Global, character: char) -> Result<Value, AllocError>
        ensures { IfOk result (λ v. view v ≡ spec.text (encode_utf8 character)) }
    {
        let mut text = String::new(alloc);
        text.push(character)?;
        Ok(Value::Text(text))
    }
}

/// The value of -1 - n.
fn below_zero(alloc: Global, n: u128) -> Result<Value, AllocError>
    ensures { IfOk result (λ v. view v ≡ number_tree (negsuc n)) }
{
    match u64::try_from(n) {
        Ok(short) => Ok(Value::Integer(Integer::negative(short))),
        Err(_) => bignum_of(alloc, tag::BIGNEG, n),
    }
}

/// A tag over the fewest bytes of a number, the highest first.
fn bignum_of(alloc: Global, tag: u64, n: u128) -> Result<Value, AllocError>
    ensures { IfOk result (λ v. view v ≡ spec.tag tag (spec.bytes (fewest_bytes n))) }
{
    let bytes = bignum::stripped(&n.to_be_bytes()).to_vec(alloc)?;
    tag_over(alloc, tag, Value::Bytes(bytes))
}

impl From<u8> for Value {
    ghost from_gives = { λ n v. view v ≡ spec.integer (pos n) };

    fn from(n: u8) -> Value {
        Value::Integer(Integer::from(n))
    }
}

impl From<u16> for Value {
    ghost from_gives = { λ n v. view v ≡ spec.integer (pos n) };

    fn from(n: u16) -> Value {
        Value::Integer(Integer::from(n))
    }
}

impl From<u32> for Value {
    ghost from_gives = { λ n v. view v ≡ spec.integer (pos n) };

    fn from(n: u32) -> Value {
        Value::Integer(Integer::from(n))
    }
}

impl From<u64> for Value {
    ghost from_gives = { λ n v. view v ≡ spec.integer (pos n) };

    fn from(n: u64) -> Value {
        Value::Integer(Integer::from(n))
    }
}

impl From<usize> for Value {
    ghost from_gives = { λ n v. view v ≡ spec.integer (pos n) };

    fn from(n: usize) -> Value {
        Value::Integer(Integer::from(n))
    }
}

impl From<i8> for Value {
    ghost from_gives = { λ n v. view v ≡ spec.integer n };

    fn from(n: i8) -> Value {
        Value::Integer(Integer::from(n))
    }
}

impl From<i16> for Value {
    ghost from_gives = { λ n v. view v ≡ spec.integer n };

    fn from(n: i16) -> Value {
        Value::Integer(Integer::from(n))
    }
}

impl From<i32> for Value {
    ghost from_gives = { λ n v. view v ≡ spec.integer n };

    fn from(n: i32) -> Value {
        Value::Integer(Integer::from(n))
    }
}

impl From<i64> for Value {
    ghost from_gives = { λ n v. view v ≡ spec.integer n };

    fn from(n: i64) -> Value {
        Value::Integer(Integer::from(n))
    }
}

impl From<isize> for Value {
    ghost from_gives = { λ n v. view v ≡ spec.integer n };

    fn from(n: isize) -> Value {
        Value::Integer(Integer::from(n))
    }
}

impl From<Integer> for Value {
    ghost from_gives = { λ i v. view v ≡ spec.integer (number_of i) };

    fn from(number: Integer) -> Value {
        Value::Integer(number)
    }
}

impl From<Vec<u8>> for Value {
    ghost from_gives = { λ b v. view v ≡ spec.bytes b.items };

    fn from(content: Vec<u8>) -> Value {
        Value::Bytes(content)
    }
}

impl From<Float> for Value {
    ghost from_gives = { λ f v. view v ≡ spec.float f };

    fn from(float: Float) -> Value {
        Value::Float(float)
    }
}

impl From<String> for Value {
    ghost from_gives = { λ s v. view v ≡ spec.text (string_bytes s) };

    fn from(content: String) -> Value {
        Value::Text(content)
    }
}

impl From<bool> for Value {
    ghost from_gives = { λ b v. view v ≡ bool_tree b };

    fn from(truth: bool) -> Value {
        Value::Bool(truth)
    }
}

impl From<Vec<Value>> for Value {
    ghost from_gives = { λ xs v. view v ≡ spec.array (views xs.items) };

    fn from(items: Vec<Value>) -> Value {
        Value::Array(items)
    }
}

impl From<Vec<(Value, Value)>> for Value {
    ghost from_gives = { λ xs v. view v ≡ spec.map (view_pairs xs.items) };

    fn from(entries: Vec<(Value, Value)>) -> Value {
        Value::Map(entries)
    }
}
