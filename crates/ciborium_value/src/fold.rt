//! What bignum tags fold to.
ghost use Rattle.std.specs.Prelude.{◌≡◌, ◌⊎◌, Some, None, IfOk, MatchOption};
ghost use Rattle.ciborium_value.specs.Folding.{tagged, IsTooNegative, fold_bytes};
ghost use Rattle.ciborium_value.specs.Tree as spec;
ghost use Rattle.ciborium_value.specs.View.{view};

use crate::bignum;
use crate::integer::Integer;
use crate::value::Value;
use ciborium_ll::tag;
use std::alloc::{AllocError, Global};

/// A tag over a value.
pub(crate) fn tag_over(alloc: Global, tag: u64, content: Value) -> Result<Value, AllocError>
    ensures { IfOk result (λ v. view v ≡ spec.tag tag (view content)) }
{
    Ok(Value::Tag(tag, Box::new(alloc, content)?))
}

/// The value of tag 2 or 3 over bytes, or none if it is too negative.
fn fold_number(alloc: Global, tag: u64, bytes: Vec<u8>) -> Result<Option<Value>, AllocError>
    requires { (tag ≡ 2) ⊎ (tag ≡ 3) }
    ensures { IfOk result (λ o. MatchOption o ((tag ≡ 3) × (fold_bytes 3 bytes.items ≡ None))
        (λ v. fold_bytes tag bytes.items ≡ Some (view v))) }
{
    let Some(n) = bignum::number(&bytes) else {
        return Ok(Some(tag_over(alloc, tag, Value::Bytes(bytes))?));
    };
    if n < 18446744073709551616 {
        if tag == tag::BIGPOS {
            return Ok(Some(Value::Integer(Integer::from(n as u64))));
        }
        return Ok(Some(Value::Integer(Integer::negative(n as u64))));
    }
    if tag == tag::BIGNEG {
        if n >= 170141183460469231731687303715884105728 {
            return Ok(None);
        }
    }
    let rest = bignum::stripped(&bytes).to_vec(alloc)?;
    Ok(Some(tag_over(alloc, tag, Value::Bytes(rest))?))
}

/// The value of a tag over a value that is folded: tags 2 and 3 over at most 16 bytes fold (RFC
/// 8949, section 3.4.3). None if the number is a negative bignum below -2^127.
///
/// # Errors
/// Only if out of memory.
pub fn fold_tag(alloc: Global, tag: u64, content: Value) -> Result<Option<Value>, AllocError>
    ensures { IfOk result (λ o. MatchOption o (IsTooNegative tag (view content))
        (λ v. tagged tag (view content) ≡ Some (view v))) }
{
    match content.into_bytes() {
        Ok(bytes) => {
            if tag == tag::BIGPOS || tag == tag::BIGNEG {
                return fold_number(alloc, tag, bytes);
            }
            Ok(Some(tag_over(alloc, tag, Value::Bytes(bytes))?))
        }
        Err(other) => Ok(Some(tag_over(alloc, tag, other)?)),
    }
}
