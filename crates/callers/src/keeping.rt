//! Keys in their canonical encoding. `coset` is the one crate that it names.
ghost use Rattle.std.specs.Prelude.{◌≡◌, ◌↔◌, IsTrue, IfOk, IfErr};
ghost use Rattle.std.specs.Str.{bytes_eq};
ghost use Rattle.coset.specs.Faults.{OrMemory};
ghost use Rattle.coset.specs.KeyFields.{KeyFields};
ghost use Rattle.coset.specs.Keys.{HasKey};
ghost use Rattle.coset.specs.KeysSorted.{SameButOrder};
ghost use Rattle.coset.specs.KeyView.{key_view};
ghost use Rattle.coset.specs.Reading.{HasItem, WrongItem};
ghost use Rattle.coset.specs.WrongKeys.{WrongKey};
ghost use Rattle.callers.specs.Keeping.{IsOrdered, IsSpelling};

use coset::laws::keys::{key_reads_again, one_spelling};
use coset::{CborOrdering, CborSerializable, CoseError, CoseKey};
use std::alloc::Global;

/// The key that the bytes are, with its entries in order.
fn ordered(alloc: Global, bytes: &[u8]) -> Result<CoseKey, CoseError>
    ensures ok { IfOk result (λ key. IsOrdered bytes.now (key_view key)) }
    ensures err { IfErr result (OrMemory (WrongItem WrongKey bytes.now)) }
{
    let mut key = CoseKey::from_slice(alloc, bytes)?;
    key.canonicalize(alloc, CborOrdering::Lexicographic)?;
    Ok(key)
}

/// The canonical encoding of the key that the bytes are.
///
/// # Errors
/// A fault of the bytes, or `Memory`. Never that a label is repeated in what was read.
pub fn spelling(alloc: Global, bytes: &[u8]) -> Result<Vec<u8>, CoseError>
    ensures ok { IfOk result (λ spelled. IsSpelling bytes.now spelled.items) }
    ensures err { IfErr result (OrMemory (WrongItem WrongKey bytes.now)) }
{
    let key = ordered(alloc, bytes)?;
    key_reads_again(&key);
    key.to_vec(alloc)
}

/// Whether two keys are one: they differ at most in the order of their entries.
///
/// # Errors
/// A fault of the bytes, or `Memory`.
pub fn is_same_key(alloc: Global, a: &[u8], b: &[u8]) -> Result<bool, CoseError>
    ensures { IfOk result (λ same. (k l : KeyFields) × HasItem HasKey a.now k
        × HasItem HasKey b.now l × (IsTrue same ↔ SameButOrder k l)) }
{
    let left = ordered(alloc, a)?;
    let right = ordered(alloc, b)?;
    one_spelling(&left, &right);
    let one = left.to_vec(alloc)?;
    let other = right.to_vec(alloc)?;
    Ok(are_same(&one, &other))
}

fn are_same(one: &Vec<u8>, other: &Vec<u8>) -> bool
    ensures { result ≡ bytes_eq one.now.items other.now.items }
{
    one.as_slice() == other.as_slice()
}
