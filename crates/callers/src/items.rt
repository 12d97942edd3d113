//! Items read and written. `ciborium` is the one crate that it names.
ghost use Rattle.std.specs.Prelude.{◌≡◌, ◌≢◌, ◌≤◌, ◌++◌, ◌∷◌, ℕ, List, [], length};
ghost use Rattle.std.specs.Prelude.{IfOk, IfErr, IfSome, IfNone, OnErr, IsTrue, false, pos};
ghost use Rattle.ciborium.specs.Tree as tree;
ghost use Rattle.ciborium.specs.Tree.{Tree};
ghost use Rattle.ciborium.specs.Kinds.{is_array};
ghost use Rattle.ciborium.specs.Front.{Reads};
ghost use Rattle.ciborium.specs.View.{view, views};
ghost use Rattle.ciborium.specs.Items.{nesting};
ghost use Rattle.ciborium.specs.Typed.{ReadsAs};
ghost use Rattle.ciborium.specs.Encoding.{enc};
ghost use Rattle.ciborium.specs.declared.value.Error.TheVariants.{Memory};
ghost use Rattle.callers.specs.Items.{NoValue, NoneOfType, FrontOnly, Fewer};

use ciborium::de::{self, Deserialize, Deserializer, Source};
use ciborium::laws::one_spelling;
use ciborium::ll::Decoder;
use ciborium::ser::Serialize;
use ciborium::tag::Captured;
use ciborium::value::{Error, Value, ValueTyped};
use ciborium::{End, Mem, cbor, from_reader, into_writer};
use std::alloc::{AllocError, Global};

/// The value that the whole input is an item of, or none if bytes follow the item.
///
/// # Errors
/// The fault of the bytes, or `Semantic` if the item at the front is none of the type.
pub fn read_whole<T: Deserialize>(alloc: Global, input: &[u8]) -> Result<Option<T>, de::Error<End>>
    ensures some { IfOk result (λ o. IfSome o
        (λ x. ReadsAs T.refusal T.takes nesting x input.now)) }
    ensures none { IfOk result (λ o. IfNone o
        (FrontOnly (λ x. ReadsAs T.refusal T.takes nesting x) input.now)) }
    ensures err { IfErr result (λ e. (rest : List ℕ)
        × NoneOfType T.grows T.refusal input.now rest e) }
{
    let mut rest = input;
    let value = from_reader(alloc, &mut rest)?;
    if rest.is_empty() {
        Ok(Some(value))
    } else {
        Ok(None)
    }
}

/// The value whose one encoding the whole input is (RFC 8949, section 4.1), or none if the item is
/// written in another way, or bytes follow it.
///
/// # Errors
/// The fault of the bytes.
pub fn read_encoded(alloc: Global, input: &[u8]) -> Result<Option<Value>, de::Error<End>>
    ensures some { IfOk result (λ o. IfSome o
        (λ v. Reads input.now nesting (view v) × (input.now ≡ enc (view v)))) }
    ensures none { IfOk result (λ o. IfNone o
        ((v : Tree) → Reads input.now nesting v → input.now ≢ enc v)) }
    ensures err { IfErr result (λ e. (place : ℕ) × NoValue 0 input.now place e) }
{
    let mut decoder = Decoder::from(input);
    let (value, is_exact) = de::from_decoder_strict(alloc, &mut decoder, de::RECURSION_LIMIT)?;
    one_spelling();
    if is_exact && decoder.offset() == input.len() {
        return Ok(Some(value));
    }
    Ok(None)
}

/// The value at the front of the input, or why there is none, with the count of the bytes that were
/// taken up to there.
pub fn front_value(alloc: Global, input: &[u8]) -> Result<Value, (de::Error<End>, usize)>
    ensures ok { IfOk result (λ v. (front rest : List ℕ)
        × (input.now ≡ front ++ rest) × Reads front nesting (view v)) }
    ensures err { IfErr result (λ r. NoValue 0 input.now r.1 r.0) }
    ensures taken { IfErr result (λ r. r.1 ≤ length input.now) }
{
    let mut decoder = Decoder::from(input);
    match de::from_decoder(alloc, &mut decoder, de::RECURSION_LIMIT) {
        Ok(value) => Ok(value),
        Err(fault) => Err((fault, decoder.offset())),
    }
}

/// The first two values of the input, or why there are not two.
pub fn two_values(alloc: Global, input: &[u8]) -> Result<(Value, Value), de::Error<End>>
    ensures ok { IfOk result (λ r. (one two rest : List ℕ) × (input.now ≡ one ++ (two ++ rest))
        × Reads one nesting (view r.0) × Reads two nesting (view r.1)) }
    ensures err { IfErr result (Fewer 2 input.now) }
{
    let mut values = Deserializer::new(alloc, Decoder::from(input), de::RECURSION_LIMIT);
    let one = values.item()?;
    let two = values.item()?;
    Ok((one, two))
}

/// The encoding of the item that a value is written as.
///
/// # Errors
/// Only if out of memory.
pub fn text_of<T: Serialize>(alloc: Global, value: &T) -> Result<Vec<u8>, AllocError>
    ensures { IfOk result (λ text. text.items ≡ enc (T.put value.now)) }
{
    let mut out = Mem::new(Vec::new(alloc));
    match into_writer(value, &mut out) {
        Ok(()) => Ok(out.into_inner()),
        Err(_) => Err(AllocError),
    }
}

/// A map of a name.
///
/// # Errors
/// Only if out of memory.
pub fn named(alloc: Global, name: &str) -> Result<Value, Error>
    ensures ok { IfOk result (λ v. view v
        ≡ tree.map (tree.pair_more (tree.integer (pos 1)) (tree.text name.now) tree.no_pairs)) }
    ensures err { IfErr result (λ e. e ≡ Memory) }
{
    cbor!(alloc, {1u8 => name})
}

/// A value made of a typed value.
///
/// # Errors
/// Only if out of memory.
pub fn value_of<T: Serialize>(alloc: Global, x: &T) -> Result<Value, Error>
    ensures ok { IfOk result (λ v. view v ≡ T.put x.now) }
    ensures err { IfErr result (λ e. e ≡ Memory) }
{
    Value::serialized(alloc, x)
}

/// A pair of a text and a number, whatever tag is around it.
///
/// # Errors
/// The fault of the bytes, or `Semantic` if the item is no such pair.
pub fn labelled(alloc: Global, input: &mut &[u8]) -> Result<Captured<(String, u64)>, de::Error<End>>
    ensures ok { IfOk result (λ c. (front : List ℕ) × (input.old.now ≡ front ++ input.new.now)
        × ReadsAs ⟦<Captured<(String, u64)> as Deserialize>⟧.refusal
        ⟦<Captured<(String, u64)> as Deserialize>⟧.takes nesting c front) }
    ensures err { IfErr result (NoneOfType ⟦<Captured<(String, u64)> as Deserialize>⟧.grows
        ⟦<Captured<(String, u64)> as Deserialize>⟧.refusal input.old.now input.new.now) }
{
    from_reader(alloc, input)
}

/// Puts a value after the items of an array, and says whether the value is an array. Another value
/// stays as it was.
///
/// # Errors
/// Only if out of memory; the items stay then.
pub fn push_into(array: &mut Value, item: Value) -> Result<bool, AllocError>
    ensures which { IfOk result (λ b. b ≡ is_array (view array.old)) }
    ensures pushed { IfOk result (λ b. IsTrue b → (items : List Value)
        × (view array.old ≡ tree.array (views items))
        × (view array.new ≡ tree.array (views (items ++ item ∷ [])))) }
    ensures same { IfOk result (λ b. b ≡ false → array.new ≡ array.old) }
    ensures refused { OnErr result (view array.new ≡ view array.old) }
{
    match array.as_array_mut() {
        Some(items) => {
            items.push(item)?;
            Ok(true)
        }
        None => Ok(false),
    }
}
