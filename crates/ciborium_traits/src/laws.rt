//! Facts about what is written and taken, for proofs. The calls change nothing.
ghost use Rattle.std.specs.Prelude.{◌≡◌, ◌<◌, ◌^◌, ℕ, ℤ, Bool, false, FitsSigned, All, None, Some};
ghost use Rattle.std.specs.Prelude.{String};
ghost use Rattle.std.specs.Int.{w8, w16, w32, w64, w128};
ghost use Rattle.std.specs.Char.{IsScalar};
ghost use Rattle.std.specs.Global.{Global};
ghost use Rattle.ciborium_value.specs.Folding.{fold};
ghost use Rattle.ciborium_value.specs.Kinds.{is_null};
ghost use Rattle.ciborium_value.specs.View.{view};
ghost use Rattle.ciborium_value.specs.declared.canonical.CanonicalValue.{CanonicalValue as CanonicalOf};
ghost use Rattle.ciborium_value.specs.declared.value.Value.{Value as ValueOf};
ghost use Rattle.ciborium_traits.specs.Back.{IsTakenBack};

use crate::de::Deserialize;
use crate::ser::Serialize;
use ciborium_value::{CanonicalValue, Value};
use std::collections::BTreeMap;

/// Booleans and null are taken back.
pub fn simple_values_are_taken_back()
    ensures booleans { (x : Bool) → IsTakenBack ⟦<bool as Serialize>⟧ ⟦<bool as Deserialize>⟧ x }
    ensures null { IsTakenBack ⟦<() as Serialize>⟧ ⟦<() as Deserialize>⟧ tt }
{}

/// Numbers of up to 64 bits are taken back.
pub fn numbers_are_taken_back()
    ensures u8 { (x : ℕ) → x < 2 ^ 8 → IsTakenBack ⟦<u8 as Serialize>⟧ ⟦<u8 as Deserialize>⟧ x }
    ensures u16 { (x : ℕ) → x < 2 ^ 16 → IsTakenBack ⟦<u16 as Serialize>⟧ ⟦<u16 as Deserialize>⟧ x }
    ensures u32 { (x : ℕ) → x < 2 ^ 32 → IsTakenBack ⟦<u32 as Serialize>⟧ ⟦<u32 as Deserialize>⟧ x }
    ensures u64 { (x : ℕ) → x < 2 ^ 64 → IsTakenBack ⟦<u64 as Serialize>⟧ ⟦<u64 as Deserialize>⟧ x }
    ensures usize { (x : ℕ) → x < 2 ^ 64
        → IsTakenBack ⟦<usize as Serialize>⟧ ⟦<usize as Deserialize>⟧ x }
    ensures i8 { (x : ℤ) → FitsSigned w8 x
        → IsTakenBack ⟦<i8 as Serialize>⟧ ⟦<i8 as Deserialize>⟧ x }
    ensures i16 { (x : ℤ) → FitsSigned w16 x
        → IsTakenBack ⟦<i16 as Serialize>⟧ ⟦<i16 as Deserialize>⟧ x }
    ensures i32 { (x : ℤ) → FitsSigned w32 x
        → IsTakenBack ⟦<i32 as Serialize>⟧ ⟦<i32 as Deserialize>⟧ x }
    ensures i64 { (x : ℤ) → FitsSigned w64 x
        → IsTakenBack ⟦<i64 as Serialize>⟧ ⟦<i64 as Deserialize>⟧ x }
    ensures isize { (x : ℤ) → FitsSigned w64 x
        → IsTakenBack ⟦<isize as Serialize>⟧ ⟦<isize as Deserialize>⟧ x }
{}

/// Numbers of 128 bits are taken back.
pub fn wide_numbers_are_taken_back()
    ensures u128 { (x : ℕ) → x < 2 ^ 128
        → IsTakenBack ⟦<u128 as Serialize>⟧ ⟦<u128 as Deserialize>⟧ x }
    ensures i128 { (x : ℤ) → FitsSigned w128 x
        → IsTakenBack ⟦<i128 as Serialize>⟧ ⟦<i128 as Deserialize>⟧ x }
{}

/// Characters and texts are taken back.
pub fn texts_are_taken_back()
    ensures characters { (x : ℕ) → IsScalar x
        → IsTakenBack ⟦<char as Serialize>⟧ ⟦<char as Deserialize>⟧ x }
    ensures texts { (x : String Global)
        → IsTakenBack ⟦<String as Serialize>⟧ ⟦<String as Deserialize>⟧ x }
{}

/// A folded value is taken back.
pub fn values_are_taken_back()
    ensures value { (v : ValueOf) → fold (view v) ≡ Some (view v)
        → IsTakenBack ⟦<Value as Serialize>⟧ ⟦<Value as Deserialize>⟧ v }
    ensures canonical { (v : CanonicalOf) → fold (view v.0) ≡ Some (view v.0)
        → IsTakenBack ⟦<CanonicalValue as Serialize>⟧ ⟦<CanonicalValue as Deserialize>⟧ v }
{}

/// `None` is taken back. `Some` of a value is taken back if the value is, by its own type, and its
/// item is not null.
pub fn options_are_taken_back<T: Serialize + Deserialize>(value: &T)
    ensures none { IsTakenBack ⟦<Option<T> as Serialize>⟧ ⟦<Option<T> as Deserialize>⟧ None }
    ensures some { IsTakenBack T.Serialize T.Deserialize value.now
        → is_null (T.put value.now) ≡ false
        → IsTakenBack ⟦<Option<T> as Serialize>⟧ ⟦<Option<T> as Deserialize>⟧ (Some value.now) }
{}

/// A list is taken back if each of its values is.
pub fn lists_are_taken_back<T: Serialize + Deserialize>(list: &Vec<T>)
    ensures { All (λ x. IsTakenBack T.Serialize T.Deserialize x) list.now.items
        → IsTakenBack ⟦<Vec<T> as Serialize>⟧ ⟦<Vec<T> as Deserialize>⟧ list.now }
{}

/// A tuple of one is taken back if its value is.
pub fn tuples_of_one_are_taken_back<A: Serialize + Deserialize>(tuple: &(A,))
    ensures { IsTakenBack A.Serialize A.Deserialize tuple.now.0
        → IsTakenBack ⟦<(A,) as Serialize>⟧ ⟦<(A,) as Deserialize>⟧ tuple.now }
{}

/// A tuple of two is taken back if each of its values is.
pub fn tuples_of_two_are_taken_back<A: Serialize + Deserialize, B: Serialize + Deserialize>(
    tuple: &(A, B),
)
    ensures { IsTakenBack A.Serialize A.Deserialize tuple.now.0
        → IsTakenBack B.Serialize B.Deserialize tuple.now.1
        → IsTakenBack ⟦<(A, B) as Serialize>⟧ ⟦<(A, B) as Deserialize>⟧ tuple.now }
{}

/// A tuple of three is taken back if each of its values is.
pub fn tuples_of_three_are_taken_back<
    A: Serialize + Deserialize,
    B: Serialize + Deserialize,
    C: Serialize + Deserialize,
>(tuple: &(A, B, C))
    ensures { IsTakenBack A.Serialize A.Deserialize tuple.now.0
        → IsTakenBack B.Serialize B.Deserialize tuple.now.1
        → IsTakenBack C.Serialize C.Deserialize tuple.now.2
        → IsTakenBack ⟦<(A, B, C) as Serialize>⟧ ⟦<(A, B, C) as Deserialize>⟧ tuple.now }
{}

/// A tuple of four is taken back if each of its values is.
pub fn tuples_of_four_are_taken_back<
    A: Serialize + Deserialize,
    B: Serialize + Deserialize,
    C: Serialize + Deserialize,
    D: Serialize + Deserialize,
>(tuple: &(A, B, C, D))
    ensures { IsTakenBack A.Serialize A.Deserialize tuple.now.0
        → IsTakenBack B.Serialize B.Deserialize tuple.now.1
        → IsTakenBack C.Serialize C.Deserialize tuple.now.2
        → IsTakenBack D.Serialize D.Deserialize tuple.now.3
        → IsTakenBack ⟦<(A, B, C, D) as Serialize>⟧ ⟦<(A, B, C, D) as Deserialize>⟧ tuple.now }
{}

/// A map is taken back if each of its keys and values is.
pub fn maps_are_taken_back<K: Serialize + Deserialize + Ord, V: Serialize + Deserialize>(
    map: &BTreeMap<K, V>,
)
    ensures { All (λ e. IsTakenBack K.Serialize K.Deserialize e.0
        × IsTakenBack V.Serialize V.Deserialize e.1) map.now.entries
        → IsTakenBack ⟦<BTreeMap<K, V> as Serialize>⟧ ⟦<BTreeMap<K, V> as Deserialize>⟧ map.now }
{
    let _len = map.len();
}
