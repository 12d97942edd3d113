//! Facts about values, for proofs. The calls change nothing.
ghost use Rattle.std.specs.Prelude.{◌≡◌, ◌↔◌, ◌++◌, ◌<◌, ◌^◌, IsTrue, ℕ, ℤ, List, Some, length};
ghost use Rattle.std.specs.Prelude.{All};
ghost use Rattle.std.specs.Cmp.{IsTotalOrder};
ghost use Rattle.std.specs.Ordering.{int_cmp};
ghost use Rattle.std.specs.declared.cmp.Ordering.TheVariants.{Equal};
ghost use Rattle.ciborium_value.specs.Tree.{Tree, integer, bytes, text};
ghost use Rattle.ciborium_value.specs.Encoding.{enc, Fits};
ghost use Rattle.ciborium_value.specs.Folding.{fold};
ghost use Rattle.ciborium_value.specs.Numbers.{IsWide, number_tree, tree_number};
ghost use Rattle.ciborium_value.specs.Order.{tree_cmp};
ghost use Rattle.ciborium_value.specs.Canonical.{bytewise, length_first, canonical, text_cmp};
ghost use Rattle.ciborium_value.specs.Canonical.{canonical_cmp};
ghost use Rattle.ciborium_value.specs.Facts.Heads.{Sized, heads_cmp};
ghost use Rattle.ciborium_value.specs.View.{view, number_of};

use crate::canonical::CanonicalValue;
use crate::integer::Integer;
use crate::value::Value;
use ciborium_ll::Header;
use ciborium_ll::laws::header_fits;

/// Each number of a value is in its range, a byte string is bytes, each text is UTF-8, and each
/// length is one that a head can have.
pub fn value_fits(value: &Value)
    ensures { Fits (view value.now) }
{
    match value {
        Value::Integer(number) => integer_fits(*number),
        Value::Bytes(content) => bytes_fit(content.as_slice()),
        Value::Float(float) => header_fits(Header::Float(*float)),
        Value::Text(content) => text_fits(content.as_str()),
        Value::Bool(false) => {}
        Value::Bool(true) => {}
        Value::Null => {}
        Value::Tag(tag, content) => {
            header_fits(Header::Tag(*tag));
            value_fits(content);
        }
        Value::Array(items) => {
            'items: for item in items {
                value_fits(item);
            }
        }
        Value::Map(entries) => {
            'entries: for entry in entries {
                value_fits(&entry.0);
                value_fits(&entry.1);
            }
        }
    }
}

fn integer_fits(number: Integer)
    ensures { Fits (integer (number_of number)) }
{
    let _number = i128::from(number);
}

fn bytes_fit(content: &[u8])
    ensures { Fits (bytes content.now) }
{
    let _len = content.len();
}

fn text_fits(content: &str)
    ensures { Fits (text content.now) }
{
    let _len = content.len();
}

/// The value of a number of 128 bits stands for that number, and is folded.
pub fn numbers_are_kept()
    ensures number { (i : ℤ) → IsWide i → tree_number (number_tree i) ≡ Some i }
    ensures folded { (i : ℤ) → IsWide i → fold (number_tree i) ≡ Some (number_tree i) }
{}

/// Values are equal if their trees are, their order is that of the trees, and equal ones hash
/// alike.
pub fn values_compare(a: &Value, b: &Value)
    ensures equality { IsTrue (⟦<Value as std::cmp::PartialEq>⟧.eq a.now b.now)
        ↔ (view a.now ≡ view b.now) }
    ensures order { ⟦<Value as std::cmp::Ord>⟧.cmp a.now b.now ≡ tree_cmp (view a.now)
        (view b.now) }
    ensures partial { ⟦<Value as std::cmp::PartialOrd>⟧.partial_cmp a.now b.now
        ≡ Some (tree_cmp (view a.now) (view b.now)) }
    ensures hash { view a.now ≡ view b.now → ⟦<Value as std::hash::Hash>⟧.hash_input a.now
        ≡ ⟦<Value as std::hash::Hash>⟧.hash_input b.now }
{}

/// Integers are equal if their numbers are, their order is that of the numbers, and equal ones hash
/// alike.
pub fn integers_compare(a: &Integer, b: &Integer)
    ensures equality { IsTrue (⟦<Integer as std::cmp::PartialEq>⟧.eq a.now b.now)
        ↔ (number_of a.now ≡ number_of b.now) }
    ensures order { ⟦<Integer as std::cmp::Ord>⟧.cmp a.now b.now ≡ int_cmp (number_of a.now)
        (number_of b.now) }
    ensures partial { ⟦<Integer as std::cmp::PartialOrd>⟧.partial_cmp a.now b.now
        ≡ Some (int_cmp (number_of a.now) (number_of b.now)) }
    ensures hash { number_of a.now ≡ number_of b.now
        → ⟦<Integer as std::hash::Hash>⟧.hash_input a.now
        ≡ ⟦<Integer as std::hash::Hash>⟧.hash_input b.now }
{}

/// Canonical values are equal if their trees are, their order is that of their encodings, and equal
/// ones hash alike.
pub fn canonical_values_compare(a: &CanonicalValue, b: &CanonicalValue)
    ensures equality { IsTrue (⟦<CanonicalValue as std::cmp::PartialEq>⟧.eq a.now b.now)
        ↔ (view a.now.0 ≡ view b.now.0) }
    ensures order { ⟦<CanonicalValue as std::cmp::Ord>⟧.cmp a.now b.now ≡ canonical (view a.now.0)
        (view b.now.0) }
    ensures partial { ⟦<CanonicalValue as std::cmp::PartialOrd>⟧.partial_cmp a.now b.now
        ≡ Some (canonical (view a.now.0) (view b.now.0)) }
    ensures hash { view a.now.0 ≡ view b.now.0
        → ⟦<CanonicalValue as std::hash::Hash>⟧.hash_input a.now
        ≡ ⟦<CanonicalValue as std::hash::Hash>⟧.hash_input b.now }
{
    value_fits(&a.0);
    value_fits(&b.0);
}

/// The orders of numbers and of trees are total, and those of trees tie no two trees.
pub fn orders_are_total()
    ensures numbers { IsTotalOrder int_cmp }
    ensures trees { IsTotalOrder tree_cmp }
    ensures texts { IsTotalOrder text_cmp }
    ensures canonical { IsTotalOrder canonical_cmp }
    ensures trees_tie { (t s : Tree) → tree_cmp t s ≡ Equal → t ≡ s }
    ensures texts_tie { (t s : Tree) → text_cmp t s ≡ Equal → t ≡ s }
{}

/// The orders of trees whose numbers heads can say are those of their encodings, and by heads and
/// contents they are the same. Trees that fit are such. While an encoding is shorter than 2^64
/// bytes, its counted length is its length.
pub fn orders_of_encodings()
    ensures sized { (t : Tree) → Fits t → Sized t }
    ensures bytes { (t s : Tree) → Sized t → Sized s → bytewise t s ≡ text_cmp t s }
    ensures counted { (t s : Tree) → Sized t → Sized s → canonical t s ≡ canonical_cmp t s }
    ensures heads { (t s : Tree) → Sized t → Sized s → bytewise t s ≡ heads_cmp t s }
    ensures lengths { (t s : Tree) → length (enc t) < 2 ^ 64 → length (enc s) < 2 ^ 64
        → canonical t s ≡ length_first t s }
{}

/// Trees with one encoding are one, and no encoding begins another.
pub fn one_encoding()
    ensures once { (t s : Tree) → Fits t → Fits s → enc t ≡ enc s → t ≡ s }
    ensures prefix { (t s : Tree) (u v : List ℕ) → Fits t → Fits s → enc t ++ u ≡ enc s ++ v
        → (t ≡ s) × (u ≡ v) }
{}

/// The encoding of a tree that fits is bytes.
pub fn encodings_are_bytes()
    ensures { (t : Tree) → Fits t → All (λ x. x < 256) (enc t) }
{}

/// A folded tree folds to itself.
pub fn foldings_are_folded()
    ensures { (t u : Tree) → fold t ≡ Some u → fold u ≡ Some u }
{}
