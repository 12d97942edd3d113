//! Facts about what is written and taken, for proofs. The calls change nothing.
ghost use Rattle.std.specs.Prelude.{◌≡◌, ◌↔◌, ◌++◌, IsTrue, false, MatchOption};
ghost use Rattle.std.specs.Cmp.{IsTotalOrder};
ghost use Rattle.std.specs.Cmp.Lexicographic.{slice_cmp};
ghost use Rattle.std.specs.Ordering.{nat_cmp, ordering_then};
ghost use Rattle.ciborium_value.specs.Kinds.{is_tag};
ghost use Rattle.ciborium_value.specs.Tree.{Tree, opens_none};
ghost use Rattle.ciborium_typed.specs.declared.bytes.ByteBuf.{ByteBuf as ByteBufOf};
ghost use Rattle.ciborium_typed.specs.declared.value_sink.ValueSink.{ValueSink as SinkOf};
ghost use Rattle.ciborium_traits.specs.Back.{IsTakenBack};
ghost use Rattle.ciborium_typed.specs.Compared.{Agree};
ghost use Rattle.ciborium_traits.specs.Events.{events, Puts};
ghost use Rattle.ciborium_typed.specs.Stacks.{state_of, added};

use crate::bytes::ByteBuf;
use crate::tag::{Accepted, Captured, Required};
use crate::value_sink::ValueSink;
pub use ciborium_traits::laws::{
    lists_are_taken_back, maps_are_taken_back, numbers_are_taken_back, options_are_taken_back,
    simple_values_are_taken_back, texts_are_taken_back, tuples_of_four_are_taken_back,
    tuples_of_one_are_taken_back, tuples_of_three_are_taken_back, tuples_of_two_are_taken_back,
    values_are_taken_back, wide_numbers_are_taken_back,
};
use ciborium_traits::{Deserialize, Serialize, Sink};
use std::hash::Hash;

/// A byte string is taken back.
pub fn byte_strings_are_taken_back()
    ensures { (x : ByteBufOf) → IsTakenBack ⟦<ByteBuf as Serialize>⟧ ⟦<ByteBuf as Deserialize>⟧ x }
{}

/// A value sink that took the events of an item has this item more, wherever it was awaited.
pub fn items_are_built()
    ensures { (t : Tree) (s s2 : SinkOf) → Puts ⟦<ValueSink as Sink>⟧.due s (events t) s2
        → state_of s2 ≡ added t (state_of s) }
{}

/// A value with the tag around it is taken back if the value is, and the tag is no bignum's over
/// its bytes. With no tag it is if the value's item is no tag.
pub fn captured_values_are_taken_back<V: Serialize + Deserialize>(captured: &Captured<V>)
    ensures { IsTakenBack V.Serialize V.Deserialize captured.now.1
        → MatchOption captured.now.0 (is_tag (V.put captured.now.1) ≡ false)
        (λ n. opens_none n (V.put captured.now.1) ≡ false)
        → IsTakenBack ⟦<Captured<V> as Serialize>⟧ ⟦<Captured<V> as Deserialize>⟧ captured.now }
{}

/// A value that must have a tag is taken back if the value is, and the tag is no bignum's over its
/// bytes.
pub fn required_values_are_taken_back<V: Serialize + Deserialize, const TAG: u64>(
    required: &Required<V, TAG>,
)
    ensures { IsTakenBack V.Serialize V.Deserialize required.now.0
        → opens_none TAG (V.put required.now.0) ≡ false
        → IsTakenBack ⟦<Required<V, TAG> as Serialize>⟧ ⟦<Required<V, TAG> as Deserialize>⟧
        required.now }
{}

/// A value that may have a tag is taken back if the value is, and the tag is no bignum's over its
/// bytes.
pub fn accepted_values_are_taken_back<V: Serialize + Deserialize, const TAG: u64>(
    accepted: &Accepted<V, TAG>,
)
    ensures { IsTakenBack V.Serialize V.Deserialize accepted.now.0
        → opens_none TAG (V.put accepted.now.0) ≡ false
        → IsTakenBack ⟦<Accepted<V, TAG> as Serialize>⟧ ⟦<Accepted<V, TAG> as Deserialize>⟧
        accepted.now }
{}

/// Captured values are equal if their tags are and their values are. Their order is total and goes
/// by the tag, none before any, and then by the value, and they are hashed in that order.
pub fn captured_values_compare<V: Ord + Hash>(a: &Captured<V>, b: &Captured<V>)
    ensures equality { IsTrue (⟦<Captured<V> as std::cmp::PartialEq>⟧.eq a.now b.now)
        ↔ ((a.now.0 ≡ b.now.0) × IsTrue (V.eq a.now.1 b.now.1)) }
    ensures order { ⟦<Captured<V> as std::cmp::Ord>⟧.cmp a.now b.now
        ≡ ordering_then (⟦<Option<u64> as std::cmp::Ord>⟧.cmp a.now.0 b.now.0)
        (V.cmp a.now.1 b.now.1) }
    ensures total { IsTotalOrder ⟦<Captured<V> as std::cmp::Ord>⟧.cmp }
    ensures hash { ⟦<Captured<V> as std::hash::Hash>⟧.hash_input a.now
        ≡ ⟦<Option<u64> as std::hash::Hash>⟧.hash_input a.now.0 ++ V.hash_input a.now.1 }
    ensures agree { Agree ⟦<Captured<V> as std::cmp::PartialEq>⟧.eq
        ⟦<Captured<V> as std::cmp::Ord>⟧.cmp
        ⟦<Captured<V> as std::cmp::PartialOrd>⟧.partial_cmp
        ⟦<Captured<V> as std::hash::Hash>⟧.hash_input a.now b.now }
{}

/// Required values are compared and hashed as the values in their tag are, and their order is
/// total.
pub fn required_values_compare<V: Ord + Hash, const TAG: u64>(
    a: &Required<V, TAG>,
    b: &Required<V, TAG>,
)
    ensures equality { IsTrue (⟦<Required<V, TAG> as std::cmp::PartialEq>⟧.eq a.now b.now)
        ↔ IsTrue (V.eq a.now.0 b.now.0) }
    ensures order { ⟦<Required<V, TAG> as std::cmp::Ord>⟧.cmp a.now b.now ≡ V.cmp a.now.0 b.now.0 }
    ensures total { IsTotalOrder ⟦<Required<V, TAG> as std::cmp::Ord>⟧.cmp }
    ensures hash { ⟦<Required<V, TAG> as std::hash::Hash>⟧.hash_input a.now ≡ V.hash_input a.now.0 }
    ensures agree { Agree ⟦<Required<V, TAG> as std::cmp::PartialEq>⟧.eq
        ⟦<Required<V, TAG> as std::cmp::Ord>⟧.cmp
        ⟦<Required<V, TAG> as std::cmp::PartialOrd>⟧.partial_cmp
        ⟦<Required<V, TAG> as std::hash::Hash>⟧.hash_input a.now b.now }
{}

/// Accepted values are compared and hashed as the values in their tag are, and their order is
/// total.
pub fn accepted_values_compare<V: Ord + Hash, const TAG: u64>(
    a: &Accepted<V, TAG>,
    b: &Accepted<V, TAG>,
)
    ensures equality { IsTrue (⟦<Accepted<V, TAG> as std::cmp::PartialEq>⟧.eq a.now b.now)
        ↔ IsTrue (V.eq a.now.0 b.now.0) }
    ensures order { ⟦<Accepted<V, TAG> as std::cmp::Ord>⟧.cmp a.now b.now ≡ V.cmp a.now.0 b.now.0 }
    ensures total { IsTotalOrder ⟦<Accepted<V, TAG> as std::cmp::Ord>⟧.cmp }
    ensures hash { ⟦<Accepted<V, TAG> as std::hash::Hash>⟧.hash_input a.now ≡ V.hash_input a.now.0 }
    ensures agree { Agree ⟦<Accepted<V, TAG> as std::cmp::PartialEq>⟧.eq
        ⟦<Accepted<V, TAG> as std::cmp::Ord>⟧.cmp
        ⟦<Accepted<V, TAG> as std::cmp::PartialOrd>⟧.partial_cmp
        ⟦<Accepted<V, TAG> as std::hash::Hash>⟧.hash_input a.now b.now }
{}

/// Equality, order and hash of a type agree, and its order is total.
fn comparisons_agree<T: Ord + Hash>(a: &T, b: &T)
    ensures total { IsTotalOrder T.cmp }
    ensures agree { Agree T.eq T.cmp T.partial_cmp T.hash_input a.now b.now }
{}

/// Byte strings are equal if their bytes are. Their order is total and goes byte by byte, a
/// beginning before the whole, and they are hashed as their content is.
pub fn byte_strings_compare(a: &ByteBuf, b: &ByteBuf)
    ensures equality { IsTrue (⟦<ByteBuf as std::cmp::PartialEq>⟧.eq a.now b.now)
        ↔ (a.now.0.items ≡ b.now.0.items) }
    ensures order { ⟦<ByteBuf as std::cmp::Ord>⟧.cmp a.now b.now
        ≡ slice_cmp nat_cmp a.now.0.items b.now.0.items }
    ensures total { IsTotalOrder ⟦<ByteBuf as std::cmp::Ord>⟧.cmp }
    ensures hash { ⟦<ByteBuf as std::hash::Hash>⟧.hash_input a.now
        ≡ ⟦<Vec<u8> as std::hash::Hash>⟧.hash_input a.now.0 }
    ensures agree { Agree ⟦<ByteBuf as std::cmp::PartialEq>⟧.eq ⟦<ByteBuf as std::cmp::Ord>⟧.cmp
        ⟦<ByteBuf as std::cmp::PartialOrd>⟧.partial_cmp ⟦<ByteBuf as std::hash::Hash>⟧.hash_input
        a.now b.now }
{
    comparisons_agree(a, b);
}
