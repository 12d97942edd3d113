//! Tuples of one to four: arrays of that length.
ghost use Rattle.std.specs.Prelude.{◌≡◌, ◌+◌, ◌<◌, [], ◌∷◌, ◌||◌, false, None, IfOk, IfErr};
ghost use Rattle.std.specs.Vec.Iter.{into_iter_items, into_iter_len};
ghost use Rattle.ciborium_value.specs.Tree as spec;
ghost use Rattle.ciborium_value.specs.Tree.{Tree, Trees, one_more};
ghost use Rattle.ciborium_value.specs.View.{trees, view, views};
ghost use Rattle.ciborium_traits.specs.Lists.{array_refusal, other_length, tuple_refusal};
ghost use Rattle.ciborium_traits.specs.Reading.{bare, IsRefusal};

use crate::de::Deserialize;
use crate::error::Error;
use crate::ser::{Serialize, Sink};
use crate::untagged::bare;
use ciborium_value::{Kind, Value};
use std::alloc::Global;
use std::vec::IntoIter;

/// The items of an array of this length, the tags around it ignored.
fn items_of(value: Value, len: usize) -> Result<IntoIter<Value>, Error>
    ensures ok { IfOk result (λ items.
        (bare (view value) ≡ spec.array (views (into_iter_items items)))
        × (into_iter_len items ≡ len)) }
    ensures err { IfErr result (λ e. IsRefusal false
        (array_refusal (other_length len) (bare (view value))) e) }
{
    match bare(value) {
        Value::Array(items) => {
            if items.len() != len {
                return Err(Error::Kind(Kind::Length));
            }
            Ok(items.into_iter())
        }
        _ => Err(Error::Kind(Kind::WrongType)),
    }
}

/// Takes the next of the items.
fn take_next<T: Deserialize>(alloc: Global, items: &mut IntoIter<Value>) -> Result<T, Error>
    requires { 0 < into_iter_len items.old }
    ensures ok { IfOk result (λ x. (t : Tree)
        × (views (into_iter_items items.old) ≡ one_more t (views (into_iter_items items.new)))
        × (T.refusal t ≡ None) × T.takes t x) }
    ensures err { IfErr result (λ e. (t : Tree) × (ts : Trees)
        × (views (into_iter_items items.old) ≡ one_more t ts)
        × IsRefusal T.grows (T.refusal t) e) }
    ensures len { into_iter_len items.new + 1 ≡ into_iter_len items.old }
{
    match items.next() {
        Some(item) => T::take(alloc, item),
        None => Err(Error::Kind(Kind::Length)),
    }
}

impl<A: Serialize> Serialize for (A,) {
    ghost put = { λ p. spec.array (trees (A.put p.0 ∷ [])) };

    fn serialize<S: Sink>(&self, sink: &mut S) -> Result<(), S::Error> {
        sink.array(1)?;
        self.0.serialize(sink)
    }
}

impl<A: Deserialize> Deserialize for (A,) {
    ghost refusal = { λ t. array_refusal (tuple_refusal (A.refusal ∷ [])) (bare t) };

    ghost takes = { λ t p. (a : Tree) × (bare t ≡ spec.array (trees (a ∷ []))) × A.takes a p.0 };

    ghost grows = { A.grows };

    fn take(alloc: Global, value: Value) -> Result<(A,), Error> {
        let mut items = items_of(value, 1)?;
        let a = take_next(alloc, &mut items)?;
        Ok((a,))
    }
}

impl<A: Serialize, B: Serialize> Serialize for (A, B) {
    ghost put = { λ p. spec.array (trees (A.put p.0 ∷ B.put p.1 ∷ [])) };

    fn serialize<S: Sink>(&self, sink: &mut S) -> Result<(), S::Error> {
        sink.array(2)?;
        self.0.serialize(sink)?;
        self.1.serialize(sink)
    }
}

impl<A: Deserialize, B: Deserialize> Deserialize for (A, B) {
    ghost refusal = { λ t. array_refusal (tuple_refusal (A.refusal ∷ B.refusal ∷ [])) (bare t) };

    ghost takes = { λ t p. (a b : Tree) × (bare t ≡ spec.array (trees (a ∷ b ∷ []))) × A.takes a p.0
        × B.takes b p.1 };

    ghost grows = { A.grows || B.grows };

    fn take(alloc: Global, value: Value) -> Result<(A, B), Error> {
        let mut items = items_of(value, 2)?;
        let a = take_next(alloc, &mut items)?;
        let b = take_next(alloc, &mut items)?;
        Ok((a, b))
    }
}

impl<A: Serialize, B: Serialize, C: Serialize> Serialize for (A, B, C) {
    ghost put = { λ p. spec.array (trees (A.put p.0 ∷ B.put p.1 ∷ C.put p.2 ∷ [])) };

    fn serialize<S: Sink>(&self, sink: &mut S) -> Result<(), S::Error> {
        sink.array(3)?;
        self.0.serialize(sink)?;
        self.1.serialize(sink)?;
        self.2.serialize(sink)
    }
}

impl<A: Deserialize, B: Deserialize, C: Deserialize> Deserialize for (A, B, C) {
    ghost refusal = { λ t. array_refusal (tuple_refusal (A.refusal ∷ B.refusal ∷ C.refusal ∷ []))
        (bare t) };

    ghost takes = { λ t p. (a b c : Tree) × (bare t ≡ spec.array (trees (a ∷ b ∷ c ∷ [])))
        × A.takes a p.0 × B.takes b p.1 × C.takes c p.2 };

    ghost grows = { A.grows || (B.grows || C.grows) };

    fn take(alloc: Global, value: Value) -> Result<(A, B, C), Error> {
        let mut items = items_of(value, 3)?;
        let a = take_next(alloc, &mut items)?;
        let b = take_next(alloc, &mut items)?;
        let c = take_next(alloc, &mut items)?;
        Ok((a, b, c))
    }
}

impl<A: Serialize, B: Serialize, C: Serialize, D: Serialize> Serialize for (A, B, C, D) {
    ghost put = { λ p. spec.array (trees (A.put p.0 ∷ B.put p.1 ∷ C.put p.2 ∷ D.put p.3 ∷ [])) };

    fn serialize<S: Sink>(&self, sink: &mut S) -> Result<(), S::Error> {
        sink.array(4)?;
        self.0.serialize(sink)?;
        self.1.serialize(sink)?;
        self.2.serialize(sink)?;
        self.3.serialize(sink)
    }
}

impl<A: Deserialize, B: Deserialize, C: Deserialize, D: Deserialize> Deserialize for (A, B, C, D) {
    ghost refusal = { λ t. array_refusal
        (tuple_refusal (A.refusal ∷ B.refusal ∷ C.refusal ∷ D.refusal ∷ [])) (bare t) };

    ghost takes = { λ t p. (a b c d : Tree) × (bare t ≡ spec.array (trees (a ∷ b ∷ c ∷ d ∷ [])))
        × A.takes a p.0 × B.takes b p.1 × C.takes c p.2 × D.takes d p.3 };

    ghost grows = { A.grows || (B.grows || (C.grows || D.grows)) };

    fn take(alloc: Global, value: Value) -> Result<(A, B, C, D), Error> {
        let mut items = items_of(value, 4)?;
        let a = take_next(alloc, &mut items)?;
        let b = take_next(alloc, &mut items)?;
        let c = take_next(alloc, &mut items)?;
        let d = take_next(alloc, &mut items)?;
        Ok((a, b, c, d))
    }
}
