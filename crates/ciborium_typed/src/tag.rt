//! Values with a tag around them (RFC 8949, section 3.4).
ghost use Rattle.std.specs.Prelude.{◌≡◌, false, IfOk, OnOk, OnErr, MatchOption};
ghost use Rattle.ciborium_value.specs.Tree as spec;
ghost use Rattle.ciborium_value.specs.Kinds.{is_tag};
ghost use Rattle.ciborium_value.specs.Tree.{Tree, opens_none};
ghost use Rattle.ciborium_value.specs.View.{view};
ghost use Rattle.ciborium_traits.specs.Events.{events, Puts, Stops};
ghost use Rattle.ciborium_typed.specs.Facts.Tags.{captured_back, required_back, accepted_back};
ghost use Rattle.ciborium_typed.specs.Facts.Tags.{captured_once, required_once, accepted_once};
ghost use Rattle.ciborium_typed.specs.Tags.{tagged_tree, outer_tag, inside, required_refusal};
ghost use Rattle.ciborium_typed.specs.Tags.{accepted_refusal, AcceptedTaken};

use ciborium_traits::{Deserialize, Error, RoundTrip, Serialize, Sink};
use ciborium_value::{Kind, Value};
use std::alloc::{AllocError, Global};

/// A value with the tag around it, if there is one.
#[derive(Debug, Clone, PartialEq, Eq, PartialOrd, Ord, Hash, Drop)]
pub struct Captured<V>(pub Option<u64>, pub V);

/// A value with the tag `TAG` around it.
#[derive(Debug, Clone, PartialEq, Eq, PartialOrd, Ord, Hash, Drop)]
pub struct Required<V, const TAG: u64>(pub V);

/// A value that is written with the tag `TAG` around it, and read with or without.
#[derive(Debug, Clone, PartialEq, Eq, PartialOrd, Ord, Hash, Drop)]
pub struct Accepted<V, const TAG: u64>(pub V);

impl Captured<Value> {
    /// A value with the same tag around it, if there is one.
    ///
    /// # Errors
    /// Only if out of memory.
    pub fn clone(&self, alloc: Global) -> Result<Captured<Value>, AllocError>
        ensures { IfOk result (λ copy. (copy.0 ≡ self.now.0) × (view copy.1 ≡ view self.now.1)) }
    {
        Ok(Captured(self.0, self.1.clone(alloc)?))
    }
}

impl<const TAG: u64> Required<Value, TAG> {
    /// The same value with the tag around it.
    ///
    /// # Errors
    /// Only if out of memory.
    pub fn clone(&self, alloc: Global) -> Result<Required<Value, TAG>, AllocError>
        ensures { IfOk result (λ copy. view copy.0 ≡ view self.now.0) }
    {
        Ok(Required(self.0.clone(alloc)?))
    }
}

impl<const TAG: u64> Accepted<Value, TAG> {
    /// The same value.
    ///
    /// # Errors
    /// Only if out of memory.
    pub fn clone(&self, alloc: Global) -> Result<Accepted<Value, TAG>, AllocError>
        ensures { IfOk result (λ copy. view copy.0 ≡ view self.now.0) }
    {
        Ok(Accepted(self.0.clone(alloc)?))
    }
}

impl<V: Serialize> Serialize for Captured<V> {
    ghost put = { λ c. tagged_tree c.0 (V.put c.1) };

    fn serialize<S: Sink>(&self, sink: &mut S) -> Result<(), S::Error> {
        match self.0 {
            Some(tag) => serialize_tagged(tag, &self.1, sink),
            None => self.1.serialize(sink),
        }
    }
}

impl<V: Deserialize> Deserialize for Captured<V> {
    ghost refusal = { λ t. V.refusal (inside t) };

    ghost takes = { λ t c. (c.0 ≡ outer_tag t) × V.takes (inside t) c.1 };

    ghost grows = { V.grows };

    fn take(alloc: Global, value: Value) -> Result<Captured<V>, Error> {
        match value {
            Value::Tag(tag, content) => {
                let x = V::take(alloc, Box::into_inner(content))?;
                Ok(Captured(Some(tag), x))
            }
            other => Ok(Captured(None, V::take(alloc, other)?)),
        }
    }
}

impl<V: Serialize, const TAG: u64> Serialize for Required<V, TAG> {
    ghost put = { λ r. spec.tag TAG (V.put r.0) };

    fn serialize<S: Sink>(&self, sink: &mut S) -> Result<(), S::Error> {
        serialize_tagged(TAG, &self.0, sink)
    }
}

impl<V: Deserialize, const TAG: u64> Deserialize for Required<V, TAG> {
    ghost refusal = { required_refusal TAG V.refusal };

    ghost takes = { λ t r. (x : Tree) × (t ≡ spec.tag TAG x) × V.takes x r.0 };

    ghost grows = { V.grows };

    fn take(alloc: Global, value: Value) -> Result<Required<V, TAG>, Error> {
        match value {
            Value::Tag(tag, content) => {
                if tag != TAG {
                    return Err(Error::Kind(Kind::Tag));
                }
                Ok(Required(V::take(alloc, Box::into_inner(content))?))
            }
            _ => Err(Error::Kind(Kind::Tag)),
        }
    }
}

impl<V: Serialize, const TAG: u64> Serialize for Accepted<V, TAG> {
    ghost put = { λ a. spec.tag TAG (V.put a.0) };

    fn serialize<S: Sink>(&self, sink: &mut S) -> Result<(), S::Error> {
        serialize_tagged(TAG, &self.0, sink)
    }
}

impl<V: Deserialize, const TAG: u64> Deserialize for Accepted<V, TAG> {
    ghost refusal = { accepted_refusal TAG V.refusal };

    ghost takes = { λ t a. AcceptedTaken TAG V.takes t a.0 };

    ghost grows = { V.grows };

    fn take(alloc: Global, value: Value) -> Result<Accepted<V, TAG>, Error> {
        match value {
            Value::Tag(tag, content) => {
                if tag != TAG {
                    return Err(Error::Kind(Kind::Tag));
                }
                Ok(Accepted(V::take(alloc, Box::into_inner(content))?))
            }
            other => Ok(Accepted(V::take(alloc, other)?)),
        }
    }
}

impl<V: RoundTrip> RoundTrip for Captured<V> {
    ghost kept = { λ c. V.kept c.1 × MatchOption c.0 (is_tag (V.put c.1) ≡ false)
        (λ n. opens_none n (V.put c.1) ≡ false) };

    ghost taken_back = { λ c h. captured_back V.put V.refusal V.takes c.0 c.1
        (V.taken_back c.1 h.0) h.1 };

    ghost takes_one = { λ t x y. captured_once V.put V.takes V.takes_one t x.0 y.0 x.1 y.1 };
}

impl<V: RoundTrip, const TAG: u64> RoundTrip for Required<V, TAG> {
    ghost kept = { λ r. V.kept r.0 × (opens_none TAG (V.put r.0) ≡ false) };

    ghost taken_back = { λ r h. required_back V.put V.refusal V.takes TAG r.0
        (V.taken_back r.0 h.0) h.1 };

    ghost takes_one = { λ t x y. required_once V.put V.takes V.takes_one TAG t x.0 y.0 };
}

impl<V: RoundTrip, const TAG: u64> RoundTrip for Accepted<V, TAG> {
    ghost kept = { λ a. V.kept a.0 × (opens_none TAG (V.put a.0) ≡ false) };

    ghost taken_back = { λ a h. accepted_back V.put V.refusal V.takes TAG a.0
        (V.taken_back a.0 h.0) h.1 };

    ghost takes_one = { λ t x y. accepted_once V.put V.takes V.takes_one TAG t x.0 y.0 };
}

/// Writes the value inside the tag.
fn serialize_tagged<V: Serialize, S: Sink>(
    tag: u64,
    value: &V,
    sink: &mut S,
) -> Result<(), S::Error>
    ensures ok { OnOk result (Puts S.due sink.old
        (events (spec.tag tag (V.put value.now))) sink.new) }
    ensures err { OnErr result (Stops S.due S.torn sink.old
        (events (spec.tag tag (V.put value.now))) sink.new) }
{
    sink.tag(tag)?;
    value.serialize(sink)
}
