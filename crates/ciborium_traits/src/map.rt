//! Maps.
ghost use Rattle.std.specs.Prelude.{◌≡◌, None, List, IfOk, IfErr, map, true};
ghost use Rattle.ciborium_value.specs.Tree as spec;
ghost use Rattle.ciborium_value.specs.Tree.{Pairs};
ghost use Rattle.ciborium_value.specs.View.{pairs, view_pairs};
ghost use Rattle.ciborium_traits.specs.Lists.{first_refusal_of_pairs, map_refusal, EachPairTaken};
ghost use Rattle.ciborium_traits.specs.Lists.{inserted};
ghost use Rattle.ciborium_traits.specs.Reading.{bare, IsRefusal};

use crate::de::Deserialize;
use crate::error::Error;
use crate::ser::{Serialize, Sink};
use crate::untagged::bare;
use ciborium_value::{Kind, Value};
use std::alloc::Global;
use std::collections::BTreeMap;

impl<K: Serialize + Ord, V: Serialize> Serialize for BTreeMap<K, V> {
    ghost put = { λ m. spec.map (pairs (map (λ e. (K.put e.0, V.put e.1)) m.entries)) };

    #[tactic(auto, using(crate::proofs::Written::pairs_counted, std::proofs::lemmas::Map::Iter::rest_more, std::proofs::lemmas::Map::Iter::rest_all))]
    fn serialize<S: Sink>(&self, sink: &mut S) -> Result<(), S::Error> {
        sink.map(self.len())?;
        'entries: for (key, value) in self {
            key.serialize(sink)?;
            value.serialize(sink)?;
        }
        Ok(())
    }
}

impl<K: Deserialize + Ord, V: Deserialize> Deserialize for BTreeMap<K, V> {
    ghost refusal = { λ t. map_refusal (first_refusal_of_pairs K.refusal V.refusal) (bare t) };

    ghost takes = { λ t m. (ps : Pairs) × (es : List (K × V)) × (bare t ≡ spec.map ps)
        × EachPairTaken K.takes V.takes ps es × (m.entries ≡ inserted K.cmp es) };

    ghost grows = { true };

    fn take(alloc: Global, value: Value) -> Result<BTreeMap<K, V>, Error> {
        match bare(value) {
            Value::Map(entries) => take_entries(alloc, entries),
            _ => Err(Error::Kind(Kind::WrongType)),
        }
    }
}

/// The map of the keys and values that are taken from the entries.
fn take_entries<K: Deserialize + Ord, V: Deserialize>(
    alloc: Global,
    entries: Vec<(Value, Value)>,
) -> Result<BTreeMap<K, V>, Error>
    ensures ok { IfOk result (λ m. (first_refusal_of_pairs K.refusal V.refusal
        (view_pairs entries.items) ≡ None)
        × ((es : List (K × V)) × EachPairTaken K.takes V.takes (view_pairs entries.items) es
        × (m.entries ≡ inserted K.cmp es))) }
    ensures err { IfErr result (λ e. IsRefusal true
        (first_refusal_of_pairs K.refusal V.refusal (view_pairs entries.items)) e) }
{
    let mut taken = BTreeMap::new(alloc);
    'entries: for entry in entries {
        let key = K::take(alloc, entry.0)?;
        let value = V::take(alloc, entry.1)?;
        taken.insert(key, value)?;
    }
    Ok(taken)
}
