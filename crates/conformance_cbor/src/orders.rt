//! Orders and equalities, told of all pairs.
use crate::items::item_of;
use crate::registries::found;
use ciborium_value::{CanonicalValue, Integer, Value, cmp_value};
use cose_iana::{Algorithm, EnumI64, HeaderParameter, OkpKeyParameter};
use coset_labels::{CborSerializable, Label};
use std::cmp::Ordering;
use std::hash::{DefaultHasher, Hash, Hasher};
use test_tools::{NoAnswer, Out};

/// `yes` if each pair of these compares as its places do, or for `distinct`, if each is the same as
/// itself and as no other; else the first pair for which that does not hold.
pub fn in_place(to: &mut Out, call: &str, order: &str, items: &[&str]) {
    for (place, a) in items.iter().enumerate() {
        for (other, b) in items.iter().enumerate() {
            let is_so = match call {
                "rising" => compared(to, order, a, b) == place.cmp(&other),
                _ => is_same(to, order, a, b) == (place == other),
            };
            if !is_so {
                to.text(a);
                to.text(" ");
                return to.text(b);
            }
        }
    }
    to.text("yes");
}

/// How two items, or two entries of a registry, compare in this order.
fn compared(to: &mut Out, order: &str, a: &str, b: &str) -> Ordering {
    match order {
        "value" => item_of(to, a).cmp(&item_of(to, b)),
        "length-first" => cmp_value(&item_of(to, a), &item_of(to, b)),
        "canonical" => canonical(to, a).cmp(&canonical(to, b)),
        "canonical-partial" => partly_compared(to, a, b),
        "integer" => integer(to, a).canonical_cmp(&integer(to, b)),
        "label" => label::<Label>(to, a).cmp(&label(to, b)),
        "label-canonical" => label_canonical(to, a, b),
        "algorithm-label" => label::<coset_labels::Algorithm>(to, a).cmp(&label(to, b)),
        "algorithm" => entries_compared::<Algorithm>(to, a, b),
        "okp" => entries_compared::<OkpKeyParameter>(to, a, b),
        _ => no_order(to),
    }
}

fn label_canonical(to: &mut Out, a: &str, b: &str) -> Ordering {
    match label::<Label>(to, a).zip(label::<Label>(to, b)) {
        Some((a, b)) => a.cmp_canonical(&b),
        None => Ordering::Equal,
    }
}

fn no_order(to: &mut Out) -> Ordering {
    to.refuse(NoAnswer::NoCall);
    Ordering::Equal
}

fn partly_compared(to: &mut Out, a: &str, b: &str) -> Ordering {
    match canonical(to, a).partial_cmp(&canonical(to, b)) {
        Some(ordering) => ordering,
        None => {
            to.refuse(NoAnswer::NotItem);
            Ordering::Equal
        }
    }
}

fn entries_compared<T: EnumI64>(to: &mut Out, a: &str, b: &str) -> Ordering {
    match (found::<T>(to, a), found::<T>(to, b)) {
        (Some(a), Some(b)) => a.cmp(&b),
        _ => Ordering::Equal,
    }
}

/// A copy of the item as one in canonical order.
fn canonical(to: &mut Out, word: &str) -> CanonicalValue {
    let value = CanonicalValue::from(item_of(to, word));
    let copy = value.clone(to.alloc());
    to.kept(copy).unwrap_or(CanonicalValue(Value::Null))
}

fn integer(to: &mut Out, word: &str) -> Integer {
    match item_of(to, word) {
        Value::Integer(integer) => integer,
        _ => {
            to.refuse(NoAnswer::NotItem);
            Integer::from(0u8)
        }
    }
}

fn label<T: CborSerializable>(to: &mut Out, word: &str) -> Option<T> {
    let bytes = to.bytes(word);
    let label = T::from_slice(to.alloc(), &bytes);
    to.value(label)
}

/// Whether two items, or two entries of a registry, are the same by this relation.
fn is_same(to: &mut Out, relation: &str, a: &str, b: &str) -> bool {
    match relation {
        "value" => item_of(to, a) == item_of(to, b),
        "canonical" => canonical(to, a) == canonical(to, b),
        "canonical-hash" => hash(&canonical(to, a)) == hash(&canonical(to, b)),
        "label" => label::<Label>(to, a) == label(to, b),
        "header-parameter" => found::<HeaderParameter>(to, a) == found(to, b),
        _ => {
            to.refuse(NoAnswer::NoCall);
            false
        }
    }
}

fn hash(value: &CanonicalValue) -> u64 {
    let mut state = DefaultHasher::new();
    value.hash(&mut state);
    state.finish()
}
