//! Keys in the order of their bytes, among which one is looked for by halves.
ghost use Rattle.std.specs.Prelude.{◌≡◌, ◌++◌, List, [], ◌∷◌};
ghost use Rattle.std.specs.List.{list_any};
ghost use Rattle.std.specs.List.Sorted.{IsPermutation, IsSorted};
ghost use Rattle.std.specs.Str.{bytes_eq};
ghost use Rattle.cose_gate_records.specs.Framing.{key_by};
ghost use Rattle.cose_gate_records.specs.Order.{bytes_cmp};

use crate::held::Held;
use ciborium_ll::log::Log;

/// Keys, each as the place of its bytes, and the history of how they were received.
#[derive(Drop)]
pub(crate) struct Ordered<'a> {
    places: Vec<&'a [u8]>,
    received: Log<&'a [u8]>,
    ghost same: { ∥ IsPermutation received.items places.items ∥₁ },
    ghost ordered: { IsSorted (λ x y. bytes_cmp x.now y.now) places.items },
}

impl<'a> Ordered<'a> {
    /// These keys, put in order in place.
    pub(crate) fn new(keys: Vec<&'a [u8]>) -> Ordered<'a>
        ensures { result.received.items ≡ keys.entry.items }
    {
        let received = logged(&keys);
        let mut places = keys;
        places.sort_unstable();
        Ordered { places, received }
    }

    /// Whether the key of the question that is held, with this signature, is one of these.
    pub(crate) fn is_among(&self, held: &Held, signature: &[u8]) -> bool
        ensures { result ≡ list_any (λ key. bytes_eq key.now
            (key_by held.now.front.items held.now.covered.items signature.now))
            self.now.received.items }
    {
        let places = self.places.as_slice();
        places
            .binary_search_by(|key| held.order(key, signature))
            .is_ok()
    }

    /// Whether this key is one of these.
    pub(crate) fn has(&self, key: &[u8]) -> bool
        ensures { result ≡ list_any (λ place. bytes_eq place.now key.now) self.now.received.items }
    {
        let sorted = self.places.as_slice();
        sorted.binary_search_by(|place| (*place).cmp(key)).is_ok()
    }
}

/// The history of these keys. It does nothing at run time.
fn logged<'a>(keys: &[&'a [u8]]) -> Log<&'a [u8]>
    ensures { result.items ≡ keys.now }
{
    let mut log = Log::new();
    for key in keys {
        log = log.and(key);
    }
    log
}
