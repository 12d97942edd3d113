//! Limits of reading, chosen by the caller.
ghost use Rattle.std.specs.Prelude.{◌≤◌};

use ciborium::de::RECURSION_LIMIT;

/// How deep readers of COSE follow what they are handed.
///
/// Nesting is the number of levels that an item may open, each array, map and tag being one; it is
/// counted anew in the byte string of each protected header (RFC 9052, section 3). Layers is the
/// number of protected headers that may lie inside one another, by the counter signatures in them
/// (RFC 9052, section 3.1). The default is a nesting of 256 and 16 layers. Limits take no memory.
#[derive(Debug, Clone, Copy, PartialEq, Eq)]
pub struct Limits {
    nesting: usize,
    layers: usize,
    ghost least_nesting: { 2 ≤ nesting },
    ghost most_nesting: { nesting ≤ 4096 },
    ghost least_layers: { 1 ≤ layers },
    ghost most_layers: { layers ≤ 64 },
}

/// The layers if none are chosen.
const LAYERS: usize = 16;

impl Limits {
    ghost use Rattle.std.specs.Prelude.{◌≡◌, MatchOption};
    ghost use Rattle.coset_labels.specs.Limits.{AreLimits, nesting_of, layers_of};

    /// These limits; `None` unless the nesting is 2 to 4,096 and the layers are 1 to 64.
    pub fn new(nesting: usize, layers: usize) -> Option<Limits>
        ensures { MatchOption result (AreLimits nesting layers → ⊥)
            (λ l. AreLimits nesting layers × (nesting_of l ≡ nesting) × (layers_of l ≡ layers)) }
    {
        if nesting < 2 || nesting > 4096 || layers < 1 || layers > 64 {
            return None;
        }
        Some(Limits { nesting, layers })
    }

    /// The levels that an item may open, 2 to 4,096.
    pub fn nesting(self) -> usize
        ensures chosen { result ≡ nesting_of self }
        ensures least { 2 ≤ result }
        ensures most { result ≤ 4096 }
    {
        self.nesting
    }

    /// The protected headers that may lie inside one another, 1 to 64.
    pub fn layers(self) -> usize
        ensures chosen { result ≡ layers_of self }
        ensures least { 1 ≤ result }
        ensures most { result ≤ 64 }
    {
        self.layers
    }
}

/// A nesting of 256 and 16 layers.
impl Default for Limits {
    ghost use Rattle.std.specs.Prelude.{◌≡◌};
    ghost use Rattle.coset_labels.specs.Limits.{nesting_of, layers_of, nesting, layers};

    ghost is_default = { λ l. (nesting_of l ≡ nesting) × (layers_of l ≡ layers) };

    fn default() -> Limits {
        Limits {
            nesting: RECURSION_LIMIT,
            layers: LAYERS,
        }
    }
}
