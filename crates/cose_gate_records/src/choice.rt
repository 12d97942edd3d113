//! What a caller chooses.
ghost use Rattle.std.specs.Prelude.{◌≡◌, MatchOption};
ghost use Rattle.coset_labels.specs.Limits.{AreLimits};
ghost use Rattle.cose_gate_core.specs.Findings.{within};
ghost use Rattle.cose_gate_core.specs.Terms.{limits_of};

use cose_gate_program::{Limits, Terms};

/// Limits as a caller gives them, which may be some that are not allowed, and whether the gate is
/// strict.
#[derive(Debug, Clone, Copy, PartialEq, Eq)]
pub struct Choice {
    /// The levels that an item may open, and anew the item in a protected header: 2 to 4,096.
    pub nesting: usize,
    /// The protected headers that may lie inside one another: 1 to 64.
    pub layers: usize,
    /// Whether a message passes only if its item is already in canonical encoding.
    pub strict: bool,
}

impl Choice {
    /// What the gate goes by; `None` if the limits are not allowed.
    pub fn terms(self) -> Option<Terms>
        ensures { MatchOption result (AreLimits self.nesting self.layers → ⊥)
            (λ terms. AreLimits self.nesting self.layers
            × (limits_of terms ≡ within self.nesting self.layers self.strict)) }
    {
        match Limits::new(self.nesting, self.layers) {
            Some(limits) => Some(Terms {
                limits,
                strict: self.strict,
            }),
            None => None,
        }
    }
}
