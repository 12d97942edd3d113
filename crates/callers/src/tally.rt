//! A report that counts. `cose_gate` is the one crate that it names.
ghost use Rattle.std.specs.Prelude.{◌≡◌};

use cose_gate::{Entry, Report, Verdict};
use std::alloc::AllocError;

/// How many messages passed, and how many items were refused: a report of the gate.
#[derive(Debug, Clone, Copy, PartialEq, Eq, Drop)]
pub struct Tally {
    /// How many passed.
    pub passed: usize,
    /// How many were refused.
    pub refused: usize,
}

impl Tally {
    /// Nothing yet.
    pub fn new() -> Tally
        ensures { result ≡ record { passed = 0; refused = 0 } }
    {
        Tally {
            passed: 0,
            refused: 0,
        }
    }
}

/// Each count stops at `usize::MAX`.
impl Report for Tally {
    ghost use Rattle.callers.specs.Tallies.{Tallied, tallied, tally_of};

    ghost State = { Tallied };

    ghost state = { tally_of };

    ghost folded = { tallied };

    fn note(&mut self, entry: &Entry) -> Result<(), AllocError> {
        match entry.verdict {
            Verdict::Passed => self.passed = self.passed.saturating_add(1),
            Verdict::Refused(_) => self.refused = self.refused.saturating_add(1),
        }
        Ok(())
    }
}
