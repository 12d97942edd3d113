//! A teller that watches a run. `cose_gate` is the one crate that it names.

use cose_gate::{Counts, Notice, Teller};

/// How far a run is, as a page that shows it would ask: the offset of the last item, and what the
/// run came to.
#[derive(Debug, Clone, Copy, PartialEq, Eq, Drop)]
pub struct Progress {
    /// Where the last item begins.
    pub offset: usize,
    /// How many items passed and were refused, if the run is over.
    pub counts: Option<Counts>,
    /// Whether the run stopped, or didn't begin.
    pub stopped: bool,
}

impl Teller for Progress {
    ghost use Rattle.callers.specs.Watching.{progressed};
    ghost use Rattle.callers.specs.declared.watched.Progress.{Progress};

    ghost State = { Progress };

    ghost state = { λ p. p };

    ghost folded = { progressed };

    fn tell(&mut self, notice: &Notice) {
        match notice {
            Notice::Item(entry) => self.offset = entry.offset,
            Notice::Counts(counts) => self.counts = Some(*counts),
            Notice::Stopped(_) | Notice::NotBegun(_) => self.stopped = true,
        }
    }
}
