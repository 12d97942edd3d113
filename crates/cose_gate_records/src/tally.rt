//! How long a text is.
ghost use Rattle.std.specs.Prelude.{◌≡◌, ◌++◌, []};
ghost use Rattle.cose_gate_records.specs.Lines.{counted};

use crate::text::logged;
use ciborium_ll::log::Log;

/// The length of all that was written. Which bytes these were only contracts say.
#[derive(Drop)]
pub(crate) struct Tally {
    pub(crate) end: usize,
    all: Log<u8>,
    ghost end_is: { end ≡ counted all.items },
}

impl Tally {
    ghost use Rattle.cose_gate_records.specs.Tallies.{all_of};

    /// A tally of nothing.
    pub(crate) fn new() -> Tally
        ensures { all_of result ≡ [] }
    {
        Tally {
            end: 0,
            all: Log::new(),
        }
    }

    /// The tally with this text after what was written.
    pub(crate) fn and(self, text: &[u8]) -> Tally
        ensures { all_of result ≡ all_of self ++ text.now }
    {
        Tally {
            end: self.end.saturating_add(text.len()),
            all: logged(self.all, text),
        }
    }
}
