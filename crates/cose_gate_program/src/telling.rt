//! What is told of a run, and who is told.
ghost use Rattle.std.specs.Prelude.{◌≡◌, ℕ};
ghost use Rattle.cose_gate_program.specs.LentTeller.{LentTeller};
ghost use Rattle.cose_gate_program.specs.declared.telling.Notice.{Notice};
ghost use Rattle.cose_gate_program.specs.declared.telling.Notice.TheVariants.{Item};

use crate::beginning::NotBegun;
use crate::devices::InputFault;
use cose_gate_core::{Counts, Entry, GateFault, Report};
use std::alloc::AllocError;

/// What is told of a run: each item, and at last one of the others.
#[derive(Debug, PartialEq, Eq, Drop)]
pub enum Notice {
    /// An item has passed, or was refused.
    Item(Entry),
    /// The whole input was gone through.
    Counts(Counts),
    /// The run has stopped.
    Stopped(GateFault<InputFault>),
    /// The run doesn't begin.
    NotBegun(NotBegun),
}

/// Is told how a run of the program goes, as it goes. An implementation says in its meaning what it
/// keeps (`state`, and `folded`, which adds one notice).
pub trait Teller {
    /// What a teller keeps.
    ghost State: { Type 0 };

    /// What it keeps now.
    ghost state: { Self → State };

    /// What it keeps after one more notice.
    ghost folded: { State → Notice → State };

    /// Takes the next notice.
    fn tell(&mut self, notice: &Notice)
        ensures { state self.new ≡ folded (state self.old) notice.now };

    /// Hands on what it holds back: more input may be waited for. What it keeps stays.
    fn rest(&mut self)
        ensures { state self.new ≡ state self.old }
    {}
}

/// A report that hands each item on.
#[derive(Drop)]
pub(crate) struct TellerReport<'a, T> {
    pub(crate) teller: &'a mut T,
}

impl<'a, T: Teller> Report for TellerReport<'a, T> {
    ghost State = { LentTeller T.State };

    ghost state = { λ t. record { name = t.teller.ghost_name; state = T.state t.teller.now } };

    ghost folded = { λ s entry. record s { state = T.folded s.state (Item entry) } };

    fn note(&mut self, entry: &Entry) -> Result<(), AllocError> {
        self.teller.tell(&Notice::Item(*entry));
        Ok(())
    }

    fn rest(&mut self) {
        self.teller.rest();
    }
}
