//! A writer into memory that grows.
ghost use Rattle.std.specs.Prelude.{◌≡◌, ◌+◌, [], false};
ghost use Rattle.cose_gate_records.specs.Growing.{text_of, times, failures_of, is_refused};

use ciborium_ll::Write;
use ciborium_ll::count::Count;
use std::alloc::{AllocError, Global};

/// How often memory ran out.
#[derive(Drop)]
pub(crate) enum Refusals {
    /// Memory never ran out.
    Never,
    /// Memory ran out once, and then as often again as this counts.
    AndThen(Count),
}

/// A writer over memory that knows whether it was out of memory.
#[derive(Drop)]
pub struct Growing {
    text: Vec<u8>,
    refusals: Refusals,
}

impl Growing {
    /// A writer that has written nothing yet.
    pub fn new(alloc: Global) -> Growing
        ensures text { text_of result ≡ [] }
        ensures failures { failures_of result ≡ 0 }
    {
        Growing {
            text: Vec::new(alloc),
            refusals: Refusals::Never,
        }
    }

    /// What was written.
    pub fn as_written(&self) -> &[u8]
        ensures { result.now ≡ text_of self.now }
    {
        &self.text
    }

    /// Whether memory ever ran out.
    pub fn is_refused(&self) -> bool
        ensures answer { result ≡ is_refused self.now }
        ensures never { result ≡ false → failures_of self.now ≡ 0 }
    {
        matches!(self.refusals, Refusals::AndThen(_))
    }
}

/// The count if memory ran out once more.
fn one_more(refusals: &Refusals) -> Refusals
    ensures { times result ≡ times refusals.now + 1 }
{
    match refusals {
        Refusals::Never => Refusals::AndThen(Count::new()),
        Refusals::AndThen(count) => Refusals::AndThen(count.and_one()),
    }
}

impl Write for Growing {
    type Error = AllocError;

    ghost use Rattle.std.specs.Prelude.{Some};
    ghost use Rattle.cose_gate_records.specs.Growing.{text_of, failures_of};

    ghost written = { λ w. Some (text_of w) };

    ghost failed = { failures_of };

    /// Appends all of the data, or nothing if out of memory.
    fn write_all(&mut self, data: &[u8]) -> Result<(), AllocError> {
        match self.text.extend_from_slice(data) {
            Ok(()) => Ok(()),
            Err(refused) => {
                self.refusals = one_more(&self.refusals);
                Err(refused)
            }
        }
    }

    fn flush(&mut self) -> Result<(), AllocError> {
        Ok(())
    }
}
