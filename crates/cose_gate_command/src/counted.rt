//! A reader that counts the bytes it has given.
ghost use Rattle.std.specs.Prelude.{◌≡◌, ◌∷◌};

use ciborium_ll::Read;
use std::cell::Cell;

/// A reader, and how many bytes it has given, modulo 2^64.
#[derive(Drop)]
pub(crate) struct Counted<'a, R> {
    pub(crate) reader: &'a mut R,
    pub(crate) taken: &'a Cell<usize>,
}

fn add(taken: &Cell<usize>, n: usize) {
    taken.set(taken.get().wrapping_add(n));
}

impl<'a, R: Read> Read for Counted<'a, R> {
    type Error = R::Error;

    ghost left = { λ c. R.left c.reader.now };

    ghost at_hand = { λ c. R.at_hand c.reader.now };

    ghost failed = { λ c. R.failed c.reader.now };

    ghost ends = { R.ends };

    ghost handle = { λ c. c.reader.ghost_name ∷ R.handle c.reader.now };

    fn read_exact(&mut self, data: &mut [u8]) -> Result<(), R::Error> {
        let read = self.reader.read_exact(data);
        if read.is_ok() {
            add(self.taken, data.len());
        }
        read
    }

    fn held(&self) -> &[u8] {
        self.reader.held()
    }

    fn take(&mut self, n: usize) -> bool {
        let is_taken = self.reader.take(n);
        if is_taken {
            add(self.taken, n);
        }
        is_taken
    }

    fn is_end(error: &R::Error) -> bool
        ensures { result ≡ R.ends error.now }
    {
        R::is_end(error)
    }
}
