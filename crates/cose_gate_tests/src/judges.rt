//! A judge that counts, and memory that is refused once.
use ciborium::ll::log::Log;
use cose_gate::{About, Entry, Judge, Report};
use std::alloc::AllocError;

/// Says yes to each signature, and counts what was begun, fed and decided. It takes no memory.
#[derive(Drop)]
pub struct Counting {
    /// How many questions were begun.
    pub begun: usize,
    /// How many bytes were fed.
    pub fed: usize,
    /// How many were decided.
    pub decided: usize,
    pieces: Log<usize>,
}

impl Counting {
    /// A judge that was asked nothing yet.
    pub fn new() -> Counting {
        Counting {
            begun: 0,
            fed: 0,
            decided: 0,
            pieces: Log::new(),
        }
    }
}

impl Judge for Counting {
    ghost use Rattle.std.specs.Prelude.{true};

    ghost Who = { Unit {0} };

    ghost Told = { Unit {0} };

    ghost who = { λ _. tt };

    ghost told = { λ _. tt };

    ghost holds = { λ _ _ _. Unit {0} };

    ghost pieces = { λ s. s.pieces.items };

    ghost yes = { λ _ _. true };

    ghost decided = { λ told _. told };

    fn begin(&mut self, _about: &About) -> Result<(), AllocError> {
        self.begun = self.begun.wrapping_add(1);
        self.pieces = Log::new();
        Ok(())
    }

    fn feed(&mut self, piece: &[u8]) -> Result<(), AllocError> {
        self.fed = self.fed.wrapping_add(piece.len());
        self.pieces = self.pieces.and(&piece.len());
        Ok(())
    }

    fn decide(&mut self, _signature: &[u8]) -> bool {
        self.decided = self.decided.wrapping_add(1);
        true
    }
}

/// A judge or a report that gets no memory once, after so many calls that ask for it.
#[derive(Drop)]
pub struct Nth<T> {
    /// The judge or report that is called if memory isn't refused.
    pub inner: T,
    /// How many calls come before the refusal.
    pub calls: usize,
}

impl<T> Nth<T> {
    ghost use Rattle.std.specs.Prelude.{◌≡◌};

    fn step(&mut self) -> Result<(), AllocError>
        ensures { self.new.inner ≡ self.old.inner }
    {
        let is_refused = self.calls == 0;
        self.calls = self.calls.wrapping_sub(1);
        if is_refused { Err(AllocError) } else { Ok(()) }
    }
}

impl<J: Judge> Judge for Nth<J> {
    ghost Who = { J.Who };

    ghost Told = { J.Told };

    ghost who = { λ s. J.who s.inner };

    ghost told = { λ s. J.told s.inner };

    ghost holds = { λ s subject bytes. J.holds s.inner subject bytes };

    ghost pieces = { λ s. J.pieces s.inner };

    ghost yes = { J.yes };

    ghost decided = { J.decided };

    fn begin(&mut self, about: &About) -> Result<(), AllocError> {
        self.step()?;
        self.inner.begin(about)
    }

    fn feed(&mut self, piece: &[u8]) -> Result<(), AllocError> {
        self.step()?;
        self.inner.feed(piece)
    }

    fn decide(&mut self, signature: &[u8]) -> bool {
        self.inner.decide(signature)
    }
}

impl<P: Report> Report for Nth<P> {
    ghost State = { P.State };

    ghost state = { λ s. P.state s.inner };

    ghost folded = { P.folded };

    fn note(&mut self, entry: &Entry) -> Result<(), AllocError> {
        self.step()?;
        self.inner.note(entry)
    }
}
