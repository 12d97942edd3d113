//! The gate over one item.
ghost use Rattle.std.specs.Prelude.{None, true};

use ciborium_ll::log::Log;
use ciborium_ll::{Full, Write};
use cose_gate_core::{
    About, Decoder, End, Entry, GateFault, Judge, Limits, MessageKind, Terms, Verdict, gate_by,
};
use cose_reasons::Stop;
use std::alloc::{AllocError, Global};

/// What the gate says of an item.
pub type Outcome = Result<Option<Verdict>, GateFault<End>>;

/// Compares what is written with these bytes, and keeps none of it.
#[derive(Drop)]
pub struct Comparing<'a> {
    with: &'a [u8],
    at: usize,
    differs: bool,
}

impl<'a> Comparing<'a> {
    /// Nothing is written yet.
    pub fn new(with: &'a [u8]) -> Comparing<'a> {
        Comparing {
            with,
            at: 0,
            differs: false,
        }
    }

    /// Where what was written differs from the bytes first; none if it is the same.
    pub fn difference(&self) -> Option<usize> {
        if !self.differs && self.at == self.with.len() {
            None
        } else {
            Some(self.at)
        }
    }

    /// Goes on over what is written next.
    fn compare(&mut self, data: &[u8]) {
        if self.differs {
            return;
        }
        let left = self.with.get(self.at..).unwrap_or(&[]);
        let same = first_other(data, left);
        self.at = self.at.saturating_add(same);
        self.differs = same < data.len();
    }
}

/// How many bytes of the first are at the beginning of the other, too.
fn first_other(a: &[u8], b: &[u8]) -> usize {
    if b.get(..a.len()) == Some(a) {
        return a.len();
    }
    a.iter().zip(b.iter()).take_while(|(x, y)| x == y).count()
}

impl Write for Comparing<'_> {
    type Error = Full;

    ghost written = { λ _. None };

    ghost failed = { λ _. 0 };

    fn write_all(&mut self, data: &[u8]) -> Result<(), Full> {
        self.compare(data);
        Ok(())
    }

    fn flush(&mut self) -> Result<(), Full> {
        Ok(())
    }
}

/// Says yes to each question, and counts them.
#[derive(Drop)]
pub struct Counter {
    /// How many there were.
    pub count: usize,
    /// The kind of the message that the last one was about.
    pub kind: Option<MessageKind>,
    pieces: Log<usize>,
}

impl Counter {
    /// None yet.
    pub fn new() -> Counter {
        Counter {
            count: 0,
            kind: None,
            pieces: Log::new(),
        }
    }
}

impl Judge for Counter {
    ghost Who = { Unit {0} };

    ghost Told = { Unit {0} };

    ghost who = { λ _. tt };

    ghost told = { λ _. tt };

    ghost holds = { λ _ _ _. Unit {0} };

    ghost pieces = { λ c. c.pieces.items };

    ghost yes = { λ _ _. true };

    ghost decided = { λ _ _. tt };

    fn begin(&mut self, about: &About) -> Result<(), AllocError> {
        self.kind = Some(about.kind);
        self.pieces = Log::new();
        Ok(())
    }

    fn feed(&mut self, piece: &[u8]) -> Result<(), AllocError> {
        self.pieces = self.pieces.and(&piece.len());
        Ok(())
    }

    fn decide(&mut self, _signature: &[u8]) -> bool {
        self.count = self.count.saturating_add(1);
        true
    }
}

/// Runs the gate over one item with this judge.
///
/// # Errors
/// `Memory`.
pub fn gate_item<J: Judge>(
    alloc: Global,
    aad: &[u8],
    item: &[u8],
    out: &mut Comparing<'_>,
    judge: &mut J,
) -> Result<Outcome, Stop> {
    let mut decoder = Decoder::from(item);
    let mut entries = Vec::<Entry>::new(alloc);
    let terms = Terms {
        limits: Limits::default(),
        strict: false,
    };
    match gate_by(
        alloc,
        terms,
        false,
        &mut decoder,
        out,
        &mut entries,
        aad,
        judge,
    ) {
        Ok(_) => Ok(Ok(entries.as_slice().first().map(|entry| entry.verdict))),
        Err(GateFault::Memory | GateFault::Write) => Err(Stop::Memory),
        Err(fault) => Ok(Err(fault)),
    }
}
