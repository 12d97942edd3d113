//! Readers and writers that fail, and a reader of std that gives one byte a call.
use ciborium_ll::count::Count;
use ciborium_ll::{Read, Write};
use std::alloc::Global;
use std::{fmt, io};

/// A reader or a writer failed.
#[derive(Debug, Clone, Copy, PartialEq, Eq, Drop)]
pub struct Broken;

impl fmt::Display for Broken {
    fn fmt<W: fmt::Write>(&self, f: &mut fmt::Formatter<W>) -> fmt::Result {
        f.write_str("Broken")
    }
}

/// A reader that gives bytes, then fails, and then gives more bytes.
#[derive(Drop)]
pub struct Source<'a> {
    bytes: &'a [u8],
    more: &'a [u8],
    failed: Count,
}

impl<'a> Source<'a> {
    /// Gives these bytes, and after a fault the others.
    pub fn new(bytes: &'a [u8], more: &'a [u8]) -> Source<'a> {
        Source {
            bytes,
            more,
            failed: Count::new(),
        }
    }

    /// `FailAt`: gives so many of these bytes, or all if there are no more, and then fails whenever
    /// it is asked for more.
    pub fn fail_at(bytes: &'a [u8], count: usize) -> Source<'a> {
        Source::new(&bytes[..count.min(bytes.len())], &[])
    }
}

impl<'a> Read for Source<'a> {
    ghost use Rattle.std.specs.Prelude.{◌≡◌, Some, false};
    ghost use Rattle.ciborium_ll.specs.Count.{total};

    type Error = Broken;

    ghost left = { λ s. Some s.bytes.now };

    ghost failed = { λ s. total s.failed };

    ghost ends = { λ _. false };

    fn read_exact(&mut self, data: &mut [u8]) -> Result<(), Broken> {
        let all: &[u8] = self.bytes;
        if all.len() < data.len() {
            self.bytes = self.more;
            self.more = &[];
            self.failed = self.failed.and_one();
            return Err(Broken);
        }
        let (front, rest) = all.split_at(data.len());
        data.copy_from_slice(front);
        self.bytes = rest;
        Ok(())
    }

    fn is_end(_error: &Broken) -> bool
        ensures { result ≡ false }
    {
        false
    }
}

/// A writer that fails at one call, when it is full, or when it is flushed.
#[derive(Drop)]
pub struct Sink {
    /// What was taken.
    pub bytes: Vec<u8>,
    /// How many bytes were taken when it was flushed last.
    pub shown: usize,
    calls: usize,
    room: usize,
    flushes: usize,
    failed: Count,
}

impl Sink {
    fn of(alloc: Global, calls: usize, room: usize, flushes: usize) -> Sink {
        Sink {
            bytes: Vec::new(alloc),
            shown: 0,
            calls,
            room,
            flushes,
            failed: Count::new(),
        }
    }

    /// Takes all but one call, the one after so many, and can't be flushed.
    pub fn new(alloc: Global, calls: usize) -> Sink {
        Sink::of(alloc, calls, usize::MAX, 0)
    }

    /// Takes so many bytes and then fails: of data that is longer than what is left of them it
    /// takes the part that fits.
    pub fn of_room(alloc: Global, room: usize) -> Sink {
        Sink::of(alloc, usize::MAX, room, usize::MAX)
    }

    /// Takes all, and flushes so many times before it fails.
    pub fn flushed(alloc: Global, flushes: usize) -> Sink {
        Sink::of(alloc, usize::MAX, usize::MAX, flushes)
    }
}

impl Write for Sink {
    ghost use Rattle.std.specs.Prelude.{Some};
    ghost use Rattle.ciborium_ll.specs.Count.{total};

    type Error = Broken;

    ghost written = { λ s. Some s.bytes.items };

    ghost failed = { λ s. total s.failed };

    fn write_all(&mut self, data: &[u8]) -> Result<(), Broken> {
        let is_taken = self.calls > 0;
        self.calls = self.calls.wrapping_sub(1);
        let room = if is_taken { self.room } else { 0 };
        let part = &data[..room.min(data.len())];
        if self.bytes.extend_from_slice(part).is_ok() {
            self.room = self.room.saturating_sub(part.len());
            if is_taken && part.len() == data.len() {
                return Ok(());
            }
        }
        self.failed = self.failed.and_one();
        Err(Broken)
    }

    fn flush(&mut self) -> Result<(), Broken> {
        if self.flushes == 0 {
            self.failed = self.failed.and_one();
            return Err(Broken);
        }
        self.flushes -= 1;
        self.shown = self.bytes.len();
        Ok(())
    }
}

/// A reader of std that gives its bytes one by one, and then ends, or fails.
#[derive(Drop)]
pub struct OneByOne<'a> {
    /// The bytes to come.
    pub bytes: &'a [u8],
    /// Whether it fails after them.
    pub is_broken: bool,
}

impl<'a> io::Read for OneByOne<'a> {
    fn read(&mut self, buf: &mut [u8]) -> io::Result<usize> {
        let all: &[u8] = self.bytes;
        let Some((first, rest)) = all.split_first() else {
            return match self.is_broken {
                true => Err(io::Error::from(io::ErrorKind::Other)),
                false => Ok(0),
            };
        };
        let Some(place) = buf.first_mut() else {
            return Ok(0);
        };
        *place = *first;
        self.bytes = rest;
        Ok(1)
    }
}
