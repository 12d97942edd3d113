//! The input, of which one item is held.
use crate::decoding::Decoding;
use crate::looks::Looks;
use crate::words::Encoding;
use cbor_diag::{Fault, Walk, Why};
use cose_reasons::{Stop, TextKind};
use std::alloc::Global;
use std::io;
use std::io::{BufRead, BufReader};

/// What comes next.
#[derive(Debug, Clone, Copy, PartialEq, Eq)]
pub enum Found {
    /// An item of so many bytes.
    Item(usize),
    /// Nothing is left.
    End,
    /// Bytes that begin no item.
    Damaged(Fault),
}

/// The input, of which one item is held, and what was read after it.
#[derive(Drop)]
pub struct Source<R> {
    reader: BufReader<R>,
    walk: Walk,
    held: Vec<u8>,
    /// Where the item begins in what is held.
    start: usize,
    /// Where it begins in the input.
    offset: usize,
    ended: bool,
    decoding: Decoding,
    /// Of an input that has to be binary.
    looks: Option<Looks>,
}

impl<R: io::Read + Drop> Source<R> {
    /// An input of which nothing was read.
    pub fn new(alloc: Global, reader: BufReader<R>, encoding: Encoding) -> Source<R> {
        Source {
            reader,
            walk: Walk::new(alloc),
            held: Vec::new(alloc),
            start: 0,
            offset: 0,
            ended: false,
            decoding: Decoding::new(encoding),
            looks: match encoding {
                Encoding::Binary => Some(Looks::new()),
                _ => None,
            },
        }
    }

    /// What the input looks like, if it looks like text; as long as it may, and has few bytes, more
    /// are read. What begins with this, and is one item of CBOR, is no other text than these.
    ///
    /// # Errors
    /// `Input` and `Memory`.
    pub fn text(&mut self, found: Found) -> Result<Option<TextKind>, Stop> {
        for _ in 0..u64::MAX {
            match self.looks {
                Some(looks) if looks.is_open() && !self.ended => self.read_on()?,
                _ => break,
            }
        }
        let kind = match self.looks {
            Some(looks) => looks.kind(),
            None => None,
        };
        match (kind, found) {
            (Some(TextKind::Other), Found::Item(len)) if len == self.held().len() => Ok(None),
            _ => Ok(kind),
        }
    }

    /// Where the item at hand begins in the input.
    pub fn offset(&self) -> usize {
        self.offset
    }

    /// What is held, from the item at hand on.
    pub fn held(&self) -> &[u8] {
        self.held.as_slice().get(self.start..).unwrap_or(&[])
    }

    /// Reads up to the end of the next item.
    ///
    /// # Errors
    /// `Input` and `Memory`.
    pub fn find(&mut self) -> Result<Found, Stop> {
        self.walk.restart();
        for _ in 0..u64::MAX {
            match self.advance() {
                Ok(len) => return Ok(Found::Item(len)),
                Err(fault) => match fault.why {
                    Why::Cut if !self.ended => self.read_on()?,
                    Why::Cut if self.held().is_empty() => return Ok(Found::End),
                    Why::Memory => return Err(Stop::Memory),
                    _ => return Ok(Found::Damaged(fault)),
                },
            }
        }
        Err(Stop::Input)
    }

    /// Goes on over what is held.
    fn advance(&mut self) -> Result<usize, Fault> {
        let held = self.held.as_slice().get(self.start..).unwrap_or(&[]);
        self.walk.advance(held)
    }

    /// Reads until so many bytes are held, or the input ends.
    ///
    /// # Errors
    /// `Input` and `Memory`.
    pub fn hold(&mut self, count: usize) -> Result<(), Stop> {
        for _ in 0..u64::MAX {
            if self.ended || self.held().len() >= count {
                break;
            }
            self.read_on()?;
        }
        Ok(())
    }

    /// Goes on after an item of so many bytes.
    pub fn leave(&mut self, len: usize) {
        self.start = self.start.saturating_add(len);
        self.offset = self.offset.saturating_add(len);
    }

    /// Reads what comes next, after what is held.
    fn read_on(&mut self) -> Result<(), Stop> {
        self.forget();
        let count = match self.reader.fill_buf() {
            Ok(block) => {
                if let Some(looks) = &mut self.looks {
                    looks.take(block);
                }
                self.decoding.take(block, &mut self.held)?;
                block.len()
            }
            Err(error) => return Err(Stop::of_input(error.kind())),
        };
        self.reader.consume(count);
        if count == 0 {
            self.ended = true;
            self.decoding.end()?;
        }
        Ok(())
    }

    /// Forgets what is before the item at hand.
    fn forget(&mut self) {
        let left = self.held().len();
        if self.start > 0 {
            let end = self.held.len();
            if self.start < end {
                self.held.as_mut_slice().rotate_left(self.start);
            }
            self.held.truncate(left);
            self.start = 0;
        }
    }
}
