//! Where the items of a sequence end.
use crate::head::{Head, HeadFault, head_of};
use crate::walk::{Fault, Why};
use cbor_walk::{Fault as Refused, Walk, body_of};
use ciborium_ll::Header;
use std::alloc::Global;

/// Finds where items end in bytes that come in blocks. Heads alone are read: of strings nothing is
/// kept, and a text may be no UTF-8.
#[derive(Drop)]
pub struct Ends {
    walk: Walk,
    /// What is there of a head.
    front: Vec<u8>,
    /// How many bytes of a string are to come.
    body: usize,
    /// Where that head is in the item at hand.
    at: usize,
}

impl Ends {
    /// The state in front of the first item.
    pub fn new(alloc: Global) -> Ends {
        Ends {
            walk: Walk::new(alloc, usize::MAX),
            front: Vec::new(alloc),
            body: 0,
            at: 0,
        }
    }

    /// Whether an item has begun that hasn't ended.
    pub fn is_inside(&self) -> bool {
        self.at > 0 || !self.front.is_empty()
    }

    /// How many bytes of the block are before the end of the item at hand; none if it goes on after
    /// the block.
    ///
    /// # Errors
    /// The fault of a head, with its place in the item.
    pub fn find(&mut self, block: &[u8]) -> Result<Option<usize>, Fault> {
        let mut taken = 0usize;
        for _ in 0..u64::MAX {
            let rest = block.get(taken..).unwrap_or(&[]);
            let Some(byte) = rest.first() else {
                break;
            };
            let len = self.body.max(1).min(rest.len());
            if self.body > 0 {
                self.body = self.body.saturating_sub(len);
            } else if let Err(why) = self.take_byte(*byte) {
                return Err(Fault { why, at: self.at });
            }
            taken = taken.saturating_add(len);
            if self.body == 0 && self.front.is_empty() && self.walk.is_done() {
                self.at = 0;
                return Ok(Some(taken));
            }
        }
        Ok(None)
    }

    /// Takes one byte of a head.
    fn take_byte(&mut self, byte: u8) -> Result<(), Why> {
        if self.front.push(byte).is_err() {
            return Err(Why::Memory);
        }
        match head_of(self.front.as_slice()) {
            Ok(head) => self.pass(head),
            Err(HeadFault::Cut) => Ok(()),
            Err(HeadFault::NoHead) => Err(Why::NoHead),
        }
    }

    fn pass(&mut self, head: Head) -> Result<(), Why> {
        match self.walk_on(head.header) {
            Ok(()) => {}
            Err(Refused::Syntax) if head.header == Header::Break => return Err(Why::Break),
            Err(Refused::Syntax) => return Err(Why::Chunk),
            Err(Refused::Deep) => return Err(Why::TooLong),
            Err(Refused::Memory) => return Err(Why::Memory),
        }
        self.front.clear();
        self.body = body_of(head.header);
        match self.body.checked_add(self.at.saturating_add(head.len)) {
            Some(at) => self.at = at,
            None => return Err(Why::TooLong),
        }
        Ok(())
    }

    /// Takes a head, of the next item if the last one is whole.
    fn walk_on(&mut self, header: Header) -> Result<(), Refused> {
        if self.walk.is_done() {
            self.walk.restart();
            return self.walk.take(header);
        }
        self.walk.take(header)
    }
}
