//! Pieces of whole items.
use cbor_diag::{Ends, Fault, Why};
use cose_reasons::Stop;
use std::alloc::Global;

/// What of a block goes to the piece at hand.
#[derive(Debug, Clone, Copy, PartialEq, Eq)]
pub struct Share {
    /// So many bytes of its front: none of an empty block alone.
    pub len: usize,
    /// Whether the piece ends after them.
    pub ends: bool,
}

/// Where a sequence may be cut. Heads alone are read, and no item is held.
#[derive(Drop)]
pub struct Cutter {
    /// How many bytes a piece has at least, except the last.
    size: usize,
    ends: Ends,
    /// How many bytes went to the piece at hand.
    written: usize,
    /// How many bytes were taken, and how many before the item at hand.
    taken: usize,
    item_at: usize,
    /// After a fault all goes to the piece at hand.
    fault: Option<Fault>,
}

impl Cutter {
    /// Nothing was taken, and each piece except the last is to have this size at least.
    pub fn new(alloc: Global, size: usize) -> Cutter {
        Cutter {
            size,
            ends: Ends::new(alloc),
            written: 0,
            taken: 0,
            item_at: 0,
            fault: None,
        }
    }

    /// Takes a block up to the end of the item at hand, or all of it.
    ///
    /// # Errors
    /// `Memory`.
    pub fn take(&mut self, block: &[u8]) -> Result<Share, Stop> {
        let end = self.find(block)?;
        let len = end.unwrap_or(block.len()).min(block.len());
        self.taken = self.taken.saturating_add(len);
        self.written = self.written.saturating_add(len);
        if end.is_some() {
            self.item_at = self.taken;
        }
        let ends = end.is_some() && len > 0 && self.written >= self.size;
        if ends {
            self.written = 0;
        }
        Ok(Share { len, ends })
    }

    fn find(&mut self, block: &[u8]) -> Result<Option<usize>, Stop> {
        if self.fault.is_some() {
            return Ok(None);
        }
        match self.ends.find(block) {
            Ok(end) => Ok(end),
            Err(fault) if fault.why == Why::Memory => Err(Stop::Memory),
            Err(fault) => {
                self.fault = Some(fault);
                Ok(None)
            }
        }
    }

    /// What the input was, once all of it was taken.
    ///
    /// # Errors
    /// `Damaged`.
    pub fn end(&self) -> Result<(), Stop> {
        match self.fault {
            Some(fault) => Err(Stop::of_fault(fault, self.item_at)),
            None if self.ends.is_inside() => Err(Stop::Damaged(Why::Cut, self.taken)),
            None => Ok(()),
        }
    }
}
