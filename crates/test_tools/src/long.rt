//! A message that isn't held in memory.
use ciborium_ll::{End, Read};

/// A reader that gives the bytes in front, a payload of so many zeros, and the bytes after it. It
/// takes no memory.
#[derive(Drop)]
pub struct LongMessage<'a> {
    pub front: &'a [u8],
    pub payload: usize,
    pub back: &'a [u8],
}

/// Moves as many bytes as fit, and gives the space that is left.
fn give<'a>(bytes: &mut &[u8], data: &'a mut [u8]) -> &'a mut [u8] {
    let all: &[u8] = *bytes;
    let count = data.len().min(all.len());
    let (front, rest) = all.split_at(count);
    let (room, left) = data.split_at_mut(count);
    room.copy_from_slice(front);
    *bytes = rest;
    left
}

impl Read for LongMessage<'_> {
    ghost use Rattle.std.specs.Prelude.{◌≡◌, None, true};

    type Error = End;

    ghost left = { λ _. None };

    ghost failed = { λ _. 0 };

    ghost ends = { λ _. true };

    fn read_exact(&mut self, data: &mut [u8]) -> Result<(), End> {
        let room = give(&mut self.front, data);
        let count = room.len().min(self.payload);
        let (payload, room) = room.split_at_mut(count);
        payload.fill(0);
        self.payload -= count;
        let room = give(&mut self.back, room);
        if room.is_empty() { Ok(()) } else { Err(End) }
    }

    fn is_end(_error: &End) -> bool
        ensures { result ≡ true }
    {
        true
    }
}
