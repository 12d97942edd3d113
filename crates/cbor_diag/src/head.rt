//! One head.
use ciborium_ll::{Decoder, Error, Header};

/// A head, and the number of its bytes.
#[derive(Debug, Clone, Copy, PartialEq, Eq)]
pub struct Head {
    /// What it says.
    pub header: Header,
    /// How many bytes it takes: 1, 2, 3, 5 or 9.
    pub len: usize,
}

/// Why there is no head.
#[derive(Debug, Clone, Copy, PartialEq, Eq)]
pub enum HeadFault {
    /// The bytes end before it, or inside it.
    Cut,
    /// No head begins with the first byte.
    NoHead,
}

/// The head that the bytes begin with.
///
/// # Errors
/// `Cut` and `NoHead`.
pub fn head_of(bytes: &[u8]) -> Result<Head, HeadFault> {
    let mut decoder = Decoder::from(bytes);
    match decoder.pull() {
        Ok(header) => Ok(Head {
            header,
            len: decoder.offset(),
        }),
        Err(Error::Syntax(_)) => Err(HeadFault::NoHead),
        Err(_) => Err(HeadFault::Cut),
    }
}

impl Head {
    /// The encoding indicator (RFC 8949, section 8.1): 0 to 3 if the number is in 1, 2, 4 or 8
    /// bytes and fewer would do.
    pub fn wide(self) -> Option<u8> {
        if self.len > self.header.title_len() {
            width_of(self.len)
        } else {
            None
        }
    }
}

/// The indicator of a head of so many bytes.
fn width_of(len: usize) -> Option<u8> {
    match len {
        2 => Some(0),
        3 => Some(1),
        5 => Some(2),
        9 => Some(3),
        _ => None,
    }
}
