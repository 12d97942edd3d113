//! An input that is text in hex or base64.
use crate::words::Encoding;
use cose_reasons::Stop;

/// The bytes that a text stands for.
#[derive(Debug, Clone, Copy, PartialEq, Eq)]
pub struct Decoding {
    encoding: Encoding,
    /// How many bytes of text were taken.
    taken: usize,
    /// How many digits the group at hand has, and the last one.
    count: u8,
    last: u8,
    /// Padding has begun.
    is_padded: bool,
}

impl Decoding {
    /// Nothing was taken.
    pub fn new(encoding: Encoding) -> Decoding {
        Decoding {
            encoding,
            taken: 0,
            count: 0,
            last: 0,
            is_padded: false,
        }
    }

    /// Appends the bytes that a block of the input stands for.
    ///
    /// # Errors
    /// `NoDigit` and `Memory`.
    pub fn take(&mut self, block: &[u8], to: &mut Vec<u8>) -> Result<(), Stop> {
        if self.encoding == Encoding::Binary {
            to.extend_from_slice(block)?;
            return Ok(());
        }
        for byte in block {
            if let Some(byte) = self.byte_after(*byte)? {
                to.push(byte)?;
            }
            self.taken = self.taken.saturating_add(1);
        }
        Ok(())
    }

    /// Takes a byte of text, and gives the byte that is whole with it.
    fn byte_after(&mut self, byte: u8) -> Result<Option<u8>, Stop> {
        if byte.is_ascii_whitespace() {
            return Ok(None);
        }
        if byte == b'=' && self.encoding == Encoding::Base64 {
            self.is_padded = true;
            return Ok(None);
        }
        let digit = if self.encoding == Encoding::Hex {
            hex_digit(byte)
        } else {
            base64_digit(byte)
        };
        match digit {
            Some(digit) if !self.is_padded => Ok(self.take_digit(digit)),
            _ => Err(Stop::NoDigit(self.encoding.option(), self.taken)),
        }
    }

    /// Two digits of hex are a byte, and four of base64 are three (RFC 4648, section 4).
    fn take_digit(&mut self, digit: u8) -> Option<u8> {
        let before = self.last;
        self.last = digit;
        let (count, byte) = match (self.encoding, self.count) {
            (_, 0) => (1, None),
            (Encoding::Hex, _) => (0, Some(before.wrapping_mul(16) | digit)),
            (_, 1) => (2, Some(before.wrapping_mul(4) | (digit / 16))),
            (_, 2) => (3, Some(before.wrapping_mul(16) | (digit / 4))),
            _ => (0, Some(before.wrapping_mul(64) | digit)),
        };
        self.count = count;
        byte
    }

    /// Ends the text.
    ///
    /// # Errors
    /// `HalfByte`.
    pub fn end(&self) -> Result<(), Stop> {
        if self.count == 1 {
            return Err(Stop::HalfByte(self.encoding.option()));
        }
        Ok(())
    }
}

fn hex_digit(byte: u8) -> Option<u8> {
    match byte {
        b'0'..=b'9' => Some(byte.wrapping_sub(b'0')),
        b'a'..=b'f' => Some(byte.wrapping_sub(b'a').wrapping_add(10)),
        b'A'..=b'F' => Some(byte.wrapping_sub(b'A').wrapping_add(10)),
        _ => None,
    }
}

/// A digit of either alphabet (RFC 4648, sections 4 and 5).
fn base64_digit(byte: u8) -> Option<u8> {
    match byte {
        b'A'..=b'Z' => Some(byte.wrapping_sub(b'A')),
        b'a'..=b'z' => Some(byte.wrapping_sub(b'a').wrapping_add(26)),
        b'0'..=b'9' => Some(byte.wrapping_sub(b'0').wrapping_add(52)),
        b'+' | b'-' => Some(62),
        b'/' | b'_' => Some(63),
        _ => None,
    }
}
