//! What a call returns.
ghost use Rattle.std.specs.Prelude.{◌≡◌};

/// The status of a call, and how long what it writes is.
#[repr(C)]
#[derive(Debug, Clone, Copy, PartialEq, Eq)]
pub struct Answer {
    /// 0: no item was refused. 1: some were. 2: the limits are not allowed. 3: the bytes are no key
    /// set, or no records. 4: the input is no CBOR, or it is out of memory. 5: the output is longer
    /// than its buffer, and nothing was written.
    pub status: u32,
    /// The bytes of output. With 5 it is the length that the buffer needs.
    pub length: usize,
    /// The bytes of the report's lines, also of those that didn't fit.
    pub lines: usize,
}

/// The answer to limits that no caller may choose.
pub fn no_limits() -> Answer
    ensures status { result.status ≡ 2 }
    ensures length { result.length ≡ 0 }
    ensures lines { result.lines ≡ 0 }
{
    Answer {
        status: 2,
        length: 0,
        lines: 0,
    }
}
