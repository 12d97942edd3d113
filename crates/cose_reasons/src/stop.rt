//! Why the program ends early.
use cbor_diag::{Fault, NotWritten, Why};
use cose_gate_core::CoseError;
use std::alloc::{AllocError, AllocFailed};
use std::{fmt, io};

/// What a file looks like that is text.
#[derive(Debug, Clone, Copy, PartialEq, Eq)]
pub enum TextKind {
    /// In hex.
    Hex,
    /// In base64.
    Base64,
    /// A PEM file.
    Pem,
    /// A JSON Web Token.
    Jwt,
    /// JSON.
    Json,
    /// Any other text.
    Other,
}

impl fmt::Display for TextKind {
    fn fmt<W: fmt::Write>(&self, f: &mut fmt::Formatter<W>) -> fmt::Result {
        f.write_str(match self {
            TextKind::Hex => "text in hex",
            TextKind::Base64 => "text in base64",
            TextKind::Pem => "a PEM file",
            TextKind::Jwt => "a JWT",
            TextKind::Json => "JSON",
            TextKind::Other => "text",
        })
    }
}

/// Why the program ends early.
#[derive(Debug, Clone, Copy, PartialEq, Eq)]
pub enum Stop {
    /// An argument isn't UTF-8.
    Usage,
    /// The external data is not hex.
    NotHex,
    /// The file can't be opened.
    NoFile(io::ErrorKind),
    /// The file with the keys can't be read.
    NoKeyFile(io::ErrorKind),
    /// The file with the keys holds no key set.
    NoKeys(CoseError),
    /// The file with the keys is text.
    TextKeys(TextKind),
    /// The file with the keys holds one key, and no set.
    OneKey,
    /// The input failed.
    Input,
    /// The output failed.
    Output,
    /// Nobody reads the output any more.
    Closed,
    /// The folder for files of whole items can't be made.
    NoFolder,
    /// A file of that name is there already.
    NotNew,
    /// A file of whole items can't be made or written.
    Piece,
    /// Out of memory.
    Memory,
    /// The input is text.
    Text(TextKind),
    /// The input isn't text as this option says, at this offset.
    NoDigit(&'static str, usize),
    /// The last digit of such a text is missing.
    HalfByte(&'static str),
    /// The input is damaged at this offset.
    Damaged(Why, usize),
}

impl Stop {
    /// The status of the program.
    pub fn status(self) -> u8 {
        match self {
            Stop::Usage => 2,
            Stop::NotHex => 2,
            Stop::NoFile(_) => 3,
            Stop::NoKeyFile(_) => 3,
            Stop::NoKeys(_) => 3,
            Stop::TextKeys(_) => 3,
            Stop::OneKey => 3,
            _ => 4,
        }
    }

    /// Why a file of whole items can't be made.
    pub fn of_file(kind: io::ErrorKind) -> Stop {
        match kind {
            io::ErrorKind::AlreadyExists => Stop::NotNew,
            _ => Stop::Piece,
        }
    }

    /// Why the input can't be read.
    pub fn of_input(kind: io::ErrorKind) -> Stop {
        match kind {
            io::ErrorKind::IsADirectory => Stop::NoFile(kind),
            _ => Stop::Input,
        }
    }

    /// Why the output can't be written.
    pub fn of_output(kind: io::ErrorKind) -> Stop {
        match kind {
            io::ErrorKind::BrokenPipe => Stop::Closed,
            _ => Stop::Output,
        }
    }

    /// Why the program ends at a fault in an item that could be read before.
    pub fn of_fault(fault: Fault, offset: usize) -> Stop {
        match fault.why {
            Why::Memory => Stop::Memory,
            why => Stop::Damaged(why, offset.saturating_add(fault.at)),
        }
    }
}

impl fmt::Display for Stop {
    fn fmt<W: fmt::Write>(&self, f: &mut fmt::Formatter<W>) -> fmt::Result {
        match self {
            Stop::Usage => f.write_str("an argument isn't UTF-8"),
            Stop::NotHex => f.write_str("the external data is not hex"),
            Stop::NoFile(kind) => write!(f, "FILE: {}", fault_of(*kind)),
            Stop::NoKeyFile(kind) => write!(f, "KEYS: {}", fault_of(*kind)),
            Stop::NoKeys(error) => write!(f, "KEYS is no key set: {error}"),
            Stop::TextKeys(kind) => write!(f, "KEYS is no key set: it looks like {kind}"),
            Stop::OneKey => {
                f.write_str("KEYS is one key: a key set is an array of keys, even of one")
            }
            Stop::Input => f.write_str("the input can't be read"),
            Stop::Output => f.write_str("the output can't be written"),
            Stop::Closed => f.write_str("the output is closed"),
            Stop::NoFolder => f.write_str("the folder DIR can't be made"),
            Stop::NotNew => f.write_str(
                "DIR has a file of that name already, which is left as it is",
            ),
            Stop::Piece => f.write_str("a file in DIR can't be made or written"),
            Stop::Memory => f.write_str("out of memory"),
            Stop::Text(kind) => write!(f, "the input looks like {kind}"),
            Stop::NoDigit(option, at) => {
                write!(f, "{option}: byte {at} of the input is no such digit")
            }
            Stop::HalfByte(option) => write!(f, "{option}: the last digit is missing"),
            Stop::Damaged(why, offset) => write!(f, "damaged at {offset}: {why}"),
        }
    }
}

/// Why a file can't be read, in words.
pub fn fault_of(kind: io::ErrorKind) -> &'static str {
    match kind {
        io::ErrorKind::NotFound => "no such file",
        io::ErrorKind::PermissionDenied => "no permission",
        io::ErrorKind::IsADirectory => "a folder",
        _ => "it can't be read",
    }
}

impl From<AllocError> for Stop {
    fn from(_: AllocError) -> Stop {
        Stop::Memory
    }
}

impl<T: Drop> From<AllocFailed<T>> for Stop {
    fn from(_: AllocFailed<T>) -> Stop {
        Stop::Memory
    }
}

impl From<NotWritten> for Stop {
    fn from(error: NotWritten) -> Stop {
        match error {
            NotWritten::Fault(fault) => Stop::of_fault(fault, 0),
            NotWritten::Output => Stop::Output,
            NotWritten::Memory => Stop::Memory,
        }
    }
}
