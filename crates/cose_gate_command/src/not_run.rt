//! Why a program ends before its run, or without its output.
ghost use Rattle.std.specs.Prelude.{◌≡◌};
ghost use Rattle.cose_gate_command.specs.Asking.{status_of};

use thiserror::Error;

/// Why a program ends before its run, or without its output.
#[derive(Debug, Clone, Copy, PartialEq, Eq, Error)]
pub enum NotRun {
    /// The arguments are not those of the program.
    #[error("usage")]
    Usage,
    /// AADHEX is not hex.
    #[error("aad: not hex")]
    NotHex,
    /// ACCEPTED can't be read.
    #[error("accepted: cannot be read")]
    NoFile,
    /// ACCEPTED is binary, and its bytes are not records.
    #[error("accepted: no records")]
    NoRecords,
    /// ACCEPTED is to have digests, and its bytes are not digests.
    #[error("accepted: no digests")]
    NoDigests,
    /// The last field of a line of ACCEPTED is not hex.
    #[error("accepted: line {0}: not hex")]
    LineNotHex(u64),
    /// The last field of a line of ACCEPTED is not one record.
    #[error("accepted: line {0}: no record")]
    LineNoRecord(u64),
    /// Out of memory.
    #[error("stopped: memory")]
    Memory,
    /// The output can't be written.
    #[error("stopped: write")]
    Output,
}

impl NotRun {
    /// The status of the program.
    pub fn status(self) -> u8
        ensures { result ≡ status_of self }
    {
        match self {
            NotRun::Usage | NotRun::NotHex => 2,
            NotRun::NoFile
            | NotRun::NoRecords
            | NotRun::NoDigests
            | NotRun::LineNotHex(_)
            | NotRun::LineNoRecord(_) => 3,
            NotRun::Memory | NotRun::Output => 4,
        }
    }
}
