//! What a run begins with: a key set, and external data.
ghost use Rattle.std.specs.Prelude.{◌≡◌, MatchResult, Some, option_copied};
ghost use Rattle.coset_labels.specs.Reading.{HasItem};
ghost use Rattle.coset_keys.specs.Keys.{HasKeySet};
ghost use Rattle.coset_keys.specs.View.{key_set_view};
ghost use Rattle.cose_gate_program.specs.Beginning as spec;
ghost use Rattle.cose_gate_program.specs.Beginning.{aad_of, BeginsWith, IsNoAad, IsNoKeySet};

use coset_keys::CoseKeySet;
use coset_labels::{CborSerializable, CoseError};
use hex::FromHexError;
use std::alloc::Global;

/// Why the program isn't run.
#[derive(Debug, Clone, Copy, PartialEq, Eq)]
pub enum NotBegun {
    /// KEYS can't be read.
    NoFile,
    /// AADHEX is not hex.
    NotHex,
    /// KEYS holds no key set.
    NoKeys(CoseError),
    /// Out of memory.
    Memory,
}

/// What the program is run with.
#[derive(Drop)]
pub struct Beginning {
    /// The key set that KEYS holds.
    pub keys: CoseKeySet,
    /// The external data.
    pub aad: Vec<u8>,
}

impl NotBegun {
    /// The status of the program.
    pub fn status(self) -> u8
        ensures { result ≡ spec.status_of self }
    {
        match self {
            NotBegun::NoFile => 3,
            NotBegun::NotHex => 2,
            NotBegun::NoKeys(_) => 3,
            NotBegun::Memory => 4,
        }
    }
}

/// AADHEX can't be read.
impl From<FromHexError> for NotBegun {
    ghost from_gives = { λ error why. why ≡ spec.aad_fault error };

    fn from(error: FromHexError) -> NotBegun {
        match error {
            FromHexError::OutOfMemory => NotBegun::Memory,
            _ => NotBegun::NotHex,
        }
    }
}

/// The key set can't be read.
impl From<CoseError> for NotBegun {
    ghost from_gives = { λ error why. why ≡ spec.key_set_fault error };

    fn from(error: CoseError) -> NotBegun {
        match error {
            CoseError::Memory => NotBegun::Memory,
            _ => NotBegun::NoKeys(error),
        }
    }
}

/// Reads the external data from AADHEX, and then the key set from the bytes of KEYS, which are none
/// if it can't be read. Without AADHEX the external data is empty.
///
/// # Errors
/// `NoFile` if there are no bytes; `NotHex`; `NoKeys` if they are not a key set (RFC 9052, section
/// 7); `Memory`. They are tested in this order.
pub fn begin(alloc: Global, keys: Option<&[u8]>, aad: Option<&str>) -> Result<Beginning, NotBegun>
    ensures { BeginsWith (option_copied keys.entry) (aad_of (option_copied aad.entry)) result }
{
    match keys {
        Some(bytes) => {
            let aad = read_aad(alloc, aad)?;
            let keys = read_keys(alloc, bytes)?;
            Ok(Beginning { keys, aad })
        }
        None => Err(NotBegun::NoFile),
    }
}

/// The external data that AADHEX stands for.
fn read_aad(alloc: Global, aad: Option<&str>) -> Result<Vec<u8>, NotBegun>
    ensures { MatchResult result (λ d. aad_of (option_copied aad.entry) ≡ Some d.items)
        (IsNoAad (option_copied aad.entry)) }
{
    match aad {
        Some(text) => Ok(hex::decode(alloc, text)?),
        None => Ok(Vec::new(alloc)),
    }
}

/// The key set that the bytes of KEYS are (RFC 9052, section 7).
pub(crate) fn read_keys(alloc: Global, bytes: &[u8]) -> Result<CoseKeySet, NotBegun>
    ensures { MatchResult result (λ s. HasItem HasKeySet bytes.now (key_set_view s))
        (IsNoKeySet bytes.now) }
{
    Ok(CoseKeySet::from_slice(alloc, bytes)?)
}
