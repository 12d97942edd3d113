//! Why a COSE structure was not read or written.
use ciborium::{de, ser};
use std::alloc::{AllocError, AllocFailed};
use std::fmt;
use std::num::TryFromIntError;

/// The end of the bytes. In a `CoseError` it stands for each fault of a reader.
#[derive(Debug, Clone, Copy, PartialEq, Eq)]
pub struct EndOfFile;

impl fmt::Display for EndOfFile {
    ghost use Rattle.std.specs.Prelude.{Some, codes};

    ghost output = { λ _. Some (codes "EndOfFile") };

    fn fmt<W: fmt::Write>(&self, f: &mut fmt::Formatter<W>) -> fmt::Result {
        f.write_str("EndOfFile")
    }
}

impl std::error::Error for EndOfFile {}

/// Why a COSE structure was not read or written.
#[derive(Clone, Copy, PartialEq, Eq)]
pub enum CoseError {
    /// Bytes that should have been one item are none.
    DecodeFailed(de::Error<EndOfFile>),
    /// A label is repeated in one map.
    DuplicateMapKey,
    /// A value can't be written.
    EncodeFailed,
    /// Bytes go on after their item.
    ExtraneousData,
    /// An integer outside the range of its type.
    OutOfRangeIntegerValue,
    /// Another item than the one that has its place here: what it is, and what was expected.
    UnexpectedItem(&'static str, &'static str),
    /// A number that the registry hasn't.
    UnregisteredIanaValue,
    /// A number that neither the registry nor its private range has.
    UnregisteredIanaNonPrivateValue,
    /// Out of memory.
    Memory,
    /// Protected headers inside one another, more than the limits allow (16 if none are chosen).
    TooManyLayers,
}

impl fmt::Display for CoseError {
    ghost use Rattle.std.specs.Prelude.{Some};
    ghost use Rattle.coset_labels.specs.ErrorTexts.{cose_text};

    ghost output = { λ error. Some (cose_text error) };

    fn fmt<W: fmt::Write>(&self, f: &mut fmt::Formatter<W>) -> fmt::Result {
        match self {
            CoseError::DecodeFailed(error) => write!(f, "decode CBOR failure: {error}"),
            CoseError::DuplicateMapKey => f.write_str("duplicate map key"),
            CoseError::EncodeFailed => f.write_str("encode CBOR failure"),
            CoseError::ExtraneousData => f.write_str("extraneous data in CBOR input"),
            CoseError::OutOfRangeIntegerValue => f.write_str("out of range integer value"),
            CoseError::UnexpectedItem(got, expected) => write!(f, "got {got}, expected {expected}"),
            CoseError::UnregisteredIanaValue => f.write_str("expected recognized IANA value"),
            CoseError::UnregisteredIanaNonPrivateValue => {
                f.write_str("expected value in IANA or private use range")
            }
            CoseError::Memory => f.write_str("out of memory"),
            CoseError::TooManyLayers => f.write_str("too many protected layers"),
        }
    }
}

impl std::error::Error for CoseError {}

/// What most functions here return.
pub type Result<T, E = CoseError> = std::result::Result<T, E>;

/// The same text as by `Display`.
impl fmt::Debug for CoseError {
    fn fmt<W: fmt::Write>(&self, f: &mut fmt::Formatter<W>) -> fmt::Result {
        fmt::Display::fmt(self, f)
    }
}

impl<T: Drop> From<de::Error<T>> for CoseError {
    ghost use Rattle.std.specs.Prelude.{◌≡◌};
    ghost use Rattle.coset_labels.specs.Faults.{lifted};

    ghost from_gives = { λ e error. error ≡ lifted e };

    fn from(error: de::Error<T>) -> CoseError {
        match error {
            de::Error::Io(_) => CoseError::DecodeFailed(de::Error::Io(EndOfFile)),
            de::Error::Syntax(offset) => CoseError::DecodeFailed(de::Error::Syntax(offset)),
            de::Error::Semantic(offset, kind) => {
                CoseError::DecodeFailed(de::Error::Semantic(offset, kind))
            }
            de::Error::RecursionLimitExceeded => {
                CoseError::DecodeFailed(de::Error::RecursionLimitExceeded)
            }
            de::Error::Memory => CoseError::Memory,
            de::Error::TooLong => CoseError::DecodeFailed(de::Error::TooLong),
        }
    }
}

impl<T: Drop> From<ser::Error<T>> for CoseError {
    ghost use Rattle.std.specs.Prelude.{◌≡◌};
    ghost use Rattle.coset_labels.specs.Faults.{unwritten};

    ghost from_gives = { λ e error. error ≡ unwritten e };

    fn from(error: ser::Error<T>) -> CoseError {
        match error {
            ser::Error::Memory => CoseError::Memory,
            _ => CoseError::EncodeFailed,
        }
    }
}

impl From<AllocError> for CoseError {
    ghost use Rattle.std.specs.Prelude.{◌≡◌};
    ghost use Rattle.coset_labels.specs.declared.error.CoseError.TheVariants.{Memory};

    ghost from_gives = { λ _ e. e ≡ Memory };

    fn from(_: AllocError) -> CoseError {
        CoseError::Memory
    }
}

impl<V: Drop> From<AllocFailed<V>> for CoseError {
    ghost use Rattle.std.specs.Prelude.{◌≡◌};
    ghost use Rattle.coset_labels.specs.declared.error.CoseError.TheVariants.{Memory};

    ghost from_gives = { λ _ e. e ≡ Memory };

    fn from(_: AllocFailed<V>) -> CoseError {
        CoseError::Memory
    }
}

impl From<TryFromIntError> for CoseError {
    ghost use Rattle.std.specs.Prelude.{◌≡◌};
    ghost use Rattle.coset_labels.specs.declared.error.CoseError.TheVariants.{OutOfRangeIntegerValue};

    ghost from_gives = { λ _ e. e ≡ OutOfRangeIntegerValue };

    fn from(_: TryFromIntError) -> CoseError {
        CoseError::OutOfRangeIntegerValue
    }
}

/// Why a call that asks its caller's code failed: by that code's own error, or by a fault of COSE
/// before that code was asked. Its text is that of the error in it.
#[derive(Debug, PartialEq, Eq, Drop, thiserror::Error)]
#[error_bound(E: fmt::Display)]
pub enum Fault<E> {
    /// The error of the caller's code.
    #[error("{0}")]
    Caller(E),
    /// What was met before the caller's code was asked.
    #[error("{0}")]
    Cose(CoseError),
}

impl<E> From<CoseError> for Fault<E> {
    ghost use Rattle.std.specs.Prelude.{◌≡◌};
    ghost use Rattle.coset_labels.specs.declared.error.Fault.TheVariants.{Cose};

    ghost from_gives = { λ c f. f ≡ Cose c };

    fn from(error: CoseError) -> Fault<E> {
        Fault::Cose(error)
    }
}

impl<E> From<AllocError> for Fault<E> {
    ghost use Rattle.std.specs.Prelude.{◌≡◌};
    ghost use Rattle.coset_labels.specs.declared.error.CoseError.TheVariants.{Memory};
    ghost use Rattle.coset_labels.specs.declared.error.Fault.TheVariants.{Cose};

    ghost from_gives = { λ _ f. f ≡ Cose Memory };

    fn from(_: AllocError) -> Fault<E> {
        Fault::Cose(CoseError::Memory)
    }
}
