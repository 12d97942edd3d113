//! Why a value is not read as a type.
use ciborium_value::Kind;
use std::alloc::{AllocError, AllocFailed};
use std::num::TryFromIntError;

/// Why a value was not read as a type, or not made.
#[derive(Debug, Clone, Copy, PartialEq, Eq, thiserror::Error)]
pub enum Error {
    /// The value isn't of the type.
    #[error("{0:?}")]
    Kind(Kind),
    /// Out of memory.
    #[error("out of memory")]
    Memory,
}

impl From<Kind> for Error {
    ghost use Rattle.std.specs.Prelude.{◌≡◌};
    ghost use Rattle.ciborium_traits.specs.declared.error.Error.TheVariants as error;

    ghost from_gives = { λ kind e. e ≡ error.Kind kind };

    fn from(kind: Kind) -> Error {
        Error::Kind(kind)
    }
}

impl From<TryFromIntError> for Error {
    ghost use Rattle.std.specs.Prelude.{◌≡◌};
    ghost use Rattle.ciborium_value.specs.declared.kind.Kind.TheVariants as kind;
    ghost use Rattle.ciborium_traits.specs.declared.error.Error.TheVariants as error;

    ghost from_gives = { λ _ e. e ≡ error.Kind kind.Range };

    fn from(_error: TryFromIntError) -> Error {
        Error::Kind(Kind::Range)
    }
}

impl From<AllocError> for Error {
    ghost use Rattle.std.specs.Prelude.{◌≡◌};
    ghost use Rattle.ciborium_traits.specs.declared.error.Error.TheVariants as error;

    ghost from_gives = { λ _ e. e ≡ error.Memory };

    fn from(_error: AllocError) -> Error {
        Error::Memory
    }
}

impl<V: Drop> From<AllocFailed<V>> for Error {
    ghost use Rattle.std.specs.Prelude.{◌≡◌};
    ghost use Rattle.ciborium_traits.specs.declared.error.Error.TheVariants as error;

    ghost from_gives = { λ _ e. e ≡ error.Memory };

    fn from(_refused: AllocFailed<V>) -> Error {
        Error::Memory
    }
}
