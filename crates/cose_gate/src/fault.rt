//! Why a message was not checked.
ghost use Rattle.cose_gate.specs.ElementFaults.{IsUnexpected};

use ciborium::de;
use ciborium_ll::{Header, simple};
use cose_gate_core::CoseError;
use std::alloc::AllocError;
use std::fmt;
use thiserror::Error;

/// Why a message was not checked. Its text is `decode: ` and the fault's text, `memory`, or its
/// name, of another tag with the number, and of a shape with the fault's text.
#[derive(Debug, PartialEq, Eq, Drop, Error)]
#[error_bound(E: fmt::Display)]
pub enum StreamFault<E> {
    /// No readable item begins here, or the reader failed. It never holds `Memory`.
    #[error("decode: {0}")]
    Decode(de::Error<E>),
    /// The first title is no tag.
    #[error("NotTagged")]
    NotTagged,
    /// The first title is the tag of no message that this way checks: any but those of a COSE_Sign1
    /// and a COSE_Mac0 (RFC 9052, section 2).
    #[error("OtherTag: {0}")]
    OtherTag(u64),
    /// The item is no message of its tag. It never holds `Memory`.
    #[error("Shape: {0}")]
    Shape(CoseError),
    /// The message doesn't carry its payload.
    #[error("Detached")]
    Detached,
    /// The payload is a byte string that doesn't state its length in front.
    #[error("Unsized")]
    Unsized,
    /// Out of memory, also the judge's.
    #[error("memory")]
    Memory,
}

impl<E> From<AllocError> for StreamFault<E> {
    ghost use Rattle.std.specs.Prelude.{◌≡◌};
    ghost use Rattle.cose_gate.specs.declared.fault.StreamFault.TheVariants as fault;

    ghost from_gives = { λ _ e. e ≡ fault.Memory };

    fn from(_: AllocError) -> StreamFault<E> {
        StreamFault::Memory
    }
}

impl<E> From<de::Error<E>> for StreamFault<E> {
    ghost use Rattle.std.specs.Prelude.{◌≡◌};
    ghost use Rattle.cose_gate.specs.StreamFaults.{fault_by};

    ghost from_gives = { λ e f. f ≡ fault_by e };

    fn from(error: de::Error<E>) -> StreamFault<E> {
        match error {
            de::Error::Memory => StreamFault::Memory,
            other => StreamFault::Decode(other),
        }
    }
}

impl<E> From<ciborium_ll::Error<E>> for StreamFault<E> {
    ghost use Rattle.std.specs.Prelude.{◌≡◌};
    ghost use Rattle.ciborium.specs.Reading.{lifted};
    ghost use Rattle.cose_gate.specs.StreamFaults.{fault_by};

    ghost from_gives = { λ e f. f ≡ fault_by (lifted e) };

    fn from(error: ciborium_ll::Error<E>) -> StreamFault<E> {
        StreamFault::from(de::Error::from(error))
    }
}

impl<E> From<CoseError> for StreamFault<E> {
    ghost use Rattle.std.specs.Prelude.{◌≡◌};
    ghost use Rattle.cose_gate.specs.StreamFaults.{shape_by};

    ghost from_gives = { λ e f. f ≡ shape_by e };

    fn from(error: CoseError) -> StreamFault<E> {
        match error {
            CoseError::Memory => StreamFault::Memory,
            other => StreamFault::Shape(other),
        }
    }
}

/// The fault of an array that hasn't four elements, or of a break in the place of one.
pub fn not_four<E>() -> StreamFault<E>
    ensures { IsUnexpected result }
{
    StreamFault::Shape(CoseError::UnexpectedItem("array", "array with 4 items"))
}

/// The fault of an item with this title if another kind was expected.
pub fn other_kind<E>(header: Header, want: &'static str) -> StreamFault<E>
    ensures { IsUnexpected result }
{
    StreamFault::Shape(CoseError::UnexpectedItem(kind_name(header), want))
}

/// The name of an item's kind in an error, by its title.
fn kind_name(header: Header) -> &'static str {
    match header {
        Header::Positive(_) | Header::Negative(_) => "int",
        Header::Float(_) => "float",
        Header::Simple(simple::FALSE | simple::TRUE) => "bool",
        Header::Simple(simple::NULL | simple::UNDEFINED) => "nul",
        Header::Simple(_) => "simple",
        Header::Tag(_) => "tag",
        Header::Break => "break",
        Header::Bytes(_) => "bstr",
        Header::Text(_) => "tstr",
        Header::Array(_) => "array",
        Header::Map(_) => "map",
    }
}
