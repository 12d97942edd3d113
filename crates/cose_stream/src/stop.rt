//! Why no message has passed.
ghost use Rattle.std.specs.Prelude.{◌≡◌};
ghost use Rattle.cose_stream.specs.Streams as spec;

use crate::under::NoFile;
use ciborium_ll::Read;
use cose_gate::{GateFault, InputFault, NotBegun, StreamFault, de};

/// Why the message was refused.
#[derive(Debug, Clone, Copy, PartialEq, Eq)]
pub enum StreamRefusal {
    /// The first title is no tag.
    NotTagged,
    /// The first title is the tag of no COSE_Sign1 and no COSE_Mac0 (RFC 9052, section 2).
    OtherTag,
    /// The item is no message of its tag.
    Shape,
    /// The message doesn't carry its payload.
    Detached,
    /// The payload is a byte string that doesn't state its length in front.
    Unsized,
    /// No key of the set fits the message, or its tag isn't the one under the first that fits.
    Judged,
    /// The input goes on after the message.
    ExtraneousData,
}

/// Why no message has passed.
#[derive(Debug, PartialEq, Eq, Drop)]
pub enum StreamStop {
    /// The run doesn't begin, and nothing was read.
    NotBegun(NotBegun),
    /// The message was refused.
    Refused(StreamRefusal),
    /// No readable item begins in the input, it failed, or the output; or it is out of memory.
    Stopped(GateFault<InputFault>),
    /// There is no file for the payload, and nothing was read.
    NoFile(NoFile),
}

impl From<NotBegun> for StreamStop {
    ghost use Rattle.std.specs.Prelude.{◌≡◌};
    ghost use Rattle.cose_stream.specs.declared.stop.StreamStop.TheVariants as stop;

    ghost from_gives = { λ why end. end ≡ stop.NotBegun why };

    fn from(why: NotBegun) -> StreamStop {
        StreamStop::NotBegun(why)
    }
}

/// The fault of a reader of this type without what it holds: it has ended, or failed.
fn error_of<R: Read>(error: de::Error<R::Error>) -> de::Error<InputFault>
    ensures { result ≡ spec.error_of R.ends error }
{
    match error {
        de::Error::Io(fault) if R::is_end(&fault) => de::Error::Io(InputFault::End),
        de::Error::Io(_) => de::Error::Io(InputFault::Failed),
        de::Error::Syntax(at) => de::Error::Syntax(at),
        de::Error::Semantic(at, kind) => de::Error::Semantic(at, kind),
        de::Error::RecursionLimitExceeded => de::Error::RecursionLimitExceeded,
        de::Error::Memory => de::Error::Memory,
        de::Error::TooLong => de::Error::TooLong,
    }
}

/// Why no message was checked.
pub(crate) fn stopped_by<R: Read>(fault: StreamFault<R::Error>) -> StreamStop
    ensures { result ≡ spec.stopped_by R.ends fault }
{
    match fault {
        StreamFault::Decode(error) => StreamStop::Stopped(GateFault::Decode(error_of::<R>(error))),
        StreamFault::Memory => StreamStop::Stopped(GateFault::Memory),
        StreamFault::NotTagged => StreamStop::Refused(StreamRefusal::NotTagged),
        StreamFault::OtherTag(_) => StreamStop::Refused(StreamRefusal::OtherTag),
        StreamFault::Shape(_) => StreamStop::Refused(StreamRefusal::Shape),
        StreamFault::Detached => StreamStop::Refused(StreamRefusal::Detached),
        StreamFault::Unsized => StreamStop::Refused(StreamRefusal::Unsized),
    }
}
