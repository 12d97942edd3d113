//! Writes items.
ghost use Rattle.std.specs.Prelude.{◌≡◌, ◌<◌, ℕ, List, ◌++◌, length, OnOk, OnErr, IfErr};
ghost use Rattle.std.specs.Io.KnownBytes.{Appends};
ghost use Rattle.ciborium_ll.specs.Device.{AppendsFront, write_failures};
ghost use Rattle.ciborium_ll.specs.Title.{shortest};
ghost use Rattle.ciborium_ll.specs.Views.{writer_of};
ghost use Rattle.ciborium_value.specs.Encoding.{enc};
ghost use Rattle.ciborium_value.specs.View.{number_of};
ghost use Rattle.ciborium_value.specs.Tree.{integer};
ghost use Rattle.ciborium.specs.Streams.{encoder_of};
ghost use Rattle.ciborium.specs.Writing.{IsIo, IsDue, IsTorn};

use crate::value::{Integer, Kind};
use ciborium_ll::{Encoder, Float, Header, Write, simple};
pub use ciborium_typed::{Serialize, Sink};
use std::fmt;

/// Why a value was not written. Its text is the fault's name, with the writer's text or the kind in
/// parentheses.
#[derive(Debug, Clone, Copy, PartialEq, Eq, Drop, thiserror::Error)]
#[error_bound(T: fmt::Display)]
pub enum Error<T> {
    /// The writer's fault.
    #[error("Io({0})")]
    Io(T),
    /// A value that can't be written.
    #[error("Value({0:?})")]
    Value(Kind),
    /// Out of memory.
    #[error("Memory")]
    Memory,
}

impl<T> From<T> for Error<T> {
    ghost use Rattle.std.specs.Prelude.{◌≡◌};
    ghost use Rattle.ciborium.specs.declared.ser.Error.TheVariants.{Io};

    ghost from_gives = { λ e error. error ≡ Io e };

    fn from(e: T) -> Error<T> {
        Error::Io(e)
    }
}

/// A sink that writes each event at once, as its canonical encoding. It takes no memory.
#[derive(Drop)]
pub struct Serializer<W> {
    encoder: Encoder<W>,
}

impl<W> From<Encoder<W>> for Serializer<W> {
    ghost use Rattle.std.specs.Prelude.{◌≡◌};

    ghost from_gives = { λ encoder s. encoder_of s ≡ encoder };

    fn from(encoder: Encoder<W>) -> Serializer<W> {
        Serializer { encoder }
    }
}

impl<W: Write> Sink for Serializer<W> {
    type Error = W::Error;

    ghost Plan = { W × List ℕ };

    ghost due = { λ p es s. IsDue W.written W.handle W.failed p.0 p.1 es
        (writer_of (encoder_of s)) };

    ghost torn = { λ p s. IsTorn W.written W.handle W.failed p.0 p.1 (writer_of (encoder_of s)) };

    fn integer(&mut self, number: Integer) -> Result<(), W::Error> {
        let n = i128::from(number);
        if n < 0 {
            self.encoder.head(1, (-1 - n) as u64)
        } else {
            self.encoder.head(0, n as u64)
        }
    }

    fn bytes(&mut self, bytes: &[u8]) -> Result<(), W::Error> {
        write_string(&mut self.encoder, 2, bytes)
    }

    fn float(&mut self, float: Float) -> Result<(), W::Error> {
        self.encoder.push(Header::Float(float))
    }

    fn text(&mut self, text: &str) -> Result<(), W::Error> {
        write_string(&mut self.encoder, 3, text.as_bytes())
    }

    fn boolean(&mut self, value: bool) -> Result<(), W::Error> {
        let simple = if value { simple::TRUE } else { simple::FALSE };
        self.encoder.head(7, u64::from(simple))
    }

    fn null(&mut self) -> Result<(), W::Error> {
        self.encoder.head(7, u64::from(simple::NULL))
    }

    fn tag(&mut self, tag: u64) -> Result<(), W::Error> {
        self.encoder.head(6, tag)
    }

    fn array(&mut self, len: usize) -> Result<(), W::Error> {
        self.encoder.head(4, len as u64)
    }

    fn map(&mut self, len: usize) -> Result<(), W::Error> {
        self.encoder.head(5, len as u64)
    }
}

/// Writes the canonical encoding of the item that the value is written as (RFC 8949, section 4.1).
/// A `Value` takes no memory.
///
/// # Errors
/// The writer's, as `Io`; a beginning of the encoding was written then.
pub fn into_writer<T: Serialize, W: Write>(value: &T, writer: &mut W) -> Result<(), Error<W::Error>>
    ensures ok { OnOk result (Appends (W.written writer.old) (W.written writer.new)
        (enc (T.put value.now))) }
    ensures err { OnErr result (AppendsFront (W.written writer.old) (W.written writer.new)
        (enc (T.put value.now))) }
    ensures io { IfErr result IsIo }
    ensures kept { W.handle writer.new ≡ W.handle writer.old }
    ensures failed { W.failed writer.new ≡ write_failures result (W.failed writer.old) }
{
    let mut sink = Serializer::from(Encoder::from(writer));
    write_item(&mut sink, value)?;
    Ok(())
}

/// Writes the item that a value is written as.
fn write_item<T: Serialize, W: Write>(sink: &mut Serializer<W>, value: &T) -> Result<(), W::Error>
    ensures ok { OnOk result (Appends (W.written (writer_of (encoder_of sink.old)))
        (W.written (writer_of (encoder_of sink.new))) (enc (T.put value.now))) }
    ensures err { OnErr result (AppendsFront (W.written (writer_of (encoder_of sink.old)))
        (W.written (writer_of (encoder_of sink.new))) (enc (T.put value.now))) }
    ensures kept { W.handle (writer_of (encoder_of sink.new))
        ≡ W.handle (writer_of (encoder_of sink.old)) }
    ensures failed { W.failed (writer_of (encoder_of sink.new))
        ≡ write_failures result (W.failed (writer_of (encoder_of sink.old))) }
{
    value.serialize(sink)
}

/// A head, and bytes after it.
#[inline(always)]
fn write_string<W: Write>(encoder: &mut Encoder<W>, major: u8, bytes: &[u8]) -> Result<(), W::Error>
    requires { major < 8 }
    ensures ok { OnOk result (Appends (W.written (writer_of encoder.old))
        (W.written (writer_of encoder.new)) (shortest major (length bytes.now) ++ bytes.now)) }
    ensures err { OnErr result (AppendsFront (W.written (writer_of encoder.old))
        (W.written (writer_of encoder.new)) (shortest major (length bytes.now) ++ bytes.now)) }
    ensures kept { W.handle (writer_of encoder.new) ≡ W.handle (writer_of encoder.old) }
    ensures failed { W.failed (writer_of encoder.new)
        ≡ write_failures result (W.failed (writer_of encoder.old)) }
{
    encoder.head(major, bytes.len() as u64)?;
    encoder.write_all(bytes)
}
