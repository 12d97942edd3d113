//! The lines. A fault of what they are written to is ignored.
ghost use Rattle.std.specs.Prelude.{◌≡◌};
ghost use Rattle.cose_sift.specs.Sifting.{status_of};

use crate::items::Halt;
use crate::sifting::Counts;
use crate::taking::Stop;
use ciborium_ll::Write;
use std::fmt;
use std::fmt::Write as Formatted;

/// Text to a writer of bytes.
#[derive(Drop)]
struct Text<'a, W> {
    out: &'a mut W,
}

impl<'a, W: Write> fmt::Write for Text<'a, W> {
    fn write_str(&mut self, text: &str) -> fmt::Result {
        match self.out.write_all(text.as_bytes()) {
            Ok(()) => Ok(()),
            Err(_) => Err(fmt::Error),
        }
    }
}

/// The line of an item that is left out, which begins at this offset.
pub fn write_left_out<W: Write>(at: usize, is_long: bool, out: &mut W) {
    let mut text = Text { out };
    let _ = if is_long {
        writeln!(text, "item at {at}: left out: longer than --max")
    } else {
        writeln!(text, "item at {at}: left out: it can't be read")
    };
}

/// The last line, if the input ended after an item.
fn write_counts<W: Write>(counts: Counts, out: &mut W) {
    let Counts { sifted, dropped } = counts;
    let mut text = Text { out };
    let _ = writeln!(text, "sifted {sifted}, dropped {dropped}");
}

/// The last line, if the run stopped.
fn write_stopped<W: Write>(halt: Halt, out: &mut W) {
    let mut text = Text { out };
    let _ = match halt {
        Halt::Decode(Stop::Syntax(at)) => writeln!(text, "stopped: decode: Syntax({at})"),
        Halt::Decode(Stop::End | Stop::Cut) => writeln!(text, "stopped: decode: Io(EndOfFile)"),
        Halt::Decode(Stop::Deep) => writeln!(text, "stopped: decode: Deep"),
        Halt::Decode(Stop::TooLong) => writeln!(text, "stopped: decode: TooLong"),
        Halt::Decode(Stop::Input) => writeln!(text, "stopped: decode: Io"),
        Halt::Decode(Stop::Memory) => writeln!(text, "stopped: memory"),
        Halt::Write => writeln!(text, "stopped: write"),
    };
}

/// Writes the last line, and returns the status: 0, 1 if items were left out, and 4 if the run
/// stopped.
pub fn write_end<W: Write>(end: Result<Counts, Halt>, out: &mut W) -> u8
    ensures { result ≡ status_of «end» }
{
    let status = match end {
        Ok(counts) => {
            write_counts(counts, out);
            if counts.dropped > 0 { 1 } else { 0 }
        }
        Err(halt) => {
            write_stopped(halt, out);
            4
        }
    };
    let _ = out.flush();
    status
}
