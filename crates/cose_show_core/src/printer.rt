//! The output.
use cose_reasons::Stop;
use std::{fmt, io};

/// Text to a writer of bytes.
#[derive(Drop)]
pub struct Printer<W> {
    out: W,
    /// Why the first write failed that did.
    fault: Option<io::ErrorKind>,
}

impl<W: io::Write + Drop> Printer<W> {
    /// A printer over a writer.
    pub fn new(out: W) -> Printer<W> {
        Printer { out, fault: None }
    }

    /// Hands on what is kept.
    ///
    /// # Errors
    /// `Output` and `Closed`, also those of what was written before.
    pub fn flush(&mut self) -> Result<(), Stop> {
        if let Some(kind) = self.fault {
            return Err(Stop::of_output(kind));
        }
        match self.out.flush() {
            Ok(()) => Ok(()),
            Err(error) => Err(Stop::of_output(error.kind())),
        }
    }
}

impl<W: io::Write + Drop> fmt::Write for Printer<W> {
    fn write_str(&mut self, text: &str) -> fmt::Result {
        match self.out.write_all(text.as_bytes()) {
            Ok(()) => Ok(()),
            Err(error) => {
                if self.fault.is_none() {
                    self.fault = Some(error.kind());
                }
                Err(fmt::Error)
            }
        }
    }
}
