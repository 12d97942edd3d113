//! What text is written on.
use crate::notation::NotWritten;
use std::fmt;

/// Text that goes to a writer until something fails. The first fault is noted, and after it nothing
/// is written.
#[derive(Drop)]
pub struct Page<'a, W> {
    out: &'a mut W,
    fault: Option<NotWritten>,
}

impl<'a, W: fmt::Write> Page<'a, W> {
    /// A page on which nothing is written yet.
    pub fn new(out: &'a mut W) -> Page<'a, W> {
        Page { out, fault: None }
    }

    /// Writes a text.
    pub fn write_str(&mut self, text: &str) {
        if self.fault.is_none() && self.out.write_str(text).is_err() {
            self.fault = Some(NotWritten::Output);
        }
    }

    /// Writes a character.
    pub fn write_char(&mut self, c: char) {
        if self.fault.is_none() && self.out.write_char(c).is_err() {
            self.fault = Some(NotWritten::Output);
        }
    }

    /// What `write!` and `writeln!` call.
    pub fn write_fmt<D: fmt::Display + Drop>(&mut self, value: D) {
        if self.fault.is_none() && self.out.write_fmt(value).is_err() {
            self.fault = Some(NotWritten::Output);
        }
    }

    /// Notes a fault, unless there was one before.
    pub fn note(&mut self, fault: NotWritten) {
        if self.fault.is_none() {
            self.fault = Some(fault);
        }
    }

    /// What a call gave, if neither it nor anything before it failed. If it failed its fault is
    /// noted.
    pub fn kept<T: Drop, E>(&mut self, given: Result<T, E>) -> Option<T>
    where
        NotWritten: From<E>,
    {
        match given {
            Ok(value) if self.fault.is_none() => Some(value),
            Ok(_) => None,
            Err(fault) => {
                self.note(NotWritten::from(fault));
                None
            }
        }
    }

    /// Whether something failed.
    pub fn has_failed(&self) -> bool {
        self.fault.is_some()
    }

    /// What failed, if anything did.
    ///
    /// # Errors
    /// The first fault.
    pub fn end(&self) -> Result<(), NotWritten> {
        match self.fault {
            Some(fault) => Err(fault),
            None => Ok(()),
        }
    }
}
