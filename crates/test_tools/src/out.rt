//! An answer in the making.
use std::alloc::{AllocError, Global};
use std::fmt;
use std::num::ParseIntError;
use std::str::FromStr;

/// Why a call has no answer.
#[derive(Clone, Copy)]
pub enum NoAnswer {
    /// Out of memory.
    Memory,
    /// No call has this name and so many arguments.
    NoCall,
    /// An argument is none that the call takes.
    NoArgument,
    /// An argument is not the item that has its place.
    NotItem,
}

impl NoAnswer {
    fn text(self) -> &'static str {
        match self {
            NoAnswer::Memory => "out of memory",
            NoAnswer::NoCall => "no such call",
            NoAnswer::NoArgument => "no such argument",
            NoAnswer::NotItem => "an argument is not an item",
        }
    }
}

/// A text that is appended to, until there is no answer: then it is why, and stays so.
#[derive(Drop)]
pub struct Out {
    alloc: Global,
    text: String,
    is_refused: bool,
}

impl Out {
    /// An empty text.
    pub fn new(alloc: Global) -> Out {
        Out {
            alloc,
            text: String::new(alloc),
            is_refused: false,
        }
    }

    /// The allocator.
    pub fn alloc(&self) -> Global {
        self.alloc
    }

    /// What was appended, or why there is no answer.
    pub fn as_str(&self) -> &str {
        self.text.as_str()
    }

    /// Whether nothing was appended.
    pub fn is_empty(&self) -> bool {
        self.text.is_empty()
    }

    /// There is no answer. The first reason stays.
    pub fn refuse(&mut self, why: NoAnswer) {
        if !self.is_refused {
            self.is_refused = true;
            self.text.clear();
            let _ = self.text.push_str(why.text());
        }
    }

    /// There is no answer, since an argument has this fault.
    pub fn not_read<E: fmt::Display + Drop>(&mut self, error: E) {
        if !self.is_refused {
            self.text.clear();
            self.text("argument not read: ");
            self.show(&error);
            self.is_refused = true;
        }
    }

    /// There is no answer if another one, on which this one depends, is none.
    pub fn refuse_as(&mut self, other: &Out) {
        if other.is_refused && !self.is_refused {
            self.text.clear();
            self.text(other.as_str());
            self.is_refused = true;
        }
    }

    /// Notes whether it was out of memory.
    pub fn note(&mut self, done: Result<(), AllocError>) {
        if done.is_err() {
            self.refuse(NoAnswer::Memory);
        }
    }

    /// The value, or none if out of memory.
    pub fn kept<T: Drop>(&mut self, value: Result<T, AllocError>) -> Option<T> {
        match value {
            Ok(value) => Some(value),
            Err(_) => {
                self.refuse(NoAnswer::Memory);
                None
            }
        }
    }

    /// Appends this text.
    pub fn text(&mut self, text: &str) {
        if !self.is_refused {
            let done = self.text.push_str(text);
            self.note(done);
        }
    }

    /// Appends a separator, if something is before it.
    pub fn apart(&mut self, separator: &str) {
        if !self.is_empty() {
            self.text(separator);
        }
    }

    /// Appends what the value shows as.
    pub fn show<T: fmt::Display>(&mut self, value: &T) {
        if !self.is_refused {
            let done = write!(self.text, "{value}");
            self.note(done);
        }
    }

    /// Appends what the value shows as to a programmer.
    pub fn debug<T: fmt::Debug>(&mut self, value: &T) {
        if !self.is_refused {
            let done = write!(self.text, "{value:?}");
            self.note(done);
        }
    }

    /// Appends bytes in hex. `-` for none.
    pub fn hex(&mut self, bytes: &[u8]) {
        if bytes.is_empty() {
            self.text("-");
        } else {
            self.digits(bytes);
        }
    }

    /// Appends the digits of bytes in hex.
    pub fn digits(&mut self, bytes: &[u8]) {
        match hex::encode(self.alloc, bytes) {
            Ok(digits) => self.text(&digits),
            Err(_) => self.refuse(NoAnswer::Memory),
        }
    }

    /// Appends whether something is so.
    pub fn yes_or_no(&mut self, is_so: bool) {
        self.text(if is_so { "yes" } else { "no" });
    }

    /// Appends the text of an error.
    pub fn failure<E: fmt::Display>(&mut self, error: &E) {
        self.text("err ");
        self.show(error);
    }

    /// The value, or none after the text of its error.
    pub fn value<T: Drop, E: fmt::Display + Drop>(&mut self, value: Result<T, E>) -> Option<T> {
        match value {
            Ok(value) => Some(value),
            Err(error) => {
                self.failure(&error);
                None
            }
        }
    }

    /// Appends bytes in hex, or the text of an error.
    pub fn made<E: fmt::Display + Drop>(&mut self, bytes: Result<Vec<u8>, E>) {
        if let Some(bytes) = self.value(bytes) {
            self.hex(&bytes);
        }
    }

    /// Appends a text with a `|` in place of each line feed.
    pub fn lines(&mut self, text: &str) {
        for (index, line) in text.split('\n').enumerate() {
            if index > 0 {
                self.text("|");
            }
            self.text(line);
        }
    }

    /// Appends another answer. If there is none, there is none of this one.
    pub fn append(&mut self, other: &Out) {
        self.text(other.as_str());
        self.refuse_as(other);
    }

    /// The words of a row.
    pub fn words<'a>(&mut self, row: &'a str) -> Vec<&'a str> {
        match row.split(' ').collect::<Vec<&str>>(self.alloc) {
            Ok(words) => words,
            Err(_) => {
                self.refuse(NoAnswer::Memory);
                Vec::new(self.alloc)
            }
        }
    }

    /// The bytes that an argument is in hex. `-` is none.
    pub fn bytes(&mut self, word: &str) -> Vec<u8> {
        if word == "-" {
            return Vec::new(self.alloc);
        }
        match hex::decode(self.alloc, word) {
            Ok(bytes) => bytes,
            Err(_) => {
                self.refuse(NoAnswer::NoArgument);
                Vec::new(self.alloc)
            }
        }
    }

    /// The number that an argument is.
    pub fn number<T: FromStr<Err = ParseIntError> + Default>(&mut self, word: &str) -> T {
        match word.parse::<T>() {
            Ok(number) => number,
            Err(_) => {
                self.refuse(NoAnswer::NoArgument);
                T::default()
            }
        }
    }
}

impl fmt::Write for Out {
    fn write_str(&mut self, text: &str) -> fmt::Result {
        self.text(text);
        if self.is_refused {
            Err(fmt::Error)
        } else {
            Ok(())
        }
    }
}
