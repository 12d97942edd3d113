//! What is told of a message or of keys. One walk tells it, in `message` and `keys`, and each form
//! of output writes it: `Text` and `Json`.
use crate::key_labels::{KeyPart, key_label};
use crate::keys::Keys;
use crate::message::Message;
use crate::names::{algorithm, claim, content_format, curve, key_type, parameter};
use crate::parts::{Members, integer, is_bytes, joined};
use cbor_diag::{NotWritten, View};
use cose_iana::KeyType;
use std::alloc::Global;

/// Whether it was written. What fails is the output, or memory.
pub type Done = Result<(), NotWritten>;

/// A form of output.
pub trait Shows {
    /// A group begins.
    fn begin(&mut self, group: Group<'_>) -> Done;

    /// A part of a message, by its name.
    fn part(&mut self, name: &'static str, is: PartIs<'_>) -> Done;

    /// An entry of the map at hand.
    fn entry(&mut self, entry: Entry<'_>) -> Done;

    /// The group ends.
    fn end(&mut self, group: Group<'_>) -> Done;
}

/// What is told together.
#[derive(Clone, Copy)]
pub enum Group<'a> {
    /// A message. Its end isn't told.
    Message(Message<'a>),
    /// Keys.
    Keys(Keys),
    /// Signatures or recipients, by the name of one.
    List(&'static str),
    /// One of these, its number from 1 on, and all of it.
    One(&'static str, u64, View<'a>),
    /// A key; its number in a set from 1 on, else 0.
    Key(u64),
    /// A header, by its name, with the bytes that hold it if it is protected.
    Header(&'static str, Option<View<'a>>),
    /// A payload that holds claims.
    Claims(View<'a>),
}

/// What is in the place of a part.
#[derive(Clone, Copy)]
pub enum PartIs<'a> {
    /// Nothing, as the message ends before it.
    Missing,
    /// Nothing, as the name says what there is instead.
    Wrong,
    /// Null, as it is detached.
    Detached,
    /// The bytes of a string.
    Bytes(View<'a>),
    /// Those of a payload, and whether they are one item.
    Payload(View<'a>, bool),
    /// An item that is no byte string.
    Item(View<'a>),
    /// An item that is no list of these.
    NoList(View<'a>),
    /// A protected header that is no byte string.
    NoBytes(View<'a>),
    /// The bytes of a protected header that hold no item to be shown, and the header.
    NoItem(View<'a>, View<'a>),
    /// An item that is no map, with the bytes that hold it if the header is protected.
    NoMap(Option<View<'a>>, View<'a>),
    /// An item that is no key, and its number in the set.
    NoKey(u64, View<'a>),
    /// An item that has no place, or that is as the name says.
    More(View<'a>),
}

/// What the labels of a map are.
#[derive(Debug, Clone, Copy, PartialEq, Eq)]
pub enum Labels {
    /// Those of headers.
    Headers,
    /// Those of claims.
    Claims,
    /// Those of a key of this type.
    Key(Option<KeyType>),
}

/// An item that may be hidden.
#[derive(Clone, Copy)]
pub enum Seen<'a> {
    /// It is shown.
    Item(View<'a>),
    /// It isn't; the length that a byte string has.
    Hidden(Option<usize>),
}

impl<'a> Seen<'a> {
    /// What may be shown of an item.
    ///
    /// # Errors
    /// `Memory`.
    pub fn of(alloc: Global, item: View<'a>) -> Result<Seen<'a>, NotWritten> {
        if !item.is_hidden() {
            return Ok(Seen::Item(item));
        }
        if !is_bytes(item.bytes()) {
            return Ok(Seen::Hidden(None));
        }
        let content = joined(alloc, item)?;
        Ok(Seen::Hidden(Some(content.view().len())))
    }
}

/// An entry of a map.
#[derive(Clone, Copy)]
pub struct Entry<'a> {
    /// What its label is.
    pub labels: Labels,
    /// The label as an integer, if it is a small one.
    pub number: Option<i64>,
    /// The label.
    pub label: View<'a>,
    /// The value.
    pub value: Seen<'a>,
}

impl Entry<'_> {
    /// The registered name of the label.
    pub fn name(&self) -> Option<&'static str> {
        match self.labels {
            Labels::Headers => parameter(self.number?),
            Labels::Claims => claim(self.number?),
            Labels::Key(kty) => key_label(kty, self.number).name,
        }
    }

    /// The registered name of a value, if the label has a registry.
    pub fn value_name(&self, value: View<'_>) -> Option<&'static str> {
        let value = integer(value.bytes())?;
        match (self.labels, self.number) {
            (Labels::Headers, Some(1)) => algorithm(value),
            (Labels::Headers, Some(3 | 16)) => content_format(value),
            (Labels::Key(kty), label) => match key_label(kty, label).part {
                KeyPart::Type => key_type(value),
                KeyPart::Alg => algorithm(value),
                KeyPart::Curve => curve(value),
                _ => None,
            },
            _ => None,
        }
    }

    /// Whether the value is the id of a key.
    pub fn is_id(&self) -> bool {
        match self.labels {
            Labels::Headers => self.number == Some(4),
            Labels::Claims => false,
            Labels::Key(_) => self.number == Some(2),
        }
    }

    /// Whether the value is the list of what a key is for.
    pub fn is_operations(&self) -> bool {
        match self.labels {
            Labels::Key(kty) => key_label(kty, self.number).part == KeyPart::Operations,
            _ => false,
        }
    }
}

/// Tells the entries of a map.
pub fn show_entries<S: Shows>(
    alloc: Global,
    group: Group<'_>,
    labels: Labels,
    mut entries: Members<'_>,
    to: &mut S,
) -> Done {
    to.begin(group)?;
    for _ in 0..u64::MAX {
        let Some(label) = entries.next()? else {
            break;
        };
        let Some(value) = entries.next()? else {
            break;
        };
        to.entry(Entry {
            labels,
            number: integer(label.bytes()),
            label,
            value: Seen::of(alloc, value)?,
        })?;
    }
    to.end(group)
}
