//! A walk over the heads of one item.
use crate::head::{Head, HeadFault, head_of};
use crate::role::{Inside, Role, content_role, inside_of};
use cbor_walk::body_of;
use ciborium_ll::Header;
use std::alloc::Global;
use std::fmt;

/// Why a walk can't go on.
#[derive(Debug, Clone, Copy, PartialEq, Eq)]
pub enum Why {
    /// The bytes end before the item, or inside it.
    Cut,
    /// No head begins with the byte here.
    NoHead,
    /// A break is here, and nothing that is open can end.
    Break,
    /// The open string can't hold the head here.
    Chunk,
    /// The text that begins here is no UTF-8.
    NotText,
    /// An offset would pass the greatest one.
    TooLong,
    /// Out of memory.
    Memory,
}

impl fmt::Display for Why {
    fn fmt<W: fmt::Write>(&self, f: &mut fmt::Formatter<W>) -> fmt::Result {
        f.write_str(match self {
            Why::Cut => "the input ends inside an item",
            Why::NoHead => "no item begins with this byte",
            Why::Break => "a break where nothing can end",
            Why::Chunk => "an item that the open string can't hold",
            Why::NotText => "a text that is not UTF-8",
            Why::TooLong => "a length past the greatest offset",
            Why::Memory => "out of memory",
        })
    }
}

/// A fault, and its place: in bytes from the front of the item.
#[derive(Debug, Clone, Copy, PartialEq, Eq)]
pub struct Fault {
    /// Which fault.
    pub why: Why,
    /// Where.
    pub at: usize,
}

/// What can be open.
#[derive(Debug, Clone, Copy, PartialEq, Eq)]
pub enum LevelKind {
    /// An array.
    Array,
    /// A map.
    Map,
    /// A tag, whose item is to come.
    Tag,
    /// A byte string of open length.
    Bytes,
    /// A text string of open length.
    Text,
    /// A byte string that was entered, and the encoding indicator of its head.
    Embedded(Option<u8>),
}

/// Where an item is in the one around it.
#[derive(Debug, Clone, Copy, PartialEq, Eq)]
pub enum Place {
    /// Nothing is around it.
    Top,
    /// In an array.
    Element {
        /// Whether it is the first one.
        first: bool,
    },
    /// In a map, as a key.
    Key {
        /// Whether it is the first one.
        first: bool,
    },
    /// In a map, after its key.
    Value,
    /// In a tag.
    Content,
    /// In an open string.
    Chunk {
        /// Whether it is the first one.
        first: bool,
    },
}

/// What a step finds.
#[derive(Debug, Clone, Copy, PartialEq, Eq)]
pub enum Event {
    /// An item that is its head.
    Leaf(Header),
    /// A string of stated length, with so many bytes after its head.
    Body(Header, usize),
    /// An array, a map, a tag or an open string begins.
    Begin(Header),
    /// What was open last ends, by its count or by a break.
    End(LevelKind),
}

/// One step of a walk.
#[derive(Debug, Clone, Copy, PartialEq, Eq)]
pub struct Step {
    /// What was found.
    pub event: Event,
    /// Where it is in what is around it; of an end this says nothing.
    pub place: Place,
    /// What it is in a message; of an end this says nothing.
    pub role: Role,
    /// Where it is in the bytes.
    pub at: usize,
    /// How many bytes its head takes.
    pub len: usize,
}

/// A level that is open.
#[derive(Debug, Clone, Copy, PartialEq, Eq)]
struct Level {
    kind: LevelKind,
    inside: Inside,
    /// How many items it has, keys and values of a map. None of an open length.
    len: Option<usize>,
    /// How many have come.
    count: usize,
}

impl Level {
    /// Whether a value is due, after its key.
    fn value_due(self) -> bool {
        self.kind == LevelKind::Map && self.count % 2 == 1
    }
}

/// A walk over the heads of one item, which can stop if the bytes at hand end, and go on over more
/// of them.
#[derive(Drop)]
pub struct Walk {
    levels: Vec<Level>,
    at: usize,
    /// Whether a text may be no UTF-8.
    any_text: bool,
    /// What an item is that nothing is around.
    top: Role,
}

impl Walk {
    /// A walk that is before an item.
    pub fn new(alloc: Global) -> Walk {
        Walk {
            levels: Vec::new(alloc),
            at: 0,
            any_text: false,
            top: Role::Top,
        }
    }

    /// The same over heads alone, of items that are this in a message: a text may be no UTF-8.
    pub fn over_heads(alloc: Global, top: Role) -> Walk {
        Walk {
            levels: Vec::new(alloc),
            at: 0,
            any_text: true,
            top,
        }
    }

    /// The offset that the walk has come to, from the front of the item.
    pub fn at(&self) -> usize {
        self.at
    }

    /// Whether the whole item was walked over.
    pub fn is_done(&self) -> bool {
        self.at > 0 && self.levels.is_empty()
    }

    /// Goes back to the front of an item, and keeps the memory.
    pub fn restart(&mut self) {
        self.levels.clear();
        self.at = 0;
    }

    /// The next step over the item at the front of these bytes. They are those of the last step, or
    /// more of them.
    ///
    /// # Errors
    /// What `Why` lists. The walk is where it was, so after `Cut` it can go on over more bytes.
    pub fn step(&mut self, bytes: &[u8]) -> Result<Step, Fault> {
        if self.is_full() {
            return Ok(self.close(0));
        }
        let Some((_, rest)) = bytes.split_at_checked(self.at) else {
            return Err(self.fault(Why::Cut));
        };
        match head_of(rest) {
            Ok(head) => self.take(head, rest),
            Err(HeadFault::NoHead) => Err(self.fault(Why::NoHead)),
            Err(HeadFault::Cut) => Err(self.fault(Why::Cut)),
        }
    }

    /// Goes into the byte string with this head, which the last step was over and which holds one
    /// item.
    ///
    /// # Errors
    /// `Memory`.
    pub fn enter(&mut self, step: Step, head: Head) -> Result<(), Fault> {
        let level = Level {
            kind: LevelKind::Embedded(head.wide()),
            inside: Inside::Each(content_role(step.role)),
            len: Some(1),
            count: 0,
        };
        if self.levels.push(level).is_err() {
            return Err(self.fault(Why::Memory));
        }
        self.at = step.at.saturating_add(head.len);
        Ok(())
    }

    /// Goes to the end of the item, and gives its length.
    ///
    /// # Errors
    /// Those of `step`.
    pub fn advance(&mut self, bytes: &[u8]) -> Result<usize, Fault> {
        for _ in 0..u64::MAX {
            match self.step(bytes) {
                Ok(_) => {}
                Err(fault) => return Err(fault),
            }
            if self.is_done() {
                return Ok(self.at);
            }
        }
        Err(self.fault(Why::TooLong))
    }

    fn fault(&self, why: Why) -> Fault {
        Fault { why, at: self.at }
    }

    /// Whether the innermost level has all its items.
    fn is_full(&self) -> bool {
        match self.levels.last() {
            Some(level) => level.len == Some(level.count),
            None => false,
        }
    }

    /// Ends the innermost level, by so many bytes.
    fn close(&mut self, len: usize) -> Step {
        let kind = match self.levels.pop() {
            Some(level) => level.kind,
            None => LevelKind::Tag,
        };
        let at = self.at;
        self.at = at.saturating_add(len);
        Step {
            event: Event::End(kind),
            place: Place::Top,
            role: Role::Plain,
            at,
            len,
        }
    }

    /// Takes a head.
    fn take(&mut self, head: Head, rest: &[u8]) -> Result<Step, Fault> {
        if head.header == Header::Break {
            return self.take_break();
        }
        if !self.holds(head.header) {
            return Err(self.fault(Why::Chunk));
        }
        match self.check_body(head, rest) {
            Ok(next) => self.go(head, next),
            Err(why) => Err(self.fault(why)),
        }
    }

    fn take_break(&mut self) -> Result<Step, Fault> {
        match self.levels.last() {
            Some(level) if level.len.is_none() && !level.value_due() => Ok(self.close(1)),
            _ => Err(self.fault(Why::Break)),
        }
    }

    /// Whether the innermost level can hold an item with this head. An open string inside an open
    /// string is read, as the reader of values does.
    fn holds(&self, header: Header) -> bool {
        match self.levels.last() {
            Some(level) => match level.kind {
                LevelKind::Bytes => matches!(header, Header::Bytes(_)),
                LevelKind::Text => matches!(header, Header::Text(_)),
                _ => true,
            },
            None => true,
        }
    }

    /// Where the next head is, after this one and its body.
    fn check_body(&self, head: Head, rest: &[u8]) -> Result<usize, Why> {
        let Some(next) = self.next_at(head) else {
            return Err(Why::TooLong);
        };
        let len = next.saturating_sub(self.at);
        let Some(body) = rest.get(head.len..len) else {
            return Err(Why::Cut);
        };
        if !self.any_text
            && matches!(head.header, Header::Text(_))
            && str::from_utf8(body).is_err()
        {
            return Err(Why::NotText);
        }
        Ok(next)
    }

    /// Where the next head is, if an offset reaches it.
    fn next_at(&self, head: Head) -> Option<usize> {
        let len = head.len.checked_add(body_of(head.header))?;
        self.at.checked_add(len)
    }

    /// Steps over a head and its body.
    fn go(&mut self, head: Head, next: usize) -> Result<Step, Fault> {
        if self.levels.reserve(1).is_err() {
            return Err(self.fault(Why::Memory));
        }
        let at = self.at;
        let (place, role) = self.next_place();
        self.at = next;
        let event = event_of(head.header);
        if let Some(level) = level_of(head.header, role) {
            let _ = self.levels.push(level);
        }
        Ok(Step {
            event,
            place,
            role,
            at,
            len: head.len,
        })
    }

    /// The place of the next item, which is taken, and what the item is.
    fn next_place(&mut self) -> (Place, Role) {
        let Some(level) = self.levels.last_mut() else {
            return (Place::Top, self.top);
        };
        let taken = (place_in(*level), level.inside.role_of(level.count));
        level.count = level.count.saturating_add(1);
        taken
    }
}

/// The place of the next item in a level.
fn place_in(level: Level) -> Place {
    let first = level.count == 0;
    match level.kind {
        LevelKind::Array => Place::Element { first },
        LevelKind::Map if level.value_due() => Place::Value,
        LevelKind::Map => Place::Key { first },
        LevelKind::Tag | LevelKind::Embedded(_) => Place::Content,
        LevelKind::Bytes => Place::Chunk { first },
        LevelKind::Text => Place::Chunk { first },
    }
}

fn event_of(header: Header) -> Event {
    match header {
        Header::Bytes(Some(size)) => Event::Body(header, size),
        Header::Text(Some(size)) => Event::Body(header, size),
        Header::Positive(_) => Event::Leaf(header),
        Header::Negative(_) => Event::Leaf(header),
        Header::Float(_) => Event::Leaf(header),
        Header::Simple(_) => Event::Leaf(header),
        _ => Event::Begin(header),
    }
}

fn level_of(header: Header, role: Role) -> Option<Level> {
    let (kind, len) = match header {
        Header::Array(len) => (LevelKind::Array, len),
        Header::Map(len) => (LevelKind::Map, len.map(|n| n.saturating_mul(2))),
        Header::Tag(_) => (LevelKind::Tag, Some(1)),
        Header::Bytes(None) => (LevelKind::Bytes, None),
        Header::Text(None) => (LevelKind::Text, None),
        _ => return None,
    };
    Some(Level {
        kind,
        inside: inside_of(header, role),
        len,
        count: 0,
    })
}

/// The length of the item that the bytes begin with.
///
/// # Errors
/// Those of `Walk::step`.
pub fn item_len(alloc: Global, bytes: &[u8]) -> Result<usize, Fault> {
    let mut walk = Walk::new(alloc);
    walk.advance(bytes)
}
