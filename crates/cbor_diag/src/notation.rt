//! The notation.
use crate::bignum::Bignum;
use crate::escape::write_text;
use crate::float::{wide, write_float};
use crate::head::Head;
use crate::page::Page;
use crate::role::Role;
use crate::view::View;
use crate::walk::{Event, Fault, LevelKind, Place, Step, Walk, Why, item_len};
use ciborium_ll::Header;
use std::alloc::{AllocError, AllocFailed, Global};
use std::fmt;

/// An array or a map whose encoding is at most so long is written on one line.
const SHORT: usize = 24;

/// From this depth on everything is written on one line, so that the notation of deep items stays
/// about as long as they are.
const DEEP: usize = 32;

/// A string of more bytes than these is cut to them, if strings are cut.
pub const CUT: usize = 64;

/// How the notation is written.
#[derive(Debug, Clone, Copy, PartialEq, Eq)]
pub struct Style {
    /// Arrays and maps that aren't short are written on several lines.
    pub lines: bool,
    /// Widths that aren't the shortest have their encoding indicators (RFC 8949, section 8.1).
    /// Those of open lengths are always there.
    pub widths: bool,
    /// Characters past U+007E are escaped.
    pub ascii: bool,
    /// Bignums of at most 64 bytes in their shortest encoding are shown as numbers.
    pub bignums: bool,
    /// What is known to hold one item, a protected header or a byte string in tag 24, is shown as
    /// that item between `<<` and `>>` (RFC 8610, appendix G.3).
    pub embedded: bool,
    /// Strings of more than 64 bytes are cut to 64, and a comment has their length. Of a string of
    /// open length each piece is cut by itself.
    pub cut: bool,
}

impl Style {
    /// On several lines, with all encoding indicators.
    pub fn full() -> Style {
        Style {
            lines: true,
            ..Style::line()
        }
    }

    /// The same on one line.
    pub fn line() -> Style {
        Style {
            lines: false,
            widths: true,
            ascii: false,
            bignums: false,
            embedded: false,
            cut: false,
        }
    }

    /// As RFC 8949, Appendix A, writes it.
    pub fn appendix() -> Style {
        Style {
            widths: false,
            ascii: true,
            bignums: true,
            ..Style::line()
        }
    }
}

/// Why the notation isn't whole. What is in front of it was written.
#[derive(Debug, Clone, Copy, PartialEq, Eq)]
pub enum NotWritten {
    /// The bytes begin no item.
    Fault(Fault),
    /// The writer failed.
    Output,
    /// Out of memory.
    Memory,
}

impl From<Fault> for NotWritten {
    fn from(fault: Fault) -> NotWritten {
        match fault.why {
            Why::Memory => NotWritten::Memory,
            _ => NotWritten::Fault(fault),
        }
    }
}

impl From<AllocError> for NotWritten {
    fn from(_: AllocError) -> NotWritten {
        NotWritten::Memory
    }
}

impl<T: Drop> From<AllocFailed<T>> for NotWritten {
    fn from(_: AllocFailed<T>) -> NotWritten {
        NotWritten::Memory
    }
}

/// The notation as it is written.
#[derive(Drop)]
struct Notation<'a, 'p, W> {
    alloc: Global,
    page: &'a mut Page<'p, W>,
    style: Style,
    /// How many levels are open in one that isn't shown.
    unseen: usize,
    /// How many levels are written on several lines.
    indent: usize,
    /// How many levels are open since one began that is written on one line.
    flat: usize,
    /// How many steps were shown already.
    shown: usize,
}

/// Writes the notation of the item that the bytes begin with, and gives the item's length. Lines
/// after the first begin with `indent` times two spaces, and more.
///
/// # Errors
/// `Fault` if the bytes begin no item, with the notation of what is in front of the fault written;
/// `Output` and `Memory`, also those that the page has noted.
pub fn write_item<W: fmt::Write>(
    alloc: Global,
    bytes: &[u8],
    style: Style,
    indent: usize,
    page: &mut Page<'_, W>,
) -> Result<usize, NotWritten> {
    write_view(alloc, View::open(bytes), style, indent, page)
}

/// The same with `...` in place of the items that aren't shown, and of byte strings that hold one.
///
/// # Errors
/// Those of `write_item`.
pub fn write_view<W: fmt::Write>(
    alloc: Global,
    view: View<'_>,
    style: Style,
    indent: usize,
    page: &mut Page<'_, W>,
) -> Result<usize, NotWritten> {
    let mut walk = Walk::new(alloc);
    let mut notation = Notation {
        alloc,
        page,
        style,
        unseen: 0,
        indent,
        flat: 0,
        shown: 0,
    };
    for _ in 0..u64::MAX {
        let step = walk.step(view.bytes())?;
        notation.tell(view, step, &mut walk)?;
        notation.page.end()?;
        if walk.is_done() {
            break;
        }
    }
    Ok(walk.at())
}

impl<'a, 'p, W: fmt::Write> Notation<'a, 'p, W> {
    /// Writes one step of this walk.
    fn tell(&mut self, view: View<'_>, step: Step, walk: &mut Walk) -> Result<(), Fault> {
        if self.shown > 0 {
            self.shown = self.shown.saturating_sub(1);
            return Ok(());
        }
        let item = view.behind(step.at);
        let is_embedded = self.unseen == 0 && self.is_embedded(item, step);
        if self.unseen > 0 || (!is_embedded && is_unseen(item, step)) {
            self.leave_out(step);
            return Ok(());
        }
        self.part(step.place);
        match step.event {
            Event::End(kind) => self.end(kind),
            Event::Leaf(header) => self.leaf(head_at(header, step)),
            Event::Body(header, _) if is_embedded => {
                self.go_in("<<");
                return walk.enter(step, head_at(header, step));
            }
            Event::Body(header, size) => {
                self.body(head_at(header, step), body_of(item, step, size));
            }
            Event::Begin(header) => self.begin(head_at(header, step), item),
        }
        Ok(())
    }

    /// Whether a step is over a byte string that is shown as the item in it.
    fn is_embedded(&mut self, item: View<'_>, step: Step) -> bool {
        match (step.role, step.event) {
            (Role::Protected | Role::Encoded, Event::Body(Header::Bytes(_), size))
                if self.style.embedded && !item.is_hidden() => {
                self.len_of(body_of(item, step, size)) == Some(size)
            }
            _ => false,
        }
    }

    /// Goes over a step of an item that isn't shown.
    fn leave_out(&mut self, step: Step) {
        if self.unseen == 0 {
            self.part(step.place);
            self.page.write_str("...");
        }
        match step.event {
            Event::Begin(_) => self.unseen = self.unseen.saturating_add(1),
            Event::End(_) => self.unseen = self.unseen.saturating_sub(1),
            _ => {}
        }
    }

    /// What is between an item and the one before it.
    fn part(&mut self, place: Place) {
        match place {
            Place::Top => {}
            Place::Content => {}
            Place::Value => self.page.write_str(": "),
            Place::Element { first } => self.next(first),
            Place::Key { first } => self.next(first),
            Place::Chunk { first: true } => {}
            Place::Chunk { first: false } => self.page.write_str(", "),
        }
    }

    fn next(&mut self, first: bool) {
        let on_one_line = self.flat > 0;
        if !first {
            self.page.write_str(",");
        }
        if !on_one_line {
            self.line();
        } else if !first {
            self.page.write_str(" ");
        }
    }

    /// A new line.
    fn line(&mut self) {
        self.page.write_str("\n");
        for _ in 0..self.indent {
            self.page.write_str("  ");
        }
    }

    fn indicator(&mut self, width: Option<u8>) {
        match width {
            Some(width) if self.style.widths => write!(self.page, "_{width}"),
            _ => {}
        }
    }

    fn leaf(&mut self, head: Head) {
        match head.header {
            Header::Positive(n) => write!(self.page, "{n}"),
            Header::Negative(n) => {
                let size = u128::from(n).wrapping_add(1);
                write!(self.page, "-{size}");
            }
            Header::Simple(20) => self.page.write_str("false"),
            Header::Simple(21) => self.page.write_str("true"),
            Header::Simple(22) => self.page.write_str("null"),
            Header::Simple(23) => self.page.write_str("undefined"),
            Header::Simple(n) => write!(self.page, "simple({n})"),
            Header::Float(float) => {
                write_float(self.alloc, float, self.page);
                self.indicator(wide(float));
                return;
            }
            _ => return,
        }
        self.indicator(head.wide());
    }

    /// A string of stated length.
    fn body(&mut self, head: Head, body: &[u8]) {
        if self.style.cut && body.len() > CUT {
            self.cut_body(head, body);
            return;
        }
        match head.header {
            Header::Text(_) => match str::from_utf8(body) {
                Ok(text) => write_text(text, self.style.ascii, self.page),
                Err(_) => self.bytes(body),
            },
            _ => self.bytes(body),
        }
        self.indicator(head.wide());
    }

    /// The front of a long string, and its length.
    fn cut_body(&mut self, head: Head, body: &[u8]) {
        match head.header {
            Header::Text(_) => write_text(front_text(body), self.style.ascii, self.page),
            _ => self.bytes(body.get(..CUT).unwrap_or(body)),
        }
        self.indicator(head.wide());
        let len = body.len();
        write!(self.page, "... /{len} bytes, --full shows all/");
    }

    fn bytes(&mut self, body: &[u8]) {
        self.page.write_str("h'");
        write_hex(body, self.page);
        self.page.write_str("'");
    }

    /// What begins an item with parts.
    fn begin(&mut self, head: Head, item: View<'_>) {
        let bytes = item.bytes();
        match head.header {
            Header::Array(len) => self.begin_level("[", len.is_none(), head, bytes),
            Header::Map(len) => self.begin_level("{", len.is_none(), head, bytes),
            Header::Tag(number) => self.begin_tag(number, head, item),
            Header::Bytes(_) => self.begin_string("''_", bytes),
            Header::Text(_) => self.begin_string("\"\"_", bytes),
            _ => {}
        }
    }

    fn begin_level(&mut self, mark: &str, is_open: bool, head: Head, rest: &[u8]) {
        self.page.write_str(mark);
        let on_one_line = !self.style.lines
            || self.flat > 0
            || self.indent >= DEEP
            || self.len_of(rest.get(..SHORT).unwrap_or(rest)).is_some();
        let wide = head.wide();
        if is_open {
            self.page.write_str("_");
        } else {
            self.indicator(wide);
        }
        if on_one_line {
            self.flat = self.flat.saturating_add(1);
            if is_open || (wide.is_some() && self.style.widths) {
                self.page.write_str(" ");
            }
        } else {
            self.indent = self.indent.saturating_add(1);
        }
    }

    /// The length of the item that the bytes begin with, if it is whole.
    fn len_of(&mut self, bytes: &[u8]) -> Option<usize> {
        match item_len(self.alloc, bytes) {
            Ok(len) => Some(len),
            Err(fault) => {
                if fault.why == Why::Memory {
                    self.page.note(NotWritten::Memory);
                }
                None
            }
        }
    }

    fn begin_tag(&mut self, number: u64, head: Head, item: View<'_>) {
        if self.style.bignums
            && let Some(bignum) = Bignum::of(item.bytes())
            && bignum.has_decimal()
            && !item.front(bignum.len).holds_hidden()
        {
            self.shown = 2;
            bignum.write(self.page);
            return;
        }
        write!(self.page, "{number}");
        self.indicator(head.wide());
        self.go_in("(");
    }

    /// Begins what holds one item, and is on lines as that is.
    fn go_in(&mut self, mark: &str) {
        if self.flat > 0 {
            self.flat = self.flat.saturating_add(1);
        }
        self.page.write_str(mark);
    }

    /// An open string; one without pieces has a form of its own.
    fn begin_string(&mut self, empty: &str, rest: &[u8]) {
        if matches!(rest, [_, 0xff, ..]) {
            self.shown = 1;
            self.page.write_str(empty);
            return;
        }
        self.flat = self.flat.saturating_add(1);
        self.page.write_str("(_ ");
    }

    /// What ends an item with parts.
    fn end(&mut self, kind: LevelKind) {
        let on_one_line = self.flat > 0;
        self.flat = self.flat.saturating_sub(1);
        if !on_one_line && matches!(kind, LevelKind::Array | LevelKind::Map) {
            self.indent = self.indent.saturating_sub(1);
            self.line();
        }
        self.page.write_str(match kind {
            LevelKind::Array => "]",
            LevelKind::Map => "}",
            LevelKind::Embedded(_) => ">>",
            _ => ")",
        });
        if let LevelKind::Embedded(width) = kind {
            self.indicator(width);
        }
    }
}

/// Whether an item that isn't shown begins with this step, or a byte string that holds one.
fn is_unseen(item: View<'_>, step: Step) -> bool {
    match step.event {
        Event::End(_) => false,
        Event::Body(Header::Bytes(_), size) => item
            .front(step.len.saturating_add(size))
            .holds_hidden(),
        _ => item.is_hidden(),
    }
}

/// The head of a step.
fn head_at(header: Header, step: Step) -> Head {
    Head {
        header,
        len: step.len,
    }
}

/// So many bytes of an item after the head of this step.
fn body_of(item: View<'_>, step: Step, size: usize) -> &[u8] {
    item.behind(step.len).front(size).bytes()
}

/// The front of a text of more than 64 bytes: as many of its characters as have at most 64 bytes.
pub fn front_text(body: &[u8]) -> &str {
    for less in 0..4usize {
        let front = body.get(..CUT.saturating_sub(less)).unwrap_or(body);
        if let Ok(text) = str::from_utf8(front) {
            return text;
        }
    }
    ""
}

/// Writes bytes as hex digits.
pub fn write_hex<W: fmt::Write>(bytes: &[u8], page: &mut Page<'_, W>) {
    for byte in bytes {
        write!(page, "{byte:02x}");
    }
}
