//! Lines of text.
use crate::keys::Keys;
use crate::look::Look;
use crate::message::OuterTags;
use crate::names::key_operation;
use crate::parts::{integer, is_bytes, items, joined};
use crate::shows::{Done, Entry, Group, Labels, PartIs, Seen, Shows};
use crate::time::claim_time;
use cbor_diag::{
    CUT, CWT, NotWritten, Page, Style, View, front_text, write_hex, write_text, write_view,
};
use std::alloc::Global;
use std::fmt;

/// Lines of text for people. What may be a secret is shown by its length alone, unless secrets are
/// asked for.
#[derive(Drop)]
pub struct Text<'a, P> {
    alloc: Global,
    /// How much is shown.
    pub look: Look,
    /// What they are written on.
    pub page: Page<'a, P>,
    /// How far inside a line begins.
    level: usize,
    /// Nothing is told of the group at hand yet.
    is_empty: bool,
}

/// Writes how many bytes there are.
pub fn write_len<P: fmt::Write>(len: usize, page: &mut Page<'_, P>) {
    if len == 1 {
        page.write_str("1 byte");
    } else {
        write!(page, "{len} bytes");
    }
}

/// Writes the notation of an item, with `...` in place of what isn't shown. Of a damaged item what
/// is in front of the fault is written.
pub fn write_shown<P: fmt::Write>(
    alloc: Global,
    style: Style,
    item: View<'_>,
    level: usize,
    page: &mut Page<'_, P>,
) {
    if write_view(alloc, item, style, level, page) == Err(NotWritten::Memory) {
        page.note(NotWritten::Memory);
    }
}

/// Writes which key, by its id in hex, and as a text if it is one. No more than 64 bytes are shown,
/// unless it is to be shown whole, and none if an item in it is hidden.
pub fn write_shown_id<P: fmt::Write>(id: View<'_>, whole: bool, page: &mut Page<'_, P>) {
    if id.is_empty() {
        page.write_str("the key without an id");
        return;
    }
    if id.holds_hidden() {
        page.write_str("...");
        return;
    }
    page.write_str("h'");
    if !whole && id.len() > CUT {
        write_hex(id.front(CUT).bytes(), page);
        page.write_str("'...");
        return;
    }
    write_hex(id.bytes(), page);
    page.write_str("'");
    write_in_brackets(id, whole, page);
}

/// Writes bytes as a text in brackets, if they are one.
fn write_in_brackets<P: fmt::Write>(bytes: View<'_>, whole: bool, page: &mut Page<'_, P>) {
    if let Some(text) = plain_text(bytes) {
        page.write_str(" (");
        write_string(text, whole, page);
        page.write_str(")");
    }
}

/// Writes a text, and no more than 64 bytes of it unless it is to be shown whole.
fn write_string<P: fmt::Write>(text: &str, whole: bool, page: &mut Page<'_, P>) {
    if whole || text.len() <= CUT {
        write_text(text, false, page);
        return;
    }
    write_text(front_text(text.as_bytes()), false, page);
    page.write_str("... (--full shows all)");
}

impl<'a, P: fmt::Write> Text<'a, P> {
    /// No line yet.
    pub fn new(alloc: Global, look: Look, out: &'a mut P) -> Text<'a, P> {
        Text {
            alloc,
            look,
            page: Page::new(out),
            level: 1,
            is_empty: false,
        }
    }

    /// Begins a line.
    fn begin_line(&mut self, name: &str) {
        for _ in 0..self.level {
            self.page.write_str("  ");
        }
        self.page.write_str(name);
    }

    /// A line that says which of several comes.
    fn begin_one(&mut self, name: &str, number: u64) {
        self.level = 2;
        self.begin_line(name);
        writeln!(self.page, " {number}");
        self.level = 3;
    }

    /// Ends a line after how many bytes there are, and the bytes in hex. No more than 64 are shown,
    /// unless they are to be shown whole, and none if an item in them is hidden.
    pub fn end_with_bytes(&mut self, bytes: View<'_>, whole: bool) {
        write_len(bytes.len(), &mut self.page);
        if !bytes.is_empty() {
            self.hex(": ", bytes, whole);
        }
        self.page.write_str("\n");
    }

    fn hex(&mut self, mark: &str, bytes: View<'_>, whole: bool) {
        if bytes.holds_hidden() {
            self.page.write_str(", not shown (--secrets shows them)");
            return;
        }
        self.page.write_str(mark);
        let bytes = bytes.bytes();
        match bytes.get(..CUT) {
            Some(front) if !whole && bytes.len() > CUT => {
                write_hex(front, &mut self.page);
                self.page.write_str("... (--full shows all)");
            }
            _ => write_hex(bytes, &mut self.page),
        }
    }

    /// Ends the line of a message after the tags around it.
    fn outer_tags(&mut self, mut tags: OuterTags<'_>) {
        let mut others = tags;
        let _ = others.next();
        let mut mark = match others.next() {
            Some(_) => ", in tags ",
            None => ", in tag ",
        };
        for _ in 0..u64::MAX {
            let Some(tag) = tags.next() else {
                break;
            };
            write!(self.page, "{mark}{tag}");
            if tag == CWT {
                self.page.write_str(" (CBOR Web Token)");
            }
            mark = " and ";
        }
        self.page.write_str("\n");
    }

    /// The notation of an item, which may go on over several lines.
    fn lines(&mut self, item: View<'_>) {
        write_shown(
            self.alloc,
            self.look.lines(),
            item,
            self.level,
            &mut self.page,
        );
    }

    fn on_one_line(&mut self, item: View<'_>) {
        write_shown(self.alloc, self.look.line(), item, 0, &mut self.page);
    }

    fn end_with(&mut self, mark: &str, item: View<'_>) {
        self.page.write_str(mark);
        self.lines(item);
        self.page.write_str("\n");
    }

    /// Begins lines with the notation of an item.
    pub fn notation(&mut self, item: View<'_>) {
        self.level = 1;
        self.begin_line("");
        self.lines(item);
    }

    fn len(&mut self, bytes: Option<View<'_>>) {
        if let Some(bytes) = bytes {
            self.page.write_str(", ");
            write_len(bytes.len(), &mut self.page);
        }
    }

    fn begin_map(&mut self, name: &str, bytes: Option<View<'_>>) {
        self.begin_line(name);
        self.len(bytes);
        self.level = self.level.saturating_add(1);
        self.is_empty = true;
    }

    /// The notation of an item that may be hidden.
    fn seen(&mut self, item: View<'_>) -> Done {
        match Seen::of(self.alloc, item)? {
            Seen::Item(item) => self.lines(item),
            Seen::Hidden(len) => self.hidden(len),
        }
        Ok(())
    }

    fn hidden(&mut self, len: Option<usize>) {
        match len {
            Some(len) => {
                write_len(len, &mut self.page);
                self.page.write_str(", not shown (--secrets shows them)");
            }
            None => self.page.write_str("not shown (--secrets shows it)"),
        }
    }

    fn named(&mut self, name: Option<&'static str>, item: View<'_>) -> Done {
        let Some(name) = name else {
            return self.seen(item);
        };
        write!(self.page, "{name} (");
        self.on_one_line(item);
        self.page.write_str(")");
        Ok(())
    }

    fn value(&mut self, entry: Entry<'_>, value: View<'_>) -> Done {
        if entry.is_operations() {
            return self.operations(value);
        }
        self.named(entry.value_name(value), value)?;
        if let Some(time) = claim_time(entry.labels, entry.number, value.bytes()) {
            write!(self.page, " ({time})");
        }
        if entry.is_id() && is_bytes(value.bytes()) {
            let id = joined(self.alloc, value)?;
            write_in_brackets(id.view(), self.look.full, &mut self.page);
        }
        Ok(())
    }

    /// The operations that a key is for, by name.
    fn operations(&mut self, value: View<'_>) -> Done {
        let Some(mut list) = items(self.alloc, value) else {
            return self.seen(value);
        };
        let mut mark = "";
        for _ in 0..u64::MAX {
            let Some(one) = list.next()? else {
                break;
            };
            self.page.write_str(mark);
            mark = ", ";
            self.named(operation_name(one), one)?;
            self.page.end()?;
        }
        if mark.is_empty() {
            self.page.write_str("none");
        }
        Ok(())
    }

    /// What a payload is: a text, an item or bytes.
    fn payload(&mut self, payload: View<'_>, is_item: bool) {
        if payload.is_hidden() {
            self.page.write_str(", not shown (--secrets shows them)");
        } else if let Some(text) = plain_text(payload) {
            self.page.write_str(", text: ");
            write_string(text, self.look.full, &mut self.page);
            // One of a byte is hardly meant as an item.
            if is_item && payload.len() > 1 {
                self.page.write_str("\n      also CBOR: ");
                self.on_one_line(payload);
            }
        } else if is_item {
            self.page.write_str(", CBOR: ");
            self.lines(payload);
        } else if !payload.is_empty() {
            self.hex(", hex: ", payload, self.look.full);
        }
        self.page.write_str("\n");
    }
}

/// The text that bytes are, if nothing in them is hidden and they have no control characters but
/// those between lines and words.
pub fn plain_text(bytes: View<'_>) -> Option<&str> {
    if bytes.holds_hidden() || bytes.is_empty() {
        return None;
    }
    match str::from_utf8(bytes.bytes()) {
        Ok(text) if text.chars().all(is_plain) => Some(text),
        _ => None,
    }
}

fn is_plain(c: char) -> bool {
    !c.is_control() || matches!(c, '\n' | '\r' | '\t')
}

/// The registered name of an operation.
pub fn operation_name(item: View<'_>) -> Option<&'static str> {
    key_operation(integer(item.bytes())?)
}

impl<'a, P: fmt::Write> Shows for Text<'a, P> {
    fn begin(&mut self, group: Group<'_>) -> Done {
        self.is_empty = false;
        match group {
            Group::Message(message) => {
                let (name, tag) = (message.form.name, message.tag);
                write!(self.page, "  {name}, tag {tag}");
                self.outer_tags(message.outer);
                self.level = 2;
            }
            Group::Keys(Keys::One) => {
                let line = "  COSE_Key (a key set is an array of these)\n";
                self.page.write_str(line);
                self.level = 2;
            }
            Group::Keys(Keys::Set) => self.page.write_str("  COSE_KeySet\n"),
            Group::List(_) => self.is_empty = true,
            Group::One(name, number, _) => self.begin_one(name, number),
            Group::Key(0) => {}
            Group::Key(number) => self.begin_one("key", number),
            Group::Header(name, bytes) => self.begin_map(name, bytes),
            Group::Claims(payload) => {
                self.begin_map("payload", Some(payload));
                self.page.write_str(", claims");
            }
        }
        self.page.end()
    }

    fn part(&mut self, name: &'static str, is: PartIs<'_>) -> Done {
        if let PartIs::NoKey(number, _) = is {
            self.begin_one("key", number);
        }
        self.begin_line(name);
        match is {
            PartIs::Missing => self.page.write_str(": missing\n"),
            PartIs::Wrong => self.page.write_str("\n"),
            PartIs::Detached => self.page.write_str(": detached\n"),
            PartIs::Bytes(bytes) => {
                self.page.write_str(", ");
                self.end_with_bytes(bytes, self.look.full);
            }
            PartIs::Payload(payload, is_item) => {
                self.len(Some(payload));
                self.payload(payload, is_item);
            }
            PartIs::NoItem(bytes, _) => {
                if !bytes.is_empty() {
                    self.page.write_str(", not one item");
                }
                self.page.write_str(", ");
                self.end_with_bytes(bytes, self.look.full);
            }
            PartIs::NoBytes(item) => self.end_with(", not bytes: ", item),
            PartIs::NoMap(bytes, item) => {
                self.len(bytes);
                self.end_with(", not a map: ", item);
            }
            PartIs::Item(item) | PartIs::NoList(item) | PartIs::More(item) => {
                self.end_with(": ", item);
            }
            PartIs::NoKey(_, item) => {
                self.page.write_str(": ");
                self.seen(item)?;
                self.page.write_str("\n");
            }
        }
        self.page.end()
    }

    fn entry(&mut self, entry: Entry<'_>) -> Done {
        if self.is_empty {
            self.page.write_str("\n");
            self.is_empty = false;
        }
        self.begin_line("");
        match entry.labels {
            Labels::Key(_) => self.seen(entry.label)?,
            _ => self.on_one_line(entry.label),
        }
        if let Some(name) = entry.name() {
            write!(self.page, " {name}");
        }
        self.page.write_str(": ");
        match entry.value {
            Seen::Item(value) => self.value(entry, value)?,
            Seen::Hidden(len) => self.hidden(len),
        }
        self.page.write_str("\n");
        self.page.end()
    }

    fn end(&mut self, group: Group<'_>) -> Done {
        match group {
            Group::List(name) if self.is_empty => {
                self.begin_line("no ");
                writeln!(self.page, "{name}");
            }
            Group::One(_, _, _) => self.level = 2,
            Group::Header(_, _) | Group::Claims(_) => {
                if self.is_empty {
                    self.page.write_str(", empty\n");
                }
                self.level = self.level.saturating_sub(1);
            }
            _ => {}
        }
        self.is_empty = false;
        self.page.end()
    }
}
