//! Members of JSON objects (RFC 8259). They are written as they come, so that nothing is held
//! beside the item.
use crate::key_labels::Label;
use crate::keys::Keys;
use crate::message::OuterTags;
use crate::parts::{header_of, is_null, items, joined};
use crate::shows::{Done, Entry, Group, Labels, PartIs, Seen, Shows};
use crate::text::{operation_name, plain_text, write_shown};
use crate::time::claim_time;
use cbor_diag::{Page, Style, View, write_hex};
use ciborium_ll::Header;
use std::alloc::Global;
use std::fmt;

/// The greatest integer that each reader of JSON takes as it is, 2^53 - 1 (RFC 8259, section 6).
const GREATEST: i64 = 9_007_199_254_740_991;

/// What is between the quotes of a JSON text.
#[derive(Drop)]
struct Quoted<'a, 'p, P> {
    /// What the text is written to.
    page: &'a mut Page<'p, P>,
}

impl<'a, 'p, P: fmt::Write> fmt::Write for Quoted<'a, 'p, P> {
    fn write_str(&mut self, text: &str) -> fmt::Result {
        write_escaped(text, self.page);
        if self.page.has_failed() {
            Err(fmt::Error)
        } else {
            Ok(())
        }
    }
}

/// Writes a text as it is between the quotes.
fn write_escaped<P: fmt::Write>(text: &str, page: &mut Page<'_, P>) {
    for c in text.chars() {
        match c {
            '"' => page.write_str("\\\""),
            '\\' => page.write_str("\\\\"),
            '\u{0}'..='\u{1f}' => write!(page, "\\u{:04x}", u32::from(c)),
            _ => page.write_char(c),
        }
    }
}

/// Members of an object, each after others. An entry whose value may be a secret has a `length` in
/// place of a `value`, unless secrets are asked for.
#[derive(Drop)]
pub struct Json<'a, P> {
    alloc: Global,
    /// What they are written on.
    pub page: Page<'a, P>,
    /// What comes before the next one in the list at hand.
    mark: &'static str,
}

impl<'a, P: fmt::Write> Json<'a, P> {
    /// Nothing yet.
    pub fn new(alloc: Global, out: &'a mut P) -> Json<'a, P> {
        Json {
            alloc,
            page: Page::new(out),
            mark: "",
        }
    }

    /// Writes the name of a member.
    pub fn name(&mut self, name: &str) {
        write!(self.page, ",\"{name}\":");
    }

    /// Writes a member whose value is a text.
    pub fn word(&mut self, name: &str, word: &str) {
        self.name(name);
        self.page.write_str("\"");
        write_escaped(word, &mut self.page);
        self.page.write_str("\"");
    }

    /// Writes members whose values are texts.
    pub fn words(&mut self, members: &[(&str, &str)]) {
        for (name, word) in members {
            self.word(name, word);
        }
    }

    /// Begins a list.
    pub fn open(&mut self) {
        self.page.write_str("[");
        self.mark = "";
    }

    /// Writes what parts the next one from those before it.
    pub fn next(&mut self) {
        self.page.write_str(self.mark);
        self.mark = ",";
    }

    /// Ends a list.
    pub fn close(&mut self) {
        self.page.write_str("]");
        self.mark = ",";
    }

    /// Writes bytes in hex between quotes, or `...` if an item in them is hidden.
    pub fn hex(&mut self, bytes: View<'_>) {
        self.page.write_str("\"");
        if bytes.holds_hidden() {
            self.page.write_str("...");
        } else {
            write_hex(bytes.bytes(), &mut self.page);
        }
        self.page.write_str("\"");
    }

    /// Writes the notation of an item between quotes, as `write_shown` does on one line.
    fn notation(&mut self, item: View<'_>) {
        self.page.write_str("\"");
        let mut quoted = Quoted {
            page: &mut self.page,
        };
        let mut inside = Page::new(&mut quoted);
        write_shown(self.alloc, Style::line(), item, 0, &mut inside);
        let end = inside.end();
        if self.page.kept(end).is_some() {
            self.page.write_str("\"");
        }
    }

    /// Writes a member with the notation of an item.
    pub fn noted(&mut self, item: View<'_>) {
        self.name("notation");
        self.notation(item);
    }

    /// The tags around a message, if there is one.
    fn outer_tags(&mut self, mut tags: OuterTags<'_>) {
        let mut is_first = true;
        for _ in 0..u64::MAX {
            let Some(tag) = tags.next() else {
                break;
            };
            self.page
                .write_str(if is_first { ",\"outer_tags\":[" } else { "," });
            write!(self.page, "{tag}");
            is_first = false;
        }
        if !is_first {
            self.page.write_str("]");
        }
    }

    /// Writes a value: its notation, what it is in a type of JSON, and what is registered of it.
    fn value(&mut self, entry: Entry<'_>, value: View<'_>) -> Done {
        self.name("value");
        self.notation(value);
        self.typed(entry, value)?;
        if let Some(name) = entry.value_name(value) {
            self.word("value_name", name);
        }
        if let Some(time) = claim_time(entry.labels, entry.number, value.bytes()) {
            write!(self.page, ",\"time\":\"{time}\"");
        }
        if entry.is_operations() {
            self.operations(value)?;
        }
        Ok(())
    }

    /// A text; a byte string in hex, as a text too if it is the id of a key; an integer, a bignum
    /// too, from -(2^53 - 1) to 2^53 - 1 as a number.
    fn typed(&mut self, entry: Entry<'_>, value: View<'_>) -> Done {
        match header_of(value.bytes()) {
            Some(Header::Text(_)) => {
                let content = joined(self.alloc, value)?;
                self.string(content.view(), false, true);
            }
            Some(Header::Bytes(_)) => {
                let content = joined(self.alloc, value)?;
                self.string(content.view(), true, entry.is_id());
            }
            _ => self.number(Label::of(value.bytes()).number()),
        }
        Ok(())
    }

    /// What a string holds, unless an item in it is hidden.
    fn string(&mut self, bytes: View<'_>, in_hex: bool, as_text: bool) {
        if bytes.holds_hidden() {
            return;
        }
        if in_hex {
            self.name("hex");
            self.hex(bytes);
        }
        if let Some(text) = text_of(bytes, in_hex, as_text) {
            self.word("text", text);
        }
    }

    fn number(&mut self, number: Option<i64>) {
        match number {
            Some(number) if (-GREATEST..=GREATEST).contains(&number) => {
                write!(self.page, ",\"number\":{number}");
            }
            _ => {}
        }
    }

    /// The names of operations, null in place of one that has none.
    fn operations(&mut self, value: View<'_>) -> Done {
        let Some(mut list) = items(self.alloc, value) else {
            return Ok(());
        };
        self.name("value_names");
        self.open();
        for _ in 0..u64::MAX {
            let Some(one) = list.next()? else {
                break;
            };
            self.next();
            match operation_name(one) {
                Some(name) => write!(self.page, "\"{name}\""),
                None => self.page.write_str("null"),
            }
            self.page.end()?;
        }
        self.close();
        Ok(())
    }
}

/// The text that a string is; of bytes only a plain one.
fn text_of(bytes: View<'_>, is_plain: bool, as_text: bool) -> Option<&str> {
    if !as_text {
        return None;
    }
    if is_plain {
        return plain_text(bytes);
    }
    str::from_utf8(bytes.bytes()).ok()
}

impl<'a, P: fmt::Write> Shows for Json<'a, P> {
    fn begin(&mut self, group: Group<'_>) -> Done {
        match group {
            Group::Message(message) => {
                let tag = message.tag;
                self.word("kind", message.form.name);
                write!(self.page, ",\"tag_number\":{tag}");
                self.outer_tags(message.outer);
            }
            Group::Keys(keys) => {
                let is_one = keys == Keys::One;
                self.word("kind", if is_one { "COSE_Key" } else { "COSE_KeySet" });
                self.name("keys");
                self.open();
            }
            Group::List(name) => {
                write!(self.page, ",\"{name}s\":");
                self.open();
            }
            Group::One(_, _, item) => {
                self.next();
                self.page.write_str("{\"notation\":");
                self.notation(item);
            }
            Group::Key(_) => {
                self.next();
                self.open();
            }
            Group::Header(name, _) => {
                self.name(name);
                self.open();
            }
            Group::Claims(payload) => {
                self.name("payload");
                self.hex(payload);
                self.name("claims");
                self.open();
            }
        }
        self.page.end()
    }

    fn part(&mut self, name: &'static str, is: PartIs<'_>) -> Done {
        match is {
            PartIs::Missing | PartIs::Wrong | PartIs::More(_) => return Ok(()),
            PartIs::NoKey(_, _) => self.next(),
            PartIs::NoList(_) => write!(self.page, ",\"{name}s\":"),
            _ => self.name(name),
        }
        match is {
            PartIs::Bytes(bytes) | PartIs::Payload(bytes, _) => self.hex(bytes),
            PartIs::Item(item) if is_null(item.bytes()) => self.page.write_str("null"),
            PartIs::NoItem(bytes, _) if bytes.is_empty() => self.page.write_str("[]"),
            PartIs::Item(item)
            | PartIs::NoList(item)
            | PartIs::NoBytes(item)
            | PartIs::NoItem(_, item)
            | PartIs::NoMap(_, item) => self.notation(item),
            _ => self.page.write_str("null"),
        }
        self.page.end()
    }

    /// An entry, with the names that are registered.
    fn entry(&mut self, entry: Entry<'_>) -> Done {
        self.next();
        self.page.write_str("{\"label\":");
        match entry.labels {
            Labels::Key(_) if entry.label.is_hidden() => self.page.write_str("null"),
            _ => self.notation(entry.label),
        }
        if let Some(name) = entry.name() {
            self.word("name", name);
        }
        match entry.value {
            Seen::Item(value) => self.value(entry, value)?,
            Seen::Hidden(Some(len)) => write!(self.page, ",\"length\":{len}"),
            Seen::Hidden(None) => {}
        }
        self.page.write_str("}");
        self.page.end()
    }

    fn end(&mut self, group: Group<'_>) -> Done {
        match group {
            Group::Message(_) => {}
            Group::One(_, _, _) => {
                self.page.write_str("}");
                self.mark = ",";
            }
            _ => self.close(),
        }
        self.page.end()
    }
}
