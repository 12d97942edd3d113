//! Where secrets of keys are. The item is walked over in a loop, and so is what its byte strings
//! hold, and theirs: each byte is read once.
use crate::key_labels::{KeyPart, Label, key_label};
use crate::parts::{is_label, joined};
use crate::signs::{KeyMap, LOWEST, Signs, is_long_as_key, is_open};
use cbor_diag::{
    Event, Fault, LevelKind, NotWritten, Place, Role, Span, Step, View, Walk, Why, content_role,
    head_of, item_len,
};
use ciborium_ll::Header;
use cose_iana::KeyType;
use std::alloc::Global;

/// A key that has a secret takes at least so many bytes.
const LEAST: usize = 5;

/// What has more levels than this isn't looked into, and nothing of it is shown.
const LEVELS: usize = 1024;

/// So many byte strings of open length are looked into, each in the one before.
const STRINGS: usize = 4;

/// What is noted of an end that isn't known yet.
const UNKNOWN: usize = usize::MAX;

/// A map that is open.
#[derive(Debug, Clone, Copy, PartialEq, Eq)]
struct Map {
    /// How many entries were open before it.
    first: usize,
    role: Role,
    /// Whether nothing is around it, or it is the value of an entry.
    is_alone: bool,
    /// Whether it is in an array that may be a key set.
    is_in_set: bool,
}

/// An array that is open and may be a key set.
#[derive(Debug, Clone, Copy, PartialEq, Eq)]
struct Set {
    /// How many levels are open with it, and how many spans are pending before it.
    depth: usize,
    first: usize,
    has_key: bool,
}

/// An entry of a map that is open.
#[derive(Debug, Clone, Copy, PartialEq, Eq)]
struct Entry {
    label: Label,
    /// Where its label begins, where its value does, and where that ends.
    label_at: usize,
    at: usize,
    end: usize,
}

/// The bytes that are searched, or a byte string in them.
#[derive(Debug, Clone, Copy, PartialEq, Eq)]
struct Source {
    /// Where the byte string begins.
    at: usize,
    /// Where its bytes begin and end.
    from: usize,
    to: usize,
    role: Role,
}

/// A byte string of open length: where it begins, and where what it is in ends.
#[derive(Debug, Clone, Copy, PartialEq, Eq)]
struct OpenString {
    at: usize,
    to: usize,
    role: Role,
}

/// A search for secrets.
#[derive(Drop)]
struct Search<'a> {
    bytes: &'a [u8],
    alloc: Global,
    sources: Vec<Source>,
    strings: Vec<OpenString>,
    levels: Vec<Header>,
    maps: Vec<Map>,
    entries: Vec<Entry>,
    sets: Vec<Set>,
    /// What isn't shown if an open array turns out to be a key set.
    pending: Vec<Span>,
    hidden: Vec<Span>,
}

impl<'a> Search<'a> {
    fn new(alloc: Global, bytes: &'a [u8]) -> Search<'a> {
        Search {
            bytes,
            alloc,
            sources: Vec::new(alloc),
            strings: Vec::new(alloc),
            levels: Vec::new(alloc),
            maps: Vec::new(alloc),
            entries: Vec::new(alloc),
            sets: Vec::new(alloc),
            pending: Vec::new(alloc),
            hidden: Vec::new(alloc),
        }
    }

    /// Looks into the bytes, which are this, and all byte strings of stated length in them.
    fn run(&mut self, role: Role) -> Result<(), NotWritten> {
        self.sources.push(Source {
            at: 0,
            from: 0,
            to: self.bytes.len(),
            role,
        })?;
        for number in 0..usize::MAX {
            match self.sources.as_slice().get(number).copied() {
                Some(source) => self.look_into(source)?,
                None => break,
            }
        }
        Ok(())
    }

    /// Walks over the items of a source, up to the first fault.
    fn look_into(&mut self, source: Source) -> Result<(), NotWritten> {
        let bytes = self.bytes;
        let mut from = source.from;
        let mut walk = Walk::over_heads(self.alloc, source.role);
        for _ in 0..u64::MAX {
            let rest = bytes.get(from..source.to).unwrap_or(&[]);
            if rest.is_empty() {
                break;
            }
            match walk.step(rest) {
                Ok(step) => self.tell(source, from, step)?,
                Err(fault) => return self.end_at(source, from, fault),
            }
            if self.levels.len() > LEVELS {
                return self.give_up(source);
            }
            if walk.is_done() {
                from = from.saturating_add(walk.at());
                walk.restart();
            }
        }
        self.break_off(source, source.to)
    }

    /// Ends a source at a fault in the item that begins here.
    fn end_at(&mut self, source: Source, from: usize, fault: Fault) -> Result<(), NotWritten> {
        if fault.why == Why::Memory {
            return Err(NotWritten::Memory);
        }
        let at = from.saturating_add(fault.at);
        self.look_into_cut(source, at)?;
        self.break_off(source, at)
    }

    /// Looks into what is there of a byte string that claims more bytes than are there.
    fn look_into_cut(&mut self, source: Source, at: usize) -> Result<(), NotWritten> {
        if let Ok(head) = head_of(self.item(at, source.to)) {
            if matches!(head.header, Header::Bytes(Some(_))) {
                self.sources.push(Source {
                    at,
                    from: at.saturating_add(head.len),
                    to: source.to,
                    role: Role::Top,
                })?;
            }
        }
        Ok(())
    }

    /// Ends a source that has too many levels: nothing of it is shown.
    fn give_up(&mut self, source: Source) -> Result<(), NotWritten> {
        self.clear();
        self.hide(Span {
            at: source.at,
            end: source.to,
        })
    }

    /// Takes a step over a source whose item begins here.
    fn tell(&mut self, source: Source, from: usize, step: Step) -> Result<(), NotWritten> {
        let at = from.saturating_add(step.at);
        if let Event::End(kind) = step.event {
            return self.end(kind, at);
        }
        self.place(step, at)?;
        match step.event {
            Event::Body(Header::Bytes(_), size) if size >= LEAST && !is_chunk(step.place) => {
                let from = at.saturating_add(step.len);
                self.sources.push(Source {
                    at,
                    from,
                    to: from.saturating_add(size),
                    role: content_role(step.role),
                })?;
            }
            Event::Begin(header) => {
                self.begin(header, step)?;
                self.note_string(source, header, step, at)?;
            }
            _ => {}
        }
        Ok(())
    }

    /// Opens a level.
    fn begin(&mut self, header: Header, step: Step) -> Result<(), NotWritten> {
        let is_alone = matches!(step.place, Place::Top | Place::Value);
        let is_in_set = self.is_in_set(step.place);
        self.levels.push(header)?;
        match header {
            Header::Map(_) => self.maps.push(Map {
                first: self.entries.len(),
                role: step.role,
                is_alone,
                is_in_set,
            })?,
            Header::Array(_) if is_alone => self.sets.push(Set {
                depth: self.levels.len(),
                first: self.pending.len(),
                has_key: false,
            })?,
            _ => {}
        }
        Ok(())
    }

    /// Notes a byte string of open length.
    fn note_string(
        &mut self,
        source: Source,
        header: Header,
        step: Step,
        at: usize,
    ) -> Result<(), NotWritten> {
        if matches!(header, Header::Bytes(_)) && !is_chunk(step.place) {
            self.strings.push(OpenString {
                at,
                to: source.to,
                role: content_role(step.role),
            })?;
        }
        Ok(())
    }

    /// Whether what begins here is right in an array that may be a key set.
    fn is_in_set(&self, place: Place) -> bool {
        match self.sets.last() {
            Some(set) => matches!(place, Place::Element { .. }) && set.depth == self.levels.len(),
            None => false,
        }
    }

    /// Closes a level.
    fn end(&mut self, kind: LevelKind, at: usize) -> Result<(), NotWritten> {
        match kind {
            LevelKind::Map => self.close(at, true)?,
            LevelKind::Array => self.end_set(at)?,
            _ => {}
        }
        let _ = self.levels.pop();
        Ok(())
    }

    /// Ends an array, if it may be a key set.
    fn end_set(&mut self, at: usize) -> Result<(), NotWritten> {
        let Some(set) = self.sets.last().copied() else {
            return Ok(());
        };
        if set.depth != self.levels.len() {
            return Ok(());
        }
        self.end_element(at);
        let _ = self.sets.pop();
        if set.has_key {
            self.hide_pending(set.first)?;
        }
        self.pending.truncate(set.first);
        Ok(())
    }

    fn hide_pending(&mut self, first: usize) -> Result<(), NotWritten> {
        for index in first..self.pending.len() {
            if let Some(span) = self.pending.as_slice().get(index).copied() {
                self.hide(span)?;
            }
        }
        Ok(())
    }

    /// Ends the last pending span, if it has no end.
    fn end_element(&mut self, at: usize) {
        if let Some(span) = self.pending.as_mut_slice().last_mut() {
            if span.end == UNKNOWN {
                span.end = at;
            }
        }
    }

    /// Notes what begins here.
    fn place(&mut self, step: Step, at: usize) -> Result<(), NotWritten> {
        match step.place {
            Place::Key { first } => self.add_entry(first, at),
            Place::Value => {
                if let Some(entry) = self.entries.as_mut_slice().last_mut() {
                    entry.at = at;
                }
                Ok(())
            }
            place => self.add_element(place, step.event, at),
        }
    }

    fn add_entry(&mut self, is_first: bool, at: usize) -> Result<(), NotWritten> {
        if !is_first {
            self.end_value(at);
        }
        self.entries.push(Entry {
            label: Label::of(self.bytes.get(at..).unwrap_or(&[])),
            label_at: at,
            at: UNKNOWN,
            end: UNKNOWN,
        })?;
        Ok(())
    }

    /// Notes an item of an array that may be a key set: what is no map is hidden if it is one.
    fn add_element(&mut self, place: Place, event: Event, at: usize) -> Result<(), NotWritten> {
        if !self.is_in_set(place) {
            return Ok(());
        }
        self.end_element(at);
        if !matches!(event, Event::Begin(Header::Map(_))) {
            self.pending.push(Span { at, end: UNKNOWN })?;
        }
        Ok(())
    }

    /// Ends the value of the last entry.
    fn end_value(&mut self, at: usize) {
        if let Some(entry) = self.entries.as_mut_slice().last_mut() {
            if entry.end == UNKNOWN {
                entry.end = at;
            }
        }
    }

    /// Ends the innermost map, at this place.
    fn close(&mut self, at: usize, is_whole: bool) -> Result<(), NotWritten> {
        let Some(map) = self.maps.pop() else {
            return Ok(());
        };
        if self.entries.len() > map.first {
            self.end_value(at);
        }
        let signs = self.signs_from(map.first);
        if map.role == Role::Header {
            if signs.has_bignum || self.has_private(map.first, signs.kty) {
                self.hide_entries(map, signs.kty, false)?;
            }
        } else if let Some(key) = self.key_of(map, signs, is_whole) {
            self.note_key(map);
            self.hide_entries(map, key.kty, false)?;
        } else if map.is_in_set {
            self.hide_entries(map, signs.kty(), true)?;
        }
        self.entries.truncate(map.first);
        Ok(())
    }

    /// Notes that a map is a key.
    fn note_key(&mut self, map: Map) {
        if map.is_in_set {
            if let Some(set) = self.sets.as_mut_slice().last_mut() {
                set.has_key = true;
            }
        }
    }

    /// What the entries from this one on say.
    fn signs_from(&self, first: usize) -> Signs {
        let mut signs = Signs::new();
        for entry in self.entries_from(first) {
            signs.note(entry.label, self.item(entry.at, entry.end));
        }
        signs
    }

    fn entries_from(&self, first: usize) -> &[Entry] {
        self.entries.as_slice().get(first..).unwrap_or(&[])
    }

    fn item(&self, at: usize, end: usize) -> &'a [u8] {
        let bytes = self.bytes;
        bytes.get(at..end).unwrap_or(&[])
    }

    /// The key that a map is. A key id beside the type is enough if nothing is around the map, if
    /// it is the value of an entry, or in a key set. One that is cut off is a key of unknown type
    /// if a label of types of keys is in it with a byte string as long as a key mostly is.
    fn key_of(&self, map: Map, signs: Signs, is_whole: bool) -> Option<KeyMap> {
        if !is_whole {
            return signs.cut_key(self.has_private_string(map.first));
        }
        if map.is_alone || map.is_in_set || signs.below_zero || signs.has_bignum {
            signs.key()
        } else {
            None
        }
    }

    /// Whether an entry has a label from -256 to -1, and a byte string as long as a key mostly is.
    fn has_private_string(&self, first: usize) -> bool {
        for entry in self.entries_from(first) {
            let is_of_type = matches!(entry.label, Label::Number(LOWEST..=-1));
            if is_of_type && is_long_as_key(self.item(entry.at, entry.end)) {
                return true;
            }
        }
        false
    }

    /// Whether an entry of a header is a secret by name in a key of this type: then it is a key.
    fn has_private(&self, first: usize, kty: Option<KeyType>) -> bool {
        for entry in self.entries_from(first) {
            let known = key_label(kty, entry.label.number());
            if known.name.is_some() && known.part == KeyPart::Secret {
                return true;
            }
        }
        false
    }

    /// Hides what isn't known to be public in a map that is a key of this type, or may be one.
    fn hide_entries(
        &mut self,
        map: Map,
        kty: Option<KeyType>,
        is_pending: bool,
    ) -> Result<(), NotWritten> {
        for index in map.first..self.entries.len() {
            if let Some(entry) = self.entries.as_slice().get(index).copied() {
                self.hide_entry(entry, kty, is_pending)?;
            }
        }
        Ok(())
    }

    fn hide_entry(
        &mut self,
        entry: Entry,
        kty: Option<KeyType>,
        is_pending: bool,
    ) -> Result<(), NotWritten> {
        let label = Span {
            at: entry.label_at,
            end: entry.at,
        };
        let value = Span {
            at: entry.at,
            end: entry.end,
        };
        if entry.label == Label::Other && !is_label(self.item(label.at, label.end)) {
            self.hide_now_or_if(label, is_pending)?;
        }
        let known = key_label(kty, entry.label.number());
        if !is_open(self.alloc, known.part, self.item(value.at, value.end))? {
            self.hide_now_or_if(value, is_pending)?;
        }
        Ok(())
    }

    /// Hides an item, or notes that it is hidden if the array around it is a key set.
    fn hide_now_or_if(&mut self, span: Span, is_pending: bool) -> Result<(), NotWritten> {
        if is_pending {
            self.pending.push(span)?;
            return Ok(());
        }
        self.hide(span)
    }

    fn hide(&mut self, span: Span) -> Result<(), NotWritten> {
        self.hidden.push(span)?;
        Ok(())
    }

    /// Ends the levels that are still open where a source ends, or has a fault.
    fn break_off(&mut self, source: Source, at: usize) -> Result<(), NotWritten> {
        for _ in 0..self.levels.len() {
            let Some(level) = self.levels.last().copied() else {
                break;
            };
            self.begin_value(at);
            match level {
                Header::Map(_) => self.close(source.to, false)?,
                Header::Array(_) => self.end_set(source.to)?,
                _ => {}
            }
            let _ = self.levels.pop();
        }
        self.clear();
        Ok(())
    }

    /// The last entry's value begins here, if it has none.
    fn begin_value(&mut self, at: usize) {
        if let Some(entry) = self.entries.as_mut_slice().last_mut() {
            if entry.at == UNKNOWN {
                entry.at = at;
            }
        }
    }

    /// Nothing is open.
    fn clear(&mut self) {
        self.levels.clear();
        self.maps.clear();
        self.sets.clear();
        self.entries.clear();
        self.pending.clear();
    }

    /// Looks into the byte strings of open length. One that holds anything that isn't shown isn't
    /// shown as a whole.
    fn look_into_strings(&mut self) -> Result<(), NotWritten> {
        for index in 0..self.strings.len() {
            let Some(string) = self.strings.as_slice().get(index).copied() else {
                break;
            };
            let held = self.held_in(string)?;
            if has_secret(self.alloc, held)? {
                let end = self.end_of(string)?;
                self.hide(Span { at: string.at, end })?;
            }
        }
        Ok(())
    }

    /// What such a string holds.
    fn held_in(&self, string: OpenString) -> Result<Held, NotWritten> {
        let item = View::open(self.item(string.at, string.to));
        let mut bytes = Vec::new(self.alloc);
        bytes.extend_from_slice(joined(self.alloc, item)?.view().bytes())?;
        Ok(Held {
            bytes,
            role: string.role,
        })
    }

    /// Where such a string ends.
    fn end_of(&self, string: OpenString) -> Result<usize, NotWritten> {
        match item_len(self.alloc, self.item(string.at, string.to)) {
            Ok(len) => Ok(string.at.saturating_add(len)),
            Err(fault) if fault.why == Why::Memory => Err(NotWritten::Memory),
            Err(_) => Ok(string.to),
        }
    }
}

/// The pieces of a byte string of open length put together, and what they may be.
#[derive(Drop)]
struct Held {
    bytes: Vec<u8>,
    role: Role,
}

/// Whether a byte string of open length holds a secret, or more such strings in one another than
/// are looked into.
fn has_secret(alloc: Global, held: Held) -> Result<bool, NotWritten> {
    let mut all = Vec::new(alloc);
    all.push(held)?;
    for _ in 0..STRINGS {
        let mut inner = Vec::new(alloc);
        for held in all.iter() {
            if add_strings(alloc, held, &mut inner)? {
                return Ok(true);
            }
        }
        if inner.is_empty() {
            return Ok(false);
        }
        all = inner;
    }
    Ok(true)
}

/// Whether a secret is in these bytes. Adds what byte strings of open length in them hold.
fn add_strings(alloc: Global, held: &Held, inner: &mut Vec<Held>) -> Result<bool, NotWritten> {
    let mut search = Search::new(alloc, held.bytes.as_slice());
    search.run(held.role)?;
    for string in search.strings.as_slice() {
        inner.push(search.held_in(*string)?)?;
    }
    Ok(!search.hidden.is_empty())
}

fn is_chunk(place: Place) -> bool {
    matches!(place, Place::Chunk { .. })
}

/// Where the items are that aren't shown, in rising order, and apart from one another.
///
/// # Errors
/// `Memory`.
pub fn spans_of(alloc: Global, bytes: &[u8]) -> Result<Vec<Span>, NotWritten> {
    let mut search = Search::new(alloc, bytes);
    search.run(Role::Top)?;
    search.look_into_strings()?;
    let mut hidden = search.hidden;
    hidden.as_mut_slice().sort_unstable_by_key(|span| span.at);
    let mut apart = Vec::new(alloc);
    for span in hidden.as_slice() {
        add_span(&mut apart, *span)?;
    }
    Ok(apart)
}

/// Adds a span that doesn't begin before the last one, or makes that one longer.
fn add_span(apart: &mut Vec<Span>, span: Span) -> Result<(), NotWritten> {
    match apart.as_mut_slice().last_mut() {
        Some(last) if span.at < last.end => last.end = last.end.max(span.end),
        _ if span.at < span.end => apart.push(span)?,
        _ => {}
    }
    Ok(())
}
