//! The parts of an item, as slices of its bytes.
use cbor_diag::{Event, NotWritten, Place, Span, Step, View, Walk, Why, head_of, item_len};
use ciborium_ll::Header;
use std::alloc::Global;

/// The items of an array, or the keys and values of a map, one after another.
#[derive(Drop)]
pub struct Members<'a> {
    alloc: Global,
    rest: View<'a>,
    left: usize,
}

impl<'a> Members<'a> {
    /// The next item, key or value; none after the last, and none of bytes that are cut.
    ///
    /// # Errors
    /// `Memory`.
    pub fn next(&mut self) -> Result<Option<View<'a>>, NotWritten> {
        if self.left == 0 {
            return Ok(None);
        }
        let len = match item_len(self.alloc, self.rest.bytes()) {
            Ok(len) => len,
            Err(fault) if fault.why == Why::Memory => return Err(NotWritten::Memory),
            Err(_) => 0,
        };
        if len == 0 {
            self.left = 0;
            return Ok(None);
        }
        let front = self.rest.front(len);
        self.left = self.left.saturating_sub(1);
        self.rest = self.rest.behind(len);
        Ok(Some(front))
    }
}

/// The bytes from a place on.
pub fn behind(bytes: &[u8], at: usize) -> &[u8] {
    bytes.get(at..).unwrap_or(&[])
}

/// The head that an item begins with.
pub fn header_of(item: &[u8]) -> Option<Header> {
    Some(head_of(item).ok()?.header)
}

/// The items of an array.
pub fn items(alloc: Global, item: View<'_>) -> Option<Members<'_>> {
    let head = head_of(item.bytes()).ok()?;
    match head.header {
        Header::Array(count) => Some(Members {
            alloc,
            rest: item.behind(head.len),
            left: count.unwrap_or(usize::MAX),
        }),
        _ => None,
    }
}

/// The keys and values of a map, in turns.
pub fn entries(alloc: Global, item: View<'_>) -> Option<Members<'_>> {
    let head = head_of(item.bytes()).ok()?;
    match head.header {
        Header::Map(count) => Some(Members {
            alloc,
            rest: item.behind(head.len),
            left: count.map_or(usize::MAX, |count| count.saturating_mul(2)),
        }),
        _ => None,
    }
}

/// What a tag is around.
pub fn tagged(item: View<'_>) -> Option<(u64, View<'_>)> {
    let head = head_of(item.bytes()).ok()?;
    match head.header {
        Header::Tag(number) => Some((number, item.behind(head.len))),
        _ => None,
    }
}

/// An integer that an item is, if it is small.
pub fn integer(item: &[u8]) -> Option<i64> {
    match header_of(item) {
        Some(Header::Positive(n)) => i64::try_from(n).ok(),
        Some(Header::Negative(n)) => Some((-1i64).wrapping_sub(i64::try_from(n).ok()?)),
        _ => None,
    }
}

/// Whether an item is a byte string.
pub fn is_bytes(item: &[u8]) -> bool {
    matches!(header_of(item), Some(Header::Bytes(_)))
}

/// Whether an item may be a label: a number or a text.
pub fn is_label(item: &[u8]) -> bool {
    match header_of(item) {
        Some(Header::Positive(_)) => true,
        Some(Header::Negative(_)) => true,
        Some(Header::Text(_)) => true,
        _ => false,
    }
}

/// Whether an item is an array of numbers and texts.
///
/// # Errors
/// `Memory`.
pub fn are_labels(alloc: Global, item: &[u8]) -> Result<bool, NotWritten> {
    if !matches!(header_of(item), Some(Header::Array(_))) {
        return Ok(false);
    }
    let mut walk = Walk::new(alloc);
    for _ in 0..u64::MAX {
        let step = match walk.step(item) {
            Ok(step) => step,
            Err(fault) if fault.why == Why::Memory => return Err(NotWritten::Memory),
            Err(_) => return Ok(false),
        };
        if !is_of_labels(step) {
            return Ok(false);
        }
        if walk.is_done() {
            break;
        }
    }
    Ok(true)
}

/// Whether an array of numbers and texts has such a step.
fn is_of_labels(step: Step) -> bool {
    match step.event {
        Event::Begin(Header::Array(_)) => step.place == Place::Top,
        Event::Begin(Header::Text(_)) => true,
        Event::Body(Header::Text(_), _) => true,
        Event::Leaf(Header::Positive(_) | Header::Negative(_)) => true,
        Event::End(_) => true,
        _ => false,
    }
}

/// Whether bytes are one item.
///
/// # Errors
/// `Memory`.
pub fn is_one_item(alloc: Global, bytes: View<'_>) -> Result<bool, NotWritten> {
    match item_len(alloc, bytes.bytes()) {
        Ok(len) => Ok(len == bytes.len()),
        Err(fault) if fault.why == Why::Memory => Err(NotWritten::Memory),
        Err(_) => Ok(false),
    }
}

/// Whether an item is null.
pub fn is_null(item: &[u8]) -> bool {
    matches!(header_of(item), Some(Header::Simple(22)))
}

/// What a string says.
#[derive(Drop)]
pub enum Content<'a> {
    /// A part of the bytes.
    Part(View<'a>),
    /// Its pieces joined, in which nothing is hidden, or all.
    Joined(Vec<u8>, Option<Span>),
}

impl Content<'_> {
    /// What may be shown.
    pub fn view(&self) -> View<'_> {
        match self {
            Content::Part(view) => *view,
            Content::Joined(bytes, None) => View::open(bytes.as_slice()),
            Content::Joined(bytes, Some(span)) => {
                View::new(bytes.as_slice(), std::slice::from_ref(span))
            }
        }
    }
}

/// The bytes of a string, its pieces joined; of a damaged one those of the pieces in front of the
/// fault.
///
/// # Errors
/// `Memory`.
pub fn joined(alloc: Global, item: View<'_>) -> Result<Content<'_>, NotWritten> {
    if let Ok(head) = head_of(item.bytes()) {
        if let Header::Bytes(Some(size)) = head.header {
            return Ok(Content::Part(item.behind(head.len).front(size)));
        }
    }
    let mut bytes = Vec::new(alloc);
    let mut walk = Walk::new(alloc);
    for _ in 0..u64::MAX {
        let step = match walk.step(item.bytes()) {
            Ok(step) => step,
            Err(fault) if fault.why == Why::Memory => return Err(NotWritten::Memory),
            Err(_) => break,
        };
        if let Event::Body(_, size) = step.event {
            let rest = behind(item.bytes(), step.at.saturating_add(step.len));
            bytes.extend_from_slice(rest.get(..size).unwrap_or(rest))?;
        }
        if walk.is_done() {
            break;
        }
    }
    let hidden = if item.holds_hidden() {
        Some(Span {
            at: 0,
            end: usize::MAX,
        })
    } else {
        None
    };
    Ok(Content::Joined(bytes, hidden))
}
