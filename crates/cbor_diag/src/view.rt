//! Bytes of which some aren't shown.

/// Where an item is that isn't shown.
#[derive(Debug, Clone, Copy, PartialEq, Eq)]
pub struct Span {
    /// Where it begins.
    pub at: usize,
    /// Where it ends.
    pub end: usize,
}

/// A part of bytes of which some items aren't shown. Those are blank here: they have their heads,
/// and zeros in place of what they say.
#[derive(Debug, Clone, Copy)]
pub struct View<'a> {
    bytes: &'a [u8],
    /// Where the part begins in the bytes that the spans are of.
    at: usize,
    /// In rising order, and apart from one another.
    hidden: &'a [Span],
}

impl<'a> View<'a> {
    /// All of these bytes, with these items blank.
    pub fn new(bytes: &'a [u8], hidden: &'a [Span]) -> View<'a> {
        View {
            bytes,
            at: 0,
            hidden,
        }
    }

    /// All of these bytes, which may be shown.
    pub fn open(bytes: &'a [u8]) -> View<'a> {
        View::new(bytes, &[])
    }

    /// The bytes.
    pub fn bytes(self) -> &'a [u8] {
        self.bytes
    }

    /// How many there are.
    pub fn len(self) -> usize {
        self.bytes.len()
    }

    /// Whether there is none.
    pub fn is_empty(self) -> bool {
        self.bytes.is_empty()
    }

    /// Those from a place on.
    pub fn behind(self, at: usize) -> View<'a> {
        View {
            bytes: self.bytes.get(at..).unwrap_or(&[]),
            at: self.at.saturating_add(at),
            hidden: self.hidden,
        }
    }

    /// So many of them, or all.
    pub fn front(self, len: usize) -> View<'a> {
        View {
            bytes: self.bytes.get(..len).unwrap_or(self.bytes),
            at: self.at,
            hidden: self.hidden,
        }
    }

    /// Whether the item that they begin with isn't shown.
    pub fn is_hidden(self) -> bool {
        match self.next_hidden() {
            Some(span) => span.at <= self.at,
            None => false,
        }
    }

    /// Whether an item in them isn't shown.
    pub fn holds_hidden(self) -> bool {
        match self.next_hidden() {
            Some(span) => span.at < self.at.saturating_add(self.bytes.len()),
            None => false,
        }
    }

    /// The first span that ends after the place where they begin.
    fn next_hidden(self) -> Option<Span> {
        let mut low = 0usize;
        let mut high = self.hidden.len();
        for _ in 0..64u32 {
            if low >= high {
                break;
            }
            let mid = low.wrapping_add(high.wrapping_sub(low) / 2);
            match self.hidden.get(mid) {
                Some(span) if span.end <= self.at => low = mid.wrapping_add(1),
                _ => high = mid,
            }
        }
        self.hidden.get(low).copied()
    }
}
