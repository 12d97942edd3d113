//! The orders of labels.
ghost use Rattle.std.specs.Prelude.{◌≡◌};
ghost use Rattle.ciborium_value.specs.Tree.{integer, text};
ghost use Rattle.ciborium_value.specs.Canonical.{text_cmp};
ghost use Rattle.ciborium_value.specs.Facts.Heads.{place, number};

use std::cmp::Ordering;

/// The orders of encodings that maps of CBOR may be sorted by.
#[derive(Debug, Clone, Copy, PartialEq, Eq)]
pub enum CborOrdering {
    /// Byte by byte (RFC 8949, section 4.2.1).
    Lexicographic,
    /// The shorter encoding first, and then byte by byte (RFC 8949, section 4.2.3).
    LengthFirstLexicographic,
}

/// The place of an integer's head among heads, and its number.
pub(crate) fn integer_title(i: i64) -> (u8, u64)
    ensures place { result.0 ≡ place (integer i) }
    ensures number { result.1 ≡ number (integer i) }
{
    if i < 0 {
        (1, (-1 - i) as u64)
    } else {
        (0, i as u64)
    }
}

/// The order of the encodings of two integers.
pub(crate) fn cmp_integers(a: i64, b: i64) -> Ordering
    ensures { result ≡ text_cmp (integer a) (integer b) }
{
    let (a_place, a_number) = integer_title(a);
    let (b_place, b_number) = integer_title(b);
    a_place.cmp(&b_place).then(a_number.cmp(&b_number))
}

/// The order of the encodings of two texts.
pub(crate) fn cmp_texts(a: &str, b: &str) -> Ordering
    ensures { result ≡ text_cmp (text a.now) (text b.now) }
{
    a.len().cmp(&b.len()).then(a.cmp(b))
}

/// The order of the encodings of an integer and a text: each integer is before each text.
pub(crate) fn cmp_integer_text(i: i64, s: &str) -> Ordering
    ensures less { result ≡ text_cmp (integer i) (text s.now) }
{
    let (place, number) = integer_title(i);
    place.cmp(&3).then(number.cmp(&(s.len() as u64)))
}

/// The order of the encodings of a text and an integer.
pub(crate) fn cmp_text_integer(s: &str, i: i64) -> Ordering
    ensures greater { result ≡ text_cmp (text s.now) (integer i) }
{
    let (place, number) = integer_title(i);
    3.cmp(&place).then((s.len() as u64).cmp(&number))
}
