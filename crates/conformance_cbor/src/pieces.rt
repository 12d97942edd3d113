//! Strings that are read in pieces.
use crate::notation::note_digits;
use ciborium_ll::{Bytes, Decoder, End, Error, Header, Segment, Segments, StringKind, Text};
use test_tools::{NoAnswer, Out};

/// More segments and more pieces than any row has.
const MANY: usize = 64;

/// How the byte string comes to a buffer with so much space, where the decoder is then, and what it
/// pulls there.
pub fn of_bytes(to: &mut Out, bytes: &[u8], room: usize) {
    let mut decoder = Decoder::from(bytes);
    match decoder.pull() {
        Ok(Header::Bytes(len)) => tell_string(to, &mut decoder.bytes(len), room),
        _ => to.refuse(NoAnswer::NotItem),
    }
    behind(to, &mut decoder);
}

/// The same of a text.
pub fn of_text(to: &mut Out, bytes: &[u8], room: usize) {
    let mut decoder = Decoder::from(bytes);
    match decoder.pull() {
        Ok(Header::Text(len)) => tell_string(to, &mut decoder.text(len), room),
        _ => to.refuse(NoAnswer::NotItem),
    }
    behind(to, &mut decoder);
}

/// The place of the decoder, and what it pulls there.
fn behind(to: &mut Out, decoder: &mut Decoder<&[u8]>) {
    to.text("at ");
    to.show(&decoder.offset());
    to.text(", ");
    match decoder.pull() {
        Ok(header) => to.debug(&header),
        Err(error) => to.show(&error),
    }
}

/// A kind of string whose pieces are told.
trait Told: StringKind {
    /// Pulls a piece and tells it, or that there are no more, or why. Whether there was one that is
    /// not empty.
    fn tell(to: &mut Out, segment: &mut Segment<'_, '_, &[u8], Self>, buffer: &mut [u8]) -> bool;
}

impl Told for Bytes {
    fn tell(to: &mut Out, segment: &mut Segment<'_, '_, &[u8], Bytes>, buffer: &mut [u8]) -> bool {
        match segment.pull(buffer) {
            Ok(Some(piece)) => {
                note_digits(to, "h'", piece);
                !piece.is_empty()
            }
            other => tell_end(to, other.err()),
        }
    }
}

impl Told for Text {
    fn tell(to: &mut Out, segment: &mut Segment<'_, '_, &[u8], Text>, buffer: &mut [u8]) -> bool {
        match segment.pull(buffer) {
            Ok(Some(piece)) => {
                to.debug(&piece);
                !piece.is_empty()
            }
            other => tell_end(to, other.err()),
        }
    }
}

/// Tells that there are no more, or why.
fn tell_end(to: &mut Out, fault: Option<Error<End>>) -> bool {
    match fault {
        Some(error) => to.show(&error),
        None => to.text("none"),
    }
    false
}

/// Each segment, and twice that there are no more or why.
fn tell_string<P: Told>(to: &mut Out, segments: &mut Segments<'_, &[u8], P>, room: usize) {
    for _ in 0..MANY {
        if !tell_segment(to, segments, room) {
            break;
        }
    }
    let _again = tell_segment(to, segments, room);
}

/// Whether there was a segment. It is in brackets: its length, its pieces, and twice that there
/// are no more or why.
fn tell_segment<P: Told>(to: &mut Out, segments: &mut Segments<'_, &[u8], P>, room: usize) -> bool {
    let is_segment = match segments.pull() {
        Ok(Some(mut segment)) => {
            tell_pieces(to, &mut segment, room);
            true
        }
        Ok(None) => tell_end(to, None),
        Err(error) => tell_end(to, Some(error)),
    };
    to.text(" ");
    is_segment
}

fn tell_pieces<P: Told>(to: &mut Out, segment: &mut Segment<'_, '_, &[u8], P>, room: usize) {
    to.text("[");
    to.show(&segment.left());
    for _ in 0..MANY {
        if !tell_piece(to, segment, room) {
            break;
        }
    }
    let _again = tell_piece(to, segment, room);
    to.text("]");
}

/// Whether there was a piece that is not empty. It is after a comma, with what is left of the
/// segment.
fn tell_piece<P: Told>(to: &mut Out, segment: &mut Segment<'_, '_, &[u8], P>, room: usize) -> bool {
    let mut buffer = [0u8; 8];
    to.text(", ");
    let is_piece = P::tell(to, segment, &mut buffer[..room.min(8)]);
    to.text(" ");
    to.show(&segment.left());
    is_piece
}
