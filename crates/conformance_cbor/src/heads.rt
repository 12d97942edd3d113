//! Heads, strings that are written, and copies to shortest titles.
use ciborium_ll::{Bytes, Decoder, Encoder, Full, Header, Mem, StringKind, Text, Write, recode};
use test_tools::{NoAnswer, Out};

/// Each header with the offset after it, and at last the fault with the offset there.
pub fn pulled(to: &mut Out, bytes: &[u8]) {
    let mut decoder = Decoder::from(bytes);
    for _ in 0..bytes.len() {
        if !tell_header(to, &mut decoder) {
            return;
        }
    }
    if tell_header(to, &mut decoder) {
        to.refuse(NoAnswer::NotItem);
    }
}

/// Whether there was a header.
fn tell_header(to: &mut Out, decoder: &mut Decoder<&[u8]>) -> bool {
    match decoder.pull() {
        Ok(header) => {
            to.debug(&header);
            to.text(" ");
            to.show(&decoder.offset());
            to.text(", ");
            true
        }
        Err(error) => {
            to.show(&error);
            to.text(" ");
            to.show(&decoder.offset());
            false
        }
    }
}

/// Whether the title of the first header is the shortest of that header.
pub fn shortest(to: &mut Out, bytes: &[u8]) {
    let mut decoder = Decoder::from(bytes);
    match decoder.pull() {
        Ok(_) => to.show(&decoder.was_shortest()),
        Err(error) => to.failure(&error),
    }
}

/// The title of the first header as it is written, and its length.
pub fn pushed(to: &mut Out, bytes: &[u8]) {
    let mut decoder = Decoder::from(bytes);
    match decoder.pull() {
        Ok(header) => title(to, header),
        Err(error) => to.failure(&error),
    }
}

/// The title as a slice with space for nine bytes takes it. A vector takes it first.
fn title(to: &mut Out, header: Header) {
    let mut encoder = Encoder::from(Mem::new(Vec::new(to.alloc())));
    if encoder.push(header).is_err() {
        to.refuse(NoAnswer::Memory);
    }
    let mut room = [0u8; 9];
    let mut out = Mem::new(&mut room[..]);
    match pushed_and_flushed(&mut out, header) {
        Ok(()) => {
            to.hex(out.as_written());
            to.text(" length ");
            to.show(&header.title_len());
        }
        Err(full) => to.failure(&full),
    }
}

fn pushed_and_flushed(out: &mut Mem<&mut [u8]>, header: Header) -> Result<(), Full> {
    let mut encoder = Encoder::from(out);
    encoder.push(header)?;
    encoder.flush()
}

/// The header that this kind of string makes of the length in the first header, or `none` if that
/// is of another kind.
pub fn string_head(to: &mut Out, kind: &str, bytes: &[u8]) {
    let mut decoder = Decoder::from(bytes);
    match (decoder.pull(), kind) {
        (Ok(header), "bytes") => head_of::<Bytes>(to, header),
        (Ok(header), "text") => head_of::<Text>(to, header),
        (Ok(_), _) => to.refuse(NoAnswer::NoCall),
        (Err(error), _) => to.failure(&error),
    }
}

fn head_of<P: StringKind>(to: &mut Out, header: Header) {
    match P::len_of(header) {
        None => to.text("none"),
        Some(len) => {
            to.debug(&P::header(len));
            to.text(" of length ");
            to.debug(&len);
        }
    }
}

/// The limit of pieces that an argument is. `-` stands for none.
fn limit(to: &mut Out, word: &str) -> Option<usize> {
    if word == "-" {
        return None;
    }
    Some(to.number(word))
}

/// These bytes as they are written as a byte string, in pieces of at most the limit.
pub fn byte_string(to: &mut Out, most: &str, bytes: &[u8]) {
    let limit = limit(to, most);
    let mut out = Mem::new(Vec::new(to.alloc()));
    if Encoder::from(&mut out).bytes(bytes, limit).is_err() {
        to.refuse(NoAnswer::Memory);
    }
    to.hex(out.as_written());
}

/// The text of these bytes as it is written as a text string, in pieces of at most the limit.
pub fn text_string(to: &mut Out, most: &str, bytes: &[u8]) {
    match std::str::from_utf8(bytes) {
        Ok(text) => written_text(to, most, text),
        Err(_) => to.refuse(NoAnswer::NotItem),
    }
}

fn written_text(to: &mut Out, most: &str, text: &str) {
    let limit = limit(to, most);
    let mut out = Mem::new(Vec::new(to.alloc()));
    if Encoder::from(&mut out).text(text, limit).is_err() {
        to.refuse(NoAnswer::Memory);
    }
    to.hex(out.as_written());
}

/// The copy of so many heads and strings, and how many bytes they took.
pub fn recoded(to: &mut Out, bytes: &[u8], count: usize) {
    let mut decoder = Decoder::from(bytes);
    let mut out = Mem::new(Vec::new(to.alloc()));
    let mut encoder = Encoder::from(&mut out);
    let mut buffer = [0u8; 4];
    match recode(&mut decoder, &mut encoder, count, &mut buffer) {
        Ok(()) => {
            to.hex(out.as_written());
            to.text(" taken ");
            to.show(&decoder.offset());
        }
        Err(error) => to.failure(&error),
    }
}
