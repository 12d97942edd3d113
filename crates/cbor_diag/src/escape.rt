//! Text between quotes.
use crate::page::Page;
use std::fmt;

/// Whether a character could forge what is shown: a control, a mark of direction, or a break of the
/// line.
fn is_unsafe(c: char) -> bool {
    matches!(
        c,
        '\u{0}'..='\u{1f}'
            | '\u{7f}'..='\u{9f}'
            | '\u{61c}'
            | '\u{200b}'..='\u{200f}'
            | '\u{2028}'..='\u{202e}'
            | '\u{2060}'..='\u{206f}'
            | '\u{feff}'
            | '\u{fff9}'..='\u{fffb}'
    )
}

/// Whether a character isn't seen: those that Unicode calls ignorable by default and `is_unsafe`
/// leaves out, such as the tags that can spell a hidden text.
fn is_unseen(c: char) -> bool {
    matches!(
        c,
        '\u{ad}'
            | '\u{34f}'
            | '\u{115f}'..='\u{1160}'
            | '\u{17b4}'..='\u{17b5}'
            | '\u{180b}'..='\u{180f}'
            | '\u{3164}'
            | '\u{fe00}'..='\u{fe0f}'
            | '\u{ffa0}'
            | '\u{fff0}'..='\u{fff8}'
            | '\u{1bca0}'..='\u{1bca3}'
            | '\u{1d173}'..='\u{1d17a}'
            | '\u{e0000}'..='\u{e0fff}'
    )
}

/// Writes a text between quotes. Quotes, backslashes, control characters, marks of direction,
/// breaks of the line and characters that aren't seen are escaped as in JSON; with `ascii` each
/// character past U+007E too.
pub fn write_text<W: fmt::Write>(text: &str, ascii: bool, page: &mut Page<'_, W>) {
    page.write_str("\"");
    for c in text.chars() {
        write_char(c, ascii, page);
    }
    page.write_str("\"");
}

/// Writes a character as `write_text` does.
pub fn write_char<W: fmt::Write>(c: char, ascii: bool, page: &mut Page<'_, W>) {
    match c {
        '"' => page.write_str("\\\""),
        '\\' => page.write_str("\\\\"),
        '\n' => page.write_str("\\n"),
        '\r' => page.write_str("\\r"),
        '\t' => page.write_str("\\t"),
        _ if is_unsafe(c) || is_unseen(c) || (ascii && c > '~') => write_units(c, page),
        _ => page.write_char(c),
    }
}

/// Writes a character by its UTF-16 units.
fn write_units<W: fmt::Write>(c: char, page: &mut Page<'_, W>) {
    let mut units = [0u16; 2];
    for unit in c.encode_utf16(&mut units).iter() {
        write!(page, "\\u{:04x}", *unit);
    }
}
