//! What `cose-show` shows, and where it cuts.
use crate::out::{NoAnswer, Out};
use crate::words;
use cose_show_core::{Cutter, Options, Stop, Words, read_words, show_as};
use std::io::BufReader;

/// What is shown of an input with these arguments of a command line: the status, the text with a
/// `|` for each line feed, and why it ended early. Of the help, or the version, the first line.
pub fn show(to: &mut Out, row: &mut &str) {
    let input = words::bytes(to, row);
    let all = words::owned(to, row);
    match read_words(all.as_slice()) {
        Ok(Words::Run(options)) => {
            let keys = keys_of(to, options);
            add_page(to, options, keys.as_deref(), input.as_slice());
        }
        Ok(Words::Text(text)) => to.text(text.lines().next().unwrap_or_default()),
        Err(_) => to.text("usage"),
    }
}

/// The bytes of KEYS, whose name is those bytes in hex here.
fn keys_of(to: &mut Out, options: Options<'_>) -> Option<Vec<u8>> {
    match options.keys {
        Some(word) => Some(to.bytes(word)),
        None => None,
    }
}

fn add_page(to: &mut Out, options: Options<'_>, keys: Option<&[u8]>, input: &[u8]) {
    let mut page = String::new(to.alloc());
    match BufReader::with_capacity(to.alloc(), 16, input) {
        Ok(input) => {
            match show_as(to.alloc(), options, keys, input, &mut page) {
                Ok(Some(number)) => add_unreached(to, page.as_str(), number),
                Ok(None) => add_ended(to, page.as_str(), Ok(())),
                Err(stop) => add_ended(to, page.as_str(), Err(stop)),
            }
        }
        Err(_) => to.refuse(NoAnswer::Memory),
    }
}

/// Appends the status, a text, and the number of the item at which the gate stops.
fn add_unreached(to: &mut Out, text: &str, number: u64) {
    to.text("4; ");
    to.lines(text);
    to.text("; the gate stops at item ");
    to.show(&number);
}

/// Appends the status, a text (`-` for none), and why it ended early.
fn add_ended(to: &mut Out, text: &str, end: Result<(), Stop>) {
    match end {
        Ok(()) => to.text("0; "),
        Err(stop) => {
            to.show(&stop.status());
            to.text("; ");
        }
    }
    to.lines(if text.is_empty() { "-" } else { text });
    if let Err(stop) = end {
        to.text("; ");
        to.show(&stop);
    }
}

/// The pieces of an input that comes in blocks, each but the last of this size at least, parted by
/// spaces; and how it ended.
pub fn pieces(to: &mut Out, row: &mut &str) {
    let size = words::number(to, row);
    let block = words::number(to, row);
    let input = words::bytes(to, row);
    if block == 0 {
        to.refuse(NoAnswer::NoArgument);
    }
    let mut cutter = Cutter::new(to.alloc(), size);
    let mut pieces = Out::new(to.alloc());
    let end = cut(&mut pieces, &mut cutter, block, &input);
    to.refuse_as(&pieces);
    add_ended(to, pieces.as_str(), end);
}

/// Cuts an input that comes in blocks, and appends its pieces.
fn cut(to: &mut Out, cutter: &mut Cutter, block: usize, input: &[u8]) -> Result<(), Stop> {
    let (mut from, mut at) = (0_usize, 0_usize);
    for _ in 0..input.len() {
        let rest = input.get(at..).unwrap_or(&[]);
        let share = cutter.take(rest.get(..block).unwrap_or(rest))?;
        at = at.saturating_add(share.len);
        if share.ends {
            add_piece(to, input.get(from..at).unwrap_or(&[]));
            from = at;
        }
    }
    add_piece(to, input.get(from..).unwrap_or(&[]));
    cutter.end()
}

/// Appends a piece, if it has bytes.
fn add_piece(to: &mut Out, piece: &[u8]) {
    if !piece.is_empty() {
        to.apart(" ");
        to.digits(piece);
    }
}
