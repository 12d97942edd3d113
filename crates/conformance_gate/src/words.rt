//! Arguments of a row's call, each taken from the front of the row.
use crate::out::{NoAnswer, Out};
use cose_gate::Limits;

/// The next argument.
pub fn word<'a>(to: &mut Out, row: &mut &'a str) -> &'a str {
    if row.is_empty() {
        to.refuse(NoAnswer::NoCall);
    }
    match row.split_once(' ') {
        Some((word, rest)) => {
            *row = rest;
            word
        }
        None => rest(row),
    }
}

/// All arguments that are left.
pub fn rest<'a>(row: &mut &'a str) -> &'a str {
    let rest = *row;
    *row = "";
    rest
}

/// The bytes that the next argument is.
pub fn bytes(to: &mut Out, row: &mut &str) -> Vec<u8> {
    let word = word(to, row);
    to.bytes(word)
}

/// The bytes that the next argument is. `none` is no bytes at all.
pub fn optional(to: &mut Out, row: &mut &str) -> Option<Vec<u8>> {
    let word = word(to, row);
    if word == "none" {
        return None;
    }
    Some(to.bytes(word))
}

/// The bytes that the last argument is, if there is one.
pub fn last(to: &mut Out, row: &mut &str) -> Option<Vec<u8>> {
    if row.is_empty() {
        return None;
    }
    Some(bytes(to, row))
}

/// The number that the next argument is.
pub fn number(to: &mut Out, row: &mut &str) -> usize {
    let word = word(to, row);
    to.number(word)
}

/// The limits that the next two arguments are.
pub fn limits(to: &mut Out, row: &mut &str) -> Limits {
    let nesting = number(to, row);
    let layers = number(to, row);
    match Limits::new(nesting, layers) {
        Some(limits) => limits,
        None => {
            to.refuse(NoAnswer::NoArgument);
            Limits::default()
        }
    }
}

/// All arguments that are left, as those of a command line.
pub fn owned(to: &mut Out, row: &mut &str) -> Vec<String> {
    let mut owned = Vec::new(to.alloc());
    for word in rest(row).split(' ') {
        if !word.is_empty() {
            add(to, &mut owned, word);
        }
    }
    owned
}

fn add(to: &mut Out, owned: &mut Vec<String>, word: &str) {
    let word = String::from_str(to.alloc(), word);
    if let Some(word) = to.kept(word) {
        if owned.push(word).is_err() {
            to.refuse(NoAnswer::Memory);
        }
    }
}
