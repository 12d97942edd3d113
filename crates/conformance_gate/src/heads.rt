//! Heads.
use crate::out::{NoAnswer, Out};
use crate::words;
use cose_gate::Mem;

/// The first head.
pub fn first(to: &mut Out, row: &mut &str) {
    let input = words::bytes(to, row);
    match callers::heads::first_head(&input) {
        Ok(head) => to.debug(&head),
        Err(error) => to.debug(&error),
    }
}

/// The length that the first head, of an array, states.
pub fn array_len(to: &mut Out, row: &mut &str) {
    let input = words::bytes(to, row);
    match callers::heads::array_len(&input) {
        Ok(len) => to.debug(&len),
        Err(error) => to.debug(&error),
    }
}

/// An array of numbers.
pub fn numbers(to: &mut Out, row: &mut &str) {
    let mut numbers = Vec::new(to.alloc());
    for word in words::rest(row).split(' ') {
        let number = to.number::<u64>(word);
        if numbers.push(number).is_err() {
            to.refuse(NoAnswer::Memory);
        }
    }
    let mut out = Mem::new(Vec::new(to.alloc()));
    let done = callers::heads::write_numbers(&mut out, &numbers);
    to.note(done);
    to.hex(out.as_written());
}

/// So many heads and strings in their shortest heads, after bytes in front of them.
pub fn shortened(to: &mut Out, row: &mut &str) {
    let front = words::bytes(to, row);
    let count = words::number(to, row);
    let input = words::bytes(to, row);
    let mut out = Mem::new(front);
    match callers::heads::shortened(&input, count, &mut out) {
        Ok(()) => to.hex(out.as_written()),
        Err(_) => to.refuse(NoAnswer::NoCall),
    }
}
