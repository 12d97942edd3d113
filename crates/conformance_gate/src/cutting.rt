//! Calls whose input ends early.
use crate::out::{NoAnswer, Out};
use crate::{calls, words};

/// A call, and the argument in it that is cut.
#[derive(Clone, Copy)]
struct Call<'a> {
    before: &'a str,
    input: &'a str,
    behind: &'a str,
}

/// One answer to an input that is cut to each of these numbers of bytes, from the first to the
/// last.
#[derive(Drop)]
struct Stretch {
    first: usize,
    last: usize,
    answer: Out,
}

/// What a call returns whose argument at this place is cut to each number of bytes, up to the
/// whole: equal answers in a row are told once, and the others are parted by ` / `.
pub fn answers(to: &mut Out, row: &mut &str) {
    let place = words::number(to, row);
    let call = parted(to, place, words::rest(row));
    let mut stretch = Stretch {
        first: 0,
        last: 0,
        answer: cut_to(to, &call, 0),
    };
    for count in 1..(call.input.len() / 2).saturating_add(1) {
        let answer = cut_to(to, &call, count);
        if answer.as_str() == stretch.answer.as_str() {
            stretch.last = count;
        } else {
            add(to, &stretch);
            stretch = Stretch {
                first: count,
                last: count,
                answer,
            };
        }
    }
    add(to, &stretch);
}

/// A call, split at the argument with this place.
fn parted<'a>(to: &mut Out, place: usize, call: &'a str) -> Call<'a> {
    let mut behind = call;
    for _ in 0..place {
        let _ = words::word(to, &mut behind);
    }
    let before = call.len().saturating_sub(behind.len());
    Call {
        before: call.get(..before).unwrap_or(""),
        input: words::word(to, &mut behind),
        behind,
    }
}

/// What the call returns whose argument is cut to so many bytes.
fn cut_to(to: &mut Out, call: &Call<'_>, count: usize) -> Out {
    let mut row = Out::new(to.alloc());
    row.text(call.before);
    row.text(front(to, call.input, count));
    if !call.behind.is_empty() {
        row.text(" ");
        row.text(call.behind);
    }
    let mut answer = Out::new(to.alloc());
    calls::uncut(&mut answer, row.as_str());
    to.refuse_as(&row);
    to.refuse_as(&answer);
    answer
}

/// The first bytes of an argument in hex.
fn front<'a>(to: &mut Out, word: &'a str, count: usize) -> &'a str {
    match word.get(..count.saturating_mul(2)) {
        Some("") => "-",
        Some(front) => front,
        None => {
            to.refuse(NoAnswer::NoArgument);
            "-"
        }
    }
}

fn add(to: &mut Out, stretch: &Stretch) {
    to.apart(" / ");
    to.show(&stretch.first);
    if stretch.first != stretch.last {
        to.text(" to ");
        to.show(&stretch.last);
    }
    to.text(": ");
    to.text(stretch.answer.as_str());
}
