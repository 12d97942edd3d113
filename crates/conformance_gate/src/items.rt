//! Items that are read as typed values.
use crate::out::Out;
use crate::words;
use ciborium::tag::Captured;
use coset_labels::CborSerializable;

/// A pair of a text and a number, and its tag.
pub fn labelled(to: &mut Out, row: &mut &str) {
    let input = words::bytes(to, row);
    let mut left = input.as_slice();
    match callers::items::labelled(to.alloc(), &mut left) {
        Ok(Captured(tag, (text, number))) => {
            to.debug(&tag);
            to.text(" ");
            to.debug(&text.as_str());
            to.text(" ");
            to.show(&number);
        }
        Err(error) => to.debug(&error),
    }
}

/// The number of one byte that the whole input is.
pub fn whole(to: &mut Out, row: &mut &str) {
    let input = words::bytes(to, row);
    match callers::items::read_whole::<u8>(to.alloc(), &input) {
        Ok(number) => to.debug(&number),
        Err(error) => to.debug(&error),
    }
}

/// The value at the front in its canonical encoding, or why there is none and how many bytes were
/// taken.
pub fn front(to: &mut Out, row: &mut &str) {
    let input = words::bytes(to, row);
    match callers::items::front_value(to.alloc(), &input) {
        Ok(value) => to.made(value.to_vec(to.alloc())),
        Err((error, taken)) => {
            to.debug(&error);
            to.text(" after ");
            to.show(&taken);
        }
    }
}

/// The first two values, each in its canonical encoding.
pub fn two(to: &mut Out, row: &mut &str) {
    let input = words::bytes(to, row);
    match callers::items::two_values(to.alloc(), &input) {
        Ok((one, two)) => {
            to.made(one.to_vec(to.alloc()));
            to.text(" ");
            to.made(two.to_vec(to.alloc()));
        }
        Err(error) => to.debug(&error),
    }
}
