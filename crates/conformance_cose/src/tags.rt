//! Tags by HMAC with SHA-256.
use cose_hmac::{HmacSha256, hmac_sha256, same_tag};
use test_tools::{NoAnswer, Out};

/// The tag of a text.
pub fn whole(to: &mut Out, key: &str, text: &str) {
    let key = to.bytes(key);
    let text = to.bytes(text);
    let tag = hmac_sha256(&key, &text);
    to.hex(tag.as_slice());
}

/// The tag of a text that comes in pieces of this length, begun as a clone.
pub fn in_pieces(to: &mut Out, length: &str, key: &str, text: &str) {
    let length = to.number::<usize>(length);
    let key = to.bytes(key);
    let text = to.bytes(text);
    if length == 0 {
        to.refuse(NoAnswer::NoArgument);
        return;
    }
    let mut mac = HmacSha256::new(&key);
    for piece in text.chunks(length) {
        mac.update(piece);
    }
    to.hex(mac.finalize().as_slice());
}

/// The tag of a text by a clone of a tag that was begun.
pub fn of_clone(to: &mut Out, key: &str, text: &str) {
    let key = to.bytes(key);
    let text = to.bytes(text);
    let empty = HmacSha256::new(&key);
    let Ok(mut mac) = empty.clone() else {
        to.text("no clone");
        return;
    };
    mac.update(&text);
    to.hex(mac.finalize().as_slice());
}

/// Whether two tags are the same.
pub fn are_same(to: &mut Out, first: &str, second: &str) {
    let first = to.bytes(first);
    let second = to.bytes(second);
    to.yes_or_no(same_tag(&first, &second));
}
