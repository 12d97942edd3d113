//! Headers and keys.
use crate::out::{NoAnswer, Out};
use crate::words;
use cose_gate::{CoseError, Header, iana};
use coset_labels::CborSerializable;

/// A header with the algorithm HMAC 256/256 and the key id that the next argument is.
fn made(to: &mut Out, row: &mut &str) -> Header {
    let key_id = words::bytes(to, row);
    match callers::heading::plain_header(to.alloc(), iana::Algorithm::HMAC_256_256, &key_id) {
        Ok(made) => made,
        Err(_) => {
            to.refuse(NoAnswer::Memory);
            Header::new(to.alloc())
        }
    }
}

/// A header with the algorithm HMAC 256/256 and this key id.
pub fn header(to: &mut Out, row: &mut &str) {
    let made = made(to, row);
    to.made(made.to_vec(to.alloc()));
}

/// Whether the header that these bytes are is that one.
pub fn is_header(to: &mut Out, row: &mut &str) {
    let made = made(to, row);
    let header = words::bytes(to, row);
    match callers::heading::header_of(to.alloc(), &header) {
        Ok(read) => to.yes_or_no(read == made),
        Err(error) => to.not_read(error),
    }
}

/// A header in its canonical encoding.
pub fn rewritten(to: &mut Out, row: &mut &str) {
    let header = words::bytes(to, row);
    to.made(callers::heading::rewritten(to.alloc(), &header));
}

/// Whether two keys are one.
pub fn is_same_key(to: &mut Out, row: &mut &str) {
    let a = words::bytes(to, row);
    let b = words::bytes(to, row);
    told(to, callers::keeping::is_same_key(to.alloc(), &a, &b));
}

fn told(to: &mut Out, yes: Result<bool, CoseError>) {
    match yes {
        Ok(yes) => to.yes_or_no(yes),
        Err(error) => to.not_read(error),
    }
}

/// A key in its canonical encoding.
pub fn spelling(to: &mut Out, row: &mut &str) {
    let key = words::bytes(to, row);
    to.made(callers::keeping::spelling(to.alloc(), &key));
}
