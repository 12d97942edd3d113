//! Messages checked under the keys of a set.
use crate::judging::read_keys;
use crate::out::Out;
use crate::words;
use cose_gate::{Decoder, HmacJudge, Limits};

/// Whether the message in front carries a good tag, read through four bytes, and how many bytes
/// were taken.
pub fn is_tagged(to: &mut Out, row: &mut &str) {
    let keys = read_keys(to, row);
    let aad = words::bytes(to, row);
    let input = words::bytes(to, row);
    let mut buffer = [0; 4];
    let mut decoder = Decoder::from(input.as_slice());
    let answer = callers::checking::is_tagged(to.alloc(), &mut decoder, &mut buffer, &aad, &keys);
    match answer {
        Ok(yes) => {
            to.yes_or_no(yes);
            to.text(", ");
            to.show(&decoder.offset());
            to.text(" taken");
        }
        Err(fault) => to.debug(&fault),
    }
}

/// The answer of a judge that was fed through four bytes.
pub fn is_fed(to: &mut Out, row: &mut &str) {
    let keys = read_keys(to, row);
    let aad = words::bytes(to, row);
    let input = words::bytes(to, row);
    let alloc = to.alloc();
    let mut buffer = [0; 4];
    let mut judge = HmacJudge::prepared(alloc, &keys);
    let mut decoder = Decoder::from(input.as_slice());
    let limits = Limits::default();
    let answer = callers::checking::fed(alloc, limits, &mut decoder, &mut buffer, &aad, &mut judge);
    match answer {
        Ok(yes) => to.yes_or_no(yes),
        Err(fault) => to.debug(&fault),
    }
}
