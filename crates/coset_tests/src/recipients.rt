//! Tests of recipients and of encrypted and authenticated messages: what ciphers, signers and
//! verifiers are handed, with memory enough and if it is refused, and what is met first. And how
//! much memory a structure takes.
//!
//! If memory is refused, the result is `Memory`, and no cipher, signer or verifier was asked
//! (`watched!`). All memory of `of_ciphers`, `of_encrypted` and `of_maced` is asked for in
//! functions that return `Memory` themselves, so `refused_memory_is_the_answer_of_recipients` also
//! holds if one allocation is refused, whichever it is.

mod encrypted;
mod maced;
mod structures;

use crate::checks::may_be_refused;
use crate::recipients::encrypted::{of_ciphers, of_encrypted};
use crate::recipients::maced::of_maced;

#[test]
fn messages_and_recipients_are_made_and_opened(rt: HostRuntime) {
    assert_eq!(rt; of_ciphers(rt.alloc()), [Ok(true); 4]);
    assert_eq!(rt; of_encrypted(rt.alloc()), [Ok(true); 4]);
    assert_eq!(rt; of_maced(rt.alloc()), [Ok(true); 4]);
}

#[test]
fn refused_memory_is_the_answer_of_recipients(rt: HostRuntime) {
    may_be_refused(&rt, &of_ciphers(rt.alloc()));
    may_be_refused(&rt, &of_encrypted(rt.alloc()));
    may_be_refused(&rt, &of_maced(rt.alloc()));
}
