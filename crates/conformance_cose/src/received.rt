//! Whether headers and signatures are as received, also such as no item is read as.
use crate::{items, protected};
use coset::{CoseSignature, Header};
use std::alloc::{AllocError, Global};
use test_tools::Out;

/// Whether a protected header is as received.
pub fn is_protected(to: &mut Out, item: &str) {
    if let Some(header) = protected::read(to, item) {
        to.yes_or_no(header.is_received());
    }
}

/// Whether a header is as received after the entries without a field of another were appended to
/// its own.
pub fn is_header(to: &mut Out, first: &str, second: &str) {
    if let Some(first) = items::read::<Header>(to, first) {
        if let Some(second) = items::read::<Header>(to, second) {
            let is_received = is_joined_received(to.alloc(), first, second);
            if let Some(is_received) = to.kept(is_received) {
                to.yes_or_no(is_received);
            }
        }
    }
}

fn is_joined_received(alloc: Global, first: Header, second: Header) -> Result<bool, AllocError> {
    let mut joined = first;
    for entry in second.rest {
        joined.rest.push(entry)?;
    }
    joined.is_received(alloc)
}

/// Whether a signature with these headers is as received, and a header with it as its counter
/// signature.
pub fn is_signature(to: &mut Out, first: &str, second: &str) {
    if let Some(first) = protected::read(to, first) {
        if let Some(second) = items::read::<Header>(to, second) {
            let alloc = to.alloc();
            let signature = CoseSignature::from_parts(first, second, Vec::new(alloc));
            let are_received = are_both_received(alloc, signature);
            if let Some((signature, header)) = to.kept(are_received) {
                to.yes_or_no(signature);
                to.text(", ");
                to.yes_or_no(header);
            }
        }
    }
}

fn are_both_received(alloc: Global, signature: CoseSignature) -> Result<(bool, bool), AllocError> {
    let is_signature = signature.is_received(alloc)?;
    let mut header = Header::new(alloc);
    header.counter_signatures.push(signature)?;
    let is_header = header.is_received(alloc)?;
    Ok((is_signature, is_header))
}
