//! Messages under a secret.
use crate::out::{NoAnswer, Out};
use crate::words;
use callers::signing::{Refused, Secret};
use cose_gate::Header;
use coset_labels::{Fault, TaggedCborSerializable};

fn read_secret(to: &mut Out, row: &mut &str) -> Secret {
    Secret {
        bytes: words::bytes(to, row),
    }
}

/// A tagged COSE_Sign1 with empty headers.
pub fn signed(to: &mut Out, row: &mut &str) {
    let secret = read_secret(to, row);
    let aad = words::bytes(to, row);
    let payload = words::bytes(to, row);
    let header = Header::new(to.alloc());
    match callers::signing::signed(to.alloc(), header, payload, &aad, &secret) {
        Ok(message) => to.made(message.to_tagged_vec(to.alloc())),
        Err(Fault::Caller(_)) => to.refuse(NoAnswer::Memory),
        Err(Fault::Cose(error)) => to.not_read(error),
    }
}

/// The payload of a tagged COSE_Sign1.
pub fn signed_payload(to: &mut Out, row: &mut &str) {
    let secret = read_secret(to, row);
    let aad = words::bytes(to, row);
    let message = words::bytes(to, row);
    let payload = callers::signing::signed_payload(to.alloc(), &message, &aad, &secret);
    add_payload(to, payload);
}

fn add_payload(to: &mut Out, payload: Result<Vec<u8>, Fault<Refused>>) {
    match payload {
        Ok(payload) => to.hex(&payload),
        Err(Fault::Caller(refused)) => to.debug(&refused),
        Err(Fault::Cose(error)) => to.show(&error),
    }
}
