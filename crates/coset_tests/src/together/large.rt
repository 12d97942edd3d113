//! 100,000 labels in one map: reading, writing and sorting a hostile one must not take quadratic
//! time.
use coset::cbor::Value;
use coset::cwt::{ClaimName, ClaimsSet};
use coset::{CborOrdering, CborSerializable, CoseKey, CoseKeyBuilder, Header, Label};
use std::alloc::Global;
use std::process::Abort;

/// A header with so many labels in the rest.
fn header(rt: &impl Abort, alloc: Global) -> Header {
    let mut header = Header::new(alloc);
    for n in 0..100_000i64 {
        let pushed = header.rest.push((Label::Int(n + 8), Value::Null));
        pushed.expect(rt, "no memory");
    }
    header
}

/// Claims with so many names.
fn claims(rt: &impl Abort, alloc: Global) -> ClaimsSet {
    let mut claims = ClaimsSet::new(alloc);
    for n in 0..100_000i64 {
        claims
            .rest
            .push((ClaimName::PrivateUse(-70_000 - n), Value::Null))
            .expect(rt, "no memory");
    }
    claims
}

/// A key with so many parameters.
fn key(rt: &impl Abort, alloc: Global) -> CoseKey {
    let mut key = CoseKeyBuilder::new_okp_key(alloc).build();
    for n in 0..100_000i64 {
        key.params
            .push((Label::Int(n + 6), Value::Null))
            .expect(rt, "no memory");
    }
    key
}

/// What is written, and then read.
fn read_again<T: CborSerializable>(rt: &impl Abort, alloc: Global, it: T) -> (Vec<u8>, T) {
    let bytes = it.to_vec(alloc).expect(rt, "bytes");
    let read = T::from_slice(alloc, &bytes).expect(rt, "a value");
    (bytes, read)
}

#[test]
fn a_hundred_thousand_labels(rt: HostRuntime) {
    let alloc = rt.alloc();
    let (bytes, read) = read_again(&rt, alloc, header(&rt, alloc));
    assert_eq!(rt; read.rest.len(), 100_000);
    assert!(rt; read.to_vec(alloc) == Ok(bytes));
}

#[test]
fn a_hundred_thousand_names(rt: HostRuntime) {
    let alloc = rt.alloc();
    let (bytes, read) = read_again(&rt, alloc, claims(&rt, alloc));
    assert_eq!(rt; read.rest.len(), 100_000);
    assert!(rt; read.to_vec(alloc) == Ok(bytes));
}

#[test]
fn a_hundred_thousand_params(rt: HostRuntime) {
    let alloc = rt.alloc();
    let (bytes, mut read) = read_again(&rt, alloc, key(&rt, alloc));
    assert_eq!(rt; read.params.len(), 100_000);
    let sorted = read.canonicalize(alloc, CborOrdering::LengthFirstLexicographic);
    sorted.expect(&rt, "no memory");
    assert!(rt; read.to_vec(alloc) == Ok(bytes));
}
