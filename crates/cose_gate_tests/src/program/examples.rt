//! The files of examples/: how their tags were made.
use crate::checks::unhex;
use crate::messages::TAGGED;
use cose_gate::hmac_sha256;
use coset::{CoseMac0Builder, HeaderBuilder, TaggedCborSerializable, iana};
use std::alloc::Global;
use std::process::Abort;

/// The tagged COSE_Mac0 over "hi" with the external data 01 and the protected algorithm HMAC
/// 256/256, and its tag under this key.
fn message(rt: &impl Abort, alloc: Global, id: &[u8], key: &[u8]) -> Vec<u8> {
    let protected = HeaderBuilder::new(alloc)
        .algorithm(iana::Algorithm::HMAC_256_256)
        .build();
    let id = id.to_vec(alloc).expect(rt, "no memory");
    let unprotected = HeaderBuilder::new(alloc).key_id(id).build();
    let payload = b"hi".to_vec(alloc).expect(rt, "no memory");
    CoseMac0Builder::new(alloc)
        .protected(protected)
        .unprotected(unprotected)
        .payload(payload)
        .try_create_tag(alloc, &[1], move |data| {
            hmac_sha256(key, data).to_vec(alloc)
        })
        .expect(rt, "a tag")
        .build()
        .to_tagged_vec(alloc)
        .expect(rt, "bytes")
}

#[test]
fn tags_of_the_examples(rt: HostRuntime) {
    let alloc = rt.alloc();
    let mut secret = [0; 32];
    for (i, byte) in secret.iter_mut().enumerate() {
        *byte = (i & 0xff) as u8;
    }
    let tagged = "d18443a10105a1044230314268695820\
        527972be49f9fe431adcc9dfb65427a01778a584563a8cefe4dda1f702045f72";
    assert!(rt; message(&rt, alloc, b"01", &secret) == unhex(&rt, alloc, tagged));
    assert!(rt; message(&rt, alloc, b"", &[0]).as_slice() == TAGGED);
}
