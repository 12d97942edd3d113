//! Many parts, and long ones, with memory enough: no call may say that it ran out. No clause says
//! so.
use coset::cbor::Value;
use coset::cwt::ClaimsSetBuilder;
use coset::{
    CborSerializable, CoseKdfContext, CoseKdfContextBuilder, CoseMac, CoseMacBuilder,
    CoseRecipient, CoseRecipientBuilder, CoseSign, CoseSign1, CoseSign1Builder, CoseSignBuilder,
    CoseSignature, Fault, Header, HeaderBuilder, Label, iana,
};
use std::alloc::Global;
use std::process::Abort;

/// Of each part so many, and of each string so many bytes.
const MANY: usize = 100;

const LONG: usize = 100_000;

/// So many bytes.
fn bytes(rt: &impl Abort, alloc: Global, count: usize) -> Vec<u8> {
    let mut bytes = Vec::new(alloc);
    for _ in 0..count {
        bytes.push(7).expect(rt, "memory");
    }
    bytes
}

/// A text of so many bytes.
fn text(rt: &impl Abort, alloc: Global, count: usize) -> String {
    let mut text = String::new(alloc);
    for _ in 0..count {
        text.push('a').expect(rt, "memory");
    }
    text
}

/// It is read back from what it is written as.
fn is_back<T: CborSerializable + PartialEq>(rt: &impl Abort, alloc: Global, it: T, at: &str) {
    let written = it.to_vec(alloc).expect(rt, at);
    let read = T::from_slice(alloc, &written).expect(rt, at);
    let again = read.to_vec(alloc).expect(rt, at);
    assert!(rt; again == written, "{at}");
}

#[test]
fn a_long_payload_is_signed_and_verified(rt: HostRuntime) {
    let alloc = rt.alloc();
    let message = CoseSign1Builder::new(alloc)
        .payload(bytes(&rt, alloc, LONG))
        .try_create_signature(alloc, b"", |data| data.to_vec(alloc))
        .expect(&rt, "a signature")
        .build();
    let written = message.to_vec(alloc).expect(&rt, "bytes");
    let read = CoseSign1::from_slice(alloc, &written).expect(&rt, "a message");
    let copy = read.clone(alloc).expect(&rt, "a copy");
    let answer: Result<(), Fault<()>> = copy.verify_signature(alloc, b"", |signature, data| {
        if signature == data { Ok(()) } else { Err(()) }
    });
    assert!(rt; answer == Ok(()));
}

#[test]
fn many_signatures_and_recipients_are_added(rt: HostRuntime) {
    let alloc = rt.alloc();
    let mut sign = CoseSignBuilder::new(alloc);
    let mut mac = CoseMacBuilder::new(alloc);
    let mut recipient = CoseRecipientBuilder::new(alloc);
    let mut header = HeaderBuilder::new(alloc);
    for _ in 0..MANY {
        sign = sign
            .add_signature(CoseSignature::new(alloc))
            .expect(&rt, "a signature");
        mac = mac
            .add_recipient(CoseRecipient::new(alloc))
            .expect(&rt, "a recipient");
        recipient = recipient
            .add_recipient(CoseRecipient::new(alloc))
            .expect(&rt, "one inside");
        header = header
            .add_critical(iana::HeaderParameter::Alg)
            .expect(&rt, "a label");
        header = header
            .add_counter_signature(CoseSignature::new(alloc))
            .expect(&rt, "one more");
    }
    let header = header.build();
    let copy = header.clone(alloc).expect(&rt, "a copy");
    assert!(rt; copy == header);
    is_back::<CoseSign>(&rt, alloc, sign.build(), "signatures");
    is_back::<CoseMac>(&rt, alloc, mac.build(), "recipients");
    is_back::<CoseRecipient>(&rt, alloc, recipient.build(), "recipients of one");
    is_back::<Header>(&rt, alloc, header, "a header");
}

#[test]
fn many_claims_infos_and_entries_are_kept(rt: HostRuntime) {
    let alloc = rt.alloc();
    let mut claims = ClaimsSetBuilder::new(alloc);
    let mut context = CoseKdfContextBuilder::new(alloc);
    let mut header = Header::new(alloc);
    let mut items = Vec::new(alloc);
    for count in 0..MANY {
        let name = text(&rt, alloc, count);
        claims = claims.text_claim(name, Value::Null).expect(&rt, "a claim");
        let info = bytes(&rt, alloc, count);
        context = context.add_supp_priv_info(info).expect(&rt, "an info");
    }
    for number in 0..2_000i64 {
        header
            .rest
            .push((Label::Int(100 + number), Value::Null))
            .expect(&rt, "an entry");
        items.push(Value::Null).expect(&rt, "an item");
    }
    let long = Label::Text(text(&rt, alloc, LONG));
    header
        .rest
        .push((long, Value::Array(items)))
        .expect(&rt, "an entry");
    let copy = header.clone(alloc).expect(&rt, "a copy");
    assert!(rt; copy == header);
    is_back(&rt, alloc, claims.build(), "claims");
    is_back::<CoseKdfContext>(&rt, alloc, context.build(), "a context");
    is_back(&rt, alloc, header, "a header");
}
