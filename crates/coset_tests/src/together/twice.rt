//! Labels that stand twice in a map. Bytes with such a label are not read; here are values that are
//! made so. Expected bytes are written out by hand.
use crate::checks::gives;
use coset::cbor::Value;
use coset::cwt::ClaimsSetBuilder;
use coset::{
    CborOrdering, CborSerializable, CoseError, CoseKey, CoseKeyBuilder, HeaderBuilder, Label, iana,
};
use std::alloc::Global;
use std::process::Abort;

#[test]
fn a_header_with_a_label_twice_in_the_rest_is_not_written(rt: HostRuntime) {
    let alloc = rt.alloc();
    let header = HeaderBuilder::new(alloc)
        .value(24, Value::Null)
        .expect(&rt, "no memory")
        .value(24, Value::Bool(true))
        .expect(&rt, "no memory")
        .build();
    assert!(rt; header.to_vec(alloc) == Err(CoseError::DuplicateMapKey));
    // a label of a field in the rest is not seen as twice
    let mut header = HeaderBuilder::new(alloc)
        .algorithm(iana::Algorithm::ES256)
        .build();
    let pushed = header.rest.push((Label::Int(1), Value::from(1u64)));
    pushed.expect(&rt, "no memory");
    gives(&rt, alloc, header.to_vec(alloc), "a201260101");
}

/// Adds a claim of the profile.
#[tactic(auto, unfolding(cose_iana::specs::Claims::cwt_claim_names))]
fn with_profile(rt: &impl Abort, builder: ClaimsSetBuilder, profile: u64) -> ClaimsSetBuilder {
    builder
        .claim(iana::CwtClaimName::AceProfile, Value::from(profile))
        .expect(rt, "no memory")
}

#[test]
fn claims_with_a_name_twice_are_written(rt: HostRuntime) {
    let alloc = rt.alloc();
    let builder = with_profile(&rt, ClaimsSetBuilder::new(alloc), 1);
    let claims = with_profile(&rt, builder, 2).build();
    gives(&rt, alloc, claims.to_vec(alloc), "a2182601182602");
}

/// A key with these labels and values as its parameters.
fn key(rt: &impl Abort, alloc: Global, params: &[(i64, u64)]) -> CoseKey {
    let mut key = CoseKeyBuilder::new_okp_key(alloc).build();
    for (label, value) in params {
        key.params
            .push((Label::Int(*label), Value::from(*value)))
            .expect(rt, "no memory");
    }
    key
}

/// Parameters with the same label keep their order in this one.
fn is_stable(rt: &impl Abort, alloc: Global, ordering: CborOrdering) {
    let mut sorted = key(rt, alloc, &[(-2, 0), (-1, 1), (-2, 2)]);
    sorted.canonicalize(alloc, ordering).expect(rt, "no memory");
    assert!(rt; sorted == key(rt, alloc, &[(-1, 1), (-2, 0), (-2, 2)]));
}

#[test]
fn a_key_with_a_label_twice_is_sorted_and_not_written(rt: HostRuntime) {
    let alloc = rt.alloc();
    is_stable(&rt, alloc, CborOrdering::Lexicographic);
    is_stable(&rt, alloc, CborOrdering::LengthFirstLexicographic);
    let twice = key(&rt, alloc, &[(-1, 0), (-1, 0)]);
    assert!(rt; twice.to_vec(alloc) == Err(CoseError::DuplicateMapKey));
}

#[test]
fn the_first_x_is_that_of_the_point(rt: HostRuntime) {
    let alloc = rt.alloc();
    let x = [1].to_vec(alloc).expect(&rt, "no memory");
    let y = [2].to_vec(alloc).expect(&rt, "no memory");
    let key = CoseKeyBuilder::new_ec2_pub_key(alloc, iana::EllipticCurve::P_256, x, y)
        .expect(&rt, "no memory")
        .param(-2, Value::Null)
        .expect(&rt, "no memory")
        .build();
    gives(&rt, alloc, key.to_sec1_octet_string(alloc), "040102");
}
