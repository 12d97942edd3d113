//! Values by builders, with memory enough and with memory that is refused: calls return `Memory`
//! then. All memory is asked for in functions that return `Memory` themselves, so
//! `refused_memory_is_the_answer_of_keys_and_claims` also holds if one allocation is refused,
//! whichever it is. Expected bytes are written out by hand.
use crate::checks::may_be_refused;
use coset::cbor::{Float, Value};
use coset::cwt::{ClaimsSet, ClaimsSetBuilder, Timestamp};
use coset::{
    CborSerializable, CoseError, CoseKdfContext, CoseKdfContextBuilder, CoseKey, CoseKeyBuilder,
    CoseSignature, CoseSignatureBuilder, Header, HeaderBuilder, KeyType, Nonce, PartyInfo,
    PartyInfoBuilder, RegisteredLabelWithPrivate, SuppPubInfo, SuppPubInfoBuilder, iana,
};
use std::alloc::Global;

/// A header by the calls that set fields. A partial IV takes the place of an IV.
fn set_header(alloc: Global) -> Result<Header, CoseError> {
    let content_type = String::from_str(alloc, "a/b")?;
    let key_id = b"11".to_vec(alloc)?;
    let iv = [9].to_vec(alloc)?;
    let partial_iv = [8].to_vec(alloc)?;
    Ok(
        HeaderBuilder::new(alloc)
            .algorithm(iana::Algorithm::A128GCM)
            .content_type(content_type)
            .key_id(key_id)
            .iv(iv)
            .partial_iv(partial_iv)
            .build(),
    )
}

/// A header by the other calls that set these fields. An IV takes the place of a partial IV.
fn other_header(alloc: Global) -> Result<Header, CoseError> {
    let label = RegisteredLabelWithPrivate::Text(String::from_str(alloc, "x")?);
    let partial_iv = [7].to_vec(alloc)?;
    let iv = [8].to_vec(alloc)?;
    Ok(
        HeaderBuilder::new(alloc)
            .algorithm_label(label)
            .content_format(iana::CoapContentFormat::Json)
            .partial_iv(partial_iv)
            .iv(iv)
            .build(),
    )
}

/// A signature with each field.
fn signature(alloc: Global) -> Result<CoseSignature, CoseError> {
    let key_id = b"1".to_vec(alloc)?;
    let bytes = [1, 2, 3].to_vec(alloc)?;
    let protected = HeaderBuilder::new(alloc).algorithm(iana::Algorithm::ES256);
    let unprotected = HeaderBuilder::new(alloc).key_id(key_id);
    Ok(
        CoseSignatureBuilder::new(alloc)
            .protected(protected.build())
            .unprotected(unprotected.build())
            .signature(bytes)
            .build(),
    )
}

/// A header by the calls that append.
fn header(alloc: Global) -> Result<Header, CoseError> {
    let label = RegisteredLabelWithPrivate::Text(String::from_str(alloc, "b")?);
    let name = String::from_str(alloc, "a")?;
    let signature = signature(alloc)?;
    let builder = HeaderBuilder::new(alloc)
        .add_critical(iana::HeaderParameter::Kid)?
        .add_critical_label(label)?
        .add_critical_label(RegisteredLabelWithPrivate::PrivateUse(-65537))?
        .add_counter_signature(CoseSignature::new(alloc))?
        .add_counter_signature(signature)?
        .value(100, Value::Null)?
        .text_value(name, Value::Bool(true))?;
    Ok(builder.build())
}

/// A private key of two coordinates. Of an operation that is added twice there is one.
fn private_key(alloc: Global) -> Result<CoseKey, CoseError> {
    let x = [1].to_vec(alloc)?;
    let y = [2].to_vec(alloc)?;
    let d = [3].to_vec(alloc)?;
    let key_id = [4].to_vec(alloc)?;
    let base_iv = [5].to_vec(alloc)?;
    let curve = iana::EllipticCurve::BrainpoolP256R1;
    let builder = CoseKeyBuilder::new_ec2_priv_key(alloc, curve, x, y, d)?
        .key_id(key_id)
        .base_iv(base_iv)
        .algorithm(iana::Algorithm::ES256)
        .add_key_op(iana::KeyOperation::Verify)?
        .add_key_op(iana::KeyOperation::Sign)?
        .add_key_op(iana::KeyOperation::Verify)?
        .param(6, Value::Null)?;
    Ok(builder.build())
}

/// A key that was symmetric, and has another type then.
fn key(alloc: Global) -> Result<CoseKey, CoseError> {
    let secret = [1, 2].to_vec(alloc)?;
    let kty = KeyType::Text(String::from_str(alloc, "a")?);
    let builder = CoseKeyBuilder::new_symmetric_key(alloc, secret)?
        .kty(kty)
        .algorithm(iana::Algorithm::HMAC_256_256)
        .add_key_op(iana::KeyOperation::MacCreate)?
        .param(-70000, Value::Null)?;
    Ok(builder.build())
}

/// With one more claim.
#[tactic(auto, unfolding(cose_iana::specs::Claims::cwt_claim_names))]
fn with_claim(builder: ClaimsSetBuilder) -> Result<ClaimsSetBuilder, CoseError> {
    builder.claim(iana::CwtClaimName::Cnf, Value::Null)
}

fn claims(alloc: Global) -> Result<ClaimsSet, CoseError> {
    let issuer = String::from_str(alloc, "aaa")?;
    let subject = String::from_str(alloc, "bb")?;
    let audience = String::from_str(alloc, "c")?;
    let cwt_id = [1, 2, 3, 4].to_vec(alloc)?;
    let name = String::from_str(alloc, "a")?;
    let fields = ClaimsSetBuilder::new(alloc)
        .issuer(issuer)
        .subject(subject)
        .audience(audience)
        .expiration_time(Timestamp::FractionalSeconds(Float::Half(0x3e00)))
        .not_before(Timestamp::WholeSeconds(512))
        .issued_at(Timestamp::WholeSeconds(16))
        .cwt_id(cwt_id);
    let builder = with_claim(fields)?
        .text_claim(name, Value::Null)?
        .private_claim(-70000, Value::Null)?;
    Ok(builder.build())
}

/// A party with each field.
fn party(alloc: Global) -> Result<PartyInfo, CoseError> {
    let identity = [1].to_vec(alloc)?;
    let nonce = [2].to_vec(alloc)?;
    let other = [3].to_vec(alloc)?;
    Ok(
        PartyInfoBuilder::new(alloc)
            .identity(identity)
            .nonce(Nonce::Bytes(nonce))
            .other(other)
            .build(),
    )
}

/// What both parties know, with each field.
fn public_info(alloc: Global) -> Result<SuppPubInfo, CoseError> {
    let other = [3].to_vec(alloc)?;
    let protected = HeaderBuilder::new(alloc).algorithm(iana::Algorithm::A128GCM);
    Ok(
        SuppPubInfoBuilder::new(alloc)
            .key_data_length(10)
            .protected(protected.build())
            .other(other)
            .build(),
    )
}

/// A context with each field.
fn context(alloc: Global) -> Result<CoseKdfContext, CoseError> {
    let first = party(alloc)?;
    let second = PartyInfoBuilder::new(alloc).nonce(Nonce::Integer(-80));
    let public_info = public_info(alloc)?;
    let (a, b) = (b"A".to_vec(alloc)?, b"B".to_vec(alloc)?);
    let builder = CoseKdfContextBuilder::new(alloc)
        .algorithm(iana::Algorithm::A128GCM)
        .party_u_info(first)
        .party_v_info(second.build())
        .supp_pub_info(public_info)
        .add_supp_priv_info(a)?
        .add_supp_priv_info(b)?;
    Ok(builder.build())
}

/// {1: 1, 3: "a/b", 4: '11', 6: h'08'}.
const SET_HEADER: &[u8] = b"\xa4\x01\x01\x03\x63a/b\x04\x4211\x06\x41\x08";

/// {1: "x", 3: 50, 5: h'08'}.
const OTHER_HEADER: &[u8] = b"\xa3\x01\x61x\x03\x18\x32\x05\x41\x08";

/// {2: [4, "b", -65537], 7: [[h'', {}, h''], [h'a10126', {4: '1'}, h'010203']], 100: null,
/// "a": true}.
const BUILT_HEADER: &[u8] = &[
    0xa4, 2, 0x83, 4, 0x61, 0x62, 0x3a, 0, 1, 0, 0, 7, 0x82, 0x83, 0x40, 0xa0, 0x40, 0x83, 0x43,
    0xa1, 1, 0x26, 0xa1, 4, 0x41, 0x31, 0x43, 1, 2, 3, 0x18, 100, 0xf6, 0x61, 0x61, 0xf5,
];

/// {1: 2, 2: h'04', 3: -7, 4: [1, 2], 5: h'05', -1: 256, -2: h'01', -3: h'02', -4: h'03', 6: null}.
const PRIVATE_KEY: &[u8] = &[
    0xaa, 1, 2, 2, 0x41, 4, 3, 0x26, 4, 0x82, 1, 2, 5, 0x41, 5, 0x20, 0x19, 1, 0, 0x21, 0x41, 1,
    0x22, 0x41, 2, 0x23, 0x41, 3, 6, 0xf6,
];

/// {1: "a", 3: 5, 4: [9], -1: h'0102', -70000: null}.
const BUILT_KEY: &[u8] =
    b"\xa5\x01\x61a\x03\x05\x04\x81\x09\x20\x42\x01\x02\x3a\x00\x01\x11\x6f\xf6";

/// {1: "aaa", 2: "bb", 3: "c", 4: 1.5, 5: 512, 6: 16, 7: h'01020304', 8: null, "a": null,
/// -70000: null}.
const BUILT_CLAIMS: &[u8] =
    b"\xaa\x01\x63aaa\x02\x62bb\x03\x61c\x04\xf9\x3e\x00\x05\x19\x02\x00\x06\x10\x07\x44\x01\x02\x03\x04\x08\xf6\x61a\xf6\x3a\x00\x01\x11\x6f\xf6";

/// [1, [h'01', h'02', h'03'], [null, -80, null], [10, h'a10101', h'03'], 'A', 'B'].
const BUILT_CONTEXT: &[u8] = &[
    0x86, 1, 0x83, 0x41, 1, 0x41, 2, 0x41, 3, 0x83, 0xf6, 0x38, 79, 0xf6, 0x83, 10, 0x43, 0xa1, 1,
    1, 0x41, 3, 0x41, 0x41, 0x41, 0x42,
];

/// Whether what was built is written as these bytes.
fn is_built<T: CborSerializable>(
    alloc: Global,
    built: Result<T, CoseError>,
    bytes: &[u8],
) -> Result<bool, CoseError> {
    Ok(built?.to_vec(alloc)?.as_slice() == bytes)
}

/// What calls of builders return.
fn of_builders(alloc: Global) -> [Result<bool, CoseError>; 7] {
    [
        is_built(alloc, set_header(alloc), SET_HEADER),
        is_built(alloc, other_header(alloc), OTHER_HEADER),
        is_built(alloc, header(alloc), BUILT_HEADER),
        is_built(alloc, private_key(alloc), PRIVATE_KEY),
        is_built(alloc, key(alloc), BUILT_KEY),
        is_built(alloc, claims(alloc), BUILT_CLAIMS),
        is_built(alloc, context(alloc), BUILT_CONTEXT),
    ]
}

#[test]
fn values_are_built_and_written(rt: HostRuntime) {
    assert_eq!(rt; of_builders(rt.alloc()), [Ok(true); 7]);
}

#[test]
fn refused_memory_is_the_answer_of_keys_and_claims(rt: HostRuntime) {
    may_be_refused(&rt, &of_builders(rt.alloc()));
}
