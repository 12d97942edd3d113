//! Tests of signed messages: what signers and verifiers are handed, with memory enough and if it
//! is refused, and what is met if a message can't be signed.
//!
//! If memory is refused, the result is `Memory`, and no signer and no verifier was asked
//! (`watched!`). All memory of `of_sign1` and `of_sign` is asked for in functions that return
//! `Memory` themselves, so `refused_memory_is_the_answer_of_signed_messages` also holds if one
//! allocation is refused, whichever it is.

use crate::checks::{
    LONG, Met, echoed, fails, flat, given, is_mismatch, is_tagged_long, may_be_refused, repeated,
    verified, with_algorithm,
};
use coset_base::CoseSignatureBuilder;
use coset_headers::{CoseSignature, Header};
use coset_labels::{CoseError, Fault, iana};
use coset_signed::{CoseSign1, CoseSign1Builder, CoseSignBuilder};
use std::alloc::Global;
use std::process::Abort;

/// A header with the algorithm ES256.
fn es256(alloc: Global) -> Header {
    with_algorithm(alloc, iana::Algorithm::ES256)
}

/// Whether a message is built with a signer that gives what it is handed, and verified.
fn sign1_is_verified(alloc: Global) -> Result<bool, Met> {
    let payload = LONG.to_vec(alloc)?;
    let builder = CoseSign1Builder::new(alloc).payload(payload);
    let built = echoed!(builder.try_create_signature(alloc, b"aad"))?;
    let message = built.build();
    verified!(message.verify_signature(alloc, b"aad"))?;
    let covered = message.tbs_data(alloc, b"aad")?;
    Ok(covered == message.signature)
}

/// As `sign1_is_verified`, of a payload that is carried elsewhere, and not of another payload. The
/// signature takes the place of another one.
fn sign1_is_verified_elsewhere(alloc: Global) -> Result<bool, Met> {
    let signature = LONG.to_vec(alloc)?;
    let builder = CoseSign1Builder::new(alloc)
        .protected(es256(alloc))
        .unprotected(es256(alloc))
        .signature(signature);
    let built = echoed!(builder.try_create_detached_signature(alloc, b"hi", b"aad"))?;
    let message = built.build();
    if message.payload.is_some() {
        return Ok(false);
    }
    verified!(message.verify_detached_signature(alloc, b"hi", b"aad"))?;
    let other = verified!(message.verify_detached_signature(alloc, b"ho", b"aad"));
    let is_other = is_mismatch(other)?;
    let covered = message.tbs_detached_data(alloc, b"hi", b"aad")?;
    Ok(is_other && covered == message.signature)
}

/// What the signature of `sign1_is_written` covers: 846a5369676e61747572653143a1012640426869.
const COVERED: &[u8] = b"\x84\x6aSignature1\x43\xa1\x01\x26\x40\x42hi";

/// What it covers with the payload "ho" and the external data h'aa'.
const OTHER: &[u8] = b"\x84\x6aSignature1\x43\xa1\x01\x26\x41\xaa\x42ho";

/// Whether a message with the algorithm ES256 and the payload "hi" is written with the signature of
/// a signer that can't fail.
fn sign1_is_written(alloc: Global) -> Result<bool, Met> {
    let payload = b"hi".to_vec(alloc)?;
    let builder = CoseSign1Builder::new(alloc)
        .protected(es256(alloc))
        .payload(payload);
    let message = given!(builder.create_signature(alloc, &[]), COVERED)?.build();
    let covered = message.covered(alloc, b"ho", &[0xaa])?;
    let front = b"\xd2\x84\x43\xa1\x01\x26\xa0\x42hi\x59\x01\x2c";
    let is_written = is_tagged_long(alloc, message, front, b"")?;
    Ok(is_written && covered.as_slice() == OTHER)
}

/// As `COVERED`, with no header.
const COVERED_ELSEWHERE: &[u8] = b"\x84\x6aSignature1\x40\x40\x42hi";

/// As `sign1_is_written`, with no header and a payload that is carried elsewhere.
fn sign1_is_written_elsewhere(alloc: Global) -> Result<bool, Met> {
    let builder = CoseSign1Builder::new(alloc);
    let built = given!(
        builder.create_detached_signature(alloc, b"hi", &[]),
        COVERED_ELSEWHERE
    )?;
    let front = b"\xd2\x84\x40\xa0\xf6\x59\x01\x2c";
    Ok(is_tagged_long(alloc, built.build(), front, b"")?)
}

/// A signature of a signer with the algorithm ES256, with no bytes.
fn signer(alloc: Global) -> CoseSignature {
    CoseSignatureBuilder::new(alloc)
        .protected(es256(alloc))
        .build()
}

/// Whether a message is built with a signature of no bytes, and one of a signer that gives what it
/// is handed, and the second is verified, and not the first.
fn sign_is_verified(alloc: Global) -> Result<bool, Met> {
    let payload = LONG.to_vec(alloc)?;
    let builder = CoseSignBuilder::new(alloc)
        .payload(payload)
        .add_signature(signer(alloc))?;
    let built = echoed!(builder.try_add_created_signature(alloc, signer(alloc), b"aad"))?;
    let message = built.build();
    if message.signatures.len() != 2 {
        return Ok(false);
    }
    verified!(message.verify_signature(alloc, 1, b"aad"))?;
    let is_other = is_mismatch(verified!(message.verify_signature(alloc, 0, b"aad")))?;
    let covered = message.tbs_data(alloc, b"aad", &message.signatures[1])?;
    Ok(is_other && covered == message.signatures[1].signature)
}

/// As `sign_is_verified`, of one signature and a payload that is carried elsewhere, and not of
/// another payload.
fn sign_is_verified_elsewhere(alloc: Global) -> Result<bool, Met> {
    let builder = CoseSignBuilder::new(alloc);
    let built = echoed!(builder.try_add_detached_signature(alloc, signer(alloc), b"hi", b"aad"))?;
    let message = built.build();
    if message.payload.is_some() || message.signatures.len() != 1 {
        return Ok(false);
    }
    verified!(message.verify_detached_signature(alloc, 0, b"hi", b"aad"))?;
    let other = verified!(message.verify_detached_signature(alloc, 0, b"ho", b"aad"));
    let is_other = is_mismatch(other)?;
    let covered = message.tbs_detached_data(alloc, b"hi", b"aad", &message.signatures[0])?;
    Ok(is_other && covered == message.signatures[0].signature)
}

/// What the signature of `signer` covers in `sign_is_written`:
/// 85695369676e61747572654043a1012640426869.
const COVERED_BY_SIGNER: &[u8] = b"\x85\x69Signature\x40\x43\xa1\x01\x26\x40\x42hi";

/// What it covers with the payload "ho".
const OTHER_BY_SIGNER: &[u8] = b"\x85\x69Signature\x40\x43\xa1\x01\x26\x40\x42ho";

/// Whether a message with the payload "hi" is written with the signature h'00' and that of a signer
/// that can't fail.
fn sign_is_written(alloc: Global) -> Result<bool, Met> {
    let payload = b"hi".to_vec(alloc)?;
    let bytes = [0].to_vec(alloc)?;
    let first = CoseSignatureBuilder::new(alloc).signature(bytes).build();
    let builder = CoseSignBuilder::new(alloc)
        .protected(Header::new(alloc))
        .unprotected(Header::new(alloc))
        .payload(payload)
        .add_signature(first)?;
    let built = given!(
        builder.add_created_signature(alloc, signer(alloc), &[]),
        COVERED_BY_SIGNER
    )?;
    let message = built.build();
    let covered = message.covered(alloc, b"ho", &[], &signer(alloc))?;
    let front =
        b"\xd8\x62\x84\x40\xa0\x42hi\x82\x83\x40\xa0\x41\x00\x83\x43\xa1\x01\x26\xa0\x59\x01\x2c";
    let is_written = is_tagged_long(alloc, message, front, b"")?;
    Ok(is_written && covered.as_slice() == OTHER_BY_SIGNER)
}

/// As `sign_is_written`, with one signature and a payload that is carried elsewhere.
fn sign_is_written_elsewhere(alloc: Global) -> Result<bool, Met> {
    let builder = CoseSignBuilder::new(alloc);
    let built = given!(
        builder.add_detached_signature(alloc, signer(alloc), b"hi", &[]),
        COVERED_BY_SIGNER
    )?;
    let front = b"\xd8\x62\x84\x40\xa0\xf6\x81\x83\x43\xa1\x01\x26\xa0\x59\x01\x2c";
    Ok(is_tagged_long(alloc, built.build(), front, b"")?)
}

/// What calls of messages with one signature return.
fn of_sign1(alloc: Global) -> [Result<bool, CoseError>; 4] {
    [
        flat(sign1_is_verified(alloc)),
        flat(sign1_is_verified_elsewhere(alloc)),
        flat(sign1_is_written(alloc)),
        flat(sign1_is_written_elsewhere(alloc)),
    ]
}

/// What calls of messages with several signatures return.
fn of_sign(alloc: Global) -> [Result<bool, CoseError>; 4] {
    [
        flat(sign_is_verified(alloc)),
        flat(sign_is_verified_elsewhere(alloc)),
        flat(sign_is_written(alloc)),
        flat(sign_is_written_elsewhere(alloc)),
    ]
}

#[test]
fn messages_are_signed_verified_and_written(rt: HostRuntime) {
    assert_eq!(rt; of_sign1(rt.alloc()), [Ok(true); 4]);
    assert_eq!(rt; of_sign(rt.alloc()), [Ok(true); 4]);
}

#[test]
fn refused_memory_is_the_answer_of_signed_messages(rt: HostRuntime) {
    may_be_refused(&rt, &of_sign1(rt.alloc()));
    may_be_refused(&rt, &of_sign(rt.alloc()));
}

/// A message whose header can't be written.
fn unsigned(rt: &impl Abort, alloc: Global) -> CoseSign1 {
    CoseSign1Builder::new(alloc)
        .protected(repeated(rt, alloc))
        .build()
}

#[test]
fn a_repeated_label_is_not_signed(rt: HostRuntime) {
    let alloc = rt.alloc();
    let repeat = CoseError::DuplicateMapKey;
    let message = unsigned(&rt, alloc);
    assert_eq!(rt;
        message.verify_signature(alloc, &[], fails),
        Err(Fault::Cose(repeat))
    );
    assert_eq!(rt; message.tbs_data(alloc, &[]), Err(repeat));
    let signer = CoseSignatureBuilder::new(alloc)
        .protected(repeated(&rt, alloc))
        .build();
    let message = CoseSignBuilder::new(alloc)
        .add_signature(signer)
        .expect(&rt, "no memory")
        .build();
    assert_eq!(rt; message.signatures.len(), 1);
    assert_eq!(rt;
        message.verify_signature(alloc, 0, &[], fails),
        Err(Fault::Cose(repeat))
    );
    let covered = message.tbs_data(alloc, &[], &message.signatures[0]);
    assert_eq!(rt; covered, Err(repeat));
}

/// What is met if a message is not verified, as the text of an error of any kind.
fn says(rt: &impl Abort, alloc: Global, message: &CoseSign1, want: &str) {
    let answer = any_error(alloc, message);
    let error = answer.err().expect(rt, "an error");
    let text = format!(in alloc; "{error}").expect(rt, "no memory");
    assert_eq!(rt; text.as_str(), want);
}

/// What is met if a message is not verified, as an error of any kind.
fn any_error(alloc: Global, message: &CoseSign1) -> anyhow::Result<()> {
    message.verify_signature(alloc, &[], fails)?;
    Ok(())
}

#[test]
fn faults_have_the_texts_of_their_errors(rt: HostRuntime) {
    let alloc = rt.alloc();
    let want = "got a signature, expected another one";
    says(&rt, alloc, &CoseSign1::new(alloc), want);
    says(&rt, alloc, &unsigned(&rt, alloc), "duplicate map key");
}
