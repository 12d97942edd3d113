//! Authenticated messages by builders, and what their closures are handed. Expected bytes are
//! written out by hand.
use crate::checks::{
    LONG, MISMATCH, Met, echoed, fails, flat, given, in_order, is_long_between, is_tagged_long,
    missing, repeated, verified, with_algorithm,
};
use coset_headers::Header;
use coset_labels::{CoseError, Fault, iana};
use coset_maced::{CoseMac0Builder, CoseMacBuilder};
use coset_recipients::CoseRecipient;
use std::alloc::Global;

/// Whether the payload `LONG` is set in this builder, and the tag of a signer that gives what it is
/// handed is `LONG` behind these bytes, and is verified by both calls.
macro_rules! is_verified {
    ($alloc:ident, $builder:expr, $front:expr) => {{
        let payload = LONG.to_vec($alloc)?;
        let builder = $builder.payload(payload);
        let message = echoed!(builder.try_create_tag($alloc, b"aad"))?.build();
        verified!(message.verify_payload_tag($alloc, b"aad", missing))?;
        match &message.payload {
            Some(_) => verified!(message.verify_tag($alloc, b"aad"))?,
            None => return Ok(false),
        }
        Ok(is_long_between($alloc, &message.tag, $front, b"")?)
    }};
}

/// What is built with the tag of a signer that can't fail, with the algorithm HMAC 256/256 and the
/// payload "hi", if the signer is handed this structure.
macro_rules! tagged {
    ($alloc:ident, $builder:expr, $aad:expr, $structure:expr) => {{
        let payload = b"hi".to_vec($alloc)?;
        let builder = $builder
            .protected(with_algorithm($alloc, iana::Algorithm::HMAC_256_256))
            .unprotected(Header::new($alloc))
            .tag(Vec::new($alloc))
            .payload(payload);
        given!(builder.create_tag($alloc, $aad), $structure)?.build()
    }};
}

/// Whether a message is built and verified.
fn mac0_is_verified(alloc: Global) -> Result<bool, Met> {
    let builder = CoseMac0Builder::new(alloc);
    is_verified!(alloc, builder, b"\x84\x64MAC0\x40\x43aad\x59\x01\x2c")
}

/// As `mac0_is_verified`, of a message with a recipient.
fn mac_is_verified(alloc: Global) -> Result<bool, Met> {
    let builder = CoseMacBuilder::new(alloc).add_recipient(CoseRecipient::new(alloc))?;
    is_verified!(alloc, builder, b"\x84\x63MAC\x40\x43aad\x59\x01\x2c")
}

/// What the tag of `mac0_is_written` covers with the external data h'01':
/// 84644d41433043a101054101426869.
const COVERED0: &[u8] = b"\x84\x64MAC0\x43\xa1\x01\x05\x41\x01\x42hi";

/// What it covers with the payload "ho" and the external data h'02'.
const OTHER0: &[u8] = b"\x84\x64MAC0\x43\xa1\x01\x05\x41\x02\x42ho";

/// Whether a message is written with the tag of a signer that can't fail.
fn mac0_is_written(alloc: Global) -> Result<bool, Met> {
    let message = tagged!(alloc, CoseMac0Builder::new(alloc), &[1], COVERED0);
    let covered = message.covered(alloc, b"ho", &[2])?;
    let front = b"\xd1\x84\x43\xa1\x01\x05\xa0\x42hi\x59\x01\x2c";
    let is_written = is_tagged_long(alloc, message, front, b"")?;
    Ok(is_written && covered.as_slice() == OTHER0)
}

/// What the tag of `mac_is_written` covers with no external data: 84634d414343a1010540426869.
const COVERED: &[u8] = b"\x84\x63MAC\x43\xa1\x01\x05\x40\x42hi";

/// What it covers with the payload "ho".
const OTHER: &[u8] = b"\x84\x63MAC\x43\xa1\x01\x05\x40\x42ho";

/// As `mac0_is_written`, of a message with a recipient.
fn mac_is_written(alloc: Global) -> Result<bool, Met> {
    let builder = CoseMacBuilder::new(alloc).add_recipient(CoseRecipient::new(alloc))?;
    let message = tagged!(alloc, builder, &[], COVERED);
    let covered = message.covered(alloc, b"ho", &[])?;
    let front = b"\xd8\x61\x85\x43\xa1\x01\x05\xa0\x42hi\x59\x01\x2c";
    let is_written = is_tagged_long(alloc, message, front, b"\x81\x83\x40\xa0\xf6")?;
    Ok(is_written && covered.as_slice() == OTHER)
}

/// What calls of authenticated messages return.
pub(crate) fn of_maced(alloc: Global) -> [Result<bool, CoseError>; 4] {
    [
        flat(mac0_is_verified(alloc)),
        flat(mac_is_verified(alloc)),
        flat(mac0_is_written(alloc)),
        flat(mac_is_written(alloc)),
    ]
}

#[test]
fn a_missing_payload_is_met_first(rt: HostRuntime) {
    let alloc = rt.alloc();
    let header = repeated(&rt, alloc);
    let mut message = CoseMac0Builder::new(alloc).protected(header).build();
    in_order!(
        rt,
        message.payload,
        message.verify_payload_tag(alloc, &[], missing, fails)
    );
    let header = repeated(&rt, alloc);
    let mut message = CoseMacBuilder::new(alloc).protected(header).build();
    in_order!(
        rt,
        message.payload,
        message.verify_payload_tag(alloc, &[], missing, fails)
    );
}

#[test]
fn a_repeated_label_is_met_before_a_signer_that_fails(rt: HostRuntime) {
    let alloc = rt.alloc();
    let failed = CoseMacBuilder::new(alloc)
        .protected(repeated(&rt, alloc))
        .payload(Vec::new(alloc))
        .try_create_tag(alloc, &[], |_| Err(MISMATCH))
        .err();
    assert_eq!(rt; failed, Some(Fault::Cose(CoseError::DuplicateMapKey)));
}
