//! `example_token NOW`: reads CBOR web tokens (RFC 8392) from standard input, one a line and in
//! hex, and prints the claims of each whose tag is good and whose time isn't over at NOW, in
//! seconds since 1970.
#![tactic(auto)]

use cose_hmac::{hmac_sha256, same_tag};
use coset::cwt::ClaimsSet;
use coset::{
    CborSerializable, CoseMac0, Fault, RegisteredLabelWithPrivate, TaggedCborSerializable, iana,
};
use std::alloc::Global;
use std::cmp::Ordering;
use std::env;
use std::io::{self, Write};
use std::process::ExitCode;

/// The key that tokens are tagged with (RFC 8392, Appendix A.2.2).
const KEY: &[u8] =
    b"\x40\x36\x97\xde\x87\xaf\x64\x61\x1c\x1d\x32\xa0\x5d\xab\x0f\xe1\xfc\xb7\x15\xa8\x6a\xb4\x35\xf1\xec\x99\x19\x2d\x79\x56\x93\x88";

/// The tag 61 in front of a message that is a token (RFC 8392, section 6).
const CWT: &[u8] = b"\xd8\x3d";

/// Why a token is refused.
#[derive(Debug, Clone, Copy, PartialEq, Eq)]
enum Refused {
    /// The line is no hex.
    Hex,
    /// It is tagged by another algorithm than HMAC 256/64.
    Algorithm,
    /// It has labels that are critical, and none is known here (RFC 9052, section 3.1).
    Critical,
    /// Its tag isn't good.
    Tag,
    /// It carries no claims.
    NoClaims,
    /// It has expired, or doesn't say when it expires.
    Expired,
}

fn main(rt: HostRuntime) -> io::Result<ExitCode> {
    let Some(now) = env::args(&rt)?
        .nth(1)
        .and_then(|word| word.as_str().parse::<i64>().ok())
    else {
        rt.stderr().write_all(b"usage: example_token NOW\n")?;
        return Ok(ExitCode::from(2));
    };
    for line in rt.lines(rt.alloc()) {
        match check(rt.alloc(), line?.as_str(), now) {
            Ok(claims) => println!(rt; "{claims:?}")?,
            Err(fault) => println!(rt; "refused: {fault:?}")?,
        }
    }
    Ok(ExitCode::from(0))
}

/// The claims of a token that is good now.
fn check(alloc: Global, text: &str, now: i64) -> Result<ClaimsSet, Fault<Refused>> {
    let bytes = hex::decode(alloc, text).map_err(|_| Fault::Caller(Refused::Hex))?;
    let message = CoseMac0::from_tagged_slice(alloc, bytes.strip_prefix(CWT).unwrap_or(&bytes))?;
    if message.protected.header.alg
        != Some(RegisteredLabelWithPrivate::Assigned(iana::Algorithm::HMAC_256_64))
    {
        return Err(Fault::Caller(Refused::Algorithm));
    }
    if !message.protected.header.crit.is_empty() || !message.unprotected.crit.is_empty() {
        return Err(Fault::Caller(Refused::Critical));
    }
    message.verify_payload_tag(
        alloc,
        b"",
        || Refused::NoClaims,
        |tag, covered| verified(tag, covered),
    )?;
    let payload = message.payload.ok_or(Fault::Caller(Refused::NoClaims))?;
    let claims = ClaimsSet::from_slice(alloc, &payload)?;
    if is_over(&claims, now) {
        return Err(Fault::Caller(Refused::Expired));
    }
    Ok(claims)
}

/// Looks whether a tag is the first eight bytes of the HMAC over what it covers: HMAC 256/64
/// (RFC 9053, section 3.1).
fn verified(tag: &[u8], covered: &[u8]) -> Result<(), Refused> {
    if same_tag(&hmac_sha256(KEY, covered)[..8], tag) {
        Ok(())
    } else {
        Err(Refused::Tag)
    }
}

/// Whether the claims have expired, or don't say when they do. A NaN says no time.
fn is_over(claims: &ClaimsSet, now: i64) -> bool {
    let end = claims.expiration_time.as_ref();
    end.and_then(|end| end.partial_cmp_seconds(now)) != Some(Ordering::Greater)
}
