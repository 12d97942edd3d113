//! Claims of a token (as in RFC 8392, A.3) signed, written, and read once the signature is good.
use crate::signer::FakeSigner;
use anyhow::{Context, ensure};
use coset::cbor::value::Value;
use coset::cwt::{ClaimsSet, ClaimsSetBuilder, Timestamp};
use coset::{CborSerializable, CoseError, CoseSign1, CoseSign1Builder, Fault, HeaderBuilder, iana};
use std::alloc::Global;

pub fn run(rt: &HostRuntime) -> anyhow::Result<()> {
    let alloc = rt.alloc();
    let signer = FakeSigner;
    let claims = claims(alloc)?;

    let protected = HeaderBuilder::new(alloc)
        .algorithm(iana::Algorithm::ES256)
        .build();
    let unprotected = HeaderBuilder::new(alloc)
        .key_id(b"AsymmetricECDSA256".to_vec(alloc)?)
        .build();
    let message = CoseSign1Builder::new(alloc)
        .protected(protected)
        .unprotected(unprotected)
        .payload(claims.clone(alloc)?.to_vec(alloc)?)
        .try_create_signature(alloc, b"", move |covered| signer.sign(alloc, covered))?
        .build();
    let bytes = message.to_vec(alloc)?;

    // At the receiving end. Real code would look for the key by its id, and see that it is one for
    // the algorithm of the protected header.
    let message = CoseSign1::from_slice(alloc, &bytes)?;
    let result: Result<(), Fault<&'static str>> = message.verify_signature(
        alloc,
        b"",
        move |signature, covered| { signer.verify(signature, covered) },
    );
    println!(rt; "Signature verified: {result:?}.")?;
    ensure!(result.is_ok());

    // The payload may be read only then.
    let payload = message.payload.context("no payload")?;
    let recovered = ClaimsSet::from_slice(alloc, &payload)?;
    ensure!(recovered == claims);
    println!(rt; "{recovered:?}")?;
    Ok(())
}

/// The claims of a token.
fn claims(alloc: Global) -> Result<ClaimsSet, CoseError> {
    let claims = ClaimsSetBuilder::new(alloc)
        .issuer("coap://as.example.com".to_string(alloc)?)
        .subject("erikw".to_string(alloc)?)
        .audience("coap://light.example.com".to_string(alloc)?)
        .expiration_time(Timestamp::WholeSeconds(1444064944))
        .not_before(Timestamp::WholeSeconds(1443944944))
        .issued_at(Timestamp::WholeSeconds(1443944944))
        .cwt_id(vec![in alloc; 0x0b, 0x71]?)
        // Another claim of the registry, and one of the private range.
        .claim(
            iana::CwtClaimName::Scope,
            Value::from_str(alloc, "email phone")?,
        )?
        .private_claim(-70_000, Value::from(42))?
        .build();
    Ok(claims)
}
