//! A COSE_Sign1 signed, written, read and verified, and what changes that.
use crate::signer::FakeSigner;
use anyhow::ensure;
use coset::{
    CborSerializable, ContentType, CoseSign1, CoseSign1Builder, Fault, HeaderBuilder, iana,
};
use std::alloc::Global;

const CONTENT: &str = "This is the content";

const AAD: &str = "this is additional data";

pub fn run(rt: &HostRuntime) -> anyhow::Result<()> {
    let alloc = rt.alloc();
    let signer = FakeSigner;

    let protected = HeaderBuilder::new(alloc)
        .algorithm(iana::Algorithm::ES256)
        .key_id(b"11".to_vec(alloc)?)
        .build();
    let message = CoseSign1Builder::new(alloc)
        .protected(protected)
        .payload(CONTENT.as_bytes().to_vec(alloc)?)
        .try_create_signature(
            alloc,
            AAD.as_bytes(),
            move |covered| signer.sign(alloc, covered),
        )?
        .build();
    let bytes = message.to_vec(alloc)?;
    println!(rt; "'{CONTENT}' + '{AAD}' => {}", hex::encode(alloc, &bytes)?)?;

    // At the receiving end.
    let mut message = CoseSign1::from_slice(alloc, &bytes)?;
    let result = verified(alloc, &message, AAD.as_bytes());
    println!(rt; "Signature verified: {result:?}.")?;
    ensure!(result.is_ok());

    // Another unprotected header leaves the signature good.
    message.unprotected.content_type = Some(ContentType::Text("text/plain".to_string(alloc)?));
    ensure!(verified(alloc, &message, AAD.as_bytes()).is_ok());

    // With other external data it isn't good.
    ensure!(verified(alloc, &message, b"not aad").is_err());

    // Nor is it with another protected header.
    message.protected.header.content_type = Some(ContentType::Text("text/plain".to_string(alloc)?));
    message.protected.original_data = None;
    ensure!(verified(alloc, &message, AAD.as_bytes()).is_err());
    Ok(())
}

/// Whether the signature is good.
fn verified(alloc: Global, message: &CoseSign1, aad: &[u8]) -> Result<(), Fault<&'static str>> {
    let verifier = FakeSigner;
    message.verify_signature(alloc, aad, move |signature, covered| {
        verifier.verify(signature, covered)
    })
}
