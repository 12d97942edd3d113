//! How much memory a structure takes: its own length, once. A heap (`LocalHeap`) that holds just
//! that is enough, and a shorter one is not. No clause says so.
//!
//! This fails if the vector of a structure grows while it is written. A body of `sig_structure_in`
//! or one of its like that takes memory of this allocator for a copy of the payload, or for a
//! second vector, beside the one that it returns, is a borrow error: the allocator is moved into
//! that one. A body that copies the received bytes is refused by the clause `lent` of `show`.
use coset_base::{
    EncryptionContext, MacContext, SignatureContext, enc_structure_in, mac_structure_in,
    sig_structure_in,
};
use coset_headers::{Header, ProtectedHeader};
use coset_labels::CoseError;
use linked_list_allocator::LocalHeap;
use std::alloc::{AllocError, Global};

/// Received bytes, external data and a payload. In a structure each has a title of 3 bytes.
const LONG: &[u8] = &[7; 640];

/// The heap gives memory in multiples of so many bytes.
const UNIT: usize = 16;

/// A protected header that was received.
fn received(alloc: Global) -> Result<ProtectedHeader, AllocError> {
    Ok(ProtectedHeader {
        original_data: Some(LONG.to_vec(alloc)?),
        header: Header::new(alloc),
    })
}

/// How long a Sig_structure with a signer is, made in a heap of so many bytes.
fn signed_in(alloc: Global, size: usize) -> Result<usize, CoseError> {
    let heap = LocalHeap::new(alloc, size)?;
    let body = received(alloc)?;
    let signer = received(alloc)?;
    let context = SignatureContext::CoseSignature;
    let covered = sig_structure_in(&heap, context, &body, Some(&signer), LONG, LONG)?;
    Ok(covered.len())
}

/// How long a MAC_structure is, made in a heap of so many bytes.
fn maced_in(alloc: Global, size: usize) -> Result<usize, CoseError> {
    let heap = LocalHeap::new(alloc, size)?;
    let protected = received(alloc)?;
    let covered = mac_structure_in(&heap, MacContext::CoseMac0, &protected, LONG, LONG)?;
    Ok(covered.len())
}

/// How long an Enc_structure is, made in a heap of so many bytes.
fn encrypted_in(alloc: Global, size: usize) -> Result<usize, CoseError> {
    let heap = LocalHeap::new(alloc, size)?;
    let protected = received(alloc)?;
    let context = EncryptionContext::CoseEncrypt0;
    let covered = enc_structure_in(&heap, context, &protected, LONG)?;
    Ok(covered.len())
}

#[test]
fn a_structure_takes_its_length_once(rt: HostRuntime) {
    let alloc = rt.alloc();
    let signed = 1 + 10 + 4 * (3 + LONG.len());
    assert_eq!(rt; signed_in(alloc, signed), Ok(signed));
    assert_eq!(rt; signed_in(alloc, signed - UNIT), Err(CoseError::Memory));
    let maced = 1 + 5 + 3 * (3 + LONG.len());
    assert_eq!(rt; maced_in(alloc, maced), Ok(maced));
    assert_eq!(rt; maced_in(alloc, maced - UNIT), Err(CoseError::Memory));
    let encrypted = 1 + 9 + 2 * (3 + LONG.len());
    assert_eq!(rt; encrypted_in(alloc, encrypted), Ok(encrypted));
    assert_eq!(rt;
        encrypted_in(alloc, encrypted - UNIT),
        Err(CoseError::Memory)
    );
}
