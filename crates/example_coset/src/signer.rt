//! A signer that is none, so that the examples need no library for signatures.
use std::alloc::{AllocError, Global};

/// Its signature is what is signed.
#[derive(Clone, Copy)]
pub struct FakeSigner;

impl FakeSigner {
    /// The signature over the covered bytes.
    pub fn sign(self, alloc: Global, covered: &[u8]) -> Result<Vec<u8>, AllocError> {
        covered.to_vec(alloc)
    }

    /// Whether this is the signature over the covered bytes.
    pub fn verify(self, signature: &[u8], covered: &[u8]) -> Result<(), &'static str> {
        if signature == covered {
            Ok(())
        } else {
            Err("failed to verify")
        }
    }
}
