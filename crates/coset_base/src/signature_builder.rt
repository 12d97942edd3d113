//! Builders of signatures (RFC 9052, section 4.1).
ghost use Rattle.std.specs.Prelude.{◌≡◌, [], None};
ghost use Rattle.coset_headers.specs.Fields.{no_header, protected, signature};
ghost use Rattle.coset_headers.specs.View.{header_view, protected_view, signature_view};
ghost use Rattle.coset_base.specs.Builders.{signature_so_far};

use coset_headers::{CoseSignature, Header, ProtectedHeader};
use std::alloc::Global;

/// A signature with its headers while it is built (RFC 9052, section 4.1). No call takes memory.
#[derive(Drop)]
pub struct CoseSignatureBuilder {
    protected: ProtectedHeader,
    unprotected: Header,
    signature: Vec<u8>,
}

impl CoseSignatureBuilder {
    /// A builder of a signature with empty headers and no byte.
    pub fn new(alloc: Global) -> CoseSignatureBuilder
        ensures { signature_so_far result ≡ signature (protected None no_header) no_header [] }
    {
        CoseSignatureBuilder {
            protected: ProtectedHeader::new(alloc),
            unprotected: Header::new(alloc),
            signature: Vec::new(alloc),
        }
    }

    /// The signature.
    pub fn build(self) -> CoseSignature
        ensures { signature_view result ≡ signature_so_far self }
    {
        CoseSignature {
            protected: self.protected,
            unprotected: self.unprotected,
            signature: self.signature,
        }
    }

    /// Sets the protected header. It has no received bytes.
    pub fn protected(mut self, header: Header) -> CoseSignatureBuilder
        ensures { signature_so_far result ≡ signature (protected None (header_view header))
            (header_view self.unprotected) self.signature.items }
    {
        self.protected = ProtectedHeader {
            original_data: None,
            header,
        };
        self
    }

    /// Sets the unprotected header.
    pub fn unprotected(mut self, header: Header) -> CoseSignatureBuilder
        ensures { signature_so_far result
            ≡ signature (protected_view self.protected) (header_view header) self.signature.items }
    {
        self.unprotected = header;
        self
    }

    /// Sets the signature's bytes.
    pub fn signature(mut self, bytes: Vec<u8>) -> CoseSignatureBuilder
        ensures { signature_so_far result
            ≡ signature (protected_view self.protected) (header_view self.unprotected) bytes.items }
    {
        self.signature = bytes;
        self
    }
}
