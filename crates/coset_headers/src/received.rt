//! Whether headers and signatures are as received.
ghost use Rattle.std.specs.Prelude.{◌≡◌, IfOk, map};
ghost use Rattle.coset_headers.specs.Received.{is_received_protected, is_received_header};
ghost use Rattle.coset_headers.specs.Received.{is_received_signature, are_received_signatures};
ghost use Rattle.coset_headers.specs.View.{header_view, protected_view, signature_view};
ghost use Rattle.coset_headers.specs.View.{signatures_view, entry_view};
ghost use Rattle.coset_headers.specs.Written.{twice};

use crate::entries::repeats;
use crate::header::{CoseSignature, Header, ProtectedHeader};
use ciborium_value::Value;
use coset_labels::Label;
use std::alloc::{AllocError, Global};

impl Header {
    /// Whether it is as received: no label is in a `rest` twice, and each protected header inside
    /// has its received bytes or is empty. Each header that was read is so.
    ///
    /// It takes memory only for the labels of one `rest` at a time; the first two take none, texts
    /// aside.
    ///
    /// # Errors
    /// Only if out of memory.
    #[cycle(received)]
    pub fn is_received(&self, alloc: Global) -> Result<bool, AllocError>
        ensures { IfOk result (λ r. r ≡ is_received_header (header_view self.now)) }
    {
        if repeats_label(alloc, &self.rest)? {
            return Ok(false);
        }
        are_received(alloc, &self.counter_signatures)
    }
}

impl ProtectedHeader {
    /// Whether it has its received bytes or is empty, as each that was read.
    pub fn is_received(&self) -> bool
        ensures { result ≡ is_received_protected (protected_view self.now) }
    {
        self.original_data.is_some() || self.header.is_empty()
    }
}

impl CoseSignature {
    /// Whether its headers are as received.
    ///
    /// # Errors
    /// Only if out of memory.
    #[cycle(received)]
    pub fn is_received(&self, alloc: Global) -> Result<bool, AllocError>
        ensures { IfOk result (λ r. r ≡ is_received_signature (signature_view self.now)) }
    {
        if !self.protected.is_received() {
            return Ok(false);
        }
        self.unprotected.is_received(alloc)
    }
}

/// Whether signatures are as received.
///
/// # Errors
/// Only if out of memory.
#[cycle(received)]
pub fn are_received(alloc: Global, signatures: &[CoseSignature]) -> Result<bool, AllocError>
    ensures { IfOk result (λ r. r ≡ are_received_signatures (signatures_view signatures.now)) }
{
    'signatures: for signature in signatures {
        if !signature.is_received(alloc)? {
            return Ok(false);
        }
    }
    Ok(true)
}

/// Whether a label is repeated.
#[inline(never)]
fn repeats_label(alloc: Global, rest: &[(Label, Value)]) -> Result<bool, AllocError>
    ensures { IfOk result (λ r. r ≡ twice (map entry_view rest.now)) }
{
    match repeats(alloc, rest) {
        Ok(repeated) => Ok(repeated),
        Err(_) => Err(AllocError),
    }
}
