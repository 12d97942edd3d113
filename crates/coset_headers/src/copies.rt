//! Copies of headers and signatures.
ghost use Rattle.std.specs.Prelude.{◌≡◌, ◌++◌, IfOk, map, option_map};
ghost use Rattle.cose_iana.specs.Formats.{coap_content_formats};
ghost use Rattle.cose_iana.specs.Headers.{header_parameters};
ghost use Rattle.coset_labels.specs.View.{registered_view, named_view};
ghost use Rattle.coset_headers.specs.Copies.{PushesPlain};
ghost use Rattle.coset_headers.specs.View.{header_view, protected_view, signature_view};

use crate::header::{CoseSignature, Header, ProtectedHeader};
use coset_labels::{ContentType, RegisteredLabelWithPrivate, clone_bytes, iana};
use std::alloc::{AllocError, Global};

/// A copy of the type of the content.
pub(crate) fn clone_content_type(
    alloc: Global,
    content_type: &Option<ContentType>,
) -> Result<Option<ContentType>, AllocError>
    ensures { IfOk result (λ copy. option_map (registered_view coap_content_formats.number) copy
        ≡ option_map (registered_view coap_content_formats.number) content_type.now) }
{
    match content_type {
        Some(content_type) => Ok(Some(content_type.clone(alloc)?)),
        None => Ok(None),
    }
}

/// A copy of the labels that have to be understood.
pub(crate) fn clone_crit(
    alloc: Global,
    crit: &[RegisteredLabelWithPrivate<iana::HeaderParameter>],
) -> Result<Vec<RegisteredLabelWithPrivate<iana::HeaderParameter>>, AllocError>
    ensures { IfOk result (λ copies. map (named_view header_parameters.number) copies.items
        ≡ map (named_view header_parameters.number) crit.now) }
{
    let mut copies = Vec::with_capacity(alloc, crit.len())?;
    for name in crit {
        copies.push(name.clone(alloc)?)?;
    }
    Ok(copies)
}

/// Appends a copy of a signature but for the counter signatures in its headers, which have none.
#[inline(never)]
fn push_plain(
    alloc: Global,
    signature: &CoseSignature,
    copies: &mut Vec<CoseSignature>,
) -> Result<(), AllocError>
    ensures { IfOk result (λ _. PushesPlain signature.now copies.old.items copies.new.items) }
{
    let original_data = clone_bytes(alloc, &signature.protected.original_data)?;
    let header = signature.protected.header.clone_plain(alloc)?;
    let unprotected = signature.unprotected.clone_plain(alloc)?;
    let bytes = signature.signature.as_slice().to_vec(alloc)?;
    copies.push(CoseSignature {
        protected: ProtectedHeader {
            original_data,
            header,
        },
        unprotected,
        signature: bytes,
    })?;
    Ok(())
}

/// Appends copies of signatures. What a level of them keeps on the stack is small.
#[cycle(copies)]
fn copy_signatures(
    alloc: Global,
    signatures: &[CoseSignature],
    copies: &mut Vec<CoseSignature>,
) -> Result<(), AllocError>
    ensures { IfOk result (λ _. map signature_view copies.new.items
        ≡ map signature_view copies.old.items ++ map signature_view signatures.now) }
{
    'signatures: for signature in signatures {
        push_plain(alloc, signature, copies)?;
        let last = copies.len() - 1;
        copy_signatures(
            alloc,
            &signature.protected.header.counter_signatures,
            &mut copies[last].protected.header.counter_signatures,
        )?;
        // Computed again, so that nothing is kept on the stack for it.
        let last = copies.len() - 1;
        copy_signatures(
            alloc,
            &signature.unprotected.counter_signatures,
            &mut copies[last].unprotected.counter_signatures,
        )?;
    }
    Ok(())
}

impl Header {
    /// A header equal to this one.
    ///
    /// # Errors
    /// Only if out of memory.
    pub fn clone(&self, alloc: Global) -> Result<Header, AllocError>
        ensures { IfOk result (λ copy. header_view copy ≡ header_view self.now) }
    {
        let mut copy = self.clone_plain(alloc)?;
        copy_signatures(
            alloc,
            &self.counter_signatures,
            &mut copy.counter_signatures,
        )?;
        Ok(copy)
    }
}

impl ProtectedHeader {
    /// A header equal to this one, with the same bytes.
    ///
    /// # Errors
    /// Only if out of memory.
    pub fn clone(&self, alloc: Global) -> Result<ProtectedHeader, AllocError>
        ensures { IfOk result (λ copy. protected_view copy ≡ protected_view self.now) }
    {
        let original_data = clone_bytes(alloc, &self.original_data)?;
        let header = self.header.clone(alloc)?;
        Ok(ProtectedHeader {
            original_data,
            header,
        })
    }
}

impl CoseSignature {
    /// A signature equal to this one.
    ///
    /// # Errors
    /// Only if out of memory.
    pub fn clone(&self, alloc: Global) -> Result<CoseSignature, AllocError>
        ensures { IfOk result (λ copy. signature_view copy ≡ signature_view self.now) }
    {
        let protected = self.protected.clone(alloc)?;
        let unprotected = self.unprotected.clone(alloc)?;
        let signature = self.signature.as_slice().to_vec(alloc)?;
        Ok(CoseSignature {
            protected,
            unprotected,
            signature,
        })
    }
}
