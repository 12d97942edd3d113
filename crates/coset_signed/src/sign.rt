//! Messages with several signatures.
ghost use Rattle.std.specs.Prelude.{◌≡◌, ◌<◌, None, IfOk, IfSome, IsSomeAnd};
ghost use Rattle.std.specs.Prelude.{length, map};
ghost use Rattle.std.specs.List.{slice_get};
ghost use Rattle.coset_headers.specs.View.{signature_view};
ghost use Rattle.coset_recipients.specs.Calls.{TakesPairWhere, AnswersWhere};
ghost use Rattle.coset_recipients.specs.Results.{Writes};
ghost use Rattle.coset_signed.specs.Fields.{no_sign, signature_bytes};
ghost use Rattle.coset_signed.specs.Structure.{sign_covered, sign_covered_with};
ghost use Rattle.coset_signed.specs.View.{sign_view};

use coset_base::{SignatureContext, sig_structure_data};
use coset_headers::{CoseSignature, Header, ProtectedHeader};
use coset_labels::{CoseError, Fault, clone_bytes};
use coset_recipients::content_bytes;
use std::alloc::{AllocError, Global};

/// A message with signatures, a COSE_Sign (RFC 9052, section 4.1).
#[derive(Debug, PartialEq, Eq, Drop)]
pub struct CoseSign {
    /// The header that each signature covers.
    pub protected: ProtectedHeader,
    /// The header that none covers.
    pub unprotected: Header,
    /// What is signed; `None` if it is carried elsewhere.
    pub payload: Option<Vec<u8>>,
    /// The signatures, each with headers of its own. There may be none.
    pub signatures: Vec<CoseSignature>,
}

impl CoseSign {
    /// A message with no field. It takes no memory.
    pub fn new(alloc: Global) -> CoseSign
        ensures { sign_view result ≡ no_sign }
    {
        CoseSign {
            protected: ProtectedHeader::new(alloc),
            unprotected: Header::new(alloc),
            payload: None,
            signatures: Vec::new(alloc),
        }
    }

    /// A message equal to this one.
    ///
    /// # Errors
    /// Only if out of memory.
    pub fn clone(&self, alloc: Global) -> Result<CoseSign, AllocError>
        ensures { IfOk result (λ copy. sign_view copy ≡ sign_view self.now) }
    {
        Ok(CoseSign {
            protected: self.protected.clone(alloc)?,
            unprotected: self.unprotected.clone(alloc)?,
            payload: clone_bytes(alloc, &self.payload)?,
            signatures: clone_signatures(alloc, &self.signatures)?,
        })
    }

    /// The bytes that a signature with the headers of this one covers (RFC 9052, section 4.4). A
    /// payload that is carried elsewhere counts as empty.
    ///
    /// # Errors
    /// `DuplicateMapKey` exactly when one of the protected headers can't be written, or `Memory`.
    pub fn tbs_data(
        &self,
        alloc: Global,
        aad: &[u8],
        signature: &CoseSignature,
    ) -> Result<Vec<u8>, CoseError>
        ensures { Writes (sign_covered (sign_view self.now) (signature_view signature.now) aad.now)
            (λ v. v.items) result }
    {
        self.covered(alloc, content_bytes(&self.payload), aad, signature)
    }

    /// The bytes that a signature with the headers of this one covers if the payload is carried
    /// elsewhere: this payload (RFC 9052, section 4.4). The message carries no payload.
    ///
    /// # Errors
    /// As of `tbs_data`.
    pub fn tbs_detached_data(
        &self,
        alloc: Global,
        payload: &[u8],
        aad: &[u8],
        signature: &CoseSignature,
    ) -> Result<Vec<u8>, CoseError>
        requires { self.now.payload ≡ None }
        ensures { Writes
            (sign_covered_with (sign_view self.now) (signature_view signature.now) payload.now
            aad.now) (λ v. v.items) result }
    {
        self.covered(alloc, payload, aad, signature)
    }

    /// The bytes that a signature with the headers of this one covers with this payload (RFC 9052,
    /// section 4.4), wherever it is carried.
    ///
    /// # Errors
    /// As of `tbs_data`.
    pub fn covered(
        &self,
        alloc: Global,
        payload: &[u8],
        aad: &[u8],
        signature: &CoseSignature,
    ) -> Result<Vec<u8>, CoseError>
        ensures { Writes
            (sign_covered_with (sign_view self.now) (signature_view signature.now) payload.now
            aad.now) (λ v. v.items) result }
    {
        sig_structure_data(
            alloc,
            SignatureContext::CoseSignature,
            &self.protected,
            Some(&signature.protected),
            aad,
            payload,
        )
    }

    /// Asks the verifier about one of the signatures and the bytes that it covers (RFC 9052,
    /// section 4.4). It is called at most once. `which` counts from 0 and is below the number of
    /// signatures.
    ///
    /// # Errors
    /// `Caller` with the verifier's error. `Cose` with `DuplicateMapKey` exactly when one of the
    /// protected headers can't be written, or with `Memory`; both are met before the verifier is
    /// called.
    pub fn verify_signature<E, V: FnOnce(&[u8], &[u8]) -> Result<(), E>>(
        &self,
        alloc: Global,
        which: usize,
        aad: &[u8],
        verifier: V,
    ) -> Result<(), Fault<E>>
        requires which { which < length self.now.signatures.items }
        requires verifier { IfSome (slice_get self.now.signatures.items which)
            (λ s. TakesPairWhere V.FnOnce verifier (signature_bytes (signature_view s))
            (sign_covered (sign_view self.now) (signature_view s) aad.now)) }
        ensures { IsSomeAnd (slice_get self.now.signatures.items which)
            (λ s. AnswersWhere V.FnOnce verifier (signature_bytes (signature_view s))
            (sign_covered (sign_view self.now) (signature_view s) aad.now) result) }
    {
        let signature = &self.signatures[which];
        let data = self.tbs_data(alloc, aad, signature)?;
        verifier(signature_bytes(signature), data.as_slice()).map_err(Fault::Caller)
    }

    /// As `verify_signature`, of a payload that is carried elsewhere: this one. `which` counts from
    /// 0 and is below the number of signatures. The message carries no payload.
    ///
    /// # Errors
    /// As of `verify_signature`.
    pub fn verify_detached_signature<E, V: FnOnce(&[u8], &[u8]) -> Result<(), E>>(
        &self,
        alloc: Global,
        which: usize,
        payload: &[u8],
        aad: &[u8],
        verifier: V,
    ) -> Result<(), Fault<E>>
        requires which { which < length self.now.signatures.items }
        requires detached { self.now.payload ≡ None }
        requires verifier { IfSome (slice_get self.now.signatures.items which)
            (λ s. TakesPairWhere V.FnOnce verifier (signature_bytes (signature_view s))
            (sign_covered_with (sign_view self.now) (signature_view s) payload.now aad.now)) }
        ensures { IsSomeAnd (slice_get self.now.signatures.items which)
            (λ s. AnswersWhere V.FnOnce verifier (signature_bytes (signature_view s))
            (sign_covered_with (sign_view self.now) (signature_view s) payload.now aad.now)
            result) }
    {
        let signature = &self.signatures[which];
        let data = self.tbs_detached_data(alloc, payload, aad, signature)?;
        verifier(signature_bytes(signature), data.as_slice()).map_err(Fault::Caller)
    }
}

fn signature_bytes(signature: &CoseSignature) -> &[u8]
    ensures { result.now ≡ signature_bytes (signature_view signature.now) }
{
    signature.signature.as_slice()
}

fn clone_signatures(
    alloc: Global,
    signatures: &[CoseSignature],
) -> Result<Vec<CoseSignature>, AllocError>
    ensures { IfOk result
        (λ copies. map signature_view copies.items ≡ map signature_view signatures.now) }
{
    let mut copies = Vec::new(alloc);
    for signature in signatures {
        copies.push(signature.clone(alloc)?)?;
    }
    Ok(copies)
}
