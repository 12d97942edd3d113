//! Messages with one signature.
ghost use Rattle.std.specs.Prelude.{◌≡◌, None, IfOk};
ghost use Rattle.coset_recipients.specs.Calls.{TakesPairWhere, AnswersWhere};
ghost use Rattle.coset_recipients.specs.Results.{Writes};
ghost use Rattle.coset_signed.specs.Fields.{no_sign1};
ghost use Rattle.coset_signed.specs.Structure.{sign1_covered, sign1_covered_with};
ghost use Rattle.coset_signed.specs.View.{sign1_view};

use coset_base::{SignatureContext, sig_structure_data};
use coset_headers::{Header, ProtectedHeader};
use coset_labels::{CoseError, Fault, clone_bytes};
use coset_recipients::content_bytes;
use std::alloc::{AllocError, Global};

/// A message with one signature, a COSE_Sign1 (RFC 9052, section 4.2).
#[derive(Debug, PartialEq, Eq, Drop)]
pub struct CoseSign1 {
    /// The header that the signature covers.
    pub protected: ProtectedHeader,
    /// The header that it does not cover.
    pub unprotected: Header,
    /// What is signed; `None` if it is carried elsewhere.
    pub payload: Option<Vec<u8>>,
    /// The signature.
    pub signature: Vec<u8>,
}

impl CoseSign1 {
    /// A message with no field. It takes no memory.
    pub fn new(alloc: Global) -> CoseSign1
        ensures { sign1_view result ≡ no_sign1 }
    {
        CoseSign1 {
            protected: ProtectedHeader::new(alloc),
            unprotected: Header::new(alloc),
            payload: None,
            signature: Vec::new(alloc),
        }
    }

    /// A message equal to this one.
    ///
    /// # Errors
    /// Only if out of memory.
    pub fn clone(&self, alloc: Global) -> Result<CoseSign1, AllocError>
        ensures { IfOk result (λ copy. sign1_view copy ≡ sign1_view self.now) }
    {
        Ok(CoseSign1 {
            protected: self.protected.clone(alloc)?,
            unprotected: self.unprotected.clone(alloc)?,
            payload: clone_bytes(alloc, &self.payload)?,
            signature: self.signature.as_slice().to_vec(alloc)?,
        })
    }

    /// The bytes that the signature covers (RFC 9052, section 4.4). A payload that is carried
    /// elsewhere counts as empty.
    ///
    /// # Errors
    /// `DuplicateMapKey` exactly when the protected header can't be written, or `Memory`.
    pub fn tbs_data(&self, alloc: Global, aad: &[u8]) -> Result<Vec<u8>, CoseError>
        ensures { Writes (sign1_covered (sign1_view self.now) aad.now) (λ v. v.items) result }
    {
        self.covered(alloc, content_bytes(&self.payload), aad)
    }

    /// The bytes that the signature covers if the payload is carried elsewhere: this payload (RFC
    /// 9052, section 4.4). The message carries no payload.
    ///
    /// # Errors
    /// As of `tbs_data`.
    pub fn tbs_detached_data(
        &self,
        alloc: Global,
        payload: &[u8],
        aad: &[u8],
    ) -> Result<Vec<u8>, CoseError>
        requires { self.now.payload ≡ None }
        ensures { Writes (sign1_covered_with (sign1_view self.now) payload.now aad.now)
            (λ v. v.items) result }
    {
        self.covered(alloc, payload, aad)
    }

    /// The bytes that the signature covers with this payload (RFC 9052, section 4.4), wherever it
    /// is carried.
    ///
    /// # Errors
    /// As of `tbs_data`.
    pub fn covered(&self, alloc: Global, payload: &[u8], aad: &[u8]) -> Result<Vec<u8>, CoseError>
        ensures { Writes (sign1_covered_with (sign1_view self.now) payload.now aad.now)
            (λ v. v.items) result }
    {
        sig_structure_data(
            alloc,
            SignatureContext::CoseSign1,
            &self.protected,
            None,
            aad,
            payload,
        )
    }

    /// Asks the verifier about the signature and the bytes that it covers (RFC 9052, section 4.4).
    /// It is called at most once.
    ///
    /// # Errors
    /// `Caller` with the verifier's error. `Cose` with `DuplicateMapKey` exactly when the protected
    /// header can't be written, or with `Memory`; both are met before the verifier is called.
    pub fn verify_signature<E, V: FnOnce(&[u8], &[u8]) -> Result<(), E>>(
        &self,
        alloc: Global,
        aad: &[u8],
        verifier: V,
    ) -> Result<(), Fault<E>>
        requires { TakesPairWhere V.FnOnce verifier self.now.signature.items
            (sign1_covered (sign1_view self.now) aad.now) }
        ensures { AnswersWhere V.FnOnce verifier self.now.signature.items
            (sign1_covered (sign1_view self.now) aad.now) result }
    {
        let data = self.tbs_data(alloc, aad)?;
        verifier(self.signature.as_slice(), data.as_slice()).map_err(Fault::Caller)
    }

    /// As `verify_signature`, of a payload that is carried elsewhere: this one. The message carries
    /// no payload.
    ///
    /// # Errors
    /// As of `verify_signature`.
    pub fn verify_detached_signature<E, V: FnOnce(&[u8], &[u8]) -> Result<(), E>>(
        &self,
        alloc: Global,
        payload: &[u8],
        aad: &[u8],
        verifier: V,
    ) -> Result<(), Fault<E>>
        requires detached { self.now.payload ≡ None }
        requires verifier { TakesPairWhere V.FnOnce verifier self.now.signature.items
            (sign1_covered_with (sign1_view self.now) payload.now aad.now) }
        ensures { AnswersWhere V.FnOnce verifier self.now.signature.items
            (sign1_covered_with (sign1_view self.now) payload.now aad.now) result }
    {
        let data = self.tbs_detached_data(alloc, payload, aad)?;
        verifier(self.signature.as_slice(), data.as_slice()).map_err(Fault::Caller)
    }
}
