//! Builders of messages with several signatures.
ghost use Rattle.std.specs.Prelude.{◌≡◌, ◌<◌, None, Some, IfOk, MatchResult, vec_len, vec_capacity};
ghost use Rattle.std.specs.Fn.{FnOnceTakesAt};
ghost use Rattle.coset_headers.specs.Fields.{protected};
ghost use Rattle.coset_headers.specs.View.{header_view, signature_view};
ghost use Rattle.coset_labels.specs.declared.error.CoseError.TheVariants.{Memory};
ghost use Rattle.coset_recipients.specs.Calls.{TakesWhere};
ghost use Rattle.coset_signed.specs.Added.{AddsAt, TriesToAddAt, AddsWhere, TriesToAddWhere};
ghost use Rattle.coset_signed.specs.Builders.{sign_so_far};
ghost use Rattle.coset_signed.specs.Fields.{no_sign, signed_by, also_signed};
ghost use Rattle.coset_signed.specs.Structure.{sign_covered, sign_covered_with};
ghost use Rattle.coset_signed.specs.View.{sign_view};

use crate::sign::CoseSign;
use coset_headers::{CoseSignature, Header};
use coset_labels::{CoseError, Fault};
use std::alloc::Global;

/// A COSE_Sign (RFC 9052, section 4.1) while it is built. Calls that add a signature take memory;
/// the others take none.
#[derive(Drop)]
pub struct CoseSignBuilder {
    message: CoseSign,
}

impl CoseSignBuilder {
    /// A builder of a message with no field.
    pub fn new(alloc: Global) -> CoseSignBuilder
        ensures { sign_so_far result ≡ no_sign }
    {
        CoseSignBuilder {
            message: CoseSign::new(alloc),
        }
    }

    /// The message.
    pub fn build(self) -> CoseSign
        ensures { sign_view result ≡ sign_so_far self }
    {
        self.message
    }

    /// Sets the protected header. It has no received bytes.
    pub fn protected(mut self, header: Header) -> CoseSignBuilder
        ensures { sign_so_far result
            ≡ record (sign_so_far self) { protected = protected None (header_view header) } }
    {
        self.message.protected.original_data = None;
        self.message.protected.header = header;
        self
    }

    /// Sets the unprotected header.
    pub fn unprotected(mut self, header: Header) -> CoseSignBuilder
        ensures { sign_so_far result
            ≡ record (sign_so_far self) { unprotected = header_view header } }
    {
        self.message.unprotected = header;
        self
    }

    /// Sets the payload.
    pub fn payload(mut self, payload: Vec<u8>) -> CoseSignBuilder
        ensures { sign_so_far result ≡ record (sign_so_far self) { payload = Some payload.items } }
    {
        self.message.payload = Some(payload);
        self
    }

    /// Appends a signature.
    ///
    /// # Errors
    /// Only if out of memory.
    pub fn add_signature(mut self, signature: CoseSignature) -> Result<CoseSignBuilder, CoseError>
        ensures { MatchResult result
            (λ b. sign_so_far b ≡ also_signed (sign_so_far self) (signature_view signature))
            (λ e. e ≡ Memory) }
    {
        self.message.signatures.push(signature)?;
        Ok(self)
    }

    /// Makes space for a signature, so that none is made in vain.
    fn with_room(mut self) -> Result<CoseSignBuilder, CoseError>
        ensures built { MatchResult result
            (λ b. sign_so_far b ≡ sign_so_far self)
            (λ e. e ≡ Memory) }
        ensures room { IfOk result
            (λ b. vec_len b.message.signatures < vec_capacity b.message.signatures) }
    {
        self.message.signatures.reserve(1)?;
        Ok(self)
    }

    /// Appends a signature for which there is space.
    fn with_signature(mut self, signature: CoseSignature) -> CoseSignBuilder
        requires { vec_len self.message.signatures < vec_capacity self.message.signatures }
        ensures { sign_so_far result ≡ also_signed (sign_so_far self) (signature_view signature) }
    {
        let _ = self.message.signatures.push(signature);
        self
    }

    /// Appends this signature with the bytes that the signer gives over what it covers. Space for
    /// it was made before.
    fn asked<S: FnOnce(&[u8]) -> Vec<u8>>(
        self,
        signature: CoseSignature,
        covered: &[u8],
        signer: S,
    ) -> CoseSignBuilder
        requires room { vec_len self.message.signatures < vec_capacity self.message.signatures }
        requires signer { FnOnceTakesAt S.FnOnce signer covered.now }
        ensures { AddsAt S.FnOnce signer covered.now
            (λ v b. sign_so_far b
            ≡ also_signed (sign_so_far self) (signed_by (signature_view signature) v.items))
            result }
    {
        let made = signer(covered);
        self.with_signature(signed_by(signature, made))
    }

    /// As `asked`, with a signer that may fail.
    fn try_asked<E, S: FnOnce(&[u8]) -> Result<Vec<u8>, E>>(
        self,
        signature: CoseSignature,
        covered: &[u8],
        signer: S,
    ) -> Result<CoseSignBuilder, E>
        requires room { vec_len self.message.signatures < vec_capacity self.message.signatures }
        requires signer { FnOnceTakesAt S.FnOnce signer covered.now }
        ensures { TriesToAddAt S.FnOnce signer covered.now
            (λ v b. sign_so_far b
            ≡ also_signed (sign_so_far self) (signed_by (signature_view signature) v.items))
            result }
    {
        let made = signer(covered)?;
        Ok(self.with_signature(signed_by(signature, made)))
    }

    /// Makes space for a signature, and asks the signer.
    fn add_made<S: FnOnce(&[u8]) -> Vec<u8>>(
        self,
        signature: CoseSignature,
        covered: &[u8],
        signer: S,
    ) -> Result<CoseSignBuilder, CoseError>
        requires { FnOnceTakesAt S.FnOnce signer covered.now }
        ensures { AddsWhere S.FnOnce signer (Some covered.now)
            (λ v b. sign_so_far b
            ≡ also_signed (sign_so_far self) (signed_by (signature_view signature) v.items))
            result }
    {
        Ok(self.with_room()?.asked(signature, covered, signer))
    }

    /// As `add_made`, with a signer that may fail.
    fn try_add_made<E, S: FnOnce(&[u8]) -> Result<Vec<u8>, E>>(
        self,
        signature: CoseSignature,
        covered: &[u8],
        signer: S,
    ) -> Result<CoseSignBuilder, Fault<E>>
        requires { FnOnceTakesAt S.FnOnce signer covered.now }
        ensures { TriesToAddWhere S.FnOnce signer (Some covered.now)
            (λ v b. sign_so_far b
            ≡ also_signed (sign_so_far self) (signed_by (signature_view signature) v.items))
            result }
    {
        match self.with_room()?.try_asked(signature, covered, signer) {
            Ok(builder) => Ok(builder),
            Err(error) => Err(Fault::Caller(error)),
        }
    }

    /// Appends this signature with the bytes that the signer gives over what it covers (RFC 9052,
    /// section 4.4). Headers and payload are set before.
    ///
    /// # Errors
    /// `DuplicateMapKey` exactly when one of the protected headers can't be written, or `Memory`;
    /// then the signer isn't called.
    pub fn add_created_signature<S: FnOnce(&[u8]) -> Vec<u8>>(
        self,
        alloc: Global,
        signature: CoseSignature,
        aad: &[u8],
        signer: S,
    ) -> Result<CoseSignBuilder, CoseError>
        requires { TakesWhere S.FnOnce signer
            (sign_covered (sign_so_far self) (signature_view signature) aad.now) }
        ensures { AddsWhere S.FnOnce signer
            (sign_covered (sign_so_far self) (signature_view signature) aad.now)
            (λ v b. sign_so_far b
            ≡ also_signed (sign_so_far self) (signed_by (signature_view signature) v.items))
            result }
    {
        let data = self.message.tbs_data(alloc, aad, &signature)?;
        self.add_made(signature, data.as_slice(), signer)
    }

    /// As `add_created_signature`, with a signer that may fail.
    ///
    /// # Errors
    /// `Caller` with the signer's error. `Cose` with an error of `add_created_signature`.
    pub fn try_add_created_signature<E, S: FnOnce(&[u8]) -> Result<Vec<u8>, E>>(
        self,
        alloc: Global,
        signature: CoseSignature,
        aad: &[u8],
        signer: S,
    ) -> Result<CoseSignBuilder, Fault<E>>
        requires { TakesWhere S.FnOnce signer
            (sign_covered (sign_so_far self) (signature_view signature) aad.now) }
        ensures { TriesToAddWhere S.FnOnce signer
            (sign_covered (sign_so_far self) (signature_view signature) aad.now)
            (λ v b. sign_so_far b
            ≡ also_signed (sign_so_far self) (signed_by (signature_view signature) v.items))
            result }
    {
        let data = self.message.tbs_data(alloc, aad, &signature)?;
        self.try_add_made(signature, data.as_slice(), signer)
    }

    /// As `add_created_signature`, of a payload that is carried elsewhere: this one. The message
    /// carries no payload.
    ///
    /// # Errors
    /// As of `add_created_signature`.
    pub fn add_detached_signature<S: FnOnce(&[u8]) -> Vec<u8>>(
        self,
        alloc: Global,
        signature: CoseSignature,
        payload: &[u8],
        aad: &[u8],
        signer: S,
    ) -> Result<CoseSignBuilder, CoseError>
        requires detached { (sign_so_far self).payload ≡ None }
        requires signer { TakesWhere S.FnOnce signer
            (sign_covered_with (sign_so_far self) (signature_view signature) payload.now aad.now) }
        ensures { AddsWhere S.FnOnce signer
            (sign_covered_with (sign_so_far self) (signature_view signature) payload.now aad.now)
            (λ v b. sign_so_far b
            ≡ also_signed (sign_so_far self) (signed_by (signature_view signature) v.items))
            result }
    {
        let data = self
            .message
            .tbs_detached_data(alloc, payload, aad, &signature)?;
        self.add_made(signature, data.as_slice(), signer)
    }

    /// As `add_detached_signature`, with a signer that may fail. The message carries no payload.
    ///
    /// # Errors
    /// `Caller` with the signer's error. `Cose` with an error of `add_detached_signature`.
    pub fn try_add_detached_signature<E, S: FnOnce(&[u8]) -> Result<Vec<u8>, E>>(
        self,
        alloc: Global,
        signature: CoseSignature,
        payload: &[u8],
        aad: &[u8],
        signer: S,
    ) -> Result<CoseSignBuilder, Fault<E>>
        requires detached { (sign_so_far self).payload ≡ None }
        requires signer { TakesWhere S.FnOnce signer
            (sign_covered_with (sign_so_far self) (signature_view signature) payload.now aad.now) }
        ensures { TriesToAddWhere S.FnOnce signer
            (sign_covered_with (sign_so_far self) (signature_view signature) payload.now aad.now)
            (λ v b. sign_so_far b
            ≡ also_signed (sign_so_far self) (signed_by (signature_view signature) v.items))
            result }
    {
        let data = self
            .message
            .tbs_detached_data(alloc, payload, aad, &signature)?;
        self.try_add_made(signature, data.as_slice(), signer)
    }
}

/// The signature with these bytes.
fn signed_by(signature: CoseSignature, bytes: Vec<u8>) -> CoseSignature
    ensures { signature_view result ≡ signed_by (signature_view signature) bytes.items }
{
    let mut signature = signature;
    signature.signature = bytes;
    signature
}
