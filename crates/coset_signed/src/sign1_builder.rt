//! Builders of messages with one signature.
ghost use Rattle.std.specs.Prelude.{◌≡◌, None, Some};
ghost use Rattle.coset_headers.specs.Fields.{protected};
ghost use Rattle.coset_headers.specs.View.{header_view};
ghost use Rattle.coset_recipients.specs.Calls.{TakesWhere, BuiltWhere, MadeWhere};
ghost use Rattle.coset_signed.specs.Builders.{sign1_so_far, sign1_signature};
ghost use Rattle.coset_signed.specs.Fields.{no_sign1};
ghost use Rattle.coset_signed.specs.Structure.{sign1_covered, sign1_covered_with};
ghost use Rattle.coset_signed.specs.View.{sign1_view};

use crate::sign1::CoseSign1;
use coset_headers::Header;
use coset_labels::{CoseError, Fault};
use std::alloc::Global;

/// A COSE_Sign1 (RFC 9052, section 4.2) while it is built. Calls that sign take memory; the others
/// take none.
#[derive(Drop)]
pub struct CoseSign1Builder {
    message: CoseSign1,
}

impl CoseSign1Builder {
    /// A builder of a message with no field.
    pub fn new(alloc: Global) -> CoseSign1Builder
        ensures { sign1_so_far result ≡ no_sign1 }
    {
        CoseSign1Builder {
            message: CoseSign1::new(alloc),
        }
    }

    /// The message.
    pub fn build(self) -> CoseSign1
        ensures { sign1_view result ≡ sign1_so_far self }
    {
        self.message
    }

    /// Sets the protected header. It has no received bytes.
    pub fn protected(mut self, header: Header) -> CoseSign1Builder
        ensures { sign1_so_far result
            ≡ record (sign1_so_far self) { protected = protected None (header_view header) } }
    {
        self.message.protected.original_data = None;
        self.message.protected.header = header;
        self
    }

    /// Sets the unprotected header.
    pub fn unprotected(mut self, header: Header) -> CoseSign1Builder
        ensures { sign1_so_far result
            ≡ record (sign1_so_far self) { unprotected = header_view header } }
    {
        self.message.unprotected = header;
        self
    }

    /// Sets the payload.
    pub fn payload(mut self, payload: Vec<u8>) -> CoseSign1Builder
        ensures { sign1_so_far result
            ≡ record (sign1_so_far self) { payload = Some payload.items } }
    {
        self.message.payload = Some(payload);
        self
    }

    /// Sets the signature.
    pub fn signature(mut self, signature: Vec<u8>) -> CoseSign1Builder
        ensures built { sign1_so_far result
            ≡ record (sign1_so_far self) { signature = signature.items } }
        ensures given { sign1_signature result ≡ signature }
    {
        self.message.signature = signature;
        self
    }

    /// Sets the signature that the signer gives over the bytes that it covers (RFC 9052, section
    /// 4.4). Header and payload are set before.
    ///
    /// # Errors
    /// `DuplicateMapKey` exactly when the protected header can't be written, or `Memory`; then the
    /// signer isn't called.
    pub fn create_signature<S: FnOnce(&[u8]) -> Vec<u8>>(
        self,
        alloc: Global,
        aad: &[u8],
        signer: S,
    ) -> Result<CoseSign1Builder, CoseError>
        requires { TakesWhere S.FnOnce signer (sign1_covered (sign1_so_far self) aad.now) }
        ensures { BuiltWhere S.FnOnce signer (sign1_covered (sign1_so_far self) aad.now)
            sign1_signature
            (λ b. sign1_so_far b
            ≡ record (sign1_so_far self) { signature = (sign1_so_far b).signature }) result }
    {
        let data = self.message.tbs_data(alloc, aad)?;
        let signature = signer(data.as_slice());
        Ok(self.signature(signature))
    }

    /// As `create_signature`, with a signer that may fail.
    ///
    /// # Errors
    /// `Caller` with the signer's error. `Cose` with an error of `create_signature`.
    pub fn try_create_signature<E, S: FnOnce(&[u8]) -> Result<Vec<u8>, E>>(
        self,
        alloc: Global,
        aad: &[u8],
        signer: S,
    ) -> Result<CoseSign1Builder, Fault<E>>
        requires { TakesWhere S.FnOnce signer (sign1_covered (sign1_so_far self) aad.now) }
        ensures { MadeWhere S.FnOnce signer (sign1_covered (sign1_so_far self) aad.now)
            sign1_signature
            (λ b. sign1_so_far b
            ≡ record (sign1_so_far self) { signature = (sign1_so_far b).signature }) result }
    {
        let data = self.message.tbs_data(alloc, aad)?;
        let signature = signer(data.as_slice()).map_err(Fault::Caller)?;
        Ok(self.signature(signature))
    }

    /// As `create_signature`, of a payload that is carried elsewhere: this one. The message carries
    /// no payload.
    ///
    /// # Errors
    /// As of `create_signature`.
    pub fn create_detached_signature<S: FnOnce(&[u8]) -> Vec<u8>>(
        self,
        alloc: Global,
        payload: &[u8],
        aad: &[u8],
        signer: S,
    ) -> Result<CoseSign1Builder, CoseError>
        requires detached { (sign1_so_far self).payload ≡ None }
        requires signer { TakesWhere S.FnOnce signer
            (sign1_covered_with (sign1_so_far self) payload.now aad.now) }
        ensures { BuiltWhere S.FnOnce signer
            (sign1_covered_with (sign1_so_far self) payload.now aad.now)
            sign1_signature
            (λ b. sign1_so_far b
            ≡ record (sign1_so_far self) { signature = (sign1_so_far b).signature }) result }
    {
        let data = self.message.tbs_detached_data(alloc, payload, aad)?;
        let signature = signer(data.as_slice());
        Ok(self.signature(signature))
    }

    /// As `create_detached_signature`, with a signer that may fail. The message carries no payload.
    ///
    /// # Errors
    /// `Caller` with the signer's error. `Cose` with an error of `create_detached_signature`.
    pub fn try_create_detached_signature<E, S: FnOnce(&[u8]) -> Result<Vec<u8>, E>>(
        self,
        alloc: Global,
        payload: &[u8],
        aad: &[u8],
        signer: S,
    ) -> Result<CoseSign1Builder, Fault<E>>
        requires detached { (sign1_so_far self).payload ≡ None }
        requires signer { TakesWhere S.FnOnce signer
            (sign1_covered_with (sign1_so_far self) payload.now aad.now) }
        ensures { MadeWhere S.FnOnce signer
            (sign1_covered_with (sign1_so_far self) payload.now aad.now)
            sign1_signature
            (λ b. sign1_so_far b
            ≡ record (sign1_so_far self) { signature = (sign1_so_far b).signature }) result }
    {
        let data = self.message.tbs_detached_data(alloc, payload, aad)?;
        let signature = signer(data.as_slice()).map_err(Fault::Caller)?;
        Ok(self.signature(signature))
    }
}
