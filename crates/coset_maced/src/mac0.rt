//! The COSE_Mac0 message.
ghost use Rattle.std.specs.Prelude.{◌≡◌, IsSome, IfSome, IfNone, IsSomeAnd, IfOk, MatchOption};
ghost use Rattle.coset_recipients.specs.Calls.{TakesPairWhere, AnswersWhere, AnswersMissing};
ghost use Rattle.coset_recipients.specs.Results.{Writes};
ghost use Rattle.coset_maced.specs.Fields.{no_mac0};
ghost use Rattle.coset_maced.specs.Structure.{mac0_covered, mac0_covered_with};
ghost use Rattle.coset_maced.specs.View.{mac0_view};

use coset_base::{MacContext, mac_structure_data};
use coset_headers::{Header, ProtectedHeader};
use coset_labels::{CoseError, Fault, clone_bytes};
use coset_recipients::content_bytes;
use std::alloc::{AllocError, Global};

/// A message with a tag under a key that its receiver knows (RFC 9052, section 6.2).
#[derive(Debug, PartialEq, Eq, Drop)]
pub struct CoseMac0 {
    /// The protected header.
    pub protected: ProtectedHeader,
    /// The unprotected header.
    pub unprotected: Header,
    /// What the tag covers; `None` if it is carried elsewhere.
    pub payload: Option<Vec<u8>>,
    /// The tag.
    pub tag: Vec<u8>,
}

impl CoseMac0 {
    /// A message with no field. It takes no memory.
    pub fn new(alloc: Global) -> CoseMac0
        ensures { mac0_view result ≡ no_mac0 }
    {
        CoseMac0 {
            protected: ProtectedHeader::new(alloc),
            unprotected: Header::new(alloc),
            payload: None,
            tag: Vec::new(alloc),
        }
    }

    /// A message equal to this one.
    ///
    /// # Errors
    /// Only if out of memory.
    pub fn clone(&self, alloc: Global) -> Result<CoseMac0, AllocError>
        ensures { IfOk result (λ copy. mac0_view copy ≡ mac0_view self.now) }
    {
        Ok(CoseMac0 {
            protected: self.protected.clone(alloc)?,
            unprotected: self.unprotected.clone(alloc)?,
            payload: clone_bytes(alloc, &self.payload)?,
            tag: self.tag.as_slice().to_vec(alloc)?,
        })
    }

    /// The bytes that the tag covers with this payload, the MAC_structure (RFC 9052, section 6.3).
    ///
    /// # Errors
    /// `DuplicateMapKey` exactly when a label is repeated in a protected header that has to be
    /// encoded, or `Memory`.
    pub fn covered(&self, alloc: Global, payload: &[u8], aad: &[u8]) -> Result<Vec<u8>, CoseError>
        ensures { Writes (mac0_covered_with (mac0_view self.now) payload.now aad.now) (λ v. v.items)
            result }
    {
        mac_structure_data(alloc, MacContext::CoseMac0, &self.protected, aad, payload)
    }

    /// The bytes that the tag covers, to be MACed (RFC 9052, section 6.3). A payload that is
    /// carried elsewhere counts as empty.
    ///
    /// # Errors
    /// As of `covered`.
    pub fn tbm_data(&self, alloc: Global, aad: &[u8]) -> Result<Vec<u8>, CoseError>
        ensures { Writes (mac0_covered (mac0_view self.now) aad.now) (λ v. v.items) result }
    {
        self.covered(alloc, content_bytes(&self.payload), aad)
    }

    /// Asks the verifier about the tag (RFC 9052, section 6.3). The verifier is handed the tag and
    /// the MAC_structure of the protected header, the external data and the payload. A payload is
    /// carried.
    ///
    /// # Errors
    /// `Caller` with the verifier's error. `Cose`, before the verifier is asked, with
    /// `DuplicateMapKey` exactly when a label is repeated in a protected header that has to be
    /// encoded, or with `Memory`.
    pub fn verify_tag<E, V: FnOnce(&[u8], &[u8]) -> Result<(), E>>(
        &self,
        alloc: Global,
        aad: &[u8],
        verifier: V,
    ) -> Result<(), Fault<E>>
        requires present { IsSome self.now.payload }
        requires verifier { IfSome self.now.payload
            (λ b. TakesPairWhere V.FnOnce verifier self.now.tag.items
            (mac0_covered_with (mac0_view self.now) b.items aad.now)) }
        ensures { IsSomeAnd self.now.payload
            (λ b. AnswersWhere V.FnOnce verifier self.now.tag.items
            (mac0_covered_with (mac0_view self.now) b.items aad.now) result) }
    {
        let data = self.covered(alloc, content_bytes(&self.payload), aad)?;
        verifier(self.tag.as_slice(), data.as_slice()).map_err(Fault::Caller)
    }

    /// As `verify_tag`, also if no payload is carried.
    ///
    /// # Errors
    /// `Caller` with the error of a missing payload, before anything else; else as of `verify_tag`.
    pub fn verify_payload_tag<E, M: FnOnce() -> E, V: FnOnce(&[u8], &[u8]) -> Result<(), E>>(
        &self,
        alloc: Global,
        aad: &[u8],
        missing: M,
        verifier: V,
    ) -> Result<(), Fault<E>>
        requires missing { IfNone self.now.payload (M.IsAlwaysCallable missing) }
        requires verifier { IfSome self.now.payload
            (λ b. TakesPairWhere V.FnOnce verifier self.now.tag.items
            (mac0_covered_with (mac0_view self.now) b.items aad.now)) }
        ensures { MatchOption self.now.payload (AnswersMissing M.FnOnce missing result)
            (λ b. AnswersWhere V.FnOnce verifier self.now.tag.items
            (mac0_covered_with (mac0_view self.now) b.items aad.now) result) }
    {
        match &self.payload {
            None => Err(Fault::Caller(missing())),
            Some(payload) => {
                let covered = self.covered(alloc, payload.as_slice(), aad)?;
                verifier(self.tag.as_slice(), covered.as_slice()).map_err(Fault::Caller)
            }
        }
    }
}
