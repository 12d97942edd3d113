//! The builder of the COSE_Mac message.
ghost use Rattle.std.specs.Prelude.{◌≡◌, Some, None, IsSome, MatchResult};
ghost use Rattle.coset_labels.specs.declared.error.CoseError.TheVariants.{Memory};
ghost use Rattle.coset_headers.specs.Fields.{protected};
ghost use Rattle.coset_headers.specs.View.{header_view};
ghost use Rattle.coset_recipients.specs.Calls.{TakesWhere, BuiltWhere, MadeWhere};
ghost use Rattle.coset_recipients.specs.Builders.{recipients_and};
ghost use Rattle.coset_recipients.specs.View.{recipient_view};
ghost use Rattle.coset_maced.specs.Builders.{mac_so_far, mac_tag};
ghost use Rattle.coset_maced.specs.Fields.{no_mac};
ghost use Rattle.coset_maced.specs.Structure.{mac_covered};
ghost use Rattle.coset_maced.specs.View.{mac_view};

use crate::mac::CoseMac;
use coset_headers::Header;
use coset_labels::{CoseError, Fault};
use coset_recipients::CoseRecipient;
use std::alloc::Global;

/// A COSE_Mac (RFC 9052, section 6.1) while it is built. Plain setters take no memory.
#[derive(Drop)]
pub struct CoseMacBuilder {
    message: CoseMac,
}

impl CoseMacBuilder {
    /// A builder of a message with no field. It takes no memory.
    pub fn new(alloc: Global) -> CoseMacBuilder
        ensures { mac_so_far result ≡ no_mac }
    {
        CoseMacBuilder {
            message: CoseMac::new(alloc),
        }
    }

    /// The message.
    pub fn build(self) -> CoseMac
        ensures { mac_view result ≡ mac_so_far self }
    {
        self.message
    }

    /// Sets the protected header. It has no received bytes.
    pub fn protected(mut self, header: Header) -> CoseMacBuilder
        ensures { mac_so_far result
            ≡ record (mac_so_far self) { protected = protected None (header_view header) } }
    {
        self.message.protected.original_data = None;
        self.message.protected.header = header;
        self
    }

    /// Sets the unprotected header.
    pub fn unprotected(mut self, header: Header) -> CoseMacBuilder
        ensures { mac_so_far result
            ≡ record (mac_so_far self) { unprotected = header_view header } }
    {
        self.message.unprotected = header;
        self
    }

    /// Sets the payload.
    pub fn payload(mut self, payload: Vec<u8>) -> CoseMacBuilder
        ensures { mac_so_far result ≡ record (mac_so_far self) { payload = Some payload.items } }
    {
        self.message.payload = Some(payload);
        self
    }

    /// Sets the tag.
    pub fn tag(mut self, tag: Vec<u8>) -> CoseMacBuilder
        ensures built { mac_so_far result ≡ record (mac_so_far self) { tag = tag.items } }
        ensures given { mac_tag result ≡ tag }
    {
        self.message.tag = tag;
        self
    }

    /// Appends a recipient.
    ///
    /// # Errors
    /// Only if out of memory.
    pub fn add_recipient(mut self, recipient: CoseRecipient) -> Result<CoseMacBuilder, CoseError>
        ensures { MatchResult result
            (λ b. mac_so_far b
            ≡ record (mac_so_far self) {
              recipients = recipients_and (recipient_view recipient)
                  (mac_so_far self).recipients;
            })
            (λ e. e ≡ Memory) }
    {
        self.message.recipients.push(recipient)?;
        Ok(self)
    }

    /// Sets the tag that the signer gives (RFC 9052, section 6.3). The signer is handed the
    /// MAC_structure of the protected header, the external data and the payload. A payload is
    /// carried.
    ///
    /// # Errors
    /// Before the signer is asked: `DuplicateMapKey` exactly when a label is repeated in the
    /// protected header, or `Memory`.
    pub fn create_tag<S: FnOnce(&[u8]) -> Vec<u8>>(
        self,
        alloc: Global,
        aad: &[u8],
        signer: S,
    ) -> Result<CoseMacBuilder, CoseError>
        requires present { IsSome (mac_so_far self).payload }
        requires signer { TakesWhere S.FnOnce signer (mac_covered (mac_so_far self) aad.now) }
        ensures { BuiltWhere S.FnOnce signer (mac_covered (mac_so_far self) aad.now)
            mac_tag
            (λ b. mac_so_far b ≡ record (mac_so_far self) { tag = (mac_so_far b).tag }) result }
    {
        let data = self.message.tbm_data(alloc, aad)?;
        let tag = signer(data.as_slice());
        Ok(self.tag(tag))
    }

    /// As `create_tag`, with a signer that may fail. A payload is carried.
    ///
    /// # Errors
    /// `Caller` with the signer's error; `Cose` with an error of `create_tag`.
    pub fn try_create_tag<E, S: FnOnce(&[u8]) -> Result<Vec<u8>, E>>(
        self,
        alloc: Global,
        aad: &[u8],
        signer: S,
    ) -> Result<CoseMacBuilder, Fault<E>>
        requires present { IsSome (mac_so_far self).payload }
        requires signer { TakesWhere S.FnOnce signer (mac_covered (mac_so_far self) aad.now) }
        ensures { MadeWhere S.FnOnce signer (mac_covered (mac_so_far self) aad.now)
            mac_tag
            (λ b. mac_so_far b ≡ record (mac_so_far self) { tag = (mac_so_far b).tag }) result }
    {
        let data = self.message.tbm_data(alloc, aad)?;
        let tag = signer(data.as_slice()).map_err(Fault::Caller)?;
        Ok(self.tag(tag))
    }
}
