//! The builder of the COSE_Mac0 message.
ghost use Rattle.std.specs.Prelude.{◌≡◌, Some, None, IsSome};
ghost use Rattle.coset_headers.specs.Fields.{protected};
ghost use Rattle.coset_headers.specs.View.{header_view};
ghost use Rattle.coset_recipients.specs.Calls.{TakesWhere, BuiltWhere, MadeWhere};
ghost use Rattle.coset_maced.specs.Builders.{mac0_so_far, mac0_tag};
ghost use Rattle.coset_maced.specs.Fields.{no_mac0};
ghost use Rattle.coset_maced.specs.Structure.{mac0_covered};
ghost use Rattle.coset_maced.specs.View.{mac0_view};

use crate::mac0::CoseMac0;
use coset_headers::Header;
use coset_labels::{CoseError, Fault};
use std::alloc::Global;

/// A COSE_Mac0 (RFC 9052, section 6.2) while it is built. Plain setters take no memory.
#[derive(Drop)]
pub struct CoseMac0Builder {
    message: CoseMac0,
}

impl CoseMac0Builder {
    /// A builder of a message with no field. It takes no memory.
    pub fn new(alloc: Global) -> CoseMac0Builder
        ensures { mac0_so_far result ≡ no_mac0 }
    {
        CoseMac0Builder {
            message: CoseMac0::new(alloc),
        }
    }

    /// The message.
    pub fn build(self) -> CoseMac0
        ensures { mac0_view result ≡ mac0_so_far self }
    {
        self.message
    }

    /// Sets the protected header. It has no received bytes.
    pub fn protected(mut self, header: Header) -> CoseMac0Builder
        ensures { mac0_so_far result
            ≡ record (mac0_so_far self) { protected = protected None (header_view header) } }
    {
        self.message.protected.original_data = None;
        self.message.protected.header = header;
        self
    }

    /// Sets the unprotected header.
    pub fn unprotected(mut self, header: Header) -> CoseMac0Builder
        ensures { mac0_so_far result
            ≡ record (mac0_so_far self) { unprotected = header_view header } }
    {
        self.message.unprotected = header;
        self
    }

    /// Sets the payload.
    pub fn payload(mut self, payload: Vec<u8>) -> CoseMac0Builder
        ensures { mac0_so_far result ≡ record (mac0_so_far self) { payload = Some payload.items } }
    {
        self.message.payload = Some(payload);
        self
    }

    /// Sets the tag.
    pub fn tag(mut self, tag: Vec<u8>) -> CoseMac0Builder
        ensures built { mac0_so_far result ≡ record (mac0_so_far self) { tag = tag.items } }
        ensures given { mac0_tag result ≡ tag }
    {
        self.message.tag = tag;
        self
    }

    /// Sets the tag that the signer gives (RFC 9052, section 6.3). The signer is handed the
    /// MAC_structure of the protected header, the external data and the payload. A payload is
    /// carried.
    ///
    /// # Errors
    /// Before the signer is asked: `DuplicateMapKey` exactly when a label is repeated in the
    /// protected header, or `Memory`.
    pub fn create_tag<S: FnOnce(&[u8]) -> Vec<u8>>(
        self,
        alloc: Global,
        aad: &[u8],
        signer: S,
    ) -> Result<CoseMac0Builder, CoseError>
        requires present { IsSome (mac0_so_far self).payload }
        requires signer { TakesWhere S.FnOnce signer (mac0_covered (mac0_so_far self) aad.now) }
        ensures { BuiltWhere S.FnOnce signer (mac0_covered (mac0_so_far self) aad.now)
            mac0_tag
            (λ b. mac0_so_far b ≡ record (mac0_so_far self) { tag = (mac0_so_far b).tag }) result }
    {
        let data = self.message.tbm_data(alloc, aad)?;
        let tag = signer(data.as_slice());
        Ok(self.tag(tag))
    }

    /// As `create_tag`, with a signer that may fail. A payload is carried.
    ///
    /// # Errors
    /// `Caller` with the signer's error; `Cose` with an error of `create_tag`.
    pub fn try_create_tag<E, S: FnOnce(&[u8]) -> Result<Vec<u8>, E>>(
        self,
        alloc: Global,
        aad: &[u8],
        signer: S,
    ) -> Result<CoseMac0Builder, Fault<E>>
        requires present { IsSome (mac0_so_far self).payload }
        requires signer { TakesWhere S.FnOnce signer (mac0_covered (mac0_so_far self) aad.now) }
        ensures { MadeWhere S.FnOnce signer (mac0_covered (mac0_so_far self) aad.now)
            mac0_tag
            (λ b. mac0_so_far b ≡ record (mac0_so_far self) { tag = (mac0_so_far b).tag }) result }
    {
        let data = self.message.tbm_data(alloc, aad)?;
        let tag = signer(data.as_slice()).map_err(Fault::Caller)?;
        Ok(self.tag(tag))
    }
}
