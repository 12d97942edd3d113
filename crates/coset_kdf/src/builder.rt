//! Builders of KDF contexts and their parts.
ghost use Rattle.std.specs.Prelude.{◌≡◌, Some, None, MatchResult};
ghost use Rattle.cose_iana.specs.Algorithms.{algorithm_number};
ghost use Rattle.coset_labels.specs.Fields.{assigned};
ghost use Rattle.coset_labels.specs.declared.error.CoseError.TheVariants.{Memory};
ghost use Rattle.coset_headers.specs.Fields.{protected};
ghost use Rattle.coset_headers.specs.View.{header_view};
ghost use Rattle.coset_kdf.specs.Builders.{context_so_far, party_so_far, public_so_far};
ghost use Rattle.coset_kdf.specs.Builders.{with_private};
ghost use Rattle.coset_kdf.specs.Fields.{no_context, no_party, no_public};
ghost use Rattle.coset_kdf.specs.View.{context_view, nonce_view, party_view, public_view};

use crate::context::{CoseKdfContext, Nonce, PartyInfo, SuppPubInfo};
use coset_headers::{Header, ProtectedHeader};
use coset_labels::{Algorithm, CoseError, iana};
use std::alloc::Global;

/// What a party brings, while it is built (RFC 9053, section 5.2, PartyInfo). No call takes memory.
#[derive(Drop)]
pub struct PartyInfoBuilder {
    info: PartyInfo,
}

impl PartyInfoBuilder {
    /// A builder of a party of which nothing is known.
    pub fn new(alloc: Global) -> PartyInfoBuilder
        ensures { party_so_far result ≡ no_party }
    {
        PartyInfoBuilder {
            info: PartyInfo::new(alloc),
        }
    }

    /// What the party brings.
    pub fn build(self) -> PartyInfo
        ensures { party_view result ≡ party_so_far self }
    {
        self.info
    }

    /// Sets who the party is.
    pub fn identity(mut self, identity: Vec<u8>) -> PartyInfoBuilder
        ensures { party_so_far result
            ≡ record (party_so_far self) { identity = Some identity.items } }
    {
        self.info.identity = Some(identity);
        self
    }

    /// Sets the party's nonce.
    pub fn nonce(mut self, nonce: Nonce) -> PartyInfoBuilder
        ensures { party_so_far result
            ≡ record (party_so_far self) { nonce = Some (nonce_view nonce) } }
    {
        self.info.nonce = Some(nonce);
        self
    }

    /// Sets what else is known of the party.
    pub fn other(mut self, other: Vec<u8>) -> PartyInfoBuilder
        ensures { party_so_far result ≡ record (party_so_far self) { other = Some other.items } }
    {
        self.info.other = Some(other);
        self
    }
}

/// What both parties know, while it is built (RFC 9053, section 5.2, SuppPubInfo). No call takes
/// memory.
#[derive(Drop)]
pub struct SuppPubInfoBuilder {
    info: SuppPubInfo,
}

impl SuppPubInfoBuilder {
    /// A builder of public information with a key of 0 bits and an empty protected header.
    pub fn new(alloc: Global) -> SuppPubInfoBuilder
        ensures { public_so_far result ≡ no_public }
    {
        SuppPubInfoBuilder {
            info: SuppPubInfo::new(alloc),
        }
    }

    /// What both parties know.
    pub fn build(self) -> SuppPubInfo
        ensures { public_view result ≡ public_so_far self }
    {
        self.info
    }

    /// Sets how many bits of key are derived.
    pub fn key_data_length(mut self, bits: u64) -> SuppPubInfoBuilder
        ensures { public_so_far result ≡ record (public_so_far self) { key_data_length = bits } }
    {
        self.info.key_data_length = bits;
        self
    }

    /// Sets the protected header. It has no received bytes.
    pub fn protected(mut self, header: Header) -> SuppPubInfoBuilder
        ensures { public_so_far result
            ≡ record (public_so_far self) {
              protected_header = protected None (header_view header);
            } }
    {
        self.info.protected = ProtectedHeader {
            original_data: None,
            header,
        };
        self
    }

    /// Sets what else both parties know.
    pub fn other(mut self, other: Vec<u8>) -> SuppPubInfoBuilder
        ensures { public_so_far result ≡ record (public_so_far self) { other = Some other.items } }
    {
        self.info.other = Some(other);
        self
    }
}

/// A context while it is built (RFC 9053, section 5.2, COSE_KDF_Context). The call that appends can
/// run out of memory; the others take none.
#[derive(Drop)]
pub struct CoseKdfContextBuilder {
    context: CoseKdfContext,
}

impl CoseKdfContextBuilder {
    /// A builder of a context of the reserved algorithm, of which nothing else is known.
    pub fn new(alloc: Global) -> CoseKdfContextBuilder
        ensures { context_so_far result ≡ no_context }
    {
        CoseKdfContextBuilder {
            context: CoseKdfContext::new(alloc),
        }
    }

    /// The context.
    pub fn build(self) -> CoseKdfContext
        ensures { context_view result ≡ context_so_far self }
    {
        self.context
    }

    /// Sets the algorithm that the key is for.
    pub fn algorithm(mut self, alg: iana::Algorithm) -> CoseKdfContextBuilder
        ensures { context_so_far result
            ≡ record (context_so_far self) { algorithm = assigned (algorithm_number alg) } }
    {
        self.context.algorithm_id = Algorithm::Assigned(alg);
        self
    }

    /// Sets what party U brings.
    pub fn party_u_info(mut self, info: PartyInfo) -> CoseKdfContextBuilder
        ensures { context_so_far result
            ≡ record (context_so_far self) { party_u = party_view info } }
    {
        self.context.party_u_info = info;
        self
    }

    /// Sets what party V brings.
    pub fn party_v_info(mut self, info: PartyInfo) -> CoseKdfContextBuilder
        ensures { context_so_far result
            ≡ record (context_so_far self) { party_v = party_view info } }
    {
        self.context.party_v_info = info;
        self
    }

    /// Sets what both parties know.
    pub fn supp_pub_info(mut self, info: SuppPubInfo) -> CoseKdfContextBuilder
        ensures { context_so_far result
            ≡ record (context_so_far self) { public = public_view info } }
    {
        self.context.supp_pub_info = info;
        self
    }

    /// Appends what only the parties know.
    ///
    /// # Errors
    /// Only if out of memory.
    pub fn add_supp_priv_info(mut self, info: Vec<u8>) -> Result<CoseKdfContextBuilder, CoseError>
        ensures { MatchResult result
            (λ b. context_so_far b ≡ with_private info.items (context_so_far self))
            (λ e. e ≡ Memory) }
    {
        self.context.supp_priv_info.push(info)?;
        Ok(self)
    }
}
