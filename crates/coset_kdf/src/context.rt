//! KDF contexts and their parts as they are in memory.
ghost use Rattle.std.specs.Prelude.{◌≡◌};
ghost use Rattle.coset_kdf.specs.Fields.{no_context, no_party, no_public};
ghost use Rattle.coset_kdf.specs.View.{context_view, party_view, public_view};

use coset_headers::ProtectedHeader;
use coset_labels::{Algorithm, iana};
use std::alloc::Global;

/// A nonce of a party: a byte string or an integer, which is new each time a key is derived (RFC
/// 9053, section 5.2).
#[derive(Debug, PartialEq, Eq, Drop)]
pub enum Nonce {
    /// A byte string.
    Bytes(Vec<u8>),
    /// An integer.
    Integer(i64),
}

/// What a party of the key derivation brings (RFC 9053, section 5.2, PartyInfo).
#[derive(Debug, PartialEq, Eq, Drop)]
pub struct PartyInfo {
    /// Who the party is.
    pub identity: Option<Vec<u8>>,
    /// The party's nonce.
    pub nonce: Option<Nonce>,
    /// What else is known of the party.
    pub other: Option<Vec<u8>>,
}

/// What both parties know (RFC 9053, section 5.2, SuppPubInfo).
#[derive(Debug, PartialEq, Eq, Drop)]
pub struct SuppPubInfo {
    /// How many bits of key are derived.
    pub key_data_length: u64,
    /// The protected header of the recipient.
    pub protected: ProtectedHeader,
    /// What else both parties know.
    pub other: Option<Vec<u8>>,
}

/// The context of a key derivation (RFC 9053, section 5.2, COSE_KDF_Context).
#[derive(Debug, PartialEq, Eq, Drop)]
pub struct CoseKdfContext {
    pub(crate) algorithm_id: Algorithm,
    pub(crate) party_u_info: PartyInfo,
    pub(crate) party_v_info: PartyInfo,
    pub(crate) supp_pub_info: SuppPubInfo,
    pub(crate) supp_priv_info: Vec<Vec<u8>>,
}

impl PartyInfo {
    /// A party of which nothing is known. It takes no memory.
    pub fn new(_alloc: Global) -> PartyInfo
        ensures { party_view result ≡ no_party }
    {
        PartyInfo {
            identity: None,
            nonce: None,
            other: None,
        }
    }
}

impl SuppPubInfo {
    /// Public information with a key of 0 bits and an empty protected header. It takes no memory.
    pub fn new(alloc: Global) -> SuppPubInfo
        ensures { public_view result ≡ no_public }
    {
        SuppPubInfo {
            key_data_length: 0,
            protected: ProtectedHeader::new(alloc),
            other: None,
        }
    }
}

impl CoseKdfContext {
    /// A context of the reserved algorithm, of which nothing else is known. It takes no memory.
    pub fn new(alloc: Global) -> CoseKdfContext
        ensures { context_view result ≡ no_context }
    {
        CoseKdfContext {
            algorithm_id: Algorithm::Assigned(iana::Algorithm::Reserved),
            party_u_info: PartyInfo::new(alloc),
            party_v_info: PartyInfo::new(alloc),
            supp_pub_info: SuppPubInfo::new(alloc),
            supp_priv_info: Vec::new(alloc),
        }
    }
}
