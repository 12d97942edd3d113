//! Labels of headers.
ghost use Rattle.cose_iana.specs.Registry.{is_private_use};
ghost use Rattle.cose_iana.specs.Headers.{header_parameters, header_algorithm_parameters};
ghost use Rattle.cose_iana.specs.Laws.{header_parameters_in_order, header_parameters_not_private};
ghost use Rattle.cose_iana.specs.Laws.{header_algorithm_parameters_in_order};

use crate::number::{EnumI64, WithPrivateRange, entry_with, rows};

/// The numbers below this one are for private use.
pub const HEADER_PARAMETER_PRIVATE_USE_MAX: i64 = -65536;

/// Labels of headers: the registry "COSE Header Parameters" (RFC 9052, section 3.1).
#[derive(Debug, Clone, Copy, PartialEq, Eq, PartialOrd, Ord, Hash)]
pub enum HeaderParameter {
    /// Reserved.
    Reserved = 0,
    /// The algorithm of the message (RFC 9052).
    Alg = 1,
    /// Labels that a receiver has to understand (RFC 9052).
    Crit = 2,
    /// The type of the content (RFC 9052).
    ContentType = 3,
    /// The identifier of the key (RFC 9052).
    Kid = 4,
    /// The whole initialization vector (RFC 9052).
    Iv = 5,
    /// A part of the initialization vector (RFC 9052).
    PartialIv = 6,
    /// A counter signature in its first version (RFC 8152).
    CounterSignature = 7,
    /// An abbreviated counter signature in its first version (RFC 8152).
    CounterSignature0 = 9,
    /// The context of the key identifier (RFC 8613).
    KidContext = 10,
    /// A counter signature (RFC 9338).
    CounterSignatureV2 = 11,
    /// An abbreviated counter signature (RFC 9338).
    CounterSignature0V2 = 12,
    /// A CWT that holds a key (RFC 9528).
    KeyCwt = 13,
    /// A CWT claims set that holds a key (RFC 9528).
    KeyCwtClaimsSet = 14,
    /// Claims of a CWT in a header (RFC 9597).
    CwtClaims = 15,
    /// The type of the whole COSE object (RFC 9596).
    ObjectContentType = 16,
    /// Certificates in no order (RFC 9360).
    X5Bag = 32,
    /// Certificates that form a chain, in order (RFC 9360).
    X5Chain = 33,
    /// The hash of a certificate (RFC 9360).
    X5T = 34,
    /// The address of a certificate (RFC 9360).
    X5U = 35,
    /// A nonce of FIDO Device Onboard.
    CuphNonce = 256,
    /// The owner's public key in FIDO Device Onboard.
    CuphOwnerPubKey = 257,
}

/// Each entry, by rising numbers.
static HEADER_PARAMETERS: &[(HeaderParameter, i64)] = rows![HeaderParameter:
    Reserved, Alg, Crit, ContentType, Kid, Iv, PartialIv, CounterSignature, CounterSignature0,
    KidContext, CounterSignatureV2, CounterSignature0V2, KeyCwt, KeyCwtClaimsSet, CwtClaims,
    ObjectContentType, X5Bag, X5Chain, X5T, X5U, CuphNonce, CuphOwnerPubKey,
];

impl EnumI64 for HeaderParameter {
    ghost number = { header_parameters.number };

    ghost is_registered = { header_parameters.is_registered };

    ghost entry = { header_parameters.entry };

    ghost there_and_back = { header_parameters.there_and_back };

    ghost back_and_there = { header_parameters.back_and_there };

    ghost in_order = { header_parameters_in_order };

    fn from_i64(i: i64) -> Option<HeaderParameter> {
        entry_with(HEADER_PARAMETERS, i)
    }

    #[tactic(auto, unfolding(crate::specs::Headers::header_parameters))]
    fn to_i64(self) -> i64 {
        self as i64
    }
}

impl WithPrivateRange for HeaderParameter {
    ghost is_private_number = { is_private_use };

    ghost no_entry_is_private = { header_parameters_not_private };

    fn is_private(i: i64) -> bool {
        i < HEADER_PARAMETER_PRIVATE_USE_MAX
    }
}

/// Labels of headers that one algorithm or another needs: the registry "COSE Header Algorithm
/// Parameters" (RFC 9053, sections 5 and 6).
#[derive(Debug, Clone, Copy, PartialEq, Eq, PartialOrd, Ord, Hash)]
pub enum HeaderAlgorithmParameter {
    /// The sender's certificates in order (RFC 9360).
    X5ChainSender = -29,
    /// The address of the sender's certificate (RFC 9360).
    X5USender = -28,
    /// The hash of the sender's certificate (RFC 9360).
    X5TSender = -27,
    /// Other information of party V (RFC 9053).
    PartyVOther = -26,
    /// The nonce of party V (RFC 9053).
    PartyVNonce = -25,
    /// The identity of party V (RFC 9053).
    PartyVIdentity = -24,
    /// Other information of party U (RFC 9053).
    PartyUOther = -23,
    /// The nonce of party U (RFC 9053).
    PartyUNonce = -22,
    /// The identity of party U (RFC 9053).
    PartyUIdentity = -21,
    /// A salt for key derivation (RFC 9053).
    Salt = -20,
    /// The identifier of the sender's static key (RFC 9053).
    StaticKeyId = -3,
    /// The sender's static key (RFC 9053).
    StaticKey = -2,
    /// The sender's ephemeral key (RFC 9053).
    EphemeralKey = -1,
}

/// Each entry, by rising numbers.
static HEADER_ALGORITHM_PARAMETERS: &[(HeaderAlgorithmParameter, i64)] =
    rows![HeaderAlgorithmParameter:
    X5ChainSender, X5USender, X5TSender, PartyVOther, PartyVNonce, PartyVIdentity, PartyUOther,
    PartyUNonce, PartyUIdentity, Salt, StaticKeyId, StaticKey, EphemeralKey,
];

impl EnumI64 for HeaderAlgorithmParameter {
    ghost number = { header_algorithm_parameters.number };

    ghost is_registered = { header_algorithm_parameters.is_registered };

    ghost entry = { header_algorithm_parameters.entry };

    ghost there_and_back = { header_algorithm_parameters.there_and_back };

    ghost back_and_there = { header_algorithm_parameters.back_and_there };

    ghost in_order = { header_algorithm_parameters_in_order };

    fn from_i64(i: i64) -> Option<HeaderAlgorithmParameter> {
        entry_with(HEADER_ALGORITHM_PARAMETERS, i)
    }

    #[tactic(auto, unfolding(crate::specs::Headers::header_algorithm_parameters))]
    fn to_i64(self) -> i64 {
        self as i64
    }
}
