//! Tags.
ghost use Rattle.cose_iana.specs.Tags.{cbor_tags};
ghost use Rattle.cose_iana.specs.Laws.{cbor_tags_in_order};

use crate::number::{EnumI64, entry_with, rows};

/// Tags of COSE and of CBOR Web Tokens, from the registry "CBOR Tags" (RFC 8949, section 9.2).
#[derive(Debug, Clone, Copy, PartialEq, Eq, PartialOrd, Ord, Hash)]
pub enum CborTag {
    /// A COSE_Encrypt0 (RFC 9052).
    CoseEncrypt0 = 16,
    /// A COSE_Mac0 (RFC 9052).
    CoseMac0 = 17,
    /// A COSE_Sign1 (RFC 9052).
    CoseSign1 = 18,
    /// A counter signature that is alone (RFC 9338).
    CoseCountersignature = 19,
    /// A CBOR Web Token (RFC 8392).
    Cwt = 61,
    /// A COSE_Encrypt (RFC 9052).
    CoseEncrypt = 96,
    /// A COSE_Mac (RFC 9052).
    CoseMac = 97,
    /// A COSE_Sign (RFC 9052).
    CoseSign = 98,
}

/// Each entry, by rising numbers.
static CBOR_TAGS: &[(CborTag, i64)] = rows![CborTag:
    CoseEncrypt0, CoseMac0, CoseSign1, CoseCountersignature, Cwt, CoseEncrypt, CoseMac, CoseSign,
];

impl EnumI64 for CborTag {
    ghost number = { cbor_tags.number };

    ghost is_registered = { cbor_tags.is_registered };

    ghost entry = { cbor_tags.entry };

    ghost there_and_back = { cbor_tags.there_and_back };

    ghost back_and_there = { cbor_tags.back_and_there };

    ghost in_order = { cbor_tags_in_order };

    fn from_i64(i: i64) -> Option<CborTag> {
        entry_with(CBOR_TAGS, i)
    }

    #[tactic(auto, unfolding(crate::specs::Tags::cbor_tags))]
    fn to_i64(self) -> i64 {
        self as i64
    }
}
