//! Names of claims.
ghost use Rattle.cose_iana.specs.Registry.{is_private_use};
ghost use Rattle.cose_iana.specs.Claims.{cwt_claim_names};
ghost use Rattle.cose_iana.specs.Laws.{cwt_claim_names_in_order, cwt_claim_names_not_private};

use crate::number::{EnumI64, WithPrivateRange, entry_with, rows};

/// The numbers below this one are for private use.
pub const CWT_CLAIM_PRIVATE_USE_MAX: i64 = -65536;

/// Names of claims: the registry "CBOR Web Token (CWT) Claims" (RFC 8392, section 9.1).
#[derive(Debug, Clone, Copy, PartialEq, Eq, PartialOrd, Ord, Hash)]
pub enum CwtClaimName {
    /// Components in the sense of GlobalPlatform.
    GlobalPlatformComponents = -261,
    /// A health certificate.
    Hcert = -260,
    /// A nonce of FIDO Device Onboard.
    EuphNonce = -259,
    /// A prefix of what FIDO Device Onboard signs.
    EatMaroePrefix = -258,
    /// Data of FIDO Device Onboard.
    EatFido = -257,
    /// Reserved.
    Reserved = 0,
    /// The issuer (RFC 8392).
    Iss = 1,
    /// The subject (RFC 8392).
    Sub = 2,
    /// The audience (RFC 8392).
    Aud = 3,
    /// The time from which the token is no longer accepted (RFC 8392).
    Exp = 4,
    /// The time before which the token is not accepted (RFC 8392).
    Nbf = 5,
    /// The time at which the token was issued (RFC 8392).
    Iat = 6,
    /// The identifier of the token (RFC 8392).
    Cti = 7,
    /// The key of which possession is confirmed (RFC 8747).
    Cnf = 8,
    /// The scope of an access token (RFC 9200).
    Scope = 9,
    /// A nonce (RFC 9711).
    Nonce = 10,
    /// The profile of ACE to use (RFC 9200).
    AceProfile = 38,
    /// The client's nonce (RFC 9200).
    CNonce = 39,
    /// For how many seconds the token holds from its receipt on (RFC 9200).
    Exi = 40,
    /// The universal identifier of the entity (RFC 9711).
    UEID = 256,
    /// Further universal identifiers of the entity (RFC 9711).
    SUEIDs = 257,
    /// The maker of the hardware (RFC 9711).
    HardwareOemid = 258,
    /// The model of the hardware (RFC 9711).
    HardwareModel = 259,
    /// The version of the hardware (RFC 9711).
    HardwareVersion = 260,
    /// The seconds since the last boot (RFC 9711).
    Uptime = 261,
    /// Whether the boot was authorized by the maker (RFC 9711).
    OemAuthorizedBoot = 262,
    /// The state of the debugging facilities (RFC 9711).
    DebugStatus = 263,
    /// The geographic location (RFC 9711).
    Location = 264,
    /// The profile that the token follows (RFC 9711).
    EatProfile = 265,
    /// The section of submodules (RFC 9711).
    SubmodulesSection = 266,
    /// How often the entity has booted (RFC 9711).
    BootCount = 267,
    /// A value that stands for one boot (RFC 9711).
    BootSeed = 268,
    /// Certifications by digital letters of approval (RFC 9711).
    DLoAs = 269,
    /// The name of the software (RFC 9711).
    SoftwareName = 270,
    /// The version of the software (RFC 9711).
    SoftwareVersion = 271,
    /// Manifests of the software (RFC 9711).
    SoftwareManifests = 272,
    /// Measurements of the software or its configuration (RFC 9711).
    Measurements = 273,
    /// Results of comparing measurements with reference values (RFC 9711).
    SoftwareMeasurementResults = 274,
    /// What the token is meant for (RFC 9711).
    IntendedUse = 275,
    /// A geohash.
    Geohash = 282,
    /// The version of a watermarking token.
    WmVersion = 300,
    /// The vendor of the watermark.
    WmVendor = 301,
    /// The length of the watermark's pattern.
    WmPatternLen = 302,
    /// The duration of a watermarked segment.
    WmSegmentDuration = 303,
    /// The watermark's pattern.
    WmPattern = 304,
    /// An input from which the pattern of the watermark is derived.
    WmId = 305,
    /// A further input from which the pattern of the watermark is derived.
    WmOpId = 306,
    /// The key by which the pattern of the watermark is derived.
    WmKeyVer = 307,
    /// Replay of a Common Access Token.
    CatReplay = 308,
    /// Probability of rejection of a Common Access Token.
    CatPor = 309,
    /// The version of a Common Access Token.
    CatVersion = 310,
    /// Network addresses of a Common Access Token.
    CatNetworkIp = 311,
    /// The URI of a Common Access Token.
    CatUri = 312,
    /// The HTTP methods of a Common Access Token.
    CatMethod = 313,
    /// The ALPN of a Common Access Token.
    CatAlpn = 314,
    /// The HTTP headers of a Common Access Token.
    CatHeader = 315,
    /// The countries and regions of a Common Access Token.
    CatGeoIso3166 = 316,
    /// The geographic coordinates of a Common Access Token.
    CatGeoCoord = 317,
    /// The altitude of a Common Access Token.
    CatGeoAlt = 318,
    /// The TLS public key of a Common Access Token.
    CatTlsPublicKey = 319,
    /// Data for the conditions of a Common Access Token.
    CatIfData = 320,
    /// Proof of possession in a Common Access Token.
    CatDPoP = 321,
    /// The conditions of a Common Access Token.
    CatIf = 322,
    /// The renewal of a Common Access Token.
    CatRenewal = 323,
    /// The client of a PSA token (RFC 9783).
    PsaClientId = 2394,
    /// The security lifecycle in a PSA token (RFC 9783).
    PsaSecurityLifecycle = 2395,
    /// The implementation in a PSA token (RFC 9783).
    PsaImplementationId = 2396,
    /// The certification reference in a PSA token (RFC 9783).
    PsaCertificationReference = 2398,
    /// The software components in a PSA token (RFC 9783).
    PsaSoftwareComponents = 2399,
    /// The verification service of a PSA token (RFC 9783).
    PsaVerificationServiceIndicator = 2400,
}

/// Each entry, by rising numbers.
static CWT_CLAIM_NAMES: &[(CwtClaimName, i64)] = rows![CwtClaimName:
    GlobalPlatformComponents, Hcert, EuphNonce, EatMaroePrefix, EatFido, Reserved, Iss, Sub, Aud,
    Exp, Nbf, Iat, Cti, Cnf, Scope, Nonce, AceProfile, CNonce, Exi, UEID, SUEIDs, HardwareOemid,
    HardwareModel, HardwareVersion, Uptime, OemAuthorizedBoot, DebugStatus, Location, EatProfile,
    SubmodulesSection, BootCount, BootSeed, DLoAs, SoftwareName, SoftwareVersion,
    SoftwareManifests, Measurements, SoftwareMeasurementResults, IntendedUse, Geohash, WmVersion,
    WmVendor, WmPatternLen, WmSegmentDuration, WmPattern, WmId, WmOpId, WmKeyVer, CatReplay,
    CatPor, CatVersion, CatNetworkIp, CatUri, CatMethod, CatAlpn, CatHeader, CatGeoIso3166,
    CatGeoCoord, CatGeoAlt, CatTlsPublicKey, CatIfData, CatDPoP, CatIf, CatRenewal, PsaClientId,
    PsaSecurityLifecycle, PsaImplementationId, PsaCertificationReference, PsaSoftwareComponents,
    PsaVerificationServiceIndicator,
];

impl EnumI64 for CwtClaimName {
    ghost number = { cwt_claim_names.number };

    ghost is_registered = { cwt_claim_names.is_registered };

    ghost entry = { cwt_claim_names.entry };

    ghost there_and_back = { cwt_claim_names.there_and_back };

    ghost back_and_there = { cwt_claim_names.back_and_there };

    ghost in_order = { cwt_claim_names_in_order };

    fn from_i64(i: i64) -> Option<CwtClaimName> {
        entry_with(CWT_CLAIM_NAMES, i)
    }

    fn to_i64(self) -> i64 {
        self as i64
    }
}

impl WithPrivateRange for CwtClaimName {
    ghost is_private_number = { is_private_use };

    ghost no_entry_is_private = { cwt_claim_names_not_private };

    fn is_private(i: i64) -> bool {
        i < CWT_CLAIM_PRIVATE_USE_MAX
    }
}
