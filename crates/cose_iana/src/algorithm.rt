//! Algorithms.
ghost use Rattle.cose_iana.specs.Registry.{is_private_use};
ghost use Rattle.cose_iana.specs.Algorithms.{algorithms};
ghost use Rattle.cose_iana.specs.Laws.{algorithms_in_order, algorithms_not_private};

use crate::number::{EnumI64, WithPrivateRange, entry_with, rows};

/// The numbers below this one are for private use.
pub const ALGORITHM_PRIVATE_USE_MAX: i64 = -65536;

/// Algorithms: the registry "COSE Algorithms" (RFC 9053).
#[derive(Debug, Clone, Copy, PartialEq, Eq, PartialOrd, Ord, Hash)]
pub enum Algorithm {
    /// RSASSA-PKCS1-v1_5 with SHA-1.
    RS1 = -65535,
    /// AES-CTR with a 128-bit key.
    AesCtr128 = -65534,
    /// AES-CTR with a 192-bit key.
    AesCtr192 = -65533,
    /// AES-CTR with a 256-bit key.
    AesCtr256 = -65532,
    /// AES-CBC with a 128-bit key.
    AesCbc128 = -65531,
    /// AES-CBC with a 192-bit key.
    AesCbc192 = -65530,
    /// AES-CBC with a 256-bit key.
    AesCbc256 = -65529,
    /// ECDSA over brainpoolP512r1 with SHA-512.
    ESB512 = -268,
    /// ECDSA over brainpoolP384r1 with SHA-384.
    ESB384 = -267,
    /// ECDSA over brainpoolP320r1 with SHA-384.
    ESB320 = -266,
    /// ECDSA over brainpoolP256r1 with SHA-256.
    ESB256 = -265,
    /// WalnutDSA.
    WalnutDSA = -260,
    /// RSASSA-PKCS1-v1_5 with SHA-512.
    RS512 = -259,
    /// RSASSA-PKCS1-v1_5 with SHA-384.
    RS384 = -258,
    /// RSASSA-PKCS1-v1_5 with SHA-256.
    RS256 = -257,
    /// EdDSA over Ed448.
    Ed448 = -53,
    /// ECDSA over P-521 with SHA-512.
    ESP512 = -52,
    /// ECDSA over P-384 with SHA-384.
    ESP384 = -51,
    /// ML-DSA-87.
    ML_DSA_87 = -50,
    /// ML-DSA-65.
    ML_DSA_65 = -49,
    /// ML-DSA-44.
    ML_DSA_44 = -48,
    /// ECDSA over secp256k1 with SHA-256.
    ES256K = -47,
    /// HSS/LMS, a hash-based signature.
    HSS_LMS = -46,
    /// SHAKE256 with 512 bits of output.
    SHAKE256 = -45,
    /// SHA-512.
    SHA_512 = -44,
    /// SHA-384.
    SHA_384 = -43,
    /// RSAES-OAEP with SHA-512.
    RSAES_OAEP_SHA_512 = -42,
    /// RSAES-OAEP with SHA-256.
    RSAES_OAEP_SHA_256 = -41,
    /// RSAES-OAEP with the default parameters of RFC 8017.
    RSAES_OAEP_RFC_8017_default = -40,
    /// RSASSA-PSS with SHA-512.
    PS512 = -39,
    /// RSASSA-PSS with SHA-384.
    PS384 = -38,
    /// RSASSA-PSS with SHA-256.
    PS256 = -37,
    /// ECDSA with SHA-512.
    ES512 = -36,
    /// ECDSA with SHA-384.
    ES384 = -35,
    /// ECDH of two static keys, and AES key wrap with a 256-bit key.
    ECDH_SS_A256KW = -34,
    /// ECDH of two static keys, and AES key wrap with a 192-bit key.
    ECDH_SS_A192KW = -33,
    /// ECDH of two static keys, and AES key wrap with a 128-bit key.
    ECDH_SS_A128KW = -32,
    /// ECDH with an ephemeral key, and AES key wrap with a 256-bit key.
    ECDH_ES_A256KW = -31,
    /// ECDH with an ephemeral key, and AES key wrap with a 192-bit key.
    ECDH_ES_A192KW = -30,
    /// ECDH with an ephemeral key, and AES key wrap with a 128-bit key.
    ECDH_ES_A128KW = -29,
    /// ECDH of two static keys, with HKDF over SHA-512.
    ECDH_SS_HKDF_512 = -28,
    /// ECDH of two static keys, with HKDF over SHA-256.
    ECDH_SS_HKDF_256 = -27,
    /// ECDH with an ephemeral key, with HKDF over SHA-512.
    ECDH_ES_HKDF_512 = -26,
    /// ECDH with an ephemeral key, with HKDF over SHA-256.
    ECDH_ES_HKDF_256 = -25,
    /// EdDSA over Ed25519.
    Ed25519 = -19,
    /// SHAKE128 with 256 bits of output.
    SHAKE128 = -18,
    /// SHA-512, cut to 256 bits.
    SHA_512_256 = -17,
    /// SHA-256.
    SHA_256 = -16,
    /// SHA-256, cut to 64 bits.
    SHA_256_64 = -15,
    /// SHA-1.
    SHA_1 = -14,
    /// A shared secret with HKDF over AES-MAC, with a 256-bit key.
    Direct_HKDF_AES_256 = -13,
    /// A shared secret with HKDF over AES-MAC, with a 128-bit key.
    Direct_HKDF_AES_128 = -12,
    /// A shared secret with HKDF over SHA-512.
    Direct_HKDF_SHA_512 = -11,
    /// A shared secret with HKDF over SHA-256.
    Direct_HKDF_SHA_256 = -10,
    /// ECDSA over P-256 with SHA-256.
    ESP256 = -9,
    /// EdDSA.
    EdDSA = -8,
    /// ECDSA with SHA-256.
    ES256 = -7,
    /// The shared key encrypts the content directly.
    Direct = -6,
    /// AES key wrap with a 256-bit key.
    A256KW = -5,
    /// AES key wrap with a 192-bit key.
    A192KW = -4,
    /// AES key wrap with a 128-bit key.
    A128KW = -3,
    /// Reserved.
    Reserved = 0,
    /// AES-GCM with a 128-bit key and a 128-bit tag.
    A128GCM = 1,
    /// AES-GCM with a 192-bit key and a 128-bit tag.
    A192GCM = 2,
    /// AES-GCM with a 256-bit key and a 128-bit tag.
    A256GCM = 3,
    /// HMAC with SHA-256, the tag cut to 64 bits.
    HMAC_256_64 = 4,
    /// HMAC with SHA-256.
    HMAC_256_256 = 5,
    /// HMAC with SHA-384.
    HMAC_384_384 = 6,
    /// HMAC with SHA-512.
    HMAC_512_512 = 7,
    /// AES-CCM with a 128-bit key, a 64-bit tag and a 13-byte nonce.
    AES_CCM_16_64_128 = 10,
    /// AES-CCM with a 256-bit key, a 64-bit tag and a 13-byte nonce.
    AES_CCM_16_64_256 = 11,
    /// AES-CCM with a 128-bit key, a 64-bit tag and a 7-byte nonce.
    AES_CCM_64_64_128 = 12,
    /// AES-CCM with a 256-bit key, a 64-bit tag and a 7-byte nonce.
    AES_CCM_64_64_256 = 13,
    /// AES-MAC with a 128-bit key and a 64-bit tag.
    AES_MAC_128_64 = 14,
    /// AES-MAC with a 256-bit key and a 64-bit tag.
    AES_MAC_256_64 = 15,
    /// ChaCha20 and Poly1305 with a 256-bit key and a 128-bit tag.
    ChaCha20Poly1305 = 24,
    /// AES-MAC with a 128-bit key and a 128-bit tag.
    AES_MAC_128_128 = 25,
    /// AES-MAC with a 256-bit key and a 128-bit tag.
    AES_MAC_256_128 = 26,
    /// AES-CCM with a 128-bit key, a 128-bit tag and a 13-byte nonce.
    AES_CCM_16_128_128 = 30,
    /// AES-CCM with a 256-bit key, a 128-bit tag and a 13-byte nonce.
    AES_CCM_16_128_256 = 31,
    /// AES-CCM with a 128-bit key, a 128-bit tag and a 7-byte nonce.
    AES_CCM_64_128_128 = 32,
    /// AES-CCM with a 256-bit key, a 128-bit tag and a 7-byte nonce.
    AES_CCM_64_128_256 = 33,
    /// Generation of initialization vectors.
    IV_GENERATION = 34,
}

/// Each entry, by rising numbers.
static ALGORITHMS: &[(Algorithm, i64)] = rows![Algorithm:
    RS1, AesCtr128, AesCtr192, AesCtr256, AesCbc128, AesCbc192, AesCbc256, ESB512, ESB384, ESB320,
    ESB256, WalnutDSA, RS512, RS384, RS256, Ed448, ESP512, ESP384, ML_DSA_87, ML_DSA_65, ML_DSA_44,
    ES256K, HSS_LMS, SHAKE256, SHA_512, SHA_384, RSAES_OAEP_SHA_512, RSAES_OAEP_SHA_256,
    RSAES_OAEP_RFC_8017_default, PS512, PS384, PS256, ES512, ES384, ECDH_SS_A256KW, ECDH_SS_A192KW,
    ECDH_SS_A128KW, ECDH_ES_A256KW, ECDH_ES_A192KW, ECDH_ES_A128KW, ECDH_SS_HKDF_512,
    ECDH_SS_HKDF_256, ECDH_ES_HKDF_512, ECDH_ES_HKDF_256, Ed25519, SHAKE128, SHA_512_256, SHA_256,
    SHA_256_64, SHA_1, Direct_HKDF_AES_256, Direct_HKDF_AES_128, Direct_HKDF_SHA_512,
    Direct_HKDF_SHA_256, ESP256, EdDSA, ES256, Direct, A256KW, A192KW, A128KW, Reserved, A128GCM,
    A192GCM, A256GCM, HMAC_256_64, HMAC_256_256, HMAC_384_384, HMAC_512_512, AES_CCM_16_64_128,
    AES_CCM_16_64_256, AES_CCM_64_64_128, AES_CCM_64_64_256, AES_MAC_128_64, AES_MAC_256_64,
    ChaCha20Poly1305, AES_MAC_128_128, AES_MAC_256_128, AES_CCM_16_128_128, AES_CCM_16_128_256,
    AES_CCM_64_128_128, AES_CCM_64_128_256, IV_GENERATION,
];

impl EnumI64 for Algorithm {
    ghost number = { algorithms.number };

    ghost is_registered = { algorithms.is_registered };

    ghost entry = { algorithms.entry };

    ghost there_and_back = { algorithms.there_and_back };

    ghost back_and_there = { algorithms.back_and_there };

    ghost in_order = { algorithms_in_order };

    fn from_i64(i: i64) -> Option<Algorithm> {
        entry_with(ALGORITHMS, i)
    }

    #[tactic(auto, unfolding(crate::specs::Algorithms::algorithms))]
    fn to_i64(self) -> i64 {
        self as i64
    }
}

impl WithPrivateRange for Algorithm {
    ghost is_private_number = { is_private_use };

    ghost no_entry_is_private = { algorithms_not_private };

    fn is_private(i: i64) -> bool {
        i < ALGORITHM_PRIVATE_USE_MAX
    }
}
