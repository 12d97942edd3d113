//! Labels, types, curves and operations of keys.
ghost use Rattle.cose_iana.specs.Registry.{is_private_use};
ghost use Rattle.cose_iana.specs.Keys.{key_parameters, key_types, elliptic_curves, key_operations};
ghost use Rattle.cose_iana.specs.Laws.{key_parameters_in_order, key_types_in_order};
ghost use Rattle.cose_iana.specs.Laws.{elliptic_curves_in_order, elliptic_curves_not_private};
ghost use Rattle.cose_iana.specs.Laws.{key_operations_in_order};

use crate::number::{EnumI64, WithPrivateRange, entry_with, rows};

/// Labels of keys of every type: the registry "COSE Key Common Parameters" (RFC 9052, section 7.1).
#[derive(Debug, Clone, Copy, PartialEq, Eq, PartialOrd, Ord, Hash)]
pub enum KeyParameter {
    /// Reserved.
    Reserved = 0,
    /// The type of the key.
    Kty = 1,
    /// The identifier of the key.
    Kid = 2,
    /// The algorithm that the key is for.
    Alg = 3,
    /// The operations that the key is for.
    KeyOps = 4,
    /// The base of initialization vectors.
    BaseIv = 5,
}

/// Each entry, by rising numbers.
static KEY_PARAMETERS: &[(KeyParameter, i64)] = rows![KeyParameter:
    Reserved, Kty, Kid, Alg, KeyOps, BaseIv,
];

impl EnumI64 for KeyParameter {
    ghost number = { key_parameters.number };

    ghost is_registered = { key_parameters.is_registered };

    ghost entry = { key_parameters.entry };

    ghost there_and_back = { key_parameters.there_and_back };

    ghost back_and_there = { key_parameters.back_and_there };

    ghost in_order = { key_parameters_in_order };

    fn from_i64(i: i64) -> Option<KeyParameter> {
        entry_with(KEY_PARAMETERS, i)
    }

    #[tactic(auto, unfolding(crate::specs::Keys::key_parameters))]
    fn to_i64(self) -> i64 {
        self as i64
    }
}

/// Types of keys: the registry "COSE Key Types" (RFC 9053, section 7).
#[derive(Debug, Clone, Copy, PartialEq, Eq, PartialOrd, Ord, Hash)]
pub enum KeyType {
    /// Reserved.
    Reserved = 0,
    /// An octet key pair.
    OKP = 1,
    /// A key over an elliptic curve, with an x- and a y-coordinate.
    EC2 = 2,
    /// An RSA key.
    RSA = 3,
    /// A symmetric key.
    Symmetric = 4,
    /// A public key of HSS/LMS.
    HSS_LMS = 5,
    /// A public key of WalnutDSA.
    WalnutDSA = 6,
    /// A key pair of one algorithm.
    AKP = 7,
}

/// Each entry, by rising numbers.
static KEY_TYPES: &[(KeyType, i64)] = rows![KeyType:
    Reserved, OKP, EC2, RSA, Symmetric, HSS_LMS, WalnutDSA, AKP,
];

impl EnumI64 for KeyType {
    ghost number = { key_types.number };

    ghost is_registered = { key_types.is_registered };

    ghost entry = { key_types.entry };

    ghost there_and_back = { key_types.there_and_back };

    ghost back_and_there = { key_types.back_and_there };

    ghost in_order = { key_types_in_order };

    fn from_i64(i: i64) -> Option<KeyType> {
        entry_with(KEY_TYPES, i)
    }

    #[tactic(auto, unfolding(crate::specs::Keys::key_types))]
    fn to_i64(self) -> i64 {
        self as i64
    }
}

/// The numbers below this one are for private use.
pub const ELLIPTIC_CURVE_PRIVATE_USE_MAX: i64 = -65536;

/// Curves: the registry "COSE Elliptic Curves" (RFC 9053, section 7.1).
#[derive(Debug, Clone, Copy, PartialEq, Eq, PartialOrd, Ord, Hash)]
pub enum EllipticCurve {
    /// Reserved.
    Reserved = 0,
    /// NIST's P-256, secp256r1.
    P_256 = 1,
    /// NIST's P-384, secp384r1.
    P_384 = 2,
    /// NIST's P-521, secp521r1.
    P_521 = 3,
    /// X25519, for ECDH alone.
    X25519 = 4,
    /// X448, for ECDH alone.
    X448 = 5,
    /// Ed25519, for EdDSA alone.
    Ed25519 = 6,
    /// Ed448, for EdDSA alone.
    Ed448 = 7,
    /// Secp256k1.
    Secp256k1 = 8,
    /// The curve brainpoolP256r1.
    BrainpoolP256R1 = 256,
    /// The curve brainpoolP320r1.
    BrainpoolP320R1 = 257,
    /// The curve brainpoolP384r1.
    BrainpoolP384R1 = 258,
    /// The curve brainpoolP512r1.
    BrainpoolP512R1 = 259,
}

/// Each entry, by rising numbers.
static ELLIPTIC_CURVES: &[(EllipticCurve, i64)] = rows![EllipticCurve:
    Reserved, P_256, P_384, P_521, X25519, X448, Ed25519, Ed448, Secp256k1, BrainpoolP256R1,
    BrainpoolP320R1, BrainpoolP384R1, BrainpoolP512R1,
];

impl EnumI64 for EllipticCurve {
    ghost number = { elliptic_curves.number };

    ghost is_registered = { elliptic_curves.is_registered };

    ghost entry = { elliptic_curves.entry };

    ghost there_and_back = { elliptic_curves.there_and_back };

    ghost back_and_there = { elliptic_curves.back_and_there };

    ghost in_order = { elliptic_curves_in_order };

    fn from_i64(i: i64) -> Option<EllipticCurve> {
        entry_with(ELLIPTIC_CURVES, i)
    }

    #[tactic(auto, unfolding(crate::specs::Keys::elliptic_curves))]
    fn to_i64(self) -> i64 {
        self as i64
    }
}

impl WithPrivateRange for EllipticCurve {
    ghost is_private_number = { is_private_use };

    ghost no_entry_is_private = { elliptic_curves_not_private };

    fn is_private(i: i64) -> bool {
        i < ELLIPTIC_CURVE_PRIVATE_USE_MAX
    }
}

/// What a key may be used for: the values of `key_ops` (RFC 9052, section 7.1).
#[derive(Debug, Clone, Copy, PartialEq, Eq, PartialOrd, Ord, Hash)]
pub enum KeyOperation {
    /// To make signatures.
    Sign = 1,
    /// To verify signatures.
    Verify = 2,
    /// To encrypt content.
    Encrypt = 3,
    /// To decrypt content.
    Decrypt = 4,
    /// To encrypt keys.
    WrapKey = 5,
    /// To decrypt keys.
    UnwrapKey = 6,
    /// To derive keys.
    DeriveKey = 7,
    /// To derive bits that are no key.
    DeriveBits = 8,
    /// To make authentication tags.
    MacCreate = 9,
    /// To verify authentication tags.
    MacVerify = 10,
}

/// Each entry, by rising numbers.
static KEY_OPERATIONS: &[(KeyOperation, i64)] = rows![KeyOperation:
    Sign, Verify, Encrypt, Decrypt, WrapKey, UnwrapKey, DeriveKey, DeriveBits, MacCreate,
    MacVerify,
];

impl EnumI64 for KeyOperation {
    ghost number = { key_operations.number };

    ghost is_registered = { key_operations.is_registered };

    ghost entry = { key_operations.entry };

    ghost there_and_back = { key_operations.there_and_back };

    ghost back_and_there = { key_operations.back_and_there };

    ghost in_order = { key_operations_in_order };

    fn from_i64(i: i64) -> Option<KeyOperation> {
        entry_with(KEY_OPERATIONS, i)
    }

    #[tactic(auto, unfolding(crate::specs::Keys::key_operations))]
    fn to_i64(self) -> i64 {
        self as i64
    }
}
