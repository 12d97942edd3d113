//! Labels of keys of one type.
ghost use Rattle.cose_iana.specs.KeyParameters.{okp_key_parameters, ec2_key_parameters};
ghost use Rattle.cose_iana.specs.KeyParameters.{rsa_key_parameters, symmetric_key_parameters};
ghost use Rattle.cose_iana.specs.KeyParameters.{hss_lms_key_parameters, walnut_dsa_key_parameters};
ghost use Rattle.cose_iana.specs.KeyParameters.{akp_key_parameters};
ghost use Rattle.cose_iana.specs.Laws.{okp_key_parameters_in_order, ec2_key_parameters_in_order};
ghost use Rattle.cose_iana.specs.Laws.{rsa_key_parameters_in_order};
ghost use Rattle.cose_iana.specs.Laws.{symmetric_key_parameters_in_order};
ghost use Rattle.cose_iana.specs.Laws.{hss_lms_key_parameters_in_order};
ghost use Rattle.cose_iana.specs.Laws.{walnut_dsa_key_parameters_in_order};
ghost use Rattle.cose_iana.specs.Laws.{akp_key_parameters_in_order};

use crate::number::{EnumI64, entry_with, rows};

/// Labels of keys of the type OKP, from the registry "COSE Key Type Parameters" (RFC 9053, section
/// 7.2).
#[derive(Debug, Clone, Copy, PartialEq, Eq, PartialOrd, Ord, Hash)]
pub enum OkpKeyParameter {
    /// The private key.
    D = -4,
    /// The public key.
    X = -2,
    /// The curve.
    Crv = -1,
}

/// Each entry, by rising numbers.
static OKP_KEY_PARAMETERS: &[(OkpKeyParameter, i64)] = rows![OkpKeyParameter: D, X, Crv];

impl EnumI64 for OkpKeyParameter {
    ghost number = { okp_key_parameters.number };

    ghost is_registered = { okp_key_parameters.is_registered };

    ghost entry = { okp_key_parameters.entry };

    ghost there_and_back = { okp_key_parameters.there_and_back };

    ghost back_and_there = { okp_key_parameters.back_and_there };

    ghost in_order = { okp_key_parameters_in_order };

    fn from_i64(i: i64) -> Option<OkpKeyParameter> {
        entry_with(OKP_KEY_PARAMETERS, i)
    }

    #[tactic(auto, unfolding(crate::specs::KeyParameters::okp_key_parameters))]
    fn to_i64(self) -> i64 {
        self as i64
    }
}

/// Labels of keys of the type EC2, from the registry "COSE Key Type Parameters" (RFC 9053, section
/// 7.1.1).
#[derive(Debug, Clone, Copy, PartialEq, Eq, PartialOrd, Ord, Hash)]
pub enum Ec2KeyParameter {
    /// The private key.
    D = -4,
    /// The y-coordinate, or its sign.
    Y = -3,
    /// The x-coordinate.
    X = -2,
    /// The curve.
    Crv = -1,
}

/// Each entry, by rising numbers.
static EC2_KEY_PARAMETERS: &[(Ec2KeyParameter, i64)] = rows![Ec2KeyParameter: D, Y, X, Crv];

impl EnumI64 for Ec2KeyParameter {
    ghost number = { ec2_key_parameters.number };

    ghost is_registered = { ec2_key_parameters.is_registered };

    ghost entry = { ec2_key_parameters.entry };

    ghost there_and_back = { ec2_key_parameters.there_and_back };

    ghost back_and_there = { ec2_key_parameters.back_and_there };

    ghost in_order = { ec2_key_parameters_in_order };

    fn from_i64(i: i64) -> Option<Ec2KeyParameter> {
        entry_with(EC2_KEY_PARAMETERS, i)
    }

    #[tactic(auto, unfolding(crate::specs::KeyParameters::ec2_key_parameters))]
    fn to_i64(self) -> i64 {
        self as i64
    }
}

/// Labels of keys of the type RSA, from the registry "COSE Key Type Parameters" (RFC 8230).
#[derive(Debug, Clone, Copy, PartialEq, Eq, PartialOrd, Ord, Hash)]
pub enum RsaKeyParameter {
    /// The CRT coefficient of another prime.
    TI = -12,
    /// The CRT exponent of another prime.
    DI = -11,
    /// Another prime.
    RI = -10,
    /// The other primes, with their exponents and coefficients.
    Other = -9,
    /// The first CRT coefficient.
    QInv = -8,
    /// The CRT exponent of the second prime.
    DQ = -7,
    /// The CRT exponent of the first prime.
    DP = -6,
    /// The second prime.
    Q = -5,
    /// The first prime.
    P = -4,
    /// The private exponent.
    D = -3,
    /// The public exponent.
    E = -2,
    /// The modulus.
    N = -1,
}

/// Each entry, by rising numbers.
static RSA_KEY_PARAMETERS: &[(RsaKeyParameter, i64)] = rows![RsaKeyParameter:
    TI, DI, RI, Other, QInv, DQ, DP, Q, P, D, E, N,
];

impl EnumI64 for RsaKeyParameter {
    ghost number = { rsa_key_parameters.number };

    ghost is_registered = { rsa_key_parameters.is_registered };

    ghost entry = { rsa_key_parameters.entry };

    ghost there_and_back = { rsa_key_parameters.there_and_back };

    ghost back_and_there = { rsa_key_parameters.back_and_there };

    ghost in_order = { rsa_key_parameters_in_order };

    fn from_i64(i: i64) -> Option<RsaKeyParameter> {
        entry_with(RSA_KEY_PARAMETERS, i)
    }

    #[tactic(auto, unfolding(crate::specs::KeyParameters::rsa_key_parameters))]
    fn to_i64(self) -> i64 {
        self as i64
    }
}

/// Labels of symmetric keys, from the registry "COSE Key Type Parameters" (RFC 9053, section 7.3).
#[derive(Debug, Clone, Copy, PartialEq, Eq, PartialOrd, Ord, Hash)]
pub enum SymmetricKeyParameter {
    /// The key.
    K = -1,
}

/// Each entry, by rising numbers.
static SYMMETRIC_KEY_PARAMETERS: &[(SymmetricKeyParameter, i64)] = rows![SymmetricKeyParameter: K];

impl EnumI64 for SymmetricKeyParameter {
    ghost number = { symmetric_key_parameters.number };

    ghost is_registered = { symmetric_key_parameters.is_registered };

    ghost entry = { symmetric_key_parameters.entry };

    ghost there_and_back = { symmetric_key_parameters.there_and_back };

    ghost back_and_there = { symmetric_key_parameters.back_and_there };

    ghost in_order = { symmetric_key_parameters_in_order };

    fn from_i64(i: i64) -> Option<SymmetricKeyParameter> {
        entry_with(SYMMETRIC_KEY_PARAMETERS, i)
    }

    #[tactic(auto, unfolding(crate::specs::KeyParameters::symmetric_key_parameters))]
    fn to_i64(self) -> i64 {
        self as i64
    }
}

/// Labels of keys of the type HSS-LMS, from the registry "COSE Key Type Parameters" (RFC 8778).
#[derive(Debug, Clone, Copy, PartialEq, Eq, PartialOrd, Ord, Hash)]
pub enum HssLmsKeyParameter {
    /// The public key.
    Pub = -1,
}

/// Each entry, by rising numbers.
static HSS_LMS_KEY_PARAMETERS: &[(HssLmsKeyParameter, i64)] = rows![HssLmsKeyParameter: Pub];

impl EnumI64 for HssLmsKeyParameter {
    ghost number = { hss_lms_key_parameters.number };

    ghost is_registered = { hss_lms_key_parameters.is_registered };

    ghost entry = { hss_lms_key_parameters.entry };

    ghost there_and_back = { hss_lms_key_parameters.there_and_back };

    ghost back_and_there = { hss_lms_key_parameters.back_and_there };

    ghost in_order = { hss_lms_key_parameters_in_order };

    fn from_i64(i: i64) -> Option<HssLmsKeyParameter> {
        entry_with(HSS_LMS_KEY_PARAMETERS, i)
    }

    #[tactic(auto, unfolding(crate::specs::KeyParameters::hss_lms_key_parameters))]
    fn to_i64(self) -> i64 {
        self as i64
    }
}

/// Labels of keys of the type WalnutDSA, from the registry "COSE Key Type Parameters" (RFC 9021).
#[derive(Debug, Clone, Copy, PartialEq, Eq, PartialOrd, Ord, Hash)]
pub enum WalnutDsaKeyParameter {
    /// The second matrix.
    Matrix2 = -6,
    /// The permutation that belongs to the first matrix.
    Permutation1 = -5,
    /// The first matrix.
    Matrix1 = -4,
    /// The T-values.
    TValues = -3,
    /// The size of the field.
    Q = -2,
    /// The size of the group and of the matrices.
    N = -1,
}

/// Each entry, by rising numbers.
static WALNUT_DSA_KEY_PARAMETERS: &[(WalnutDsaKeyParameter, i64)] = rows![WalnutDsaKeyParameter:
    Matrix2, Permutation1, Matrix1, TValues, Q, N,
];

impl EnumI64 for WalnutDsaKeyParameter {
    ghost number = { walnut_dsa_key_parameters.number };

    ghost is_registered = { walnut_dsa_key_parameters.is_registered };

    ghost entry = { walnut_dsa_key_parameters.entry };

    ghost there_and_back = { walnut_dsa_key_parameters.there_and_back };

    ghost back_and_there = { walnut_dsa_key_parameters.back_and_there };

    ghost in_order = { walnut_dsa_key_parameters_in_order };

    fn from_i64(i: i64) -> Option<WalnutDsaKeyParameter> {
        entry_with(WALNUT_DSA_KEY_PARAMETERS, i)
    }

    #[tactic(auto, unfolding(crate::specs::KeyParameters::walnut_dsa_key_parameters))]
    fn to_i64(self) -> i64 {
        self as i64
    }
}

/// Labels of keys of the type AKP, from the registry "COSE Key Type Parameters".
#[derive(Debug, Clone, Copy, PartialEq, Eq, PartialOrd, Ord, Hash)]
pub enum AkpKeyParameter {
    /// The private key.
    Priv = -2,
    /// The public key.
    Pub = -1,
}

/// Each entry, by rising numbers.
static AKP_KEY_PARAMETERS: &[(AkpKeyParameter, i64)] = rows![AkpKeyParameter: Priv, Pub];

impl EnumI64 for AkpKeyParameter {
    ghost number = { akp_key_parameters.number };

    ghost is_registered = { akp_key_parameters.is_registered };

    ghost entry = { akp_key_parameters.entry };

    ghost there_and_back = { akp_key_parameters.there_and_back };

    ghost back_and_there = { akp_key_parameters.back_and_there };

    ghost in_order = { akp_key_parameters_in_order };

    fn from_i64(i: i64) -> Option<AkpKeyParameter> {
        entry_with(AKP_KEY_PARAMETERS, i)
    }

    #[tactic(auto, unfolding(crate::specs::KeyParameters::akp_key_parameters))]
    fn to_i64(self) -> i64 {
        self as i64
    }
}
