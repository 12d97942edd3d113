//! Labels of keys: their names, and whether their values may be shown.
use crate::names::key_parameter;
use crate::parts::{header_of, integer};
use cbor_diag::Bignum;
use ciborium_ll::Header;
use cose_iana::{
    AkpKeyParameter, Ec2KeyParameter, EnumI64, HssLmsKeyParameter, KeyType, OkpKeyParameter,
    RsaKeyParameter, SymmetricKeyParameter, WalnutDsaKeyParameter,
};

/// What the value of a label of keys is.
#[derive(Debug, Clone, Copy, PartialEq, Eq)]
pub enum KeyPart {
    /// The type of the key.
    Type,
    /// The algorithm that it is for.
    Alg,
    /// The operations that it is for.
    Operations,
    /// A curve.
    Curve,
    /// Anything else that is no secret.
    Public,
    /// A secret, or something unknown.
    Secret,
}

/// A label of keys.
#[derive(Debug, Clone, Copy, PartialEq, Eq)]
pub struct KeyLabel {
    /// Its registered name.
    pub name: Option<&'static str>,
    /// What its value is.
    pub part: KeyPart,
}

/// The label of an entry of a map.
#[derive(Debug, Clone, Copy, PartialEq, Eq)]
pub enum Label {
    /// An integer; the lowest one in place of those below it.
    Number(i64),
    /// A bignum, which may be an integer in a longer encoding.
    Bignum,
    /// Anything else.
    Other,
}

impl Label {
    /// The label that an item is.
    pub fn of(item: &[u8]) -> Label {
        match (integer(item), header_of(item)) {
            (Some(number), _) => Label::Number(number),
            (None, Some(Header::Negative(_))) => Label::Number(i64::MIN),
            (None, Some(Header::Tag(2..=3))) => match small_bignum(item) {
                Some(number) => Label::Number(number),
                None => Label::Bignum,
            },
            _ => Label::Other,
        }
    }

    /// Its number, if it is an integer.
    pub fn number(self) -> Option<i64> {
        match self {
            Label::Number(number) => Some(number),
            _ => None,
        }
    }
}

/// The number that a bignum is, if it has a stated length and of its bytes no more than the last 7
/// aren't 0.
fn small_bignum(item: &[u8]) -> Option<i64> {
    let bignum = Bignum::of(item)?;
    let number = small_number(bignum.bytes)?;
    if bignum.is_negative {
        (-1i64).checked_sub(number)
    } else {
        Some(number)
    }
}

/// A number of 7 bytes is at most this.
const MOST: i64 = 0x00ff_ffff_ffff_ffff;

/// The number that these bytes are, if no more than the last 7 aren't 0.
fn small_number(bytes: &[u8]) -> Option<i64> {
    let mut number = 0i64;
    for byte in bytes {
        number = number.checked_mul(256)?.checked_add(i64::from(*byte))?;
    }
    if number >> 56 == 0 {
        Some(number)
    } else {
        None
    }
}

/// A label that has no name. Its value may be a secret.
const UNKNOWN: KeyLabel = KeyLabel {
    name: None,
    part: KeyPart::Secret,
};

fn labeled(name: &'static str, part: KeyPart) -> KeyLabel {
    KeyLabel {
        name: Some(name),
        part,
    }
}

/// What a label is in a key of this type: the registries "COSE Key Common Parameters" and "COSE Key
/// Type Parameters".
pub fn key_label(kty: Option<KeyType>, label: Option<i64>) -> KeyLabel {
    let Some(number) = label else {
        return UNKNOWN;
    };
    match key_parameter(number) {
        Some(name) => labeled(name, common_part(number)),
        None => match kty {
            Some(kty) => label_of_type(kty, number),
            None => UNKNOWN,
        },
    }
}

fn common_part(number: i64) -> KeyPart {
    match number {
        1 => KeyPart::Type,
        2 => KeyPart::Public,
        3 => KeyPart::Alg,
        4 => KeyPart::Operations,
        5 => KeyPart::Public,
        _ => KeyPart::Secret,
    }
}

fn label_of_type(kty: KeyType, number: i64) -> KeyLabel {
    match kty {
        KeyType::Reserved => UNKNOWN,
        KeyType::OKP => okp(number),
        KeyType::EC2 => ec2(number),
        KeyType::RSA => rsa(number),
        KeyType::Symmetric => symmetric(number),
        KeyType::HSS_LMS => hss_lms(number),
        KeyType::WalnutDSA => walnut_dsa(number),
        KeyType::AKP => akp(number),
    }
}

fn okp(number: i64) -> KeyLabel {
    match OkpKeyParameter::from_i64(number) {
        Some(OkpKeyParameter::Crv) => labeled("crv", KeyPart::Curve),
        Some(OkpKeyParameter::X) => labeled("x", KeyPart::Public),
        Some(OkpKeyParameter::D) => labeled("d", KeyPart::Secret),
        None => UNKNOWN,
    }
}

fn ec2(number: i64) -> KeyLabel {
    match Ec2KeyParameter::from_i64(number) {
        Some(Ec2KeyParameter::Crv) => labeled("crv", KeyPart::Curve),
        Some(Ec2KeyParameter::X) => labeled("x", KeyPart::Public),
        Some(Ec2KeyParameter::Y) => labeled("y", KeyPart::Public),
        Some(Ec2KeyParameter::D) => labeled("d", KeyPart::Secret),
        None => UNKNOWN,
    }
}

fn rsa(number: i64) -> KeyLabel {
    match RsaKeyParameter::from_i64(number) {
        Some(RsaKeyParameter::N) => labeled("n", KeyPart::Public),
        Some(RsaKeyParameter::E) => labeled("e", KeyPart::Public),
        Some(RsaKeyParameter::D) => labeled("d", KeyPart::Secret),
        Some(RsaKeyParameter::P) => labeled("p", KeyPart::Secret),
        Some(RsaKeyParameter::Q) => labeled("q", KeyPart::Secret),
        Some(RsaKeyParameter::DP) => labeled("dP", KeyPart::Secret),
        Some(RsaKeyParameter::DQ) => labeled("dQ", KeyPart::Secret),
        Some(RsaKeyParameter::QInv) => labeled("qInv", KeyPart::Secret),
        Some(RsaKeyParameter::Other) => labeled("other", KeyPart::Secret),
        Some(RsaKeyParameter::RI) => labeled("r_i", KeyPart::Secret),
        Some(RsaKeyParameter::DI) => labeled("d_i", KeyPart::Secret),
        Some(RsaKeyParameter::TI) => labeled("t_i", KeyPart::Secret),
        None => UNKNOWN,
    }
}

fn symmetric(number: i64) -> KeyLabel {
    match SymmetricKeyParameter::from_i64(number) {
        Some(SymmetricKeyParameter::K) => labeled("k", KeyPart::Secret),
        None => UNKNOWN,
    }
}

fn hss_lms(number: i64) -> KeyLabel {
    match HssLmsKeyParameter::from_i64(number) {
        Some(HssLmsKeyParameter::Pub) => labeled("pub", KeyPart::Public),
        None => UNKNOWN,
    }
}

fn walnut_dsa(number: i64) -> KeyLabel {
    match WalnutDsaKeyParameter::from_i64(number) {
        Some(WalnutDsaKeyParameter::N) => labeled("N", KeyPart::Public),
        Some(WalnutDsaKeyParameter::Q) => labeled("q", KeyPart::Public),
        Some(WalnutDsaKeyParameter::TValues) => labeled("t-values", KeyPart::Public),
        Some(WalnutDsaKeyParameter::Matrix1) => labeled("matrix 1", KeyPart::Public),
        Some(WalnutDsaKeyParameter::Permutation1) => labeled("permutation 1", KeyPart::Public),
        Some(WalnutDsaKeyParameter::Matrix2) => labeled("matrix 2", KeyPart::Public),
        None => UNKNOWN,
    }
}

fn akp(number: i64) -> KeyLabel {
    match AkpKeyParameter::from_i64(number) {
        Some(AkpKeyParameter::Pub) => labeled("pub", KeyPart::Public),
        Some(AkpKeyParameter::Priv) => labeled("priv", KeyPart::Secret),
        None => UNKNOWN,
    }
}
