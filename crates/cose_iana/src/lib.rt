//! Registries of IANA for COSE: enums whose entries have the registered numbers.
//!
//! Each registry is an enum of its entries, with a number for each, and a table of all of them.
//! Both directions read the enum's numbers: `as i64` is the number of an entry, and so is `to_i64`.
//! `specs/` has each registry once more, as a list of names and numbers to read beside the page of
//! IANA, and enum and table are proved equal to it. It is proved once for every list that each
//! direction undoes the other, that no number is repeated, and that the entries are ordered by
//! their numbers (`EnumI64`). The lists decide, even if a registry of IANA has another entry or
//! number.
//!
//! A new entry is its name with its number in the enum and in the list, and its name in the table,
//! each in the place of its number, since the numbers rise. No proof changes, except that the law
//! of the order of an enum of one entry, once it has two, is written like that of the others. A
//! check refuses a name that isn't in all three, a name in another place, a repeated number, and a
//! number that isn't that of the list.
#![tactic(auto)]

mod algorithm;
mod claims;
mod formats;
mod headers;
mod key_parameters;
mod keys;
mod number;
mod tags;

pub use crate::algorithm::{ALGORITHM_PRIVATE_USE_MAX, Algorithm};
pub use crate::claims::{CWT_CLAIM_PRIVATE_USE_MAX, CwtClaimName};
pub use crate::formats::CoapContentFormat;
pub use crate::headers::{
    HEADER_PARAMETER_PRIVATE_USE_MAX, HeaderAlgorithmParameter, HeaderParameter,
};
pub use crate::key_parameters::{
    AkpKeyParameter, Ec2KeyParameter, HssLmsKeyParameter, OkpKeyParameter, RsaKeyParameter,
    SymmetricKeyParameter, WalnutDsaKeyParameter,
};
pub use crate::keys::{
    ELLIPTIC_CURVE_PRIVATE_USE_MAX, EllipticCurve, KeyOperation, KeyParameter, KeyType,
};
pub use crate::number::{EnumI64, WithPrivateRange};
pub use crate::tags::CborTag;
