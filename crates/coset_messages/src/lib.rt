//! The messages of COSE and their recipients (RFC 9052, sections 4 to 6).
//!
//! A user names this crate alone: what is in the crates below it is here under the same names, and
//! `iana` has the registries.
#![tactic(auto)]

pub mod laws;

pub use coset_base::{
    Algorithm, AsCborValue, AsWritten, BytesTitle, CborOrdering, CborSerializable, ContentType,
    CoseError, CoseSignature, CoseSignatureBuilder, EncryptionContext, EndOfFile, Fault, Header,
    HeaderBuilder, KeyType, Label, Limits, MacContext, ProtectedHeader, RegisteredLabel,
    RegisteredLabelWithPrivate, Result, SignatureContext, TaggedCborSerializable, ValueTryAs,
    bytes_title, cbor_type_error, enc_structure_data, enc_structure_in, iana, mac_structure_data,
    mac_structure_in, read_to_value, sig_structure_data, sig_structure_in, to_cbor_array,
    write_to_vec,
};
pub use coset_encrypted::{CoseEncrypt, CoseEncrypt0, CoseEncrypt0Builder, CoseEncryptBuilder};
pub use coset_maced::{
    CoseMac, CoseMac0, CoseMac0Builder, CoseMacBuilder, CoseRecipient, CoseRecipientBuilder,
};
pub use coset_signed::{CoseSign, CoseSign1, CoseSign1Builder, CoseSignBuilder};
