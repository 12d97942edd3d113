//! What all COSE messages share (RFC 9052): errors, labels, headers, their builders and what writes
//! them to a sink, and the structures that signatures, tags and encryptions cover.
//!
//! A user names this crate alone: what is in the crates below it is here under the same names, and
//! `iana` has the registries.
#![tactic(auto)]

mod context;
mod header_builder;
pub mod laws;
mod prefix;
mod signature_builder;
mod sink;
mod structure;
mod title;

pub use crate::context::{EncryptionContext, MacContext, SignatureContext};
pub use crate::header_builder::HeaderBuilder;
pub use crate::signature_builder::CoseSignatureBuilder;
pub use crate::sink::{
    put_bytes, put_header, put_protected, put_rest, put_signature, put_signatures,
};
pub use crate::structure::{
    enc_structure_data, enc_structure_in, mac_structure_data, mac_structure_in, sig_structure_data,
    sig_structure_in,
};
pub use crate::title::{BytesTitle, bytes_title};
pub use cose_iana as iana;
pub use coset_headers::{CoseSignature, Header, ProtectedHeader, are_received};
pub use coset_labels::{
    Algorithm, AsCborValue, AsWritten, CborOrdering, CborSerializable, ContentType, CoseError,
    EndOfFile, Fault, KeyType, Label, Limits, RegisteredLabel, RegisteredLabelWithPrivate, Result,
    TaggedCborSerializable, ValueTryAs, cbor_type_error, read_to_value, to_cbor_array,
    write_to_vec,
};
