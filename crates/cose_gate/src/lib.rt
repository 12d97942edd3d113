//! The gate: a CBOR sequence goes in, a judge is asked about each message with a signature or a tag
//! in it, and those that passed come out, each as its canonical encoding (RFC 8742, RFC 9052). And
//! one message checked while its payload passes through the caller's buffer (`stream_check`).
//!
//! A user names this crate alone: what is in the crates below it is here under the same names.
#![tactic(auto)]

mod checking;
mod fault;
mod feeding;
mod form;
mod gating;
pub mod laws;
mod parts;
pub mod stream_laws;
mod titles;

pub use crate::checking::{Place, Streamed, stream_check, stream_check_into, stream_check_with};
pub use crate::fault::StreamFault;
pub use crate::gating::{gate, gate_strict, gate_strict_with, gate_with};
pub use cose_gate_core::{
    About, Algorithm, Asked, ContentType, CoseError, CoseRecipient, CoseSignature, Counts, Decoder,
    End, Entry, Full, GateFault, Header, Io, IoFault, Judge, Label, Limits, Log, Mem, MessageKind,
    ProtectedHeader, Read, Recorder, Refusal, RegisteredLabel, RegisteredLabelWithPrivate, Report,
    SemanticKind, Silent, Terms, Verdict, Write, de,
};
pub use cose_gate_records::{
    Accepted, Asker, Nowhere, Verifier, VerifierJudge, has_algorithm, has_known_crit, key_id,
};
/// The kind of a message, under its short name.
pub use cose_gate_core::MessageKind as Kind;
pub use cose_gate_program::{
    Blocks, HmacJudge, InputFault, NotBegun, Notice, Teller, run, run_judged, run_over,
    run_over_told, run_told, run_with, words, write_notice,
};
pub use cose_hmac::{hmac_sha256, same_tag};
pub use cose_iana as iana;
pub use coset_keys::{CoseKey, CoseKeySet, KeyOperation};
pub use coset_labels::{AsCborValue, CborSerializable, KeyType};
