//! The gate itself, the judge's trait, and what a judge is asked (RFC 8742, RFC 9052); laws of
//! runs, whatever the judge. A user names `cose_gate`, which passes it on.
#![tactic(auto)]

mod about;
mod asking;
mod findings;
mod gating;
mod judge;
pub mod laws;
mod mac;
mod mac0;
mod message;
mod output;
mod passing;
mod recorder;
mod report;
mod runs;
mod sign;
mod sign1;
mod terms;
mod writing;

pub use crate::about::{About, MessageKind};
pub use crate::asking::received;
pub use crate::gating::{Counts, GateFault, ItemTerms, gate_by, gate_next};
pub use crate::judge::Judge;
pub use crate::recorder::{Asked, Recorder};
pub use crate::report::{Entry, Refusal, Report, Silent, Verdict};
pub use crate::terms::Terms;
pub use ciborium::de;
pub use ciborium_ll::log::Log;
pub use ciborium_ll::{Decoder, End, Full, Io, IoFault, Mem, Read, Write};
pub use ciborium_value::Kind as SemanticKind;
pub use coset_headers::{CoseSignature, Header, ProtectedHeader};
pub use coset_labels::{
    Algorithm, ContentType, CoseError, Label, Limits, RegisteredLabel, RegisteredLabelWithPrivate,
};
pub use coset_maced::CoseRecipient;
