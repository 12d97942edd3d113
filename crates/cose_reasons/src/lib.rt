//! Why a program ends early, and why `cose-gate` and its judge say no, in words.
#![tactic(auto)]

mod keys;
mod meaning;
mod stop;
mod texts;
mod why;

pub use crate::keys::{Held, KeyBook, has_short_secret, read_keys};
pub use crate::meaning::{write_damage, write_refusal};
pub use crate::stop::{Stop, TextKind, fault_of};
pub use crate::texts::{is_of_base64, is_of_hex};
pub use crate::why::{
    Headers, OTHER_KIND, Question, Secret, reason, secret_or_reason, write_key, write_wrong_tag,
};
pub use cbor_diag::{Page, write_char};
pub use cose_notation::Look;
