//! Which signatures and MACs may be asked about, and under which keys (RFC 9052, sections 3, 3.1,
//! 7.1 and 8), and which claims let a token pass (RFC 8392).
#![tactic(auto)]

mod algorithms;
mod claims;
mod claims_set;
mod deciding;
mod headers;
mod keys;
mod labels;
mod untagging;
mod verifying;

pub use crate::algorithms::{Curves, MAC_VERIFY, Scheme, VERIFY, scheme_of};
pub use crate::claims::{Audience, ClaimRefusal, TimeFault, TokenTerms, claims_refusal, has_claim};
pub use crate::claims_set::{NoClaims, claims_of};
pub use crate::deciding::{Layer, Refusal, Ruling, first_candidate, id_in, rule};
pub use crate::headers::{HeaderFault, are_understood, layer_fault};
pub use crate::keys::{KeyFault, allows, fits, has_id, is_type, key_fault, part_of, permits};
pub use crate::labels::{has_label, share_label};
pub use crate::untagging::untagged;
pub use crate::verifying::{Verify, is_good};
