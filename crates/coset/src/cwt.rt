//! CBOR web tokens (RFC 8392).
pub use coset_claims::cwt::{ClaimName, ClaimsSet, ClaimsSetBuilder, Timestamp};
