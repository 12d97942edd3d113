//! Laws of the definitions, those of each crate below.
pub use coset_base::laws::{headers, labels, structures};
pub use coset_claims::laws as claims;
pub use coset_encrypted::laws as encrypted;
pub use coset_kdf::laws as kdf;
pub use coset_keys::laws as keys;
pub use coset_maced::laws as maced;
pub use coset_maced::laws::{parts, recipients};
pub use coset_signed::laws as signed;
