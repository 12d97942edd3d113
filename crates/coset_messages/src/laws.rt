//! Laws of the definitions: those of labels, headers, structures, parts, recipients and messages.
pub use coset_base::laws::{headers, labels, structures};
pub use coset_encrypted::laws as encrypted;
pub use coset_maced::laws as maced;
pub use coset_maced::laws::{parts, recipients};
pub use coset_signed::laws as signed;
