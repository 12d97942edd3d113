//! Laws of definitions: those of labels, headers and structures, and of what is written straight
//! from fields.
pub mod sink;
pub mod structures;

pub use coset_headers::laws as headers;
pub use coset_labels::laws as labels;
