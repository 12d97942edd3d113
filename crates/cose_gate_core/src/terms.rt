//! Limits, and whether a gate is strict.

use coset_labels::Limits;

/// What a gate goes by: its limits, and whether it is strict.
#[derive(Debug, Clone, Copy)]
pub struct Terms {
    /// How deep items and their headers may nest.
    pub limits: Limits,
    /// Whether a message passes only if its bytes are already those that would be written.
    pub strict: bool,
}
