//! Values in tags.
pub use ciborium_typed::tag::{Accepted, Captured, Required};
