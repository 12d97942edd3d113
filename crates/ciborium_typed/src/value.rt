//! Values, and typed values into them and out of them.
pub use crate::bytes::ByteBuf;
pub use crate::typed::ValueTyped;
pub use ciborium_traits::Error;
pub use ciborium_value::{CanonicalValue, Integer, Kind, Value, cmp_value};
