//! Values of CBOR, and typed values.
pub use ciborium_typed::{ByteBuf, Error, ValueSink, ValueSource, ValueTyped};
pub use ciborium_value::{CanonicalValue, Integer, Kind, Value, cmp_value, fold_tag};
