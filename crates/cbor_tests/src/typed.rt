//! Tests of `ciborium_traits` and `ciborium_typed`: copies, and the laws at concrete types.

mod copies;
mod laws;
mod round_trips;
