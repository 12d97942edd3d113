//! Tests of `ciborium`: readers that end or fail in mid-stream, writers that are full, a decoder as
//! a source, values in place, and arrays of many items.

mod arrays;
mod building;
mod devices;
mod levels;
mod round_trips;
mod strings;
mod typed;
mod writing;
