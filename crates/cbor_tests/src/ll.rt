//! Tests of `ciborium_ll`: readers and writers that fail in mid-stream, headers that wait, and
//! writers that are full.

mod devices;
mod heads;
mod segments;
mod writers;
