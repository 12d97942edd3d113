//! Tests of the gate: readers, writers, judges and reports that fail in mid-stream, memory that is
//! refused, a judge that counts, long inputs, and texts of faults.

mod failing;
mod memory;
mod recorder;
mod refused;
mod runs;
mod seen;
mod texts;
mod verifier;
