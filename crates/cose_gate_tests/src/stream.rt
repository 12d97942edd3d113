//! Tests of `stream_check`: readers that fail in mid-stream, memory that is refused, and messages
//! that aren't streamed. Expected bytes are written out by hand.

mod begun;
mod checks;
mod failing;
mod memory;
mod refused;
