//! Tests of messages, keys and claims together: of values by builders, with memory that is enough
//! and that is refused; of labels that stand twice, and of large maps.

mod large;
mod many;
mod memory;
mod twice;
