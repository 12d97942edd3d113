//! Tests of the program over memory: readers, writers and judges that fail, long outputs, a reader
//! in blocks, and how the tags of examples/ were made.

mod blocks;
mod examples;
mod lines;
mod long;
mod refused;
