//! Writers that are full.
use crate::checks::holds;
use ciborium::{Full, Mem, Value, into_writer, ser};

#[test]
fn a_full_writer_is_the_answer(rt: HostRuntime) {
    let value = Value::from_byte_slice(rt.alloc(), &[1, 2, 3]).expect(&rt, "memory");
    let mut room = [0u8; 3];
    let mut out = Mem::new(&mut room[..]);
    let answer = into_writer(&value, &mut out);
    holds(&rt, answer == Err(ser::Error::Io(Full)), "a full writer");
    let begins = [0x43u8, 1, 2, 3].starts_with(out.as_written());
    holds(&rt, begins, "what a full writer has");
}
