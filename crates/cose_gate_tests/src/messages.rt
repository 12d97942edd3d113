//! Messages and a key set that several tests read.
use std::alloc::Global;
use std::process::Abort;

/// 18([h'a10126', {}, 'hi', h'010203']), of 14 bytes.
pub const MESSAGE: &[u8] = b"\xd2\x84\x43\xa1\x01\x26\xa0\x42hi\x43\x01\x02\x03";

/// The key set [{1: 4, -1: h'00'}], a symmetric key without an id.
pub const KEYS: &[u8] = b"\x81\xa2\x01\x04\x20\x41\x00";

/// 17([h'a10105', {}, 'hi', TAG]), with the tag over the external data 01 under that key, by
/// another program.
pub const TAGGED: &[u8] = &[
    0xd1, 0x84, 0x43, 0xa1, 0x01, 0x05, 0xa0, 0x42, 0x68, 0x69, 0x58, 0x20, 0x81, 0x75, 0x9b, 0xe7,
    0xe4, 0x76, 0xdf, 0x66, 0xf2, 0x2e, 0x17, 0x4e, 0xd1, 0xa2, 0x5a, 0x0e, 0x0a, 0xb5, 0x49, 0x8e,
    0x5e, 0x6c, 0xa0, 0x67, 0xae, 0x32, 0xd0, 0x75, 0xae, 0x9f, 0xf5, 0x6e,
];

/// A message, so many times.
pub fn many(rt: &impl Abort, alloc: Global, message: &[u8], count: usize) -> Vec<u8> {
    let mut all = Vec::new(alloc);
    for _ in 0..count {
        all.extend_from_slice(message).expect(rt, "memory");
    }
    all
}
