//! An item of many levels. `scripts/small-stack.sh` runs this under a stack of 256 KiB.
use ciborium::de::from_decoder;
use ciborium::value::Value;
use ciborium_ll::Decoder;
use std::alloc::Global;
use std::process::Abort;

/// How many levels the item has.
const LEVELS: usize = 100_000;

/// Arrays of one item, tags 32 and maps of one entry in turn, one inside the other, and 0 inside
/// the last.
fn bytes(rt: &impl Abort, alloc: Global) -> Vec<u8> {
    let mut bytes = Vec::new(alloc);
    for level in 0..LEVELS {
        let title: &[u8] = match level % 3 {
            0 => &[0x81],
            1 => &[0xd8, 0x20],
            _ => &[0xa1, 0x00],
        };
        bytes.extend_from_slice(title).expect(rt, "no memory");
    }
    bytes.push(0).expect(rt, "no memory");
    bytes
}

/// What is in an array, a tag or a map, if it is one.
fn inside(value: Value) -> Option<Value> {
    match value {
        Value::Array(mut items) => items.pop(),
        Value::Tag(_, content) => Some(Box::into_inner(content)),
        Value::Map(mut entries) => entries.pop().map(|(_, value)| value),
        _ => None,
    }
}

/// It is read at a limit of its levels. It is opened one by one, since to drop it whole takes a
/// stack for them all.
#[test]
fn many_levels_are_read(rt: HostRuntime) {
    let bytes = bytes(&rt, rt.alloc());
    let mut decoder = Decoder::from(bytes.as_slice());
    let mut value = from_decoder(rt.alloc(), &mut decoder, LEVELS).expect(&rt, "an item");
    for _ in 0..LEVELS {
        value = inside(value).expect(&rt, "a level");
    }
    assert!(rt; value == Value::from(0u64));
}
