//! A payload takes no memory: each allocation is refused in turn (`scripts/fail-alloc.sh`).
use crate::judges::Counting;
use crate::messages::KEYS;
use crate::stream::checks::checked;
use cose_gate::{CborSerializable, CoseKeySet, End, HmacJudge, Judge, Limits, StreamFault};
use std::alloc::Global;
use std::process::Abort;
use test_tools::LongMessage;

/// What a message begins with, and how long its payload is.
type Front = (&'static [u8], usize);

/// What a check says, within limits if there are some, of a message whose tag is one byte.
fn answered<J: Judge>(
    alloc: Global,
    limits: Option<Limits>,
    (front, payload): Front,
    judge: &mut J,
) -> Result<bool, StreamFault<End>> {
    let made = LongMessage {
        front,
        payload,
        back: &[0x41, 0xaa],
    };
    let mut buffer = [0; 64];
    checked(alloc, limits, made, &mut buffer, &[], judge)
}

/// Such a message, of whose structure there are so many bytes, is fed to a judge and decided, and
/// by the key its tag isn't good. All memory is asked for by the keys and the checks, so this holds
/// whichever allocation is refused: nothing is decided then.
fn long(rt: &impl Abort, alloc: Global, limits: Option<Limits>, front: Front, covered: usize) {
    let mut judge = Counting::new();
    let answer = answered(alloc, limits, front, &mut judge);
    if answer == Err(StreamFault::Memory) {
        assert_eq!(rt; judge.decided, 0);
    } else {
        assert!(rt; answer == Ok(true));
        assert_eq!(rt; (judge.fed, judge.decided), (covered, 1));
    }
    let Ok(keys) = CoseKeySet::from_slice(alloc, KEYS) else {
        return;
    };
    let answer = answered(alloc, limits, front, &mut HmacJudge::new(&keys));
    assert!(rt; answer == Ok(false) || answer == Err(StreamFault::Memory));
}

// No growth of memory hangs on the payload. A test can't count growths, since `Global` counts none;
// refusals stand for them. Each of these tests runs as a process of its own, and
// `scripts/fail-alloc.sh` counts how many allocations of each can be refused: as many of all.

#[test]
fn a_payload_of_no_bytes_grows_nothing(rt: HostRuntime) {
    let front = (b"\xd1\x84\x43\xa1\x01\x05\xa0\x40".as_slice(), 0);
    long(&rt, rt.alloc(), None, front, 12);
}

/// A message in front of its payload of 100,000 bytes, and that length.
const LONG: Front = (b"\xd1\x84\x43\xa1\x01\x05\xa0\x5a\x00\x01\x86\xa0", 100_000);

#[test]
fn a_payload_of_100000_bytes_grows_nothing(rt: HostRuntime) {
    long(&rt, rt.alloc(), None, LONG, 100_016);
}

#[test]
fn a_payload_of_100000_bytes_grows_nothing_within_limits(rt: HostRuntime) {
    long(&rt, rt.alloc(), Some(Limits::default()), LONG, 100_016);
}
