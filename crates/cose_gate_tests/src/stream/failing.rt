//! Readers that fail in mid-stream.
use crate::judges::Counting;
use crate::stream::checks::checked;
use cose_gate::{Limits, StreamFault, de};
use std::alloc::Global;
use std::process::Abort;
use test_tools::{Broken, Source};

/// 18([h'a10126', {}, '0123456789', h'010203']).
const TEN: &[u8] = b"\xd2\x84\x43\xa1\x01\x26\xa0\x4a0123456789\x43\x01\x02\x03";

/// How many bytes the judge is fed of this message before its reader fails, after so many bytes:
/// what is covered in front of the payload once the payload's title is there, and then each piece
/// of four bytes as it comes, and the last one.
fn fed_of(count: usize) -> usize {
    match count {
        0..=7 => 0,
        8..=11 => 18,
        12..=15 => 22,
        16..=17 => 26,
        _ => 28,
    }
}

/// A check stops if the reader fails, after so many bytes of the message. The payload was fed while
/// it was read, and nothing is decided.
fn is_cut_off(
    rt: &impl Abort,
    alloc: Global,
    limits: Option<Limits>,
    source: Source,
    count: usize,
) {
    let mut buffer = [0; 4];
    let mut judge = Counting::new();
    let answer = checked(alloc, limits, source, &mut buffer, &[], &mut judge);
    let broken = Err(StreamFault::Decode(de::Error::Io(Broken)));
    assert!(rt; answer == broken, "{count}");
    assert_eq!(rt;
        (count, judge.fed, judge.decided),
        (count, fed_of(count), 0)
    );
}

#[test]
fn a_failed_read_is_the_answer_and_the_payload_was_fed_up_to_there(rt: HostRuntime) {
    for limits in [None, Some(Limits::default())] {
        for count in 0..TEN.len() {
            is_cut_off(&rt, rt.alloc(), limits, Source::fail_at(TEN, count), count);
            // a reader that would give more bytes after its fault
            let (front, more) = TEN.split_at(count);
            is_cut_off(&rt, rt.alloc(), limits, Source::new(front, more), count);
        }
    }
}
