//! Memory that is refused to a run, at each allocation in turn (`scripts/fail-alloc.sh`).
use crate::gate::seen::{Answer, Way, answered, whole};
use crate::judges::Counting;
use crate::messages::MESSAGE;
use cose_gate::{End, GateFault, Mem, Recorder};
use std::alloc::{AllocError, Global};
use std::process::Abort;

/// 98([h'', {}, 'hi', [[h'a10126', {}, h'00'], [h'a10126', {}, h'01']]]).
const SIGNERS: &[u8] = &[
    0xd8, 0x62, 0x84, 0x40, 0xa0, 0x42, 0x68, 0x69, 0x82, 0x83, 0x43, 0xa1, 0x01, 0x26, 0xa0, 0x41,
    0x00, 0x83, 0x43, 0xa1, 0x01, 0x26, 0xa0, 0x41, 0x01,
];

/// 17([h'a10105', {}, 'hi', h'aa']).
const MAC0: &[u8] = b"\xd1\x84\x43\xa1\x01\x05\xa0\x42hi\x41\xaa";

/// 97([h'a10105', {}, 'hi', h'aa', []]).
const MAC: &[u8] = b"\xd8\x61\x85\x43\xa1\x01\x05\xa0\x42hi\x41\xaa\x80";

/// 18([h'a1180126', {}, h'', h'']), whose label is in two bytes.
const WIDE: &[u8] = b"\xd2\x84\x44\xa1\x18\x01\x26\xa0\x40\x40";

/// Inputs of one item about which one question is asked, and what is written of each: nothing of
/// the first, since the judge says no to h'00'.
const EXAMPLES: &[(&[u8], &[u8])] = &[
    (SIGNERS, &[]),
    (MESSAGE, MESSAGE),
    // the same in wide heads, open arrays, maps and strings
    (
        b"\xd8\x12\x9f\x5f\x42\xa1\x01\x41\x26\xff\xbf\xff\x5f\x41h\x41i\xff\x43\x01\x02\x03\xff",
        MESSAGE,
    ),
    (MAC0, MAC0),
    (MAC, MAC),
    (WIDE, WIDE),
    // 18([h'', {99: 2(h'01')}, h'', h'']), whose number comes in pieces
    (
        b"\xd2\x84\x40\xa1\x18\x63\xc2\x5f\x41\x01\xff\x40\x40",
        b"\xd2\x84\x40\xa1\x18\x63\x01\x40\x40",
    ),
    // 18([h'', {99: 20 in two bytes}, h'', h''])
    (
        b"\xd2\x84\x40\xa1\x18\x63\xf8\x14\x40\x40",
        b"\xd2\x84\x40\xa1\x18\x63\xf4\x40\x40",
    ),
    // 18([h'', {99: undefined}, h'', h''])
    (
        b"\xd2\x84\x40\xa1\x18\x63\xf7\x40\x40",
        b"\xd2\x84\x40\xa1\x18\x63\xf6\x40\x40",
    ),
    // 18([h'', {4: h'01', 1: -7}, h'', h'']), whose labels are out of order
    (
        b"\xd2\x84\x40\xa2\x04\x41\x01\x01\x26\x40\x40",
        b"\xd2\x84\x40\xa2\x01\x26\x04\x41\x01\x40\x40",
    ),
];

/// A judge that says no to h'00'.
fn recorder(alloc: Global) -> Result<Recorder, AllocError> {
    let no = b"\0".to_vec(alloc)?;
    Ok(Recorder::new(alloc, Some(no)))
}

/// The result of a run with enough memory that writes this.
fn want_of(output: &[u8]) -> Answer<End> {
    if output.is_empty() {
        whole(0, 1)
    } else {
        whole(1, 0)
    }
}

/// A run over an input ends for being out of memory, with nothing written, or the whole message if
/// the report was refused; or as it does with enough memory.
fn holds(rt: &impl Abort, alloc: Global, input: &[u8], output: &[u8], aad: &[u8]) {
    let Ok(mut judge) = recorder(alloc) else {
        return;
    };
    let way = Way::Plain;
    let mut memory = [0u8; 28];
    let mut out = Mem::new(&mut memory[..]);
    let mut entries = Vec::new(alloc);
    let answer = answered(alloc, way, input, &mut out, &mut entries, aad, &mut judge);
    let (asked, noted) = (judge.asked().len(), entries.len());
    let written = out.as_written();
    assert!(rt;
        written.is_empty() || written == output && asked == 1,
        "{input:?}"
    );
    if answer == Err(GateFault::Memory) {
        assert_eq!(rt; noted, 0);
        return;
    }
    assert!(rt; answer == want_of(output) && written == output, "{input:?}");
    assert_eq!(rt; (asked, noted), (1, 1));
}

/// All memory here is asked for by the runs and their judges. So this holds also if one allocation
/// is refused, whichever it is.
#[test]
fn each_message_is_judged_and_written_or_memory_is_the_answer(rt: HostRuntime) {
    for (input, output) in EXAMPLES {
        holds(&rt, rt.alloc(), input, output, &[]);
        holds(&rt, rt.alloc(), input, output, &[1]);
    }
}

/// The run over two signers takes all its memory before it asks: a judge that takes none was asked
/// nothing, or both questions to their ends, whichever allocation is refused.
#[test]
fn a_judge_is_asked_both_questions_or_none(rt: HostRuntime) {
    let (alloc, way) = (rt.alloc(), Way::Plain);
    let mut judge = Counting::new();
    let mut memory = [0u8; 28];
    let mut out = Mem::new(&mut memory[..]);
    let mut notes = Vec::new(alloc);
    let answer = answered(alloc, way, SIGNERS, &mut out, &mut notes, &[], &mut judge);
    assert!(rt; matches!((judge.begun, judge.decided), (0, 0) | (2, 2)));
    if answer != Err(GateFault::Memory) {
        assert!(rt; answer == whole::<End>(1, 0));
        assert_eq!(rt; judge.decided, 2);
    }
}
