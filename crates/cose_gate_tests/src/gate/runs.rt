//! A long input, and a judge that counts.
use crate::checks::{entry, same};
use crate::gate::seen::{Way, answered, reached, run, whole};
use crate::judges::Counting;
use crate::messages::{MESSAGE, many};
use cose_gate::{End, Nowhere, Silent, Verdict};

#[test]
fn goes_through_a_long_input(rt: HostRuntime) {
    let input = many(&rt, rt.alloc(), MESSAGE, 300);
    let seen = run(rt.alloc(), Way::Plain, input.as_slice());
    assert!(rt; seen.answer == whole(300, 0) && seen.output == input);
    assert_eq!(rt; reached(&seen), (300, 4200, 300));
    for (index, noted) in seen.entries.iter().enumerate() {
        let want = entry(index + 1, index.saturating_mul(14), Verdict::Passed);
        same(&rt, noted, &want, &index);
    }
}

/// A message, and items about which no judge is asked: one without a tag, an encrypted message,
/// another tag, one of another shape, a message without its payload, a COSE_Sign without a
/// signature, and a message whose last length isn't in its shortest form.
const UNASKED: &[u8] = &[
    0xd2, 0x84, 0x43, 0xa1, 1, 0x26, 0xa0, 0x42, 0x68, 0x69, 0x43, 1, 2, 3, 0, 0xd0, 0x83, 0x40,
    0xa0, 0x40, 0xc1, 0, 0xd2, 0, 0xd2, 0x84, 0x40, 0xa0, 0xf6, 0x40, 0xd8, 0x62, 0x84, 0x40, 0xa0,
    0x40, 0x80, 0xd2, 0x84, 0x40, 0xa0, 0x40, 0x58, 0,
];

#[test]
fn a_judge_begins_what_it_decides(rt: HostRuntime) {
    let (alloc, way) = (rt.alloc(), Way::Strict);
    let (mut out, mut report) = (Nowhere, Silent);
    let mut judge = Counting::new();
    let answer = answered(alloc, way, UNASKED, &mut out, &mut report, &[], &mut judge);
    assert!(rt; answer == whole::<End>(1, 7));
    assert_eq!(rt; (judge.begun, judge.decided), (1, 1));
}
