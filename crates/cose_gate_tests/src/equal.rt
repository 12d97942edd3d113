//! Values that differ aren't equal, for types of whose equality no law speaks.
use crate::checks::{all_differ, entry};
use cose_gate::{
    Asked, CoseError, Counts, GateFault, InputFault, MessageKind, Refusal, StreamFault, Verdict, de,
};
use std::alloc::Global;
use std::process::Abort;

const KINDS: &[MessageKind] = &[
    MessageKind::Sign1,
    MessageKind::Mac0,
    MessageKind::Sign,
    MessageKind::Mac,
];

/// A question with these parts.
fn asked(
    rt: &impl Abort,
    alloc: Global,
    kind: MessageKind,
    structure: &[u8],
    (tag_len, first): (usize, u8),
) -> Asked {
    Asked {
        kind,
        structure: structure.to_vec(alloc).expect(rt, "no memory"),
        tag_len,
        tag: [first, 0, 0, 0, 0, 0, 0, 0],
    }
}

#[test]
fn questions_differ(rt: HostRuntime) {
    let alloc = rt.alloc();
    let (mac, sign) = (MessageKind::Mac0, MessageKind::Sign1);
    let questions = [
        asked(&rt, alloc, mac, &[1], (1, 1)),
        asked(&rt, alloc, sign, &[1], (1, 1)),
        asked(&rt, alloc, mac, &[2], (1, 1)),
        asked(&rt, alloc, mac, &[1], (2, 1)),
        asked(&rt, alloc, mac, &[1], (1, 2)),
    ];
    all_differ(&rt, &questions, "questions");
    all_differ(&rt, KINDS, "kinds");
}

const REFUSALS: &[Refusal] = &[
    Refusal::NotTagged,
    Refusal::OtherTag(1),
    Refusal::OtherTag(2),
    Refusal::Encrypted,
    Refusal::Shape(CoseError::DuplicateMapKey),
    Refusal::Shape(CoseError::ExtraneousData),
    Refusal::Detached,
    Refusal::NoSignature,
    Refusal::Judged(0),
    Refusal::Judged(1),
    Refusal::NotShortest,
];

const VERDICTS: &[Verdict] = &[
    Verdict::Passed,
    Verdict::Refused(Refusal::NotTagged),
    Verdict::Refused(Refusal::Encrypted),
];

fn counts(passed: usize, refused: usize) -> Counts {
    Counts { passed, refused }
}

#[test]
fn what_is_noted_differs(rt: HostRuntime) {
    let entries = [
        entry(1, 0, Verdict::Passed),
        entry(2, 0, Verdict::Passed),
        entry(1, 1, Verdict::Passed),
        entry(1, 0, Verdict::Refused(Refusal::NotTagged)),
    ];
    all_differ(&rt, REFUSALS, "refusals");
    all_differ(&rt, VERDICTS, "verdicts");
    all_differ(&rt, &entries, "entries");
    all_differ(&rt, &[counts(1, 1), counts(2, 1), counts(1, 2)], "counts");
}

#[test]
fn faults_differ(rt: HostRuntime) {
    let faults = [
        GateFault::Decode(de::Error::Io(1u8)),
        GateFault::Decode(de::Error::Io(2)),
        GateFault::Decode(de::Error::TooLong),
        GateFault::Write,
        GateFault::Memory,
    ];
    all_differ(&rt, &faults, "faults of the gate");
    let faults = [
        StreamFault::Decode(de::Error::Io(1u8)),
        StreamFault::Decode(de::Error::Io(2)),
        StreamFault::NotTagged,
        StreamFault::OtherTag(1),
        StreamFault::OtherTag(2),
        StreamFault::Shape(CoseError::DuplicateMapKey),
        StreamFault::Shape(CoseError::ExtraneousData),
        StreamFault::Detached,
        StreamFault::Unsized,
        StreamFault::Memory,
    ];
    all_differ(&rt, &faults, "faults of a check");
    all_differ(
        &rt,
        &[InputFault::End, InputFault::Failed],
        "faults of the input",
    );
}
