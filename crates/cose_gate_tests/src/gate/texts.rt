//! Texts of faults, also of those that no input in memory leads to.
use cose_gate::{GateFault, SemanticKind, de};
use std::alloc::Global;
use std::process::Abort;
use test_tools::Broken;

/// The fault has this text.
fn reads(rt: &impl Abort, alloc: Global, fault: &GateFault<Broken>, text: &str) {
    let made = format!(in alloc; "{fault}").expect(rt, "no memory");
    assert_eq!(rt; made.as_str(), text);
}

/// Faults of decoding, and their texts. A failure of the reader is named by the reader's own text.
const DECODE: [(de::Error<Broken>, &str); 5] = [
    (de::Error::Io(Broken), "decode: Io(Broken)"),
    (de::Error::Syntax(14), "decode: Syntax(14)"),
    (
        de::Error::Semantic(None, SemanticKind::Simple),
        "decode: Semantic(Simple)",
    ),
    (
        de::Error::RecursionLimitExceeded,
        "decode: RecursionLimitExceeded",
    ),
    (de::Error::TooLong, "decode: TooLong"),
];

#[test]
fn texts_of_faults(rt: HostRuntime) {
    let alloc = rt.alloc();
    for (error, text) in &DECODE {
        reads(&rt, alloc, &GateFault::Decode(*error), text);
    }
    reads(&rt, alloc, &GateFault::Write, "write");
    reads(&rt, alloc, &GateFault::Memory, "memory");
}
