//! Memory that is refused to the program, at each allocation in turn (`scripts/fail-alloc.sh`).
use crate::messages::TAGGED;
use crate::program::lines::{CALLS, Call, status};
use cose_gate::Mem;
use std::alloc::Global;
use std::process::Abort;

/// A run by this call says that there was no memory, or goes without, as the judge does that keeps
/// its keys prepared: the status and the lines fit together. A line says whether the run stopped.
fn is_told(rt: &impl Abort, alloc: Global, call: Call) {
    let (mut shown, mut said) = ([0; 64], [0; 64]);
    let mut out = Mem::new(&mut shown[..]);
    let mut err = Mem::new(&mut said[..]);
    let mut input = TAGGED;
    let status = status(alloc, call, &mut input, &mut out, &mut err);
    let (lines, output) = if status == 0 {
        ("item 1 at 0: passed\npassed 1, refused 0\n", TAGGED)
    } else {
        ("stopped: memory\n", [].as_slice())
    };
    assert!(rt; status == 0 || status == 4);
    assert_eq!(rt; err.as_written(), lines.as_bytes());
    assert_eq!(rt; out.as_written(), output);
}

/// All memory here is asked for by the runs: their output and their lines have theirs. So this
/// holds also if one allocation is refused, whichever it is.
#[test]
fn refused_memory_is_told(rt: HostRuntime) {
    for call in CALLS {
        is_told(&rt, rt.alloc(), call);
    }
}
