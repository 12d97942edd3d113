//! Memory that is refused to a judge by a verifier. What it says of tags is in rows `pass-good`.
use crate::gate::seen::{Way, answered, whole};
use crate::judges::Nth;
use callers::choosing::{Secret, Secrets};
use cose_gate::{End, GateFault, Mem, VerifierJudge};
use std::alloc::Global;
use std::process::Abort;

/// 17([h'a10105', {4: h'11'}, 'hi', TAG]), with the tag under that secret over the external data
/// 01, by another program.
const GOOD: &str =
    "d18443a10105a10441114268695820e8428fc63ff655dd8f5c1e0f5545fc21af5cb544756b4bc8709679a8756feb1d";

const SECRETS: [Secret; 1] = [Secret {
    id: &[0x11],
    secret: &[1],
}];

/// A run over one message ends for being out of memory, with nothing written, or the whole message
/// if the report was refused; or it passes.
fn passes_or_is_refused(rt: &impl Abort, alloc: Global, calls: usize) -> bool {
    let mut input = [0; 47];
    if hex::decode_to_slice(GOOD, &mut input).is_err() {
        return true;
    }
    let mut memory = [0; 47];
    let mut out = Mem::new(&mut memory[..]);
    let mut notes = Vec::new(alloc);
    let inner = VerifierJudge::new(alloc, Secrets(&SECRETS));
    let mut judge = Nth { inner, calls };
    let (way, reader) = (Way::Plain, &input[..]);
    let answer = answered(alloc, way, reader, &mut out, &mut notes, &[1], &mut judge);
    if answer == Err(GateFault::Memory) {
        assert!(rt; notes.is_empty());
        assert!(rt; out.as_written().is_empty() || out.as_written() == input.as_slice());
        return false;
    }
    assert!(rt; answer == whole::<End>(1, 0));
    assert_eq!(rt; out.as_written(), input.as_slice());
    true
}

/// This holds whichever allocation is refused (`scripts/fail-alloc.sh`).
#[test]
fn refused_memory_is_the_verifiers_answer(rt: HostRuntime) {
    let _ = passes_or_is_refused(&rt, rt.alloc(), 100);
}

#[test]
fn memory_is_refused_at_each_piece(rt: HostRuntime) {
    for calls in 0..8 {
        assert!(rt; !passes_or_is_refused(&rt, rt.alloc(), calls));
    }
    assert!(rt; passes_or_is_refused(&rt, rt.alloc(), 8));
}
