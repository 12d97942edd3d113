//! The questions of an input told as records, and the program within limits. `cose_gate` is the one
//! crate that it names.
ghost use Rattle.std.specs.Prelude.{true, IfOk, IfErr, option_copied};
ghost use Rattle.cose_gate.specs.HmacJudges.{says_yes};
ghost use Rattle.cose_gate.specs.Program.{devices_of};
ghost use Rattle.cose_gate.specs.RecordsKept.{told_by};
ghost use Rattle.cose_gate.specs.Terms.{limits_by};
ghost use Rattle.callers.specs.Asking.{IsAsked, IsAskedInPart, EndsOver, EndsWithin};

use cose_gate::{
    Asker, Counts, Decoder, End, GateFault, Limits, Nowhere, Read, Silent, Terms, Write, gate,
    run_over, run_with,
};
use std::alloc::Global;

/// Tells the asker each question that the input has if each answer is yes, and how many messages
/// have them.
///
/// # Errors
/// Those of `gate`. The questions up to there were told then, or a beginning of them.
pub fn ask(
    alloc: Global,
    input: &[u8],
    aad: &[u8],
    asker: &mut Asker,
) -> Result<Counts, GateFault<End>>
    ensures ok { IfOk result
        (IsAsked aad.now input.now (told_by asker.old) (told_by asker.new)) }
    ensures err { IfErr result
        (λ _. IsAskedInPart aad.now input.now (told_by asker.old) (told_by asker.new)) }
{
    let mut decoder = Decoder::from(input);
    match gate(alloc, &mut decoder, &mut Nowhere, &mut Silent, aad, asker) {
        Ok(counts) => Ok(counts),
        Err(fault) => Err(fault),
    }
}

/// The program with these arguments, within limits, and strict if that is asked.
pub fn run_gated<R: Read, W: Write, E: Write>(
    alloc: Global,
    terms: Terms,
    keys: Option<&[u8]>,
    aad: Option<&str>,
    input: &mut R,
    out: &mut W,
    err: &mut E,
) -> u8
    ensures { EndsWithin (limits_by terms.limits terms.strict) says_yes
        (option_copied keys.entry) (option_copied aad.entry)
        (devices_of R.Read W.Write input.old out.old)
        (devices_of R.Read W.Write input.new out.new) result }
{
    run_with(alloc, terms, keys, aad, input, out, err)
}

/// The strict program under a key set's bytes.
pub fn run_exact<R: Read, W: Write, E: Write>(
    alloc: Global,
    limits: Limits,
    keys: &[u8],
    aad: &[u8],
    input: &mut R,
    out: &mut W,
    err: &mut E,
) -> u8
    ensures { EndsOver (limits_by limits true) says_yes keys.now aad.now
        (devices_of R.Read W.Write input.old out.old)
        (devices_of R.Read W.Write input.new out.new) result }
{
    let terms = Terms {
        limits,
        strict: true,
    };
    run_over(alloc, terms, keys, aad, input, out, err)
}
