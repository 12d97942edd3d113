//! The run of `cose-pass`.
ghost use Rattle.std.specs.Prelude.{◌≡◌, ◌<◌, [], IfOk, OnOk, map, option_map, string_bytes};
ghost use Rattle.std.specs.Result.{result_ok};
ghost use Rattle.cose_gate_core.specs.Terms.{limits_of};
ghost use Rattle.cose_gate_command.specs.Arguments as spec;
ghost use Rattle.cose_gate_command.specs.Passing.{RanPassing, PassedByDigests, PassEnds};
ghost use Rattle.cose_gate_program.specs.Program.{devices_of};
ghost use Rattle.cose_gate_program.specs.Writing.{HandedOn};

use crate::accepted::read_accepted;
use crate::arguments::pass_arguments;
use crate::not_run::NotRun;
use crate::options::{RunTerms, read_aad, run_terms};
use ciborium_ll::{Read, Write};
use cose_gate_program::run_judged;
use cose_gate_records::{Accepted, Digested};
use std::alloc::Global;

/// Runs the gate as these arguments ask, with a judge that says yes to the questions whose records,
/// or with `--digests` whose digests, the file ACCEPTED holds; `None` if it can't be read. The
/// messages that pass go to `out`, and the lines to `err`. The status is that of the run.
///
/// # Errors
/// `Usage`, `NoFile`, `NotHex`, `LineNotHex`, `LineNoRecord`, `NoRecords`, `NoDigests` and
/// `Memory`, before any input is read.
pub fn pass<R: Read, W: Write, E: Write>(
    alloc: Global,
    words: &[String],
    accepted: Option<Vec<u8>>,
    input: &mut R,
    out: &mut W,
    err: &mut E,
) -> Result<u8, NotRun>
    ensures ran { PassEnds E.Write
        (result_ok (spec.pass_arguments (map string_bytes words.now)))
        (option_map (λ bytes. bytes.items) accepted)
        (devices_of R.Read W.Write input.old out.old)
        (devices_of R.Read W.Write input.new out.new) err.old err.new result }
    ensures kept { R.handle input.new ≡ R.handle input.old }
    ensures lent { W.handle out.new ≡ W.handle out.old }
    ensures handed { IfOk result (λ status. status < 2 → W.held out.new ≡ []) }
    ensures lines { OnOk result (HandedOn E.Write err.old err.new) }
{
    let arguments = match pass_arguments(words) {
        Ok(arguments) => arguments,
        Err(_) => return Err(NotRun::Usage),
    };
    let Some(accepted) = accepted else {
        return Err(NotRun::NoFile);
    };
    let aad = read_aad(alloc, arguments.aad)?;
    let run = run_terms(arguments.strict, aad.as_slice());
    if arguments.digests {
        return pass_digests(alloc, run, accepted.as_slice(), input, out, err);
    }
    let records = read_accepted(alloc, accepted)?;
    pass_by(alloc, run, records.as_slice(), input, out, err)
}

/// Passes the messages whose questions have these records, by these terms.
fn pass_by<R: Read, W: Write, E: Write>(
    alloc: Global,
    run: RunTerms<'_>,
    records: &[u8],
    input: &mut R,
    out: &mut W,
    err: &mut E,
) -> Result<u8, NotRun>
    ensures ran { RanPassing E.Write (limits_of run.entry.terms) records.now run.entry.aad.now
        (devices_of R.Read W.Write input.old out.old)
        (devices_of R.Read W.Write input.new out.new) err.old err.new result }
    ensures kept { R.handle input.new ≡ R.handle input.old }
    ensures lent { W.handle out.new ≡ W.handle out.old }
    ensures handed { IfOk result (λ status. status < 2 → W.held out.new ≡ []) }
    ensures lines { OnOk result (HandedOn E.Write err.old err.new) }
{
    let Ok(judge) = Accepted::new(alloc, records) else {
        return Err(NotRun::Memory);
    };
    let Some(judge) = judge else {
        return Err(NotRun::NoRecords);
    };
    let mut judge = judge;
    Ok(run_judged(alloc, run.terms, run.aad, input, out, err, &mut judge))
}

/// Passes the messages whose questions have these digests, by these terms.
fn pass_digests<R: Read, W: Write, E: Write>(
    alloc: Global,
    run: RunTerms<'_>,
    digests: &[u8],
    input: &mut R,
    out: &mut W,
    err: &mut E,
) -> Result<u8, NotRun>
    ensures ran { PassedByDigests E.Write (limits_of run.entry.terms) digests.now run.entry.aad.now
        (devices_of R.Read W.Write input.old out.old)
        (devices_of R.Read W.Write input.new out.new) err.old err.new result }
    ensures kept { R.handle input.new ≡ R.handle input.old }
    ensures lent { W.handle out.new ≡ W.handle out.old }
    ensures handed { IfOk result (λ status. status < 2 → W.held out.new ≡ []) }
    ensures lines { OnOk result (HandedOn E.Write err.old err.new) }
{
    let Ok(judge) = Digested::new(alloc, digests) else {
        return Err(NotRun::Memory);
    };
    let Some(judge) = judge else {
        return Err(NotRun::NoDigests);
    };
    let mut judge = judge;
    Ok(run_judged(alloc, run.terms, run.aad, input, out, err, &mut judge))
}
