//! The program's run with its lines in a buffer.
ghost use Rattle.std.specs.Prelude.{Some};
ghost use Rattle.cose_gate_core.specs.Terms.{limits_of};
ghost use Rattle.cose_gate_program.specs.Judge.{says_yes};
ghost use Rattle.cose_gate_program.specs.Program.{devices_of, hears};
ghost use Rattle.cose_gate_program.specs.Telling.{EndsTold, RanTold};
ghost use Rattle.cose_gate_records.specs.Lines.{AreLinesWithLast};

use crate::lines::Lines;
use ciborium_ll::{Read, Write};
use cose_gate_core::Judge;
use cose_gate_program::{Terms, run_over_told, run_told};
use std::alloc::Global;

/// What a run goes by.
#[derive(Clone, Copy)]
pub struct RunTerms<'a> {
    /// The limits, and whether the gate is strict.
    pub terms: Terms,
    /// The external data.
    pub aad: &'a [u8],
}

/// How a run ended.
#[derive(Debug, Clone, Copy, PartialEq, Eq)]
pub struct Ended {
    /// The status.
    pub status: u8,
    /// Where its last line begins.
    pub last: usize,
    /// Where all lines end.
    pub end: usize,
}

/// The run under the key set of these bytes.
pub(crate) fn run_with_keys<R: Read, W: Write>(
    alloc: Global,
    run: RunTerms<'_>,
    keys: &[u8],
    input: &mut R,
    out: &mut W,
    lines: &mut [u8],
) -> Ended
    ensures { EndsTold (limits_of run.entry.terms) says_yes
        (Some keys.now) (Some run.entry.aad.now)
        (devices_of R.Read W.Write input.old out.old)
        (devices_of R.Read W.Write input.new out.new) result.status
        (AreLinesWithLast «lines».new result.last result.end) }
{
    let mut told = Lines::new(lines);
    let status = run_over_told(alloc, run.terms, keys, run.aad, input, out, &mut told);
    Ended {
        status,
        last: told.last(),
        end: told.end(),
    }
}

/// The run with this judge.
pub(crate) fn run_with_judge<R: Read, W: Write, J: Judge>(
    alloc: Global,
    run: RunTerms<'_>,
    input: &mut R,
    out: &mut W,
    lines: &mut [u8],
    judge: &mut J,
) -> Ended
    ensures { RanTold (limits_of run.entry.terms) (J.yes (J.who judge.old)) run.entry.aad.now
        (devices_of R.Read W.Write input.old out.old)
        (devices_of R.Read W.Write input.new out.new) result.status
        (hears J.Judge judge.old judge.new) (AreLinesWithLast «lines».new result.last result.end) }
{
    let mut told = Lines::new(lines);
    let status = run_told(alloc, run.terms, run.aad, input, out, &mut told, judge);
    Ended {
        status,
        last: told.last(),
        end: told.end(),
    }
}
