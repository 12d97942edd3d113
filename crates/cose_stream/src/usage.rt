//! What is said of wrong arguments.
ghost use Rattle.std.specs.Prelude.{◌≡◌, codes};
ghost use Rattle.cose_gate_command.specs.CommandLine.{wrong_view};
ghost use Rattle.cose_gate_command.specs.Usage.{wrong_lines};
ghost use Rattle.cose_gate_program.specs.Writing.{Wrote};

use ciborium_ll::Write;
use cose_gate_command::{Usage, Wrong, say_wrong};

/// Says what is wrong with arguments of `--stream`, flushes the writer, and returns the status. A
/// fault of the writer is ignored.
pub fn end_wrong<E: Write>(wrong: Wrong<'_>, err: &mut E) -> u8
    ensures status { result ≡ 2 }
    ensures said { Wrote E.Write err.old err.new
        (wrong_lines (codes "usage: cose-gate KEYS [AADHEX]\n") (codes "cose-gate --stream")
        (wrong_view wrong.entry)) }
{
    let usage = Usage {
        line: "usage: cose-gate KEYS [AADHEX]\n",
        program: "cose-gate --stream",
        wrong,
    };
    say_wrong(usage, err);
    2
}
