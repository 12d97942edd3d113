//! The program by its arguments.
ghost use Rattle.std.specs.Prelude.{◌≡◌, ◌<◌, [], map, option_copied, string_bytes, codes};
ghost use Rattle.cose_gate_command.specs.Arguments as spec;
ghost use Rattle.cose_gate_command.specs.CommandLine.{wrong_view};
ghost use Rattle.cose_gate_command.specs.Ends.{EndsBy};
ghost use Rattle.cose_gate_command.specs.Usage.{lines_of, wrong_lines};
ghost use Rattle.cose_gate_program.specs.Program.{devices_of};
ghost use Rattle.cose_gate_program.specs.Writing.{HandedOn};

use crate::arguments::read_arguments;
use crate::command_line::Wrong;
use crate::key_file::KeyFile;
use crate::usage::{Usage, say_wrong};
use crate::verbose::run_asked;
use ciborium_ll::{Read, Write};
use std::alloc::Global;

/// Wrong arguments of `cose-gate`.
pub fn gate_usage(wrong: Wrong<'_>) -> Usage<'_>
    ensures { lines_of result ≡ wrong_lines (codes "usage: cose-gate KEYS [AADHEX]\n")
        (codes "cose-gate") (wrong_view wrong.entry) }
{
    Usage {
        line: "usage: cose-gate KEYS [AADHEX]\n",
        program: "cose-gate",
        wrong,
    }
}

/// The program over the arguments after its name, if `keys` is what the file holds that they name,
/// or `fault` says why it can't be read. If they are wrong nothing is read, the lines on
/// `err` are the usage and what is wrong, and the status is 2. Lines and statuses are else those of
/// `run_with`; if KEYS can't be used, a line that begins with two blanks
/// says why, and nothing else of the file.
pub fn program<'a, R: Read, W: Write, E: Write>(
    alloc: Global,
    all: &'a [String],
    keys: Option<&'a [u8]>,
    fault: &'a str,
    input: &mut R,
    out: &mut W,
    err: &mut E,
) -> u8
    ensures ran { EndsBy E.Write (spec.arguments (map string_bytes all.now))
        (option_copied keys.entry) fault.now
        (devices_of R.Read W.Write input.old out.old)
        (devices_of R.Read W.Write input.new out.new) result err.old err.new }
    ensures kept { R.handle input.new ≡ R.handle input.old }
    ensures lent { W.handle out.new ≡ W.handle out.old }
    ensures handed { result < 2 → W.held out.new ≡ [] }
    ensures lines { result < 2 → HandedOn E.Write err.old err.new }
{
    let asked = match read_arguments(all) {
        Ok(asked) => asked,
        Err(wrong) => {
            say_wrong(gate_usage(wrong), err);
            return 2;
        }
    };
    let file = KeyFile {
        name: asked.keys,
        bytes: keys,
        fault,
    };
    run_asked(alloc, asked, file, input, out, err)
}
