//! The run, with `--verbose`, `--quiet` and `--summary` or without.
ghost use Rattle.std.specs.Prelude.{◌≡◌, ◌<◌, ◌∷◌, [], option_copied};
ghost use Rattle.cose_gate_program.specs.Beginning.{aad_of, status_of};
ghost use Rattle.cose_gate_program.specs.Judge.{says_yes};
ghost use Rattle.cose_gate_program.specs.Program.{devices_of};
ghost use Rattle.cose_gate_program.specs.Telling.{EndsTold};
ghost use Rattle.cose_gate_program.specs.Writing.{HandedOn};
ghost use Rattle.cose_gate_program.specs.declared.telling.Notice.TheVariants as notice;
ghost use Rattle.cose_gate_command.specs.Ends.{bounds_by};
ghost use Rattle.cose_gate_command.specs.RunLines.{SaysAll, items_by};

use crate::arguments::Arguments;
use crate::counted::Counted;
use crate::explained::{Explained, Note, Reasons};
use crate::key_file::{KeyFile, say_not_begun, write_reason};
use crate::line_writer::{Items, LineWriter, Manner, Sources};
use crate::options::{RunTerms, run_terms};
use ciborium_ll::log::Log;
use ciborium_ll::{Read, Write};
use cose_gate_program::{HmacJudge, NotBegun, Notice, begin, run_told, write_notice};
use std::alloc::Global;
use std::cell::{Cell, RefCell};

/// Ends a run that doesn't begin, and returns its status.
pub(crate) fn end_unbegun<E: Write>(
    alloc: Global,
    asked: Arguments<'_>,
    why: NotBegun,
    file: KeyFile<'_>,
    err: &mut E,
) -> u8
    ensures status { result ≡ status_of why }
    ensures said { SaysAll E.Write asked.entry.verbose
        (items_by asked.entry.quiet asked.entry.summary) file.entry.fault.now
        (option_copied file.entry.bytes) err.old err.new (notice.NotBegun why ∷ []) }
{
    write_notice(&Notice::NotBegun(why), err);
    if asked.verbose {
        say_not_begun(alloc, why, file, asked.aad, err);
        return why.status();
    }
    write_reason(why, file, err);
    why.status()
}

/// Which items have a line with these options.
fn kept_by(quiet: bool, summary: bool) -> Items
    ensures { result ≡ items_by quiet summary }
{
    if summary {
        Items::Hidden
    } else if quiet {
        Items::Refused
    } else {
        Items::All
    }
}

/// As `run_with` of `cose_gate_program`; if it is verbose, after each line on `err` what is said
/// more, in lines that begin with two blanks: of an item that passed by which algorithm and under
/// which key, of a refusal what it means, and why the judge said no; of a stop the number and the
/// offset of the item, what is wrong with it, and what to do; of KEYS its name, and what is wrong
/// with it. Else a line says of KEYS alone what is wrong with it.
/// If it is quiet, an item that passed has no line, and in a summary no item has one. `file` tells
/// of the file KEYS. All are one run over one type of reader, judge and teller: with two runs the
/// compiler would no longer put what both call into one function, and each message would take up to
/// 6 % more instructions.
pub(crate) fn run_asked<'f, 'd, R: Read, W: Write, E: Write>(
    alloc: Global,
    asked: Arguments<'d>,
    file: KeyFile<'f>,
    input: &mut R,
    out: &mut W,
    err: &mut E,
) -> u8
    ensures ran { EndsTold (bounds_by asked.entry.strict) says_yes (option_copied file.entry.bytes)
        (aad_of (option_copied asked.entry.aad))
        (devices_of R.Read W.Write input.old out.old)
        (devices_of R.Read W.Write input.new out.new) result
        (SaysAll E.Write asked.entry.verbose
        (items_by asked.entry.quiet asked.entry.summary) file.entry.fault.now
        (option_copied file.entry.bytes) err.old err.new) }
    ensures kept { R.handle input.new ≡ R.handle input.old }
    ensures lent { W.handle out.new ≡ W.handle out.old }
    ensures handed { result < 2 → W.held out.new ≡ [] }
    ensures lines { result < 2 → HandedOn E.Write err.old err.new }
{
    let mut note = Note::new(alloc, asked.verbose);
    note.is_quiet = asked.quiet;
    let note = RefCell::new(note);
    let taken = Cell::new(0);
    let sources = Sources {
        note: &note,
        taken: &taken,
    };
    let manner = Manner {
        verbose: asked.verbose,
        kept: kept_by(asked.quiet, asked.summary),
    };
    let was = Log::new().and(&*err);
    let mut told = Log::new();
    match begin(alloc, file.bytes, asked.aad) {
        Ok(beginning) => {
            let judge = HmacJudge::prepared(alloc, &beginning.keys);
            let RunTerms { terms, aad } = run_terms(asked.strict, beginning.aad.as_slice());
            let mut teller = LineWriter::new(err, manner, &sources, &was, &mut told);
            let noted = if asked.verbose { Some(&note) } else { None };
            let reasons = Reasons::noted(alloc, &beginning.keys, aad.len(), noted);
            let mut judge = Explained { judge, reasons };
            let mut input = Counted {
                reader: input,
                taken: &taken,
            };
            run_told(alloc, terms, aad, &mut input, out, &mut teller, &mut judge)
        }
        Err(why) => end_unbegun(alloc, asked, why, file, err),
    }
}
