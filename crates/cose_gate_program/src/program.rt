//! The program: the gate over one input, a line for each item, and one that says how it ended.
ghost use Rattle.std.specs.Prelude.{◌≡◌, ◌<◌, [], Some, option_copied};
ghost use Rattle.cose_gate_core.specs.Findings.{usual};
ghost use Rattle.cose_gate_core.specs.Terms.{limits_of};
ghost use Rattle.cose_gate_program.specs.Beginning.{aad_of};
ghost use Rattle.cose_gate_program.specs.Judge.{says_yes};
ghost use Rattle.cose_gate_program.specs.Program.{devices_of, hears};
ghost use Rattle.cose_gate_program.specs.Telling as spec;
ghost use Rattle.cose_gate_program.specs.Telling.{Gated, RanTold, EndsTold, tells, writes};
ghost use Rattle.cose_gate_program.specs.Writing.{HandedOn};

use crate::beginning::{begin, read_keys};
use crate::devices::{Input, InputFault, Output};
use crate::judge::HmacJudge;
use crate::lines::{Lines, write_notice};
use crate::telling::{Notice, Teller, TellerReport};
use ciborium_ll::log::Log;
use ciborium_ll::{Decoder, Read, Write};
use cose_gate_core::{Counts, GateFault, Judge, Limits, Terms, gate_by};
use std::alloc::Global;

/// The gate over input and output with small faults, told item by item.
fn gate_told<R: Read, W: Write, T: Teller, J: Judge>(
    alloc: Global,
    terms: Terms,
    aad: &[u8],
    input: &mut R,
    out: &mut W,
    teller: &mut T,
    judge: &mut J,
) -> Result<Counts, GateFault<InputFault>>
    ensures ran { Gated (limits_of terms) (J.yes (J.who judge.old)) aad.now
        (devices_of R.Read W.Write input.old out.old)
        (devices_of R.Read W.Write input.new out.new) result
        (hears J.Judge judge.old judge.new) (tells T.Teller teller.old teller.new) }
    ensures who { J.who judge.new ≡ J.who judge.old }
    ensures kept { R.handle input.new ≡ R.handle input.old }
    ensures lent { W.handle out.new ≡ W.handle out.old }
{
    let mut decoder = Decoder::from(Input { reader: input });
    let mut output = Output { writer: out };
    let mut report = TellerReport { teller };
    gate_by(
        alloc,
        terms,
        true,
        &mut decoder,
        &mut output,
        &mut report,
        aad,
        judge,
    )
}

/// The program's run with any judge: the gate over the input by these terms, with `aad` as external
/// data. The messages that passed go to `out`, and on `err` there are the lines that `run` tells
/// of; both are flushed as with `run`. The judge is asked about the items in order: about all of
/// them if the status is 0 or 1, and with 4 about all up to where the run stopped; if out of memory
/// at an item, it may be asked in part about that one.
///
/// The status is 0 if no item was refused, 1 if some were, and 4 if the gate stopped or it is out
/// of memory.
pub fn run_judged<R: Read, W: Write, E: Write, J: Judge>(
    alloc: Global,
    terms: Terms,
    aad: &[u8],
    input: &mut R,
    out: &mut W,
    err: &mut E,
    judge: &mut J,
) -> u8
    ensures ran { RanTold (limits_of terms) (J.yes (J.who judge.old)) aad.now
        (devices_of R.Read W.Write input.old out.old)
        (devices_of R.Read W.Write input.new out.new) result
        (hears J.Judge judge.old judge.new) (writes E.Write err.old err.new) }
    ensures who { J.who judge.new ≡ J.who judge.old }
    ensures kept { R.handle input.new ≡ R.handle input.old }
    ensures lent { W.handle out.new ≡ W.handle out.old }
    ensures handed { result < 2 → W.held out.new ≡ [] }
    ensures lines { HandedOn E.Write err.old err.new }
{
    let mut told = Log::new();
    let mut lines = Lines::new(err, &mut told);
    run_told(alloc, terms, aad, input, out, &mut lines, judge)
}

/// As `run_judged`, with what is told of the run in place of the lines.
pub fn run_told<R: Read, W: Write, T: Teller, J: Judge>(
    alloc: Global,
    terms: Terms,
    aad: &[u8],
    input: &mut R,
    out: &mut W,
    teller: &mut T,
    judge: &mut J,
) -> u8
    ensures ran { RanTold (limits_of terms) (J.yes (J.who judge.old)) aad.now
        (devices_of R.Read W.Write input.old out.old)
        (devices_of R.Read W.Write input.new out.new) result
        (hears J.Judge judge.old judge.new) (tells T.Teller teller.old teller.new) }
    ensures who { J.who judge.new ≡ J.who judge.old }
    ensures kept { R.handle input.new ≡ R.handle input.old }
    ensures lent { W.handle out.new ≡ W.handle out.old }
    ensures handed { result < 2 → W.held out.new ≡ [] }
{
    let gated = gate_told(alloc, terms, aad, input, out, teller, judge);
    let last = last_of(gated, out.flush().is_ok());
    teller.tell(&last);
    status_after(&last)
}

/// What is told last of a run, by the gate's result, and whether the output was flushed.
pub fn last_of(gated: Result<Counts, GateFault<InputFault>>, flushed: bool) -> Notice
    ensures { result ≡ spec.last_of gated flushed }
{
    match gated {
        Ok(counts) if flushed => Notice::Counts(counts),
        Ok(_) => Notice::Stopped(GateFault::Write),
        Err(fault) => Notice::Stopped(if flushed { fault } else { GateFault::Write }),
    }
}

/// The status of the program if this is told last.
pub fn status_after(last: &Notice) -> u8
    ensures { result ≡ spec.status_at last.now }
{
    match last {
        Notice::Counts(counts) if counts.refused == 0 => 0,
        Notice::Counts(_) => 1,
        Notice::NotBegun(why) => why.status(),
        Notice::Item(_) | Notice::Stopped(_) => 4,
    }
}

/// As `run_with`, with the bytes of KEYS and the external data handed over as they are. The status
/// is 3 if the bytes hold no key set, 4 if the gate stopped or it is out of memory, and else 0 or
/// 1.
pub fn run_over<R: Read, W: Write, E: Write>(
    alloc: Global,
    terms: Terms,
    keys: &[u8],
    aad: &[u8],
    input: &mut R,
    out: &mut W,
    err: &mut E,
) -> u8
    ensures ran { EndsTold (limits_of terms) says_yes (Some keys.now) (Some aad.now)
        (devices_of R.Read W.Write input.old out.old)
        (devices_of R.Read W.Write input.new out.new) result
        (writes E.Write err.old err.new) }
    ensures kept { R.handle input.new ≡ R.handle input.old }
    ensures lent { W.handle out.new ≡ W.handle out.old }
    ensures handed { result < 2 → W.held out.new ≡ [] }
    ensures lines { HandedOn E.Write err.old err.new }
{
    let mut told = Log::new();
    let mut lines = Lines::new(err, &mut told);
    run_over_told(alloc, terms, keys, aad, input, out, &mut lines)
}

/// As `run_over`, with what is told of the run in place of the lines.
pub fn run_over_told<R: Read, W: Write, T: Teller>(
    alloc: Global,
    terms: Terms,
    keys: &[u8],
    aad: &[u8],
    input: &mut R,
    out: &mut W,
    teller: &mut T,
) -> u8
    ensures ran { EndsTold (limits_of terms) says_yes (Some keys.now) (Some aad.now)
        (devices_of R.Read W.Write input.old out.old)
        (devices_of R.Read W.Write input.new out.new) result
        (tells T.Teller teller.old teller.new) }
    ensures kept { R.handle input.new ≡ R.handle input.old }
    ensures lent { W.handle out.new ≡ W.handle out.old }
    ensures handed { result < 2 → W.held out.new ≡ [] }
{
    match read_keys(alloc, keys) {
        Ok(set) => {
            let mut judge = HmacJudge::prepared(alloc, &set);
            run_told(alloc, terms, aad, input, out, teller, &mut judge)
        }
        Err(why) => {
            teller.tell(&Notice::NotBegun(why));
            why.status()
        }
    }
}

/// As `run`, by these terms: if they are strict, a message passes only if its item is already what
/// would be written, and is refused as `NotShortest` else.
pub fn run_with<R: Read, W: Write, E: Write>(
    alloc: Global,
    terms: Terms,
    keys: Option<&[u8]>,
    aad: Option<&str>,
    input: &mut R,
    out: &mut W,
    err: &mut E,
) -> u8
    ensures ran { EndsTold (limits_of terms) says_yes (option_copied keys.entry)
        (aad_of (option_copied aad.entry))
        (devices_of R.Read W.Write input.old out.old)
        (devices_of R.Read W.Write input.new out.new) result
        (writes E.Write err.old err.new) }
    ensures kept { R.handle input.new ≡ R.handle input.old }
    ensures lent { W.handle out.new ≡ W.handle out.old }
    ensures handed { result < 2 → W.held out.new ≡ [] }
    ensures lines { HandedOn E.Write err.old err.new }
{
    match begin(alloc, keys, aad) {
        Ok(beginning) => {
            let mut judge = HmacJudge::prepared(alloc, &beginning.keys);
            let aad = beginning.aad.as_slice();
            run_judged(alloc, terms, aad, input, out, err, &mut judge)
        }
        Err(why) => {
            write_notice(&Notice::NotBegun(why), err);
            why.status()
        }
    }
}

/// Runs the gate over the input with the judge by HMAC: `keys` are the bytes of KEYS, which hold a
/// key set, or none if they can't be read, and `aad` is AADHEX, the external data in hex of either
/// case; without it they are empty. The messages that passed go to `out`.
///
/// On `err` there is a line for each item, `item N at OFFSET: passed` or `item N at OFFSET:
/// refused: NAME`, and then `passed P, refused R`, or `stopped: decode: WORD`, `stopped: write` or
/// `stopped: memory`. If the gate isn't run, the one line is `keys: cannot be read`, `aad: not
/// hex`, `keys: ` and what is wrong with the key set, or `stopped: memory`; these are tested in
/// this order. A fault of `err` is ignored.
///
/// What passed, and then its line, is flushed before more input may be waited for: after each item,
/// unless the bytes that the reader holds have the whole next one, or are 4,096 or more. Both are
/// flushed at the end too.
///
/// The status is 0 if no item was refused, 1 if some were, 2 if AADHEX is no hex, 3 if there is no
/// key set, and 4 if the gate stopped or it is out of memory. A flush that fails is `stopped:
/// write`, after the lines of all items before it, whatever stopped the gate before.
pub fn run<R: Read, W: Write, E: Write>(
    alloc: Global,
    keys: Option<&[u8]>,
    aad: Option<&str>,
    input: &mut R,
    out: &mut W,
    err: &mut E,
) -> u8
    ensures ran { EndsTold usual says_yes (option_copied keys.entry)
        (aad_of (option_copied aad.entry))
        (devices_of R.Read W.Write input.old out.old)
        (devices_of R.Read W.Write input.new out.new) result
        (writes E.Write err.old err.new) }
    ensures kept { R.handle input.new ≡ R.handle input.old }
    ensures lent { W.handle out.new ≡ W.handle out.old }
    ensures handed { result < 2 → W.held out.new ≡ [] }
    ensures lines { HandedOn E.Write err.old err.new }
{
    let terms = Terms {
        limits: Limits::default(),
        strict: false,
    };
    run_with(alloc, terms, keys, aad, input, out, err)
}
