//! The lines of the program, and what is said more.
ghost use Rattle.std.specs.Prelude.{◌≡◌, ◌++◌, ◌∷◌, [], true};
ghost use Rattle.cose_gate_program.specs.Writing.{Wrote, HandedOn, is_last};
ghost use Rattle.cose_gate_program.specs.Writing.{HandedSince, HandedSince-prop};
ghost use Rattle.cose_gate_command.specs.RunLines as spec;
ghost use Rattle.cose_gate_command.specs.RunLines.{AddsReasons, StaysHandedOn, SaidLog};
ghost use Rattle.cose_gate_command.specs.RunLines.{LogsSay, LogsSay-prop};

use crate::explained::Note;
use crate::more::{Place, say_more};
use ciborium_ll::Write;
use ciborium_ll::log::Log;
use cose_gate_core::Verdict;
use cose_gate_program::{Notice, Teller, hand_on, write_notice};
use std::cell::{Cell, RefCell};

/// What is said more comes from these.
#[derive(Clone, Copy)]
pub(crate) struct Sources<'n> {
    /// Why the judge said no last.
    pub(crate) note: &'n RefCell<Note>,
    /// How many bytes of the input were taken.
    pub(crate) taken: &'n Cell<usize>,
}

/// How a run is told.
#[derive(Debug, Clone, Copy, PartialEq, Eq)]
pub(crate) struct Manner {
    /// More is said of refusals and stops.
    pub(crate) verbose: bool,
    /// Which items have a line.
    pub(crate) kept: Items,
}

/// Which items have a line.
#[derive(Debug, Clone, Copy, PartialEq, Eq)]
pub(crate) enum Items {
    /// Each one.
    All,
    /// Those that were refused.
    Refused,
    /// None.
    Hidden,
}

/// The lines of the program, and if it is verbose after each what is said more.
#[derive(Drop)]
pub(crate) struct LineWriter<'o, 'n, W: Write> {
    out: &'o mut W,
    manner: Manner,
    /// It is lent, since what it holds may be none: else no clause could say what becomes of `out`.
    sources: &'o Sources<'n>,
    /// The next item.
    next: Place,
    /// What was told, and what the writer was at first. It is in contracts alone.
    told: &'o mut Log<Notice>,
    was: &'o Log<W>,
    ghost is: { LogsSay W.Write manner was.now out.now told.now } by { Prim.hlevel LogsSay-prop },
    ghost handed: { HandedSince W.Write was.now.items out.now told.now.items } by { HandedSince-prop W.Write _ _ _ },
}

impl<'o, 'n, W: Write> LineWriter<'o, 'n, W> {
    /// Of this writer, which is the one in the first log; the second is for what is told.
    pub(crate) fn new(
        out: &'o mut W,
        manner: Manner,
        sources: &'o Sources<'n>,
        was: &'o Log<W>,
        told: &'o mut Log<Notice>,
    ) -> LineWriter<'o, 'n, W>
        requires { was.now.items ≡ out.old ∷ [] }
        ensures was { result.was.now.items ≡ out.old ∷ [] }
        ensures told { result.told.now.items ≡ [] }
        ensures manner { result.manner ≡ manner }
        ensures kept { result.out.ghost_name ≡ out.entry.ghost_name }
    {
        *told = Log::new();
        LineWriter {
            out,
            manner,
            sources,
            next: Place {
                number: 1,
                offset: 0,
            },
            told,
            was,
        }
    }
}

/// The place after an item, or the same one.
fn place_after(notice: &Notice, place: Place, taken: usize) -> Place {
    match notice {
        Notice::Item(entry) => Place {
            number: entry.number.saturating_add(1),
            offset: taken,
        },
        _ => place,
    }
}

/// Whether an item has no line.
fn hides(kept: Items, verdict: Verdict) -> bool
    ensures { result ≡ spec.hides kept verdict }
{
    match kept {
        Items::All => false,
        Items::Refused => has_passed(verdict),
        Items::Hidden => true,
    }
}

/// Whether a notice has no line.
fn is_silent(kept: Items, notice: &Notice) -> bool
    ensures { result ≡ spec.is_silent kept notice.now }
{
    match notice {
        Notice::Item(entry) => hides(kept, entry.verdict),
        Notice::Counts(_) | Notice::Stopped(_) | Notice::NotBegun(_) => false,
    }
}

fn has_passed(verdict: Verdict) -> bool
    ensures { result ≡ spec.has_passed verdict }
{
    matches!(verdict, Verdict::Passed)
}

/// Writes the line of a notice, if it has one.
fn write_shown<W: Write>(kept: Items, notice: &Notice, out: &mut W)
    ensures wrote { Wrote W.Write out.old out.new (spec.shown kept notice.now) }
    ensures handed { is_last notice.now ≡ true → HandedOn W.Write out.old out.new }
{
    if is_silent(kept, notice) {
        return;
    }
    write_notice(notice, out);
}

/// Whether a notice is of an item, and items have no line.
fn is_left_out(kept: Items, notice: &Notice) -> bool {
    matches!(kept, Items::Hidden) && matches!(notice, Notice::Item(_))
}

/// Says more of a notice, if it is verbose and the notice isn't left out.
fn explain<W: Write>(
    manner: Manner,
    notice: &Notice,
    place: Place,
    note: &RefCell<Note>,
    out: &mut W,
)
    ensures said { AddsReasons W.Write manner.verbose out.old out.new }
    ensures handed { StaysHandedOn W.Write out.old out.new }
{
    if !manner.verbose {
        return;
    }
    if is_left_out(manner.kept, notice) {
        return;
    }
    say_more(notice, place, note, out);
}

impl<'o, 'n, W: Write> Teller for LineWriter<'o, 'n, W> {
    ghost State = { SaidLog W };

    ghost state = { λ l. record {
      verbose = l.manner.verbose;
      kept = l.manner.kept;
      name = l.out.ghost_name;
      was = l.was.now.items;
      told = l.told.now.items;
    } };

    ghost folded = { λ s notice. record s { told = s.told ++ notice ∷ [] } };

    fn tell(&mut self, notice: &Notice) {
        let Sources { note, taken } = *self.sources;
        write_shown(self.manner.kept, notice, self.out);
        *self.told = self.told.and(notice);
        explain(self.manner, notice, self.next, note, self.out);
        self.next = place_after(notice, self.next, taken.get());
    }

    fn rest(&mut self) {
        hand_on(self.out);
    }
}
