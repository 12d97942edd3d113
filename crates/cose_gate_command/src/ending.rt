//! The lines of a run whose last one waits.
ghost use Rattle.std.specs.Prelude.{◌≡◌, ◌∷◌, []};
ghost use Rattle.cose_gate_command.specs.Waiting.{Waiting, last_line, waits, waits_after};
ghost use Rattle.cose_gate_program.specs.Writing.{WroteLines, WroteLines-prop, Wrote, HandedOn};

use ciborium_ll::Write;
use ciborium_ll::log::Log;
use cose_gate_program::{
    GateFault, InputFault, Notice, Teller, hand_on, write_logged, write_notice,
};

/// Writes the line of each item, and keeps the last line of the run.
#[derive(Drop)]
pub(crate) struct Ending<'a, W: Write> {
    out: &'a mut W,
    /// What is told last. It is lent, so that a clause can say what becomes of `out`.
    last: &'a mut Option<Notice>,
    /// What was told of items, and what the writer was at first. It is in contracts alone.
    said: &'a mut Log<Notice>,
    begun: Log<W>,
    ghost spoke: { WroteLines W.Write begun out.now said.now } by { WroteLines-prop W.Write _ _ _ },
}

impl<'a, W: Write> Ending<'a, W> {
    /// Lines on this writer, with a place for what is told last, and a log of what is said of
    /// items.
    pub(crate) fn new(
        out: &'a mut W,
        last: &'a mut Option<Notice>,
        said: &'a mut Log<Notice>,
    ) -> Ending<'a, W>
        ensures begun { result.begun.items ≡ out.old ∷ [] }
        ensures said { result.said.now.items ≡ [] }
        ensures kept { result.out.ghost_name ≡ out.entry.ghost_name }
        ensures place { result.last.ghost_name ≡ last.entry.ghost_name }
    {
        *said = Log::new();
        let begun = Log::new().and(&*out);
        Ending {
            out,
            last,
            said,
            begun,
        }
    }
}

/// Writes the last line of a run, if it ended so, and hands all lines on.
pub(crate) fn end<W: Write>(is_so: bool, last: &Option<Notice>, out: &mut W)
    ensures wrote { Wrote W.Write out.old out.new (last_line is_so last.now) }
    ensures handed { HandedOn W.Write out.old out.new }
{
    write_last(is_so, last, out);
    hand_on(out);
}

/// Writes the last line of a run, if it ended so.
fn write_last<W: Write>(is_so: bool, last: &Option<Notice>, out: &mut W)
    ensures { Wrote W.Write out.old out.new (last_line is_so last.now) }
{
    if let Some(last) = last
        && is_so
    {
        write_notice(last, out);
    }
}

/// What a notice tells at last; none if it tells of an item.
fn last_of(notice: &Notice) -> Option<Notice>
    ensures { result ≡ waits notice.now }
{
    match notice {
        Notice::Item(_) => None,
        Notice::Counts(counts) => Some(Notice::Counts(*counts)),
        Notice::Stopped(fault) => Some(Notice::Stopped(copy_of(fault))),
        Notice::NotBegun(why) => Some(Notice::NotBegun(*why)),
    }
}

fn copy_of(fault: &GateFault<InputFault>) -> GateFault<InputFault>
    ensures { result ≡ fault.now }
{
    match fault {
        GateFault::Decode(error) => GateFault::Decode(*error),
        GateFault::Write => GateFault::Write,
        GateFault::Memory => GateFault::Memory,
    }
}

impl<'a, W: Write> Teller for Ending<'a, W> {
    ghost State = { Waiting W };

    ghost state = { λ l. record {
      name = l.out.ghost_name;
      begun = l.begun.items;
      said = l.said.now.items;
      place = l.last.ghost_name;
      last = l.last.now;
    } };

    ghost folded = { waits_after };

    fn tell(&mut self, notice: &Notice) {
        match last_of(notice) {
            Some(last) => *self.last = Some(last),
            None => write_logged(notice, self.out, self.said),
        }
    }

    fn rest(&mut self) {
        hand_on(self.out);
    }
}
