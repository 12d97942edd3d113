//! What is said more of an item, or of a stop.
ghost use Rattle.std.specs.Prelude.{◌≡◌, [], ◌++◌, true};
ghost use Rattle.cose_gate_program.specs.Writing.{Wrote};
ghost use Rattle.cose_gate_command.specs.KeyFiles.{indented};
ghost use Rattle.cose_gate_command.specs.RunLines as spec;
ghost use Rattle.cose_gate_command.specs.RunLines.{AddsReasons, StaysHandedOn};

use crate::explained::Note;
use ciborium_ll::Write;
use cose_gate_core::{GateFault, Refusal, Verdict, de};
use cose_gate_program::{InputFault, Notice, hand_on};
use cose_reasons::{Page, write_damage, write_refusal};
use std::cell::RefCell;
use std::fmt;

/// The number of an item, and where it begins.
#[derive(Debug, Clone, Copy, PartialEq, Eq)]
pub(crate) struct Place {
    pub(crate) number: usize,
    pub(crate) offset: usize,
}

/// Says more of a notice: what a refusal means, under which key an item passed, or what stopped a
/// run whose next item is at this place. The note is that of the judge.
pub(crate) fn say_more<W: Write>(notice: &Notice, place: Place, note: &RefCell<Note>, out: &mut W)
    ensures said { AddsReasons W.Write true out.old out.new }
    ensures handed { StaysHandedOn W.Write out.old out.new }
{
    let Ok(mut guard) = note.try_borrow_mut() else {
        return;
    };
    let note = &mut *guard;
    note.line.clear();
    put_more(notice, place, note);
    write_more(note.line.as_str(), note.reason.as_str(), out);
    write_more(remedy(notice), "", out);
    write_more(note.keys, "", out);
    note.keys = "";
    hand_on(out);
}

/// Says of the keys what is said once, and flushes the writer.
pub fn say_keys<W: Write>(note: &RefCell<Note>, out: &mut W)
    ensures { AddsReasons W.Write true out.old out.new }
{
    let keys = match note.try_borrow() {
        Ok(note) => note.keys,
        Err(_) => "",
    };
    write_more(keys, "", out);
    hand_on(out);
}

/// Says why the judge has said no to one message.
pub fn say_reason<W: Write>(note: &RefCell<Note>, out: &mut W)
    ensures { AddsReasons W.Write true out.old out.new }
{
    match note.try_borrow() {
        Ok(note) if !note.reason.is_empty() => write_more(note.reason.as_str(), "", out),
        _ => write_more(NO, "", out),
    }
}

/// Says what stopped a run over one message.
pub fn say_fault<W: Write>(fault: &GateFault<InputFault>, note: &RefCell<Note>, out: &mut W)
    ensures { AddsReasons W.Write true out.old out.new }
{
    let Ok(mut guard) = note.try_borrow_mut() else {
        return;
    };
    let note = &mut *guard;
    note.line.clear();
    let first = Place {
        number: 1,
        offset: 0,
    };
    write_stop(fault, first, &mut Page::new(&mut note.line));
    write_more(note.line.as_str(), "", out);
}

/// Of a no without a reason.
const NO: &str = "the judge says no";

/// Puts what is said more of a notice into a note. What the judge said stays if it was asked last.
fn put_more(notice: &Notice, place: Place, note: &mut Note) {
    let mut page = Page::new(&mut note.line);
    match notice {
        Notice::Item(entry) => match entry.verdict {
            Verdict::Passed if note.is_quiet => {}
            Verdict::Passed => return,
            Verdict::Refused(Refusal::Judged(index)) => return put_judged(index, note),
            Verdict::Refused(refusal) => write_refusal(refusal, &mut page),
        },
        Notice::Stopped(fault) => write_stop(fault, place, &mut page),
        Notice::Counts(_) | Notice::NotBegun(_) => {}
    }
    note.reason.clear();
}

/// Puts down which signature was refused, if there may be several, before the reason.
fn put_judged(index: usize, note: &mut Note) {
    let mut page = Page::new(&mut note.line);
    if note.is_of_signer {
        let number = index.saturating_add(1);
        write!(page, "signature {number}: ");
    }
    if note.reason.is_empty() {
        page.write_str(NO);
    }
}

/// Writes what stopped a run whose next item is at this place.
fn write_stop<P: fmt::Write>(fault: &GateFault<InputFault>, place: Place, page: &mut Page<'_, P>) {
    if let GateFault::Write = fault {
        page.write_str("the output can't be written");
        return;
    }
    let Place { number, offset } = place;
    write!(page, "item {number} at {offset}: ");
    match fault {
        GateFault::Decode(de::Error::Io(InputFault::Failed)) => {
            page.write_str("the input can't be read");
        }
        GateFault::Decode(error) => write_damage(error, page),
        GateFault::Write | GateFault::Memory => page.write_str("out of memory"),
    }
}

/// What keeps one damaged item from stopping the others, if this tells of one.
fn remedy(notice: &Notice) -> &'static str {
    match notice {
        Notice::Stopped(GateFault::Decode(de::Error::Io(InputFault::Failed))) => "",
        Notice::Stopped(GateFault::Decode(_)) => {
            "nothing after it is judged; cose-show --cut 1 DIR writes each item to its own file"
        }
        _ => "",
    }
}

/// Writes a line that begins with two blanks and holds these two texts, if they aren't empty. Of
/// one that isn't of one line nothing is written.
pub fn write_more<W: Write>(first: &str, then: &str, out: &mut W)
    ensures { AddsReasons W.Write true out.old out.new }
{
    if first.is_empty() && then.is_empty() {
        return;
    }
    write_indented(one_line(first), one_line(then), out);
}

/// The text, if it is of one line.
fn one_line(text: &str) -> &str
    ensures { spec.is_line result.now ≡ true }
{
    if is_line(text) { text } else { "" }
}

fn is_line(text: &str) -> bool
    ensures { result ≡ spec.is_line text.now }
{
    text.as_bytes().iter().all(|byte| *byte != b'\n')
}

/// Writes a line that begins with two blanks.
pub fn write_indented<W: Write>(first: &str, then: &str, out: &mut W)
    ensures { Wrote W.Write out.old out.new (indented (first.now ++ then.now)) }
{
    let _ = out.write_all(b"  ");
    let _ = out.write_all(first.as_bytes());
    let _ = out.write_all(then.as_bytes());
    let _ = out.write_all(b"\n");
}
