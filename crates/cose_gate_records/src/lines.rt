//! The report's lines in the caller's buffer.
ghost use Rattle.std.specs.Prelude.{◌≡◌, ◌++◌, ◌∷◌, [], List, ℕ};
ghost use Rattle.cose_gate_records.specs.Lines.{put, IsShown, counted, stopped};
ghost use Rattle.cose_gate_records.specs.Tallies.{all_of};

use crate::tally::Tally;
use ciborium_ll::{Full, Write};
use cose_gate_program::{Notice, Teller, write_notice};
use std::mem;

/// The last line if out of memory.
pub(crate) const STOPPED: &[u8] = b"stopped: memory\n";

/// The lines of a run, over a buffer that keeps the front of all that is written, as much as fits.
/// All of it is counted. Writing never fails.
#[derive(Drop)]
pub struct Lines<'a> {
    buffer: &'a mut [u8],
    tally: Tally,
    /// Where the last line begins.
    last: usize,
    ghost shown: { IsShown (all_of tally) buffer.now },
}

/// Copies the text into the buffer from this place on, as far as it fits.
fn put(buffer: &mut [u8], place: usize, text: &[u8])
    ensures { buffer.new ≡ put buffer.old place text.now }
{
    let from = place.min(buffer.len());
    let count = text.len().min(buffer.len() - from);
    buffer[from..from + count].copy_from_slice(&text[..count]);
}

/// Writes a text after all that is there.
fn write_on(buffer: &mut [u8], tally: &mut Tally, text: &[u8])
    ensures shown { IsShown (all_of tally.old) buffer.old
        → IsShown (all_of tally.new) buffer.new }
    ensures all { all_of tally.new ≡ all_of tally.old ++ text.now }
{
    let all = mem::replace(tally, Tally::new());
    put(buffer, all.end, text);
    *tally = all.and(text);
}

impl<'a> Lines<'a> {
    ghost use Rattle.cose_gate_records.specs.Views.{said};

    /// Lines in this buffer, of which there are none yet.
    pub fn new(buffer: &'a mut [u8]) -> Lines<'a>
        ensures said { said result ≡ [] }
        ensures kept { result.buffer.ghost_name ≡ buffer.entry.ghost_name }
    {
        Lines {
            buffer,
            tally: Tally::new(),
            last: 0,
        }
    }

    /// Where the last line begins.
    pub fn last(&self) -> usize
        ensures { result ≡ self.now.last }
    {
        self.last
    }

    /// How long all lines are.
    pub fn end(&self) -> usize
        ensures { result ≡ counted (said self.now) }
    {
        self.tally.end
    }
}

/// Writing leaves the buffer, and the place at which the last line begins, as they are.
impl<'a> Write for Lines<'a> {
    type Error = Full;

    ghost use Rattle.std.specs.Prelude.{Some};
    ghost use Rattle.cose_gate_records.specs.Views.{said};

    ghost written = { λ l. Some (said l) };

    ghost failed = { λ _. 0 };

    ghost handle = { λ l. l.buffer.ghost_name ∷ l.last ∷ [] };

    fn write_all(&mut self, data: &[u8]) -> Result<(), Full> {
        write_on(self.buffer, &mut self.tally, data);
        Ok(())
    }

    fn flush(&mut self) -> Result<(), Full> {
        Ok(())
    }
}

impl<'a> Teller for Lines<'a> {
    ghost use Rattle.cose_gate_program.specs.Lines.{line_of};
    ghost use Rattle.cose_gate_records.specs.Lines.{LineLog};
    ghost use Rattle.cose_gate_records.specs.Views.{said};

    ghost State = { LineLog };

    ghost state = { λ l. record {
      name = l.buffer.ghost_name;
      text = said l;
      last = l.last;
    } };

    ghost folded = { λ s notice. record {
      name = s.name;
      text = s.text ++ line_of notice;
      last = counted s.text;
    } };

    fn tell(&mut self, notice: &Notice) {
        self.last = self.end();
        write_notice(notice, self);
    }
}

/// Says that it is out of memory, in place of the last line, which begins at this place: what the
/// run ended with counts no more. Returns how long all lines are.
pub fn stop_for_memory(lines: &mut [u8], last: usize) -> usize
    ensures shown { (before rest : List ℕ) → last ≡ counted before
        → IsShown (before ++ rest) «lines».old → IsShown (before ++ stopped) «lines».new }
    ensures counted { (before : List ℕ) → last ≡ counted before
        → result ≡ counted (before ++ stopped) }
{
    put(lines, last, STOPPED);
    last.saturating_add(STOPPED.len())
}

/// Writes a line that is alone, and returns its length.
pub(crate) fn lone_line(lines: &mut [u8], line: &[u8]) -> usize
    ensures shown { IsShown line.now «lines».new }
    ensures counted { result ≡ counted line.now }
{
    put(lines, 0, line);
    line.len()
}
