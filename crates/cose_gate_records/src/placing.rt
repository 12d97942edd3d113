//! An output in the caller's buffer, if it fits.
ghost use Rattle.std.specs.Prelude.{◌≡◌, ◌≤◌, ◌<◌, ◌++◌, MatchBool, length, drop};

use crate::answer::Answer;

/// The status if the output has no space.
const NO_ROOM: u32 = 5;

/// Copies the output to the front, if it fits, and says whether it did.
fn fill(out: &mut [u8], text: &[u8]) -> bool
    ensures { MatchBool result
        ((length text.now ≤ length «out».old)
        × («out».new ≡ text.now ++ drop (length text.now) «out».old))
        ((length «out».old < length text.now) × («out».new ≡ «out».old)) }
{
    let len = text.len();
    if out.len() < len {
        return false;
    }
    out[..len].copy_from_slice(text);
    true
}

/// Puts what a run wrote into the caller's buffer, and returns its status and length; if it is too
/// long the buffer stays, and the status says so.
pub fn place(out: &mut [u8], text: &[u8], status: u8, lines: usize) -> Answer
    ensures length { result.length ≡ length text.now }
    ensures fits { length text.now ≤ length «out».old
        → (result.status ≡ status) × («out».new ≡ text.now ++ drop (length text.now) «out».old) }
    ensures no_room { length «out».old < length text.now
        → (result.status ≡ 5) × («out».new ≡ «out».old) }
    ensures lines { result.lines ≡ lines }
{
    let length = text.len();
    if fill(out, text) {
        return Answer {
            status: u32::from(status),
            length,
            lines,
        };
    }
    Answer {
        status: NO_ROOM,
        length,
        lines,
    }
}

/// The answer, with this status, of a call that wrote no output.
pub fn place_none(out: &mut [u8], status: u8, lines: usize) -> Answer
    ensures length { result.length ≡ 0 }
    ensures status { result.status ≡ status }
    ensures same { «out».new ≡ «out».old }
    ensures lines { result.lines ≡ lines }
{
    place(out, &[], status, lines)
}
