//! The input of the program in blocks: bytes that the block at hand holds are taken from it at
//! once.
ghost use Rattle.std.specs.Prelude.{◌≡◌, ◌<◌, MatchBool, OnOk, IfErr, IsTrue, length};
ghost use Rattle.std.specs.Io.KnownBytes.{Consumes, Keeps};
ghost use Rattle.std.specs.Io.Buffered.{reader_buffer};
ghost use Rattle.ciborium_ll.specs.Count.{total};
ghost use Rattle.ciborium_ll.specs.Device.{IsShort};
ghost use Rattle.cose_gate_program.specs.Faults.{is_end, read_length_of};
ghost use Rattle.cose_gate_program.specs.InBlocks.{blocks_reader, blocks_failures, left_of_blocks};

use crate::devices::InputFault;
use ciborium_ll::Read;
use ciborium_ll::count::Count;
use std::io;
use std::io::BufReader;

/// A reader of std that reads in blocks. It costs less than `Io` if many reads are of a few bytes:
/// a read that the block holds whole is no call of std's reader, and its fault is small.
#[derive(Drop)]
pub struct Blocks<R> {
    reader: BufReader<R>,
    failed: Count,
}

impl<R: io::Read> Blocks<R> {
    /// The bytes of this reader, with no failure yet.
    pub fn new(reader: BufReader<R>) -> Blocks<R>
        ensures reader { blocks_reader result ≡ reader }
        ensures failed { blocks_failures result ≡ 0 }
    {
        Blocks {
            reader,
            failed: Count::new(),
        }
    }

    /// Takes the bytes from the block, if it holds so many.
    fn take_held(&mut self, data: &mut [u8]) -> bool
        ensures held { MatchBool result
            (Consumes (left_of_blocks R.remaining self.old)
            (left_of_blocks R.remaining self.new) «data».new)
            ((length (reader_buffer self.old.reader) < length «data».old)
            × (self.new ≡ self.old) × («data».new ≡ «data».old)) }
        ensures failed { self.new.failed ≡ self.old.failed }
    {
        let len = data.len();
        let Some((front, _)) = self.reader.buffer().split_at_checked(len) else {
            return false;
        };
        data.copy_from_slice(front);
        io::BufRead::consume(&mut self.reader, len);
        true
    }

    /// Reads the bytes by std's reader. A failure is not counted yet.
    fn read_on(&mut self, data: &mut [u8]) -> Result<(), InputFault>
        ensures ok { OnOk result (Consumes (left_of_blocks R.remaining self.old)
            (left_of_blocks R.remaining self.new) «data».new) }
        ensures end { IfErr result (λ e. IsTrue (is_end e)
            → IsShort (left_of_blocks R.remaining self.old) (length «data».old)) }
        ensures one { IfErr result (λ e. IsTrue (is_end e) → length «data».old ≡ 1
            → Keeps (left_of_blocks R.remaining self.old) (left_of_blocks R.remaining self.new)) }
        ensures failed { self.new.failed ≡ self.old.failed }
    {
        let mut at = 0;
        while at < data.len() {
            match read_length(io::Read::read(&mut self.reader, &mut data[at..])) {
                Ok(n) => at += n,
                Err(fault) => return Err(fault),
            }
        }
        Ok(())
    }
}

/// How many bytes one read from std's reader moved: some; none at all is an end, or it failed.
fn read_length(answer: io::Result<usize>) -> Result<usize, InputFault>
    ensures { result ≡ read_length_of answer }
{
    match answer {
        Ok(0) => Err(InputFault::End),
        Ok(n) => Ok(n),
        Err(_) => Err(InputFault::Failed),
    }
}

impl<R: io::Read> Read for Blocks<R> {
    type Error = InputFault;

    ghost left = { λ b. left_of_blocks R.remaining b };

    ghost at_hand = { λ b. length (reader_buffer b.reader) };

    ghost failed = { λ b. total b.failed };

    ghost ends = { is_end };

    fn read_exact(&mut self, data: &mut [u8]) -> Result<(), InputFault> {
        if self.take_held(data) {
            return Ok(());
        }
        match self.read_on(data) {
            Ok(()) => Ok(()),
            Err(InputFault::End) => Err(InputFault::End),
            Err(InputFault::Failed) => {
                self.failed = self.failed.and_one();
                Err(InputFault::Failed)
            }
        }
    }

    fn held(&self) -> &[u8] {
        self.reader.buffer()
    }

    fn take(&mut self, n: usize) -> bool {
        io::BufRead::consume(&mut self.reader, n);
        true
    }

    fn is_end(error: &InputFault) -> bool
        ensures { result ≡ is_end error.now }
    {
        matches!(error, InputFault::End)
    }
}
