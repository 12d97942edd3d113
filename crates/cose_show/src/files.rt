//! Files of whole items.
use cose_show_core::{Cut, Cutter, Share, Stop};
use std::fs::{self, Files, OpenOptions};
use std::io::{self, BufRead, BufReader, BufWriter, Write};

/// A file is written in blocks of this length.
const BLOCK: usize = 65536;

/// The files of a folder.
#[derive(Drop)]
struct Pieces<'a, R: Files> {
    rt: &'a R,
    folder: &'a str,
    /// How many were begun.
    count: u64,
    /// The file at hand.
    open: Option<BufWriter<R::File>>,
}

/// Writes whole items to files. The files after one another are the input, damaged or not.
///
/// # Errors
/// `Input`, `Memory`, `NoFolder`, `NotNew`, `Piece`; `Damaged` once all is written.
pub fn cut_to_files<R: Files + AllocGlobal, I: io::Read + Drop>(
    rt: &R,
    cut: Cut<'_>,
    mut input: BufReader<I>,
) -> Result<(), Stop> {
    if fs::create_dir_all(rt, cut.folder).is_err() {
        return Err(Stop::NoFolder);
    }
    let mut cutter = Cutter::new(rt.alloc(), cut.size);
    let mut pieces = Pieces {
        rt,
        folder: cut.folder,
        count: 0,
        open: None,
    };
    for _ in 0..u64::MAX {
        let taken = match input.fill_buf() {
            Ok(block) => pieces.take(cutter.take(block)?, block)?,
            Err(error) => return Err(Stop::of_input(error.kind())),
        };
        if taken == 0 {
            break;
        }
        input.consume(taken);
    }
    pieces.close()?;
    cutter.end()
}

impl<'a, R: Files + AllocGlobal> Pieces<'a, R> {
    /// Writes what of a block goes to the file at hand, and gives how many bytes that are.
    fn take(&mut self, share: Share, block: &[u8]) -> Result<usize, Stop> {
        let front = block.get(..share.len).unwrap_or(block);
        if front.is_empty() {
            return Ok(0);
        }
        self.write(front)?;
        if share.ends {
            self.close()?;
        }
        Ok(front.len())
    }

    /// Writes to the file at hand, or to a new one.
    fn write(&mut self, bytes: &[u8]) -> Result<(), Stop> {
        let mut file = match self.open.take() {
            Some(file) => file,
            None => self.begin()?,
        };
        match file.write_all(bytes) {
            Ok(()) => {
                self.open = Some(file);
                Ok(())
            }
            Err(_) => Err(left(file)),
        }
    }

    /// Begins the next file, which must not be there.
    fn begin(&mut self) -> Result<BufWriter<R::File>, Stop> {
        self.count = self.count.saturating_add(1);
        let folder = self.folder;
        let number = self.count;
        let path = format!(in self.rt.alloc(); "{folder}/{number:06}.cbor")?;
        let mut options = OpenOptions::new();
        options.write(true).create_new(true);
        let file = match options.open(self.rt, path.as_str()) {
            Ok(file) => file,
            Err(error) => return Err(Stop::of_file(error.kind())),
        };
        match BufWriter::with_capacity(self.rt.alloc(), BLOCK, file) {
            Ok(file) => Ok(file),
            Err(_) => Err(Stop::Memory),
        }
    }

    /// Ends the file at hand.
    fn close(&mut self) -> Result<(), Stop> {
        match self.open.take() {
            Some(mut file) => match file.flush() {
                Ok(()) => Ok(()),
                Err(_) => Err(left(file)),
            },
            None => Ok(()),
        }
    }
}

/// Drops a file that could not be written, without writing again what it holds back.
fn left<W: Write + Drop>(file: BufWriter<W>) -> Stop {
    let _ = file.into_parts();
    Stop::Piece
}

#[cfg(test)]
mod tests {
    use super::*;
    use crate::fake::Folder;
    use std::alloc::Global;
    use std::cell::RefCell;

    /// How a cut of this input into pieces of so many bytes ends, and what is noted.
    fn noted(
        alloc: Global,
        size: usize,
        room: usize,
        taken: &str,
        input: &[u8],
    ) -> (Result<(), Stop>, String) {
        let noted = RefCell::new(String::new(alloc));
        let folder = Folder {
            noted: &noted,
            taken,
            room,
        };
        let end = match BufReader::with_capacity(alloc, 2, input) {
            Ok(input) => cut_to_files(&(folder, alloc), Cut { size, folder: "d" }, input),
            Err(_) => Err(Stop::Memory),
        };
        (end, noted.into_inner())
    }

    #[test]
    fn files_of_whole_items(rt: HostRuntime) {
        let items: &[u8] = &[1, 0x82, 2, 3, 0x41, 4];
        for (size, room, taken, want, text) in [
            (
                1,
                9,
                "",
                Ok(()),
                " d/000001.cbor 01 d/000002.cbor 82 02 03 d/000003.cbor 41 04",
            ),
            (
                2,
                9,
                "",
                Ok(()),
                " d/000001.cbor 01 82 02 03 d/000002.cbor 41 04",
            ),
            (9, 9, "", Ok(()), " d/000001.cbor 01 82 02 03 41 04"),
            (2, 3, "", Err(Stop::Piece), " d/000001.cbor 01 82 02"),
            (9, 3, "", Err(Stop::Piece), " d/000001.cbor 01 82 02"),
            (
                1,
                9,
                "d/000002.cbor",
                Err(Stop::NotNew),
                " d/000001.cbor 01",
            ),
            (1, 9, "d", Err(Stop::NoFolder), ""),
        ] {
            let (end, said) = noted(rt.alloc(), size, room, taken, items);
            assert!(rt; end == want);
            assert_eq!(rt; said.as_str(), text);
        }
    }
}
