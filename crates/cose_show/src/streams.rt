//! What is read, and what is written.
use cose_show_core::{Options, Printer, Stop, show_as};
use std::alloc::Global;
use std::fs::{self, File, Files};
use std::io::{self, BufReader, BufWriter};

/// The file to be read; none if it is standard input.
///
/// # Errors
/// `NoFile`.
pub fn opened<R: Files>(rt: &R, options: Options<'_>) -> Result<Option<R::File>, Stop> {
    match options.path {
        Some(path) => match File::open(rt, path) {
            Ok(file) => Ok(Some(file)),
            Err(error) => Err(Stop::NoFile(error.kind())),
        },
        None => Ok(None),
    }
}

/// The bytes of the file of keys, if the judge is to be asked.
///
/// # Errors
/// `NoKeyFile` and `Memory`.
pub fn read_keys<R: Files + AllocGlobal>(
    rt: &R,
    options: Options<'_>,
) -> Result<Option<Vec<u8>>, Stop> {
    let Some(path) = options.keys else {
        return Ok(None);
    };
    match fs::read(rt, path) {
        Ok(bytes) => Ok(Some(bytes)),
        Err(error) => match error.kind() {
            io::ErrorKind::OutOfMemory => Err(Stop::Memory),
            kind => Err(Stop::NoKeyFile(kind)),
        },
    }
}

/// Shows the input on this output, and returns the number of the first item at which the gate
/// stops. What a flush that failed has left isn't written afterwards.
///
/// # Errors
/// Those of `show_as`, `Output` and `Closed`.
pub fn show_on<I: io::Read + Drop, O: io::Write + Drop>(
    alloc: Global,
    options: Options<'_>,
    keys: Option<&[u8]>,
    input: BufReader<I>,
    mut output: BufWriter<O>,
) -> Result<Option<u64>, Stop> {
    let mut printer = Printer::new(&mut output);
    let shown = show_as(alloc, options, keys, input, &mut printer);
    let flushed = printer.flush();
    let _ = output.into_parts();
    match flushed {
        Ok(()) => shown,
        Err(stop) => Err(stop),
    }
}

#[cfg(test)]
mod tests {
    use super::*;
    use crate::fake::Folder;
    use cose_show_core::{Words, read_words};
    use std::cell::RefCell;
    use std::io::ErrorKind;
    use std::process::Abort;

    fn words(rt: &impl Abort, alloc: Global, all: &[&str]) -> Vec<String> {
        let mut words = Vec::new(alloc);
        for word in all {
            let word = String::from_str(alloc, word).expect(rt, "memory");
            words.push(word).expect(rt, "memory");
        }
        words
    }

    fn options<'a>(rt: &impl Abort, words: &'a [String]) -> Options<'a> {
        let Ok(Words::Run(options)) = read_words(words) else {
            panic!(rt; "no options");
        };
        options
    }

    #[test]
    fn files_that_are_named(rt: HostRuntime) {
        let alloc = rt.alloc();
        let noted = RefCell::new(String::new(alloc));
        let folder = (
            Folder {
                noted: &noted,
                taken: "it",
                room: 0,
            },
            alloc,
        );
        for (all, is_opened, keys) in [
            ([].as_slice(), Ok(false), Ok(false)),
            (["it"].as_slice(), Ok(true), Ok(false)),
            (["--keys", "it"].as_slice(), Ok(false), Ok(true)),
            (
                ["other"].as_slice(),
                Err(Stop::NoFile(ErrorKind::NotFound)),
                Ok(false),
            ),
            (
                ["--keys", "other"].as_slice(),
                Ok(false),
                Err(Stop::NoKeyFile(ErrorKind::NotFound)),
            ),
        ] {
            let all = words(&rt, alloc, all);
            let options = options(&rt, &all);
            assert!(rt; opened(&folder, options).map(|file| file.is_some()) == is_opened);
            let read = read_keys(&folder, options);
            assert!(rt; read.map(|bytes| bytes.is_some()) == keys);
        }
    }

    /// How a run over the item 7 ends whose output takes so many bytes.
    fn shown_in(rt: &impl Abort, alloc: Global, room: &mut [u8]) -> Result<Option<u64>, Stop> {
        let all = words(rt, alloc, &[]);
        let input = BufReader::new(alloc, [7].as_slice()).expect(rt, "memory");
        let output = BufWriter::new(alloc, room).expect(rt, "memory");
        show_on(alloc, options(rt, &all), None, input, output)
    }

    #[test]
    fn a_full_output(rt: HostRuntime) {
        assert!(rt; shown_in(&rt, rt.alloc(), &mut [0; 2]) == Err(Stop::Output));
        assert!(rt; shown_in(&rt, rt.alloc(), &mut [0; 256]) == Ok(None));
    }

    #[test]
    fn each_stop_has_its_status(rt: HostRuntime) {
        for (stop, status) in [
            (Stop::Usage, 2),
            (Stop::NotHex, 2),
            (Stop::NoFile(ErrorKind::NotFound), 3),
            (Stop::NoKeyFile(ErrorKind::NotFound), 3),
            (Stop::OneKey, 3),
            (Stop::Input, 4),
            (Stop::Output, 4),
            (Stop::NoFolder, 4),
            (Stop::NotNew, 4),
            (Stop::Piece, 4),
            (Stop::Memory, 4),
        ] {
            assert_eq!(rt; stop.status(), status);
        }
    }
}
