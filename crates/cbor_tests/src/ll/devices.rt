//! Readers and writers over std and over memory.
ghost use Rattle.std.specs.Prelude.{◌≤◌, IfOk};

use crate::checks::{holds, same};
use crate::ll::heads::behind;
use ciborium_ll::{Decoder, Encoder, Error, Full, Header, Io, IoFault, Mem, Read, Write};
use std::io;
use std::process::Abort;
use test_tools::OneByOne;

/// What a reader or a writer of std returns in place of a byte.
#[derive(Clone, Copy)]
enum Trouble {
    Nothing,
    Failure,
    Interrupted,
}

impl Trouble {
    fn answer(self) -> io::Result<usize> {
        match self {
            Trouble::Nothing => Ok(0),
            Trouble::Failure => Err(io::Error::from(io::ErrorKind::Other)),
            Trouble::Interrupted => Err(io::Error::from(io::ErrorKind::Interrupted)),
        }
    }
}

/// A reader and writer of std that moves a byte a call, but for its second call. Its flush fails.
#[derive(Drop)]
struct Troubled {
    calls: usize,
    trouble: Trouble,
}

impl Troubled {
    fn new(trouble: Trouble) -> Io<Troubled> {
        Io::new(Troubled { calls: 0, trouble })
    }

    fn moves(&mut self, room: usize) -> io::Result<usize>
        ensures { IfOk result (λ n. n ≤ room) }
    {
        self.calls = self.calls.saturating_add(1);
        if self.calls == 2 {
            return match self.trouble.answer() {
                Ok(_) => Ok(0),
                Err(e) => Err(e),
            };
        }
        Ok(room.min(1))
    }
}

impl io::Read for Troubled {
    fn read(&mut self, buf: &mut [u8]) -> io::Result<usize> {
        let n = self.moves(buf.len())?;
        buf[..n].fill(7);
        Ok(n)
    }
}

impl io::Write for Troubled {
    fn write(&mut self, buf: &[u8]) -> io::Result<usize> {
        self.moves(buf.len())
    }

    fn flush(&mut self) -> io::Result<()> {
        Err(io::Error::from(io::ErrorKind::Other))
    }
}

/// The reader has a fault, which is an end or not.
fn meets<R: io::Read>(rt: &impl Abort, decoder: &mut Decoder<Io<R>>, is_end: bool) {
    let is_told = match decoder.pull() {
        Err(Error::Io(fault)) => Io::<R>::is_end(&fault) == is_end,
        _ => false,
    };
    holds(rt, is_told, "a fault, which is an end or not");
}

/// A reader of std that gives these bytes one by one, and then fails.
pub fn broken(bytes: &[u8]) -> OneByOne<'_> {
    OneByOne {
        bytes,
        is_broken: true,
    }
}

/// A head of 256, and a beginning of another.
const CUT: &[u8] = &[0x19, 1, 0, 0x58];

#[test]
fn a_reader_of_std_gives_bytes_and_an_end_or_a_failure(rt: HostRuntime) {
    let mut decoder = behind(&rt, Io::new(CUT), Header::Positive(256));
    meets(&rt, &mut decoder, true);
    holds(&rt, decoder.offset() == 4, "where the end is");
    let mut decoder = behind(&rt, Io::new(broken(CUT)), Header::Positive(256));
    meets(&rt, &mut decoder, false);
}

/// Writes to a slice with space for 3 bytes, what each returns, and what is written then.
const WRITES: &[(&[u8], Result<(), Full>, &[u8])] = &[
    (&[1, 2], Ok(()), &[1, 2]),
    (&[3, 4], Err(Full), &[1, 2]),
    (&[3], Ok(()), &[1, 2, 3]),
    (&[4], Err(Full), &[1, 2, 3]),
    (&[], Ok(()), &[1, 2, 3]),
];

#[test]
fn a_slice_takes_what_it_has_room_for(rt: HostRuntime) {
    let mut room = [0u8; 3];
    let mut out = Mem::new(&mut room[..]);
    for (data, answer, written) in WRITES {
        holds(&rt, out.write_all(data) == *answer, "a write to a slice");
        same(&rt, &out.as_written(), written, "a slice");
    }
}

#[test]
fn a_vector_takes_all(rt: HostRuntime) {
    let bytes = [9u8].to_vec(rt.alloc()).expect(&rt, "memory");
    let mut out = Mem::new(bytes);
    holds(&rt, out.write_all(&[1, 2]).is_ok(), "a write to a vector");
    holds(&rt, out.flush().is_ok(), "a flush of a vector");
    same(&rt, &out.as_written(), &[9, 1, 2].as_slice(), "a vector");
    holds(&rt, out.into_inner().len() == 3, "the length of a vector");
}

/// The tag and the head of an array are written, one as a header and one as a byte, and flushed.
fn takes(rt: &impl Abort, sink: &mut Vec<u8>) {
    let mut encoder = Encoder::from(Io::new(sink));
    holds(rt, encoder.push(Header::Tag(18)).is_ok(), "a tag");
    holds(rt, encoder.write_all(&[0x80]).is_ok(), "a byte");
    holds(rt, encoder.flush().is_ok(), "a flush");
}

#[test]
fn a_writer_of_std_takes_all_or_tells_that_it_is_full(rt: HostRuntime) {
    let mut sink = Vec::new(rt.alloc());
    takes(&rt, &mut sink);
    same(
        &rt,
        &sink.as_slice(),
        &[0xd2, 0x80].as_slice(),
        "a writer of std",
    );
    let mut none = [0u8; 1];
    let mut full = Io::new(&mut none[..]);
    holds(&rt, full.write_all(&[5]).is_ok(), "a byte");
    let is_end = matches!(full.write_all(&[6]), Err(IoFault::End));
    holds(&rt, is_end, "a writer that is full");
}

/// Which trouble is an end, for a reader and as the name of a writer's fault.
const TROUBLES: &[(Trouble, bool)] = &[
    (Trouble::Nothing, true),
    (Trouble::Failure, false),
    (Trouble::Interrupted, false),
];

/// The fault is an end or not.
fn is_told(rt: &impl Abort, answer: Result<(), IoFault>, is_end: bool) {
    let is_so = match answer {
        Err(fault) => Io::<Troubled>::is_end(&fault) == is_end,
        Ok(()) => false,
    };
    holds(rt, is_so, "trouble, which is an end or not");
}

/// A reader tells its trouble once.
fn reads(rt: &impl Abort, trouble: Trouble, is_end: bool) {
    let mut reader = Troubled::new(trouble);
    let mut buffer = [0u8; 3];
    is_told(rt, reader.read_exact(&mut buffer), is_end);
    holds(rt, reader.read_exact(&mut buffer).is_ok(), "after trouble");
    same(rt, &buffer, &[7; 3], "what is read after trouble");
    holds(rt, reader.into_inner().calls == 5, "calls of a reader");
}

/// A writer tells its trouble once.
fn writes(rt: &impl Abort, trouble: Trouble, is_end: bool) {
    let mut writer = Troubled::new(trouble);
    is_told(rt, writer.write_all(&[1, 2, 3]), is_end);
    holds(rt, writer.write_all(&[1, 2, 3]).is_ok(), "after trouble");
    holds(rt, writer.into_inner().calls == 5, "calls of a writer");
}

#[test]
fn trouble_in_mid_stream_is_told_once(rt: HostRuntime) {
    for (trouble, is_end) in TROUBLES {
        reads(&rt, *trouble, *is_end);
        writes(&rt, *trouble, *is_end);
    }
}

#[test]
fn a_flush_reaches_the_writer_of_std(rt: HostRuntime) {
    let mut out = Troubled::new(Trouble::Failure);
    let mut encoder = Encoder::from(&mut out);
    holds(&rt, encoder.push(Header::Break).is_ok(), "a header");
    let is_fault = matches!(encoder.flush(), Err(IoFault::Io(_)));
    holds(&rt, is_fault, "a flush that fails");
}
