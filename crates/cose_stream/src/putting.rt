//! The file of a payload: a part that only this run has, until its message is checked.
ghost use Rattle.std.specs.Prelude.{◌≡◌, ◌<◌, ◌+◌, ◌%◌, ◌∷◌, ◌++◌, [], List, ℕ, Err, None, IfErr};
ghost use Rattle.std.specs.Prelude.{IfOk, option_copied, string_bytes};
ghost use Rattle.cose_stream.specs.Folder.{FolderStep, Does, IsEmpty, made};
ghost use Rattle.cose_stream.specs.Putting.{KeepsPart, NoPart, are_there, part_name, FillsFile};
ghost use Rattle.cose_stream.specs.Putting.{StreamsInto, put_end, refusal_of};

use crate::folder::Folder;
use crate::stop::StreamStop;
use crate::streaming::{StreamTerms, stream};
use crate::under::{NoFile, NotMade, Under};
use ciborium_ll::Read;
use cose_gate::GateFault;
use std::alloc::{AllocError, Global};

/// So many parts of one file may be there.
const PARTS: u8 = 100;

/// How a run ended whose payload goes to a file.
#[derive(Debug, PartialEq, Eq, Drop)]
pub struct StreamEnd {
    /// How it ended.
    pub end: Result<(), StreamStop>,
    /// How many parts of other runs are there, which it has passed over.
    pub others: u8,
}

/// The same as `stream`, whose payload is in the file of this name after a yes. Up to then it is in
/// a new file of this run alone: FILE.part, or the first of FILE.part1 to FILE.part99 that isn't
/// there.
///
/// # Errors
/// `NoFile`, and then nothing was read; `Stopped` if the file can't be put into its place.
pub fn stream_into<R: Read, F: Folder>(
    alloc: Global,
    terms: StreamTerms<'_>,
    input: &mut R,
    folder: &mut F,
    name: &str,
) -> StreamEnd
    ensures ran { StreamsInto R.Read F.File.Write (option_copied terms.entry.keys)
        (option_copied terms.entry.aad) name.now input.old input.new
        (F.done folder.old) (F.done folder.new) result.end result.others }
    ensures kept { R.handle input.new ≡ R.handle input.old }
{
    let under = folder.look(name);
    match refusal(name, under) {
        Some(why) => return unread(StreamStop::NoFile(why)),
        None => {}
    }
    match make(alloc, folder, name) {
        Ok(part) => fill(alloc, terms, input, folder, name, part),
        Err(why) => unread(why),
    }
}

/// The end of a run that has read nothing.
fn unread(why: StreamStop) -> StreamEnd
    ensures end { result.end ≡ Err why }
    ensures others { result.others ≡ 0 }
{
    StreamEnd {
        end: Err(why),
        others: 0,
    }
}

/// Why a payload can't be put there, if it can't.
fn refusal(name: &str, under: Under) -> Option<NoFile>
    ensures { result ≡ refusal_of name.now under }
{
    if name == "-" {
        return Some(NoFile::Dash);
    }
    match under {
        Under::Nothing | Under::File => None,
        Under::Other => Some(NoFile::Other),
        Under::Unknown => Some(NoFile::Unknown),
    }
}

/// How the run ended, if its part was put into its place.
fn put(is_put: bool, end: Result<(), StreamStop>) -> Result<(), StreamStop>
    ensures { result ≡ put_end is_put end }
{
    match end {
        Ok(()) if !is_put => Err(StreamStop::Stopped(GateFault::Write)),
        end => end,
    }
}

/// A file that a payload is in before its message is checked.
#[derive(Drop)]
struct Part<F> {
    file: F,
    name: String,
    /// How many parts of other runs are there.
    number: u8,
}

/// A part. One that is there already is another run's, or was left by one that was killed, or is a
/// link to elsewhere: it stays as it is.
fn make<F: Folder>(alloc: Global, folder: &mut F, name: &str) -> Result<Part<F::File>, StreamStop>
    ensures number { IfOk result (λ part. part.number < 100) }
    ensures name { IfOk result (λ part. string_bytes part.name
        ≡ part_name name.now part.number) }
    ensures made { IfOk result (λ part. Does (F.done folder.old) (F.done folder.new)
        (are_there name.now part.number ++ made (part_name name.now part.number) None ∷ [])) }
    ensures empty { IfOk result (λ part. IsEmpty (F.File.written part.file)) }
    ensures err { IfErr result (λ why. (steps : List FolderStep) × (NoPart name.now steps why
        × Does (F.done folder.old) (F.done folder.new) steps)) }
{
    for number in 0..PARTS {
        let Ok(part) = part_of(alloc, name, number) else {
            return Err(StreamStop::Stopped(GateFault::Memory));
        };
        match folder.create_new(part.as_str()) {
            Ok(file) => return Ok(Part {
                file,
                name: part,
                number,
            }),
            Err(NotMade::IsThere) => {}
            Err(why) => return Err(StreamStop::NoFile(no_part(why))),
        }
    }
    Err(StreamStop::NoFile(NoFile::Taken))
}

/// Why there is no part.
fn no_part(why: NotMade) -> NoFile
    ensures { result ≡ Rattle.cose_stream.specs.Putting.no_part why }
{
    match why {
        NotMade::IsThere => NoFile::Taken,
        NotMade::NoFolder => NoFile::NoFolder,
        NotMade::NoPermission => NoFile::NoPermission,
        NotMade::Fault => NoFile::NotMade,
    }
}

/// The name of a part.
fn part_of(alloc: Global, name: &str, number: u8) -> Result<String, AllocError>
    requires { number < 100 }
    ensures { IfOk result (λ part. string_bytes part ≡ part_name name.now number) }
{
    let mut part = String::new(alloc);
    part.push_str(name)?;
    part.push_str(".part")?;
    if 10 <= number {
        part.push_str(digit(number / 10))?;
    }
    if 0 < number {
        part.push_str(digit(number % 10))?;
    }
    Ok(part)
}

fn digit(n: u8) -> &'static str
    requires { n < 10 }
    ensures { result.now ≡ (48 + n) ∷ [] }
{
    match n {
        0 => "0",
        1 => "1",
        2 => "2",
        3 => "3",
        4 => "4",
        5 => "5",
        6 => "6",
        7 => "7",
        8 => "8",
        _ => "9",
    }
}

/// Checks the message, whose payload goes into the part, which is put into its place after a yes.
fn fill<R: Read, F: Folder>(
    alloc: Global,
    terms: StreamTerms<'_>,
    input: &mut R,
    folder: &mut F,
    name: &str,
    part: Part<F::File>,
) -> StreamEnd
    ensures ran { FillsFile R.Read F.File.Write (option_copied terms.entry.keys)
        (option_copied terms.entry.aad) name.now (string_bytes part.name) input.old input.new
        part.file (F.done folder.old) (F.done folder.new) result.end }
    ensures others { result.others ≡ part.number }
    ensures kept { R.handle input.new ≡ R.handle input.old }
{
    let Part {
        mut file,
        name: part,
        number,
    } = part;
    let end = stream(alloc, terms, input, &mut file);
    let is_put = keep(folder, file, part.as_str(), name, end.is_ok());
    StreamEnd {
        end: put(is_put, end),
        others: number,
    }
}

/// Puts the part into the place of `name` after a yes, and else removes it, and says whether it is
/// in its place.
fn keep<F: Folder>(folder: &mut F, file: F::File, part: &str, name: &str, yes: bool) -> bool
    ensures { KeepsPart yes result part.now name.now (F.File.written file)
        (F.done folder.old) (F.done folder.new) }
{
    if !yes {
        let _ = folder.remove(part);
        return false;
    }
    if !folder.sync(file) {
        let _ = folder.remove(part);
        return false;
    }
    if !folder.rename(part, name) {
        let _ = folder.remove(part);
        return false;
    }
    true
}
