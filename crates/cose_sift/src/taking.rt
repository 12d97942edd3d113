//! One item of a sequence, taken head by head.
ghost use Rattle.std.specs.Prelude.{◌≡◌, ◌≢◌, ◌++◌, ◌<◌, ◌≤◌, ℕ, List, [], None, true, false};
ghost use Rattle.std.specs.Prelude.{OnOk, IfOk, IfErr, IfSome, IfNone, length, get_or, ◌+◌};
ghost use Rattle.ciborium_ll.specs.Seen.{Takes};
ghost use Rattle.ciborium_ll.specs.Title.{Title, StartsBad, bytes_after};
ghost use Rattle.ciborium_ll.specs.Views.{waiting_of, seen};
ghost use Rattle.cbor_walk.specs.Grammar.{Item};
ghost use Rattle.cbor_walk.specs.Walking.{Goes, IsNothing, IsSound};
ghost use Rattle.cose_sift.specs.Taking.{due_by, IsDue, Held, HeadFails, StepFails, stop_of};
ghost use Rattle.cose_sift.specs.Taking.{stopped_at, failures_of, most_of, DeepAt};
ghost use Rattle.cose_sift.specs.declared.taking.Stop.TheVariants.{Deep, Memory};

use cbor_walk::{Fault, Walk, body_of};
use ciborium_ll::{Decoder, Error, Header, Read};
use std::alloc::Global;

/// Open items inside one another that are counted whatever the longest length, and for how many of
/// its bytes one more is.
const LEVELS: usize = 256;

const LEVEL: usize = 16;

/// So many bytes of a string are taken at once, at most.
const PIECE: usize = 64;

/// Why an item doesn't go on.
#[derive(Debug, Clone, Copy, PartialEq, Eq)]
pub enum Stop {
    /// The byte at this offset, or the head there, is in no item.
    Syntax(usize),
    /// The input ends before a head.
    End,
    /// The input ends in a head, or in a string.
    Cut,
    /// More open items lie inside one another, or more items are due, than are counted.
    Deep,
    /// The input failed.
    Input,
    /// The offset would pass `usize::MAX`.
    TooLong,
    /// Out of memory.
    Memory,
}

/// An item as far as it was taken.
#[derive(Drop)]
pub struct Taking {
    walk: Walk,
    /// How many bytes of a string are due.
    body: usize,
    /// Its bytes; none if they are more than `max`.
    bytes: Vec<u8>,
    is_long: bool,
    max: usize,
}

/// Why a read failed; `end` if the input ended.
fn read_fault<R: Read>(error: Error<R::Error>, end: Stop) -> Stop
    ensures fault { result ≡ stop_of R.ends «end» error }
    ensures deep { «end» ≢ Deep → result ≢ Deep }
{
    match error {
        Error::Io(e) => { if R::is_end(&e) { end } else { Stop::Input } }
        Error::Syntax(at) => Stop::Syntax(at),
        Error::TooLong => Stop::TooLong,
        Error::Waiting => Stop::Input,
    }
}

/// Why the walk stopped at the head at this offset.
fn walk_fault(fault: Fault, at: usize) -> Stop
    ensures { result ≡ stopped_at at fault }
{
    match fault {
        Fault::Syntax => Stop::Syntax(at),
        Fault::Deep => Stop::Deep,
        Fault::Memory => Stop::Memory,
    }
}

/// How many bytes of a head follow its first one.
fn bytes_after(first: u8) -> usize
    ensures { result ≡ bytes_after first }
{
    match first % 32 {
        24 => 1,
        25 => 2,
        26 => 4,
        27 => 8,
        _ => 0,
    }
}

/// What a head says; nothing if these bytes, so many as the first one asks for, are none.
fn header_of(title: &[u8]) -> Option<Header>
    requires { length title.now ≡ 1 + bytes_after (get_or title.now 0 0) }
    ensures some { IfSome result (Title title.now) }
    ensures none { IfNone result (StartsBad title.now) }
{
    match Decoder::from(title).pull() {
        Ok(header) => Some(header),
        Err(_) => None,
    }
}

/// Takes the next head, and appends its bytes.
fn take_head<R: Read>(decoder: &mut Decoder<R>, title: &mut Vec<u8>) -> Result<Header, Stop>
    requires fresh { waiting_of decoder.old ≡ None }
    requires empty { title.old.items ≡ [] }
    ensures ok { IfOk result (λ header. Takes (seen R.Read decoder.old) (seen R.Read decoder.new)
        (λ x. (x ≡ title.new.items) × Title x header)) }
    ensures err { IfErr result (HeadFails (seen R.Read decoder.old) (seen R.Read decoder.new)) }
    ensures failed { (seen R.Read decoder.new).failed
        ≡ failures_of result (seen R.Read decoder.old).failed }
    ensures fresh { waiting_of decoder.new ≡ None }
{
    let at = decoder.offset();
    let mut first = [0; 1];
    match decoder.read_exact(&mut first) {
        Ok(()) => {}
        Err(error) => return Err(read_fault::<R>(error, Stop::End)),
    }
    let mut rest = [0; 8];
    let rest = &mut rest[..bytes_after(first[0])];
    match decoder.read_exact(rest) {
        Ok(()) => {}
        Err(error) => return Err(read_fault::<R>(error, Stop::Cut)),
    }
    if title.extend_from_slice(&first).is_err() || title.extend_from_slice(rest).is_err() {
        return Err(Stop::Memory);
    }
    match header_of(title) {
        Some(header) => Ok(header),
        None => Err(Stop::Syntax(at)),
    }
}

impl Taking {
    /// Before an item, of which so many bytes are kept.
    pub fn new(alloc: Global, max: usize) -> Taking
        ensures starts { Goes Item (due_by result) [] }
        ensures due { IsDue result }
        ensures held { Held result [] }
        ensures max { result.max ≡ «max» }
        ensures sound { IsSound result.walk }
        ensures most { result.walk.most ≡ most_of «max» }
    {
        Taking {
            walk: Walk::new(alloc, LEVELS + max / LEVEL),
            body: 0,
            bytes: Vec::new(alloc),
            is_long: false,
            max,
        }
    }

    /// Before the next item.
    pub fn restart(&mut self)
        ensures starts { Goes Item (due_by self.new) [] }
        ensures due { IsDue self.new }
        ensures held { Held self.new [] }
        ensures max { self.new.max ≡ self.old.max }
        ensures sound { IsSound self.new.walk }
        ensures most { self.new.walk.most ≡ self.old.walk.most }
    {
        self.walk.restart();
        self.body = 0;
        self.bytes.clear();
        self.is_long = false;
    }

    /// Whether the item is whole.
    pub fn is_done(&self) -> bool
        ensures done { result ≡ true → Goes (due_by self.now) IsNothing [] }
        ensures due { result ≡ false → IsDue self.now }
    {
        self.body == 0 && self.walk.is_done()
    }

    /// Its bytes, unless they are more than are kept.
    pub fn bytes(&self) -> Option<&[u8]>
        ensures some { IfSome result (λ b. (self.now.is_long ≡ false)
            × (b.now ≡ self.now.bytes.items)) }
        ensures none { IfNone result (self.now.is_long ≡ true) }
    {
        if self.is_long {
            return None;
        }
        Some(self.bytes.as_slice())
    }

    /// Keeps more bytes of it.
    fn keep(&mut self, more: &[u8]) -> Result<(), Stop>
        ensures ok { OnOk result ((x : List ℕ) → Held self.old x
            → Held self.new (x ++ more.now)) }
        ensures err { IfErr result (λ stop. stop ≡ Memory) }
        ensures walk { self.new.walk ≡ self.old.walk }
        ensures body { self.new.body ≡ self.old.body }
        ensures max { self.new.max ≡ self.old.max }
    {
        if self.is_long {
            return Ok(());
        }
        if more.len() > self.max.saturating_sub(self.bytes.len()) {
            self.bytes.clear();
            self.is_long = true;
            return Ok(());
        }
        match self.bytes.extend_from_slice(more) {
            Ok(()) => Ok(()),
            Err(_) => Err(Stop::Memory),
        }
    }

    /// Takes a head, or bytes of a string. It waits for input only if fewer than nine bytes are at
    /// hand.
    ///
    /// # Errors
    /// See `Stop`.
    pub fn step<R: Read>(&mut self, alloc: Global, decoder: &mut Decoder<R>) -> Result<(), Stop>
        requires due { IsDue self.old }
        requires fresh { waiting_of decoder.old ≡ None }
        ensures ok { OnOk result (Takes (seen R.Read decoder.old) (seen R.Read decoder.new)
            (λ x. Goes (due_by self.old) (due_by self.new) x
            × ((y : List ℕ) → Held self.old y → Held self.new (y ++ x)))) }
        ensures err { IfErr result (StepFails (due_by self.old)
            (seen R.Read decoder.old) (seen R.Read decoder.new)) }
        ensures failed { (seen R.Read decoder.new).failed
            ≡ failures_of result (seen R.Read decoder.old).failed }
        ensures fresh { waiting_of decoder.new ≡ None }
        ensures max { self.new.max ≡ self.old.max }
        ensures sound { OnOk result (IsSound self.old.walk → IsSound self.new.walk) }
        ensures deep { IsSound self.old.walk → IfErr result (DeepAt (due_by self.old)
            self.old.walk.most (seen R.Read decoder.old) (seen R.Read decoder.new)) }
        ensures most { self.new.walk.most ≡ self.old.walk.most }
    {
        if self.body > 0 {
            return self.take_body(decoder);
        }
        let at = decoder.offset();
        let mut title = Vec::new(alloc);
        let header = match take_head(decoder, &mut title) {
            Ok(header) => header,
            Err(stop) => return Err(stop),
        };
        match self.walk.take(header) {
            Ok(()) => {}
            Err(fault) => return Err(walk_fault(fault, at)),
        }
        self.body = body_of(header);
        self.keep(title.as_slice())
    }

    /// Takes bytes of a string: of those at hand, or one.
    fn take_body<R: Read>(&mut self, decoder: &mut Decoder<R>) -> Result<(), Stop>
        requires due { 0 < self.old.body }
        requires fresh { waiting_of decoder.old ≡ None }
        ensures ok { OnOk result (Takes (seen R.Read decoder.old) (seen R.Read decoder.new)
            (λ x. Goes (due_by self.old) (due_by self.new) x
            × ((y : List ℕ) → Held self.old y → Held self.new (y ++ x)))) }
        ensures err { IfErr result (StepFails (due_by self.old)
            (seen R.Read decoder.old) (seen R.Read decoder.new)) }
        ensures failed { (seen R.Read decoder.new).failed
            ≡ failures_of result (seen R.Read decoder.old).failed }
        ensures fresh { waiting_of decoder.new ≡ None }
        ensures max { self.new.max ≡ self.old.max }
        ensures walk { self.new.walk ≡ self.old.walk }
        ensures deep { IfErr result (λ stop. stop ≢ Deep) }
    {
        let mut piece = [0; PIECE];
        let len = decoder.held().len().clamp(1, PIECE).min(self.body);
        let piece = &mut piece[..len];
        match decoder.read_exact(piece) {
            Ok(()) => {}
            Err(error) => return Err(read_fault::<R>(error, Stop::Cut)),
        }
        self.body -= len;
        self.keep(piece)
    }
}
