//! The heads of one item.
ghost use Rattle.std.specs.Prelude.{◌≡◌, ◌≢◌, ◌<◌, ◌≤◌, ◌^◌, ◌+◌, ◌∷◌};
ghost use Rattle.std.specs.Prelude.{ℕ, List, [], length, reverse};
ghost use Rattle.std.specs.Prelude.{None, Some, OnOk, OnErr, IfErr, IfSome, IfNone, true, false};
ghost use Rattle.ciborium_ll.specs.Title.{Title};
ghost use Rattle.ciborium_ll.specs.declared.hdr.Header.TheVariants.{Break};
ghost use Rattle.cbor_walk.specs.Grammar.{takes, size, body_of, after, stated, IsNext, Item};
ghost use Rattle.cbor_walk.specs.declared.walk.Fault.TheVariants.{Deep, Syntax};
ghost use Rattle.cbor_walk.specs.Walking.{Long, Then, Goes, Refuses, Agrees};
ghost use Rattle.cbor_walk.specs.Walking.{IfSyntax, IfDeep, IsDeep, wanted_by, IsDue, IsSound};
ghost use Rattle.cbor_walk.specs.Walking.{IsNothing};

use ciborium_ll::Header;
use std::alloc::Global;

/// What an open item holds up to its break.
#[derive(Debug, Clone, Copy, PartialEq, Eq)]
pub enum Holds {
    /// Any items.
    Items,
    /// Keys and values.
    Pairs,
    /// Byte strings.
    Bytes,
    /// Text strings.
    Text,
}

/// What is around an open item: what the open one around it holds, if there is one, and how many
/// items are due in that.
#[derive(Debug, Clone, Copy, PartialEq, Eq)]
pub struct Level {
    holds: Option<Holds>,
    due: u64,
}

/// What a head says of its item.
#[derive(Debug, Clone, Copy, PartialEq, Eq)]
enum Next {
    /// So many items follow in it.
    Items(u64),
    /// It is open, and holds these.
    Open(Holds),
    /// It is no item: the head is a break.
    Nothing,
}

/// Why the walk can't go on.
#[derive(Debug, Clone, Copy, PartialEq, Eq)]
pub enum Fault {
    /// No item goes on with this head.
    Syntax,
    /// More open items lie inside one another, or more items are due, than are counted.
    Deep,
    /// Out of memory.
    Memory,
}

impl Holds {
    /// How many items come at a time.
    fn size(self) -> u64
        ensures { result ≡ size self }
    {
        match self {
            Holds::Items => 1,
            Holds::Pairs => 2,
            Holds::Bytes => 1,
            Holds::Text => 1,
        }
    }

    /// Whether they may begin with this head.
    fn takes(self, header: Header) -> bool
        ensures { result ≡ takes self header }
    {
        match self {
            Holds::Items => true,
            Holds::Pairs => true,
            Holds::Bytes => matches!(header, Header::Bytes(_)),
            Holds::Text => matches!(header, Header::Text(_)),
        }
    }
}

/// What this head says; nothing if it claims more items than are counted.
fn next_of(header: Header) -> Option<Next>
    ensures some { IfSome result (IsNext header) }
    ensures none { IfNone result ((n : ℕ) × (after header ≡ stated 0 n) × (2 ^ 64 ≤ n)) }
{
    match header {
        Header::Positive(_) => Some(Next::Items(0)),
        Header::Negative(_) => Some(Next::Items(0)),
        Header::Float(_) => Some(Next::Items(0)),
        Header::Simple(_) => Some(Next::Items(0)),
        Header::Tag(_) => Some(Next::Items(1)),
        Header::Bytes(Some(_)) => Some(Next::Items(0)),
        Header::Text(Some(_)) => Some(Next::Items(0)),
        Header::Array(Some(n)) => Some(Next::Items(n as u64)),
        Header::Map(Some(n)) => Some(Next::Items((n as u64).checked_mul(2)?)),
        Header::Bytes(None) => Some(Next::Open(Holds::Bytes)),
        Header::Text(None) => Some(Next::Open(Holds::Text)),
        Header::Array(None) => Some(Next::Open(Holds::Items)),
        Header::Map(None) => Some(Next::Open(Holds::Pairs)),
        Header::Break => Some(Next::Nothing),
    }
}

/// How far the heads of an item were taken. Of what has a stated length only the sum is held.
#[derive(Drop)]
pub struct Walk {
    /// What the innermost open item holds, if an item is open.
    holds: Option<Holds>,
    /// How many items are due in it.
    due: u64,
    /// What is around the open items, the innermost last.
    levels: Vec<Level>,
    /// How many there may be.
    pub most: usize,
}

impl Walk {
    /// Before an item, in which at most so many open items may be inside one another.
    pub fn new(alloc: Global, most: usize) -> Walk
        ensures starts { Goes Item (wanted_by result) [] }
        ensures due { IsDue result }
        ensures sound { IsSound result }
        ensures most { result.most ≡ «most» }
    {
        Walk {
            holds: None,
            due: 1,
            levels: Vec::new(alloc),
            most,
        }
    }

    /// Before the next item.
    pub fn restart(&mut self)
        ensures starts { Goes Item (wanted_by self.new) [] }
        ensures due { IsDue self.new }
        ensures sound { IsSound self.new }
        ensures most { self.new.most ≡ self.old.most }
    {
        self.holds = None;
        self.due = 1;
        self.levels.clear();
    }

    /// Whether the item is whole.
    pub fn is_done(&self) -> bool
        ensures done { result ≡ true → Goes (wanted_by self.now) IsNothing [] }
        ensures due { result ≡ false → IsDue self.now }
    {
        self.due == 0 && self.holds.is_none()
    }

    /// Takes the next head. The bytes of its string, if it is one, are due then.
    ///
    /// # Errors
    /// See `Fault`.
    pub fn take(&mut self, header: Header) -> Result<(), Fault>
        requires { IsDue self.old }
        ensures ok { OnOk result ((title : List ℕ) → Title title header
            → Goes (wanted_by self.old)
            (Then (Long (body_of header)) (wanted_by self.new)) title) }
        ensures syntax { IfErr result (IfSyntax ((title : List ℕ) → Title title header
            → Refuses (wanted_by self.old) title)) }
        ensures sound { OnOk result (IsSound self.old → IsSound self.new) }
        ensures deep { IsSound self.old → IfErr result (IfDeep ((title : List ℕ)
            → Title title header → IsDeep (wanted_by self.old) self.old.most title)) }
        ensures most { self.new.most ≡ self.old.most }
    {
        if self.due > 0 {
            return self.take_item(header);
        }
        if header == Header::Break {
            return self.close();
        }
        self.begin(header)?;
        self.take_item(header)
    }

    /// Takes the head of an item that is due.
    fn take_item(&mut self, header: Header) -> Result<(), Fault>
        requires { 0 < self.old.due }
        ensures ok { OnOk result ((title : List ℕ) → Title title header
            → Goes (wanted_by self.old)
            (Then (Long (body_of header)) (wanted_by self.new)) title) }
        ensures syntax { IfErr result (IfSyntax ((title : List ℕ) → Title title header
            → Refuses (wanted_by self.old) title)) }
        ensures sound { OnOk result (IsSound self.old → IsSound self.new) }
        ensures deep { IsSound self.old → IfErr result (IfDeep ((title : List ℕ)
            → Title title header → IsDeep (wanted_by self.old) self.old.most title)) }
        ensures most { self.new.most ≡ self.old.most }
    {
        self.due -= 1;
        match next_of(header) {
            Some(Next::Items(n)) => self.add(n),
            Some(Next::Open(holds)) => self.open(holds),
            Some(Next::Nothing) => Err(Fault::Syntax),
            None => Err(Fault::Deep),
        }
    }

    /// So many items more are due.
    fn add(&mut self, n: u64) -> Result<(), Fault>
        ensures due { OnOk result (self.new.due ≡ n + self.old.due) }
        ensures holds { self.new.holds ≡ self.old.holds }
        ensures levels { self.new.levels ≡ self.old.levels }
        ensures deep { IfErr result (λ f. f ≡ Deep) }
        ensures over { OnErr result (2 ^ 64 ≤ n + self.old.due) }
        ensures most { self.new.most ≡ self.old.most }
    {
        match self.due.checked_add(n) {
            Some(due) => self.due = due,
            None => return Err(Fault::Deep),
        }
        Ok(())
    }

    /// An item begins that holds this up to its break.
    fn open(&mut self, holds: Holds) -> Result<(), Fault>
        ensures ok { OnOk result ((self.new.holds ≡ Some holds) × (self.new.due ≡ 0)
            × (reverse self.new.levels.items ≡ record { holds = self.old.holds; due = self.old.due }
            ∷ reverse self.old.levels.items)) }
        ensures fault { IfErr result (IfSyntax ⊥) }
        ensures deep { IfErr result (IfDeep (self.old.most ≤ length self.old.levels.items)) }
        ensures most { self.new.most ≡ self.old.most }
    {
        if self.levels.len() >= self.most {
            return Err(Fault::Deep);
        }
        let level = Level {
            holds: self.holds,
            due: self.due,
        };
        if self.levels.push(level).is_err() {
            return Err(Fault::Memory);
        }
        self.holds = Some(holds);
        self.due = 0;
        Ok(())
    }

    /// Takes the break of the innermost open item, in which no item is due.
    fn close(&mut self) -> Result<(), Fault>
        requires due { self.old.due ≡ 0 }
        requires open { self.old.holds ≢ None }
        ensures ok { OnOk result ((title : List ℕ) → Title title Break
            → Goes (wanted_by self.old) (Then (Long 0) (wanted_by self.new)) title) }
        ensures syntax { IfErr result (IfSyntax ((title : List ℕ) → Title title Break
            → Refuses (wanted_by self.old) title)) }
        ensures sound { OnOk result (IsSound self.old → IsSound self.new) }
        ensures fault { IfErr result (λ f. f ≡ Syntax) }
        ensures most { self.new.most ≡ self.old.most }
    {
        let Some(level) = self.levels.pop() else {
            return Err(Fault::Syntax);
        };
        self.holds = level.holds;
        self.due = level.due;
        Ok(())
    }

    /// In an open item in which no item is due, one begins or a pair.
    fn begin(&mut self, header: Header) -> Result<(), Fault>
        requires due { self.old.due ≡ 0 }
        requires open { self.old.holds ≢ None }
        requires on { header ≢ Break }
        ensures ok { OnOk result ((title : List ℕ) → Title title header
            → Agrees (wanted_by self.old) (wanted_by self.new) title) }
        ensures due { OnOk result (0 < self.new.due) }
        ensures syntax { IfErr result (IfSyntax ((title : List ℕ) → Title title header
            → Refuses (wanted_by self.old) title)) }
        ensures sound { OnOk result (IsSound self.old → IsSound self.new) }
        ensures fault { IfErr result (λ f. f ≡ Syntax) }
        ensures most { self.new.most ≡ self.old.most }
    {
        let Some(holds) = self.holds else {
            return Err(Fault::Syntax);
        };
        if !holds.takes(header) {
            return Err(Fault::Syntax);
        }
        self.due = holds.size();
        Ok(())
    }
}
