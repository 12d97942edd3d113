//! What is noted of each item.
ghost use Rattle.std.specs.Prelude.{◌≡◌, ◌≤◌, List, [], ◌∷◌, ◌++◌, length, OnOk, OnErr};
ghost use Rattle.cose_gate_core.specs.ReasonNames.{refusal_name};
ghost use Rattle.cose_gate_core.specs.declared.report.Entry.{Entry};

use coset_labels::CoseError;
use std::alloc::AllocError;
use std::fmt;
use thiserror::Error;

/// Why an item was refused. The reasons are tested in the order `NotTagged`, `Encrypted`,
/// `OtherTag`, `Shape`, `Detached`, `NoSignature`, `NotShortest`, `Judged`. Its text is its name,
/// and of a shape the fault's text too.
#[derive(Debug, Clone, Copy, PartialEq, Eq)]
pub enum Refusal {
    /// The item has no tag.
    NotTagged,
    /// The item has a tag of no message that is judged.
    OtherTag(u64),
    /// The item has the tag of an encrypted message, 16 or 96.
    Encrypted,
    /// The item is no message of its tag.
    Shape(CoseError),
    /// The message doesn't carry its payload.
    Detached,
    /// The message, a COSE_Sign, has no signature.
    NoSignature,
    /// The judge said no to the question with this index, counted from 0.
    Judged(usize),
    /// The item isn't in canonical encoding. Only a strict gate refuses it for that.
    NotShortest,
}

impl Refusal {
    /// Its name.
    pub fn name(self) -> &'static str
        ensures text { result.now ≡ refusal_name self }
        ensures short { length result.now ≤ 11 }
    {
        match self {
            Refusal::NotTagged => "NotTagged",
            Refusal::OtherTag(_) => "OtherTag",
            Refusal::Encrypted => "Encrypted",
            Refusal::Shape(_) => "Shape",
            Refusal::Detached => "Detached",
            Refusal::NoSignature => "NoSignature",
            Refusal::Judged(_) => "Judged",
            Refusal::NotShortest => "NotShortest",
        }
    }
}

impl fmt::Display for Refusal {
    fn fmt<W: fmt::Write>(&self, f: &mut fmt::Formatter<W>) -> fmt::Result {
        f.write_str(self.name())?;
        match self {
            Refusal::Shape(error) => write!(f, ": {error}"),
            _ => Ok(()),
        }
    }
}

impl std::error::Error for Refusal {}

/// What became of an item: `passed`, or `refused: ` and why.
#[derive(Debug, Clone, Copy, PartialEq, Eq, Error)]
pub enum Verdict {
    /// It was written.
    #[error("passed")]
    Passed,
    /// It was left out.
    #[error("refused: {0}")]
    Refused(Refusal),
}

/// One item of the input.
#[derive(Debug, Clone, Copy, PartialEq, Eq)]
pub struct Entry {
    /// Its number, counted from 1.
    pub number: usize,
    /// Where it begins, in bytes from where the decoder began.
    pub offset: usize,
    /// What became of it.
    pub verdict: Verdict,
}

/// Is told of each item, in order. An implementation says in its meaning what it keeps (`state`,
/// and `folded`, which adds one entry).
pub trait Report {
    /// What a report keeps.
    ghost State: { Type 0 };

    /// What it keeps now.
    ghost state: { Self → State };

    /// What it keeps after one more entry.
    ghost folded: { State → Entry → State };

    /// Takes the next entry.
    ///
    /// # Errors
    /// Only if out of memory. The report is as it was then.
    fn note(&mut self, entry: &Entry) -> Result<(), AllocError>
        ensures ok { OnOk result (state self.new ≡ folded (state self.old) entry.now) }
        ensures err { OnErr result (state self.new ≡ state self.old) };

    /// Hands on what it holds back: more input may be waited for. What it keeps stays.
    fn rest(&mut self)
        ensures { state self.new ≡ state self.old }
    {}
}

/// A report that keeps nothing.
#[derive(Debug, Clone, Copy)]
pub struct Silent;

impl Report for Silent {
    ghost State = { Unit {0} };

    ghost state = { λ _. tt };

    ghost folded = { λ s _. s };

    fn note(&mut self, _entry: &Entry) -> Result<(), AllocError> {
        Ok(())
    }
}

impl Report for Vec<Entry> {
    ghost State = { List Entry };

    ghost state = { λ v. v.items };

    ghost folded = { λ es e. es ++ e ∷ [] };

    fn note(&mut self, entry: &Entry) -> Result<(), AllocError> {
        self.push(*entry)?;
        Ok(())
    }
}
