//! What is told of a question.
ghost use Rattle.std.specs.Prelude.{◌≡◌, ◌++◌};
ghost use Rattle.cose_gate_records.specs.Framing.{framed};
ghost use Rattle.cose_ruled.specs.Blocks.{covered_in};
ghost use Rattle.cose_ruled.specs.Told.{part_in, part_view};

use ciborium_ll::log::Log;
use cose_gate_records::{eight, logged};
use cose_rules::Refusal;

/// A question that was asked.
#[derive(Clone, Copy)]
pub(crate) struct Question<'a> {
    /// What its block says that it is about, or why the rules refuse it.
    pub about: &'a Result<Vec<u8>, Refusal>,
    pub covered: &'a [u8],
    pub signature: &'a [u8],
    pub digest: [u8; 32],
}

impl<'a> Question<'a> {
    /// The covered bytes, if the rules allow the question.
    pub(crate) fn shown(&self) -> &'a [u8]
        ensures { result.now ≡ covered_in (part_view self.now) }
    {
        match self.about {
            Ok(_) => self.covered,
            Err(_) => &[],
        }
    }
}

/// What is told of a question: what it is about, the covered bytes, and signature and digest; or
/// why the rules refuse it. It is in contracts alone, and takes no memory.
#[derive(Drop)]
pub(crate) enum Told {
    Shown(Log<u8>, Log<u8>, Log<u8>),
    Refused(Refusal),
}

/// The signature after its length, and the digest.
fn log_signed(question: Question<'_>) -> Log<u8>
    ensures { result.items ≡ framed question.entry.signature.now ++ question.entry.digest }
{
    let signed = logged(Log::new(), &eight(question.signature.len()));
    let signed = logged(signed, question.signature);
    logged(signed, &question.digest)
}

impl Told {
    /// What is told of this question.
    pub(crate) fn new(question: Question<'_>) -> Told
        ensures { part_in result ≡ part_view question.entry }
    {
        match question.about {
            Ok(about) => Told::Shown(
                logged(Log::new(), about),
                logged(Log::new(), question.covered),
                log_signed(question),
            ),
            Err(why) => Told::Refused(*why),
        }
    }
}
