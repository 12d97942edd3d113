//! A judge that asks by the rules.
ghost use Rattle.std.specs.Prelude.{◌≡◌, List, [], ◌++◌, IfOk, map, option_map};
ghost use Rattle.coset_keys.specs.View.{key_view};
ghost use Rattle.cose_rules.specs.TokenView.{terms_view};
ghost use Rattle.cose_ruled.specs.Asking.{IsHeld, asked_by, item_of, pieces_of};
ghost use Rattle.cose_ruled.specs.Blocks.{AskedSoFar, IsBlock, ItemTerms, Part, asks, part_of};

use crate::about::about_text;
use crate::questions::Questions;
use crate::told::{Question, Told};
use ciborium_ll::log::Log;
use cose_gate_core::{About, Entry, Judge};
use cose_gate_records::Held;
use cose_rules::{Refusal, TokenTerms};
use coset_keys::CoseKey;
use std::alloc::{AllocError, Global};
use std::mem;

/// Says yes to the questions that the rules allow, and keeps what the block of the item at hand
/// shows of its questions, in space that is linear in the item.
#[derive(Drop)]
pub struct RuledAsker<'a> {
    alloc: Global,
    keys: &'a [CoseKey],
    /// What the question that is held is about, or why the rules refuse it.
    about: Result<Vec<u8>, Refusal>,
    held: Held,
    /// Those about the item at hand.
    questions: Questions,
    /// What was told about each item before it. It is in contracts alone.
    before: Log<Log<Told>>,
}

impl<'a> RuledAsker<'a> {
    /// A judge by the keys of a set, that was asked nothing yet.
    pub fn new(alloc: Global, keys: &'a [CoseKey]) -> RuledAsker<'a>
        ensures item { item_of result ≡ record { keys = map key_view keys.now; before = [] } }
        ensures told { asked_by result ≡ record { keys = map key_view keys.now; told = [] } }
    {
        RuledAsker {
            alloc,
            keys,
            about: Err(Refusal::NoAlgorithm),
            held: Held::new(alloc),
            questions: Questions::new(alloc),
            before: Log::new(),
        }
    }

    /// Goes on to the next item: forgets the questions about the one at hand.
    pub fn next_item(&mut self)
        ensures told { asked_by self.new ≡ asked_by self.old }
        ensures item { item_of self.new
            ≡ record { keys = (item_of self.old).keys; before = (asked_by self.old).told } }
    {
        self.before = self.before.and(self.questions.told());
        self.questions = Questions::new(self.alloc);
    }

    /// The block of the item at hand, which has this entry and ends at this offset. With `token` it
    /// has to be a token that passes by these terms, too.
    ///
    /// # Errors
    /// Only if out of memory, also earlier for one of its questions.
    pub fn block(
        &self,
        alloc: Global,
        entry: &Entry,
        end: usize,
        token: Option<TokenTerms<'_>>,
    ) -> Result<Vec<u8>, AllocError>
        ensures { IfOk result (λ block. (ps : List Part)
            → (asked_by self.now).told ≡ (item_of self.now).before ++ ps
            → IsBlock (option_map terms_view token.entry) entry.now end ps block.items) }
    {
        self.questions.block(alloc, entry, end, token)
    }
}

impl Judge for RuledAsker<'_> {
    ghost use Rattle.std.specs.Prelude.{◌∷◌, ℕ, OnOk, OnErr, length};
    ghost use Rattle.cose_gate_core.specs.Lent.{subject_of};
    ghost use Rattle.cose_gate_core.specs.Questions.{Subject};

    ghost Who = { ItemTerms };

    ghost Told = { AskedSoFar };

    ghost who = { item_of };

    ghost told = { asked_by };

    ghost holds = { IsHeld };

    ghost pieces = { pieces_of };

    ghost yes = { λ w q. asks w.keys q };

    ghost decided = { λ s q. record s { told = s.told ++ part_of s.keys q ∷ [] } };

    /// Begins a question. If it was out of memory for an earlier one about the item, this fails,
    /// too.
    fn begin(&mut self, about: &About) -> Result<(), AllocError> {
        if self.questions.is_lost() {
            return Err(AllocError);
        }
        self.about = about_text(self.alloc, self.keys, about)?;
        self.held.begin(self.alloc, about)
    }

    fn feed(&mut self, piece: &[u8]) -> Result<(), AllocError> {
        self.held.feed(piece)
    }

    fn decide(&mut self, signature: &[u8]) -> bool {
        let question = Question {
            about: &self.about,
            covered: self.held.covered(),
            signature,
            digest: self.held.digest(signature),
        };
        let questions = mem::replace(&mut self.questions, Questions::Lost(Log::new()));
        self.questions = questions.and(question);
        self.about.is_ok()
    }
}
