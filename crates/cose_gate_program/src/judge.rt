//! A judge by HMAC.
ghost use Rattle.std.specs.Prelude.{◌≡◌, ℕ, List, [], ◌∷◌, ◌++◌, length};
ghost use Rattle.std.specs.Prelude.{Option, option_copied, IsOk, OnOk, OnErr};
ghost use Rattle.coset_keys.specs.Fields.{KeyFields};
ghost use Rattle.coset_keys.specs.View.{key_set_view};
ghost use Rattle.cose_gate_core.specs.Lent.{subject_of};
ghost use Rattle.cose_gate_core.specs.Questions.{Subject};
ghost use Rattle.cose_gate_program.specs.Judge as spec;
ghost use Rattle.cose_gate_program.specs.Judge.{MakesTag, says_yes};
ghost use Rattle.cose_gate_program.specs.Judging.{is_tag_under};
ghost use Rattle.cose_gate_program.specs.Keeps.{keys_of, keys_in};

use crate::index::{KeyIndex, Keys};
use crate::macs::{mac_about, mac_under};
use crate::verdict::secret_for;
use cose_gate_core::{About, Judge, Log, MessageKind};
use cose_hmac::{HmacSha256, same_tag};
use coset_keys::CoseKeySet;
use std::alloc::{AllocError, Global};

/// Says yes to a COSE_Mac0 whose tag is the whole HMAC with SHA-256 under the first key that fits
/// it, and no to anything else (RFC 9052, section 6.3). It takes no memory while it judges.
#[derive(Drop)]
pub struct HmacJudge<'a> {
    keys: Keys<'a>,
    mac: Option<HmacSha256>,
    pieces: Log<usize>,
}

impl<'a> HmacJudge<'a> {
    /// A judge by the keys of this set. For each message it looks through them, and hashes a key
    /// anew.
    pub fn new(keys: &'a CoseKeySet) -> HmacJudge<'a>
        ensures { keys_of result ≡ key_set_view keys.now }
    {
        judge_by(Keys::Set(keys))
    }

    /// A judge by the keys of this set that sorts them by their ids, and hashes each once, for many
    /// messages. If it is out of memory for that, it is what `new` gives.
    pub fn prepared(alloc: Global, keys: &'a CoseKeySet) -> HmacJudge<'a>
        ensures { keys_of result ≡ key_set_view keys.now }
    {
        match KeyIndex::new(alloc, keys) {
            Some(index) => judge_by(Keys::Index(index)),
            None => judge_by(Keys::Set(keys)),
        }
    }

    /// An HMAC for the tag of a message, which was fed nothing yet.
    fn fresh_mac(&self, about: &About) -> Option<HmacSha256>
        ensures { MakesTag result (spec.secret_about (keys_of self.now) (subject_of about.now)) [] }
    {
        match &self.keys {
            Keys::Set(keys) => mac_under(secret_about(keys, about)),
            Keys::Index(index) => mac_about(index, about),
        }
    }
}

/// A judge that holds no question.
fn judge_by<'a>(keys: Keys<'a>) -> HmacJudge<'a>
    ensures { keys_of result ≡ keys_in keys.entry }
{
    HmacJudge {
        keys,
        mac: None,
        pieces: Log::new(),
    }
}

/// The secret that the tag of a COSE_Mac0 is made with.
fn secret_about<'a>(keys: &'a CoseKeySet, about: &About) -> Option<&'a [u8]>
    ensures { option_copied result
        ≡ spec.secret_about (key_set_view keys.now) (subject_of about.now) }
{
    match about.kind {
        MessageKind::Mac0 => secret_for(keys, about.protected, about.unprotected),
        MessageKind::Sign1 | MessageKind::Sign | MessageKind::Mac => None,
    }
}

fn feed_into(mac: &mut Option<HmacSha256>, piece: &[u8])
    ensures { (secret : Option (List ℕ)) (covered : List ℕ) → MakesTag mac.old secret covered
        → MakesTag mac.new secret (covered ++ piece.now) }
{
    if let Some(mac) = mac {
        mac.update(piece);
    }
}

fn is_made(mac: Option<HmacSha256>, tag: &[u8]) -> bool
    ensures { (secret : Option (List ℕ)) (covered : List ℕ) → MakesTag mac secret covered
        → result ≡ is_tag_under secret covered tag.now }
{
    match mac {
        Some(mac) => same_tag(&mac.finalize(), tag),
        None => false,
    }
}

impl Judge for HmacJudge<'_> {
    ghost Who = { List KeyFields };

    ghost Told = { Unit {0} };

    ghost who = { keys_of };

    ghost told = { λ _. tt };

    ghost holds = { λ j subject covered.
        MakesTag j.mac (spec.secret_about (keys_of j) subject) covered };

    ghost pieces = { λ j. j.pieces.items };

    ghost yes = { says_yes };

    ghost decided = { λ told _. told };

    fn begin(&mut self, about: &About) -> Result<(), AllocError>
        ensures ready { IsOk result }
        ensures holds { OnOk result (MakesTag self.new.mac
            (spec.secret_about (keys_of self.new) (subject_of about.now)) []) }
        ensures pieces { OnOk result (self.new.pieces.items ≡ []) }
        ensures who { keys_of self.new ≡ keys_of self.old }
    {
        self.mac = self.fresh_mac(about);
        self.pieces = Log::new();
        Ok(())
    }

    fn feed(&mut self, piece: &[u8]) -> Result<(), AllocError>
        ensures ready { IsOk result }
        ensures holds { OnOk result ((subject : Subject) (covered : List ℕ)
            → MakesTag self.old.mac (spec.secret_about (keys_of self.old) subject) covered
            → MakesTag self.new.mac (spec.secret_about (keys_of self.new) subject)
            (covered ++ piece.now)) }
        ensures pieces { OnOk result (self.new.pieces.items
            ≡ self.old.pieces.items ++ length piece.now ∷ []) }
        ensures refused { OnErr result (self.new.pieces.items ≡ self.old.pieces.items) }
        ensures who { keys_of self.new ≡ keys_of self.old }
    {
        feed_into(&mut self.mac, piece);
        self.pieces = self.pieces.and(&piece.len());
        Ok(())
    }

    fn decide(&mut self, signature: &[u8]) -> bool {
        is_made(self.mac.take(), signature)
    }
}
