//! A judge whose last no has its reason beside it.
ghost use Rattle.std.specs.Prelude.{List};
ghost use Rattle.coset_keys.specs.Fields.{KeyFields};
ghost use Rattle.cose_gate_program.specs.Judge.{says_yes};
ghost use Rattle.cose_gate_program.specs.Keeps.{keys_of};
ghost use Rattle.cose_gate_program.specs.contracts.judge.HmacJudgeJudge.TheImpl as hmac;

use cose_gate_core::{About, Judge, MessageKind};
use cose_gate_program::{CoseKeySet, HmacJudge};
use cose_hmac::HmacSha256;
use cose_reasons::{
    Headers, KeyBook, Look, OTHER_KIND, Page, Secret, has_short_secret, secret_or_reason,
    write_key, write_wrong_tag,
};
use std::alloc::{AllocError, Global};
use std::cell::RefCell;

/// More than the texts of `more` take, but for a reason.
const LINE: usize = 256;

/// What is said of the judge's answer to the question at hand, and before that.
#[derive(Drop)]
pub struct Note {
    /// Why it is no, or under which key it is yes; empty if that isn't known.
    pub(crate) reason: String,
    /// Whether nothing is said of a yes.
    pub(crate) is_quiet: bool,
    /// Whether the question is about one signature of several.
    pub(crate) is_of_signer: bool,
    /// The front of a line. It has memory from the beginning, so that a run tells that it is out of
    /// memory.
    pub(crate) line: String,
    /// What is said once of the keys; empty if nothing is.
    pub(crate) keys: &'static str,
}

/// Of keys one of which can be guessed.
const SHORT: &str = "a key of KEYS has a secret of fewer than 16 bytes, which can be guessed";

impl Note {
    /// Of no question yet. It has memory for a line, if it is asked for.
    pub fn new(alloc: Global, is_asked: bool) -> Note {
        let mut line = String::new(alloc);
        if is_asked {
            let _ = line.reserve(LINE);
        }
        Note {
            reason: String::new(alloc),
            is_quiet: false,
            is_of_signer: false,
            line,
            keys: "",
        }
    }
}

/// Why the judge by HMAC with these keys says no to the question at hand, or under which key it
/// says yes. If out of memory, no reason is known.
#[derive(Drop)]
pub struct Reasons<'a> {
    book: Option<KeyBook<'a>>,
    aad_len: usize,
    /// The tag under the secret of the message, of what was fed; none if the reason is known
    /// already.
    mac: Option<(HmacSha256, Secret<'a>)>,
    note: &'a RefCell<Note>,
}

impl<'a> Reasons<'a> {
    /// The reasons of a judge by these keys, with so many bytes of external data, into this note;
    /// none without a note.
    pub fn noted(
        alloc: Global,
        keys: &'a CoseKeySet,
        aad_len: usize,
        note: Option<&'a RefCell<Note>>,
    ) -> Option<Reasons<'a>> {
        let note = note?;
        if let Ok(mut guard) = note.try_borrow_mut() {
            let said = &mut *guard;
            said.keys = if has_short_secret(keys) { SHORT } else { "" };
        }
        Some(Reasons {
            book: KeyBook::new(alloc, Look::least(), keys).ok(),
            aad_len,
            mac: None,
            note,
        })
    }

    /// Begins a question, and notes the reason that it gives before its tag is known.
    fn begin(&mut self, about: &About) {
        self.mac = None;
        if let Ok(mut guard) = self.note.try_borrow_mut() {
            let note = &mut *guard;
            note.reason.clear();
            note.is_of_signer = about.signer.is_some();
            let mut page = Page::new(&mut note.reason);
            let secret = begun(&self.book, about, &mut page);
            if page.has_failed() {
                note.reason.clear();
            } else if let Some(secret) = secret {
                self.mac = Some((HmacSha256::new(secret.bytes), secret));
            }
        }
    }

    fn feed(&mut self, piece: &[u8]) {
        if let Some((mac, _)) = &mut self.mac {
            mac.update(piece);
        }
    }

    /// Notes what is wrong with the tag, or under which key it is right.
    fn decide(&mut self, tag: &[u8]) {
        if let Some((mac, secret)) = self.mac.take()
            && let Some(book) = &self.book
            && let Ok(mut guard) = self.note.try_borrow_mut()
        {
            let note = &mut *guard;
            let whole = mac.finalize();
            let mut page = Page::new(&mut note.reason);
            if !write_wrong_tag(&whole, tag, secret.is_shared, self.aad_len, &mut page) {
                write_key(book, secret.id, &mut page);
            }
            if page.has_failed() {
                note.reason.clear();
            }
        }
    }
}

/// The secret under which the tag is verified; none if the reason is known already, and written.
fn begun<'a>(
    book: &Option<KeyBook<'a>>,
    about: &About,
    page: &mut Page<'_, String>,
) -> Option<Secret<'a>> {
    match (about.kind, book) {
        (MessageKind::Mac0, Some(book)) => {
            let headers = Headers {
                protected: about.protected,
                unprotected: about.unprotected,
                hides_id: false,
            };
            secret_or_reason(book, headers, page)
        }
        (MessageKind::Mac0, None) => None,
        _ => {
            page.write_str(OTHER_KIND);
            None
        }
    }
}

/// A judge by HMAC, and if they are asked for the reasons of its answers.
#[derive(Drop)]
pub struct Explained<'a> {
    /// The judge.
    pub judge: HmacJudge<'a>,
    /// The reasons, if they are asked for.
    pub reasons: Option<Reasons<'a>>,
}

impl Judge for Explained<'_> {
    ghost Who = { List KeyFields };

    ghost Told = { Unit {0} };

    ghost who = { λ e. keys_of e.judge };

    ghost told = { λ _. tt };

    ghost holds = { λ e. hmac.ghosts.holds e.judge };

    ghost pieces = { λ e. hmac.ghosts.pieces e.judge };

    ghost yes = { says_yes };

    ghost decided = { λ told _. told };

    fn begin(&mut self, about: &About) -> Result<(), AllocError> {
        if let Some(reasons) = &mut self.reasons {
            reasons.begin(about);
        }
        self.judge.begin(about)
    }

    fn feed(&mut self, piece: &[u8]) -> Result<(), AllocError> {
        if let Some(reasons) = &mut self.reasons {
            reasons.feed(piece);
        }
        self.judge.feed(piece)
    }

    fn decide(&mut self, signature: &[u8]) -> bool {
        if let Some(reasons) = &mut self.reasons {
            reasons.decide(signature);
        }
        self.judge.decide(signature)
    }
}
