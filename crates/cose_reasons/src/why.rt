//! Why the judge of the program `cose-gate` says no to a COSE_Mac0.
use crate::keys::KeyBook;
use crate::stop::Stop;
use cbor_diag::{CUT, Page, front_text, write_text};
use cose_gate_core::{
    Algorithm, Header, ProtectedHeader, RegisteredLabel, RegisteredLabelWithPrivate,
};
use cose_gate_program::{alg_is_hmac, fits, secret_of};
use cose_hmac::{hmac_sha256, same_tag};
use cose_iana::EnumI64;
use cose_notation::{algorithm, key_type, mask, parameter, write_len, write_shown_id};
use cose_rules::{Layer, allows, are_understood, id_in, is_type};
use coset_keys::CoseKey;
use coset_labels::KeyType;
use std::alloc::Global;
use std::fmt;

/// Why the judge says no to a message that is not a COSE_Mac0.
pub const OTHER_KIND: &str = "cose-gate judges only COSE_Mac0: see cose-verify(1)";

/// So many ids of a set are named.
const IDS: usize = 8;

/// How many bytes a whole tag has.
const TAG: usize = 32;

/// The algorithm HMAC 256/256.
const HMAC: i64 = 5;

/// The type of symmetric keys.
const SYMMETRIC: i64 = 4;

/// The headers of a COSE_Mac0.
#[derive(Clone, Copy)]
pub struct Headers<'a> {
    /// Its protected header.
    pub protected: &'a ProtectedHeader,
    /// Its unprotected header.
    pub unprotected: &'a Header,
    /// Whether its key id isn't shown, whatever it is.
    pub hides_id: bool,
}

impl Headers<'_> {
    /// The key id, and whether it isn't shown.
    fn id(&self) -> Id<'_> {
        let layer = Layer {
            protected: self.protected,
            unprotected: self.unprotected,
        };
        Id {
            bytes: id_in(layer),
            is_hidden: self.hides_id,
        }
    }
}

/// A key id.
#[derive(Clone, Copy)]
struct Id<'a> {
    bytes: &'a [u8],
    /// Whether it isn't shown, whatever it is.
    is_hidden: bool,
}

/// A question about a COSE_Mac0.
#[derive(Clone, Copy)]
pub struct Question<'a> {
    /// Its headers.
    pub headers: Headers<'a>,
    /// The bytes that its tag covers.
    pub covered: &'a [u8],
    /// Its tag.
    pub tag: &'a [u8],
    /// How many bytes of external data are covered.
    pub aad_len: usize,
}

/// The first reason for which a judge by these keys says no, as a text; none if it says yes.
///
/// # Errors
/// `Memory`.
pub fn reason(
    alloc: Global,
    book: &KeyBook<'_>,
    question: Question<'_>,
) -> Result<Option<String>, Stop> {
    let mut text = String::new(alloc);
    let mut page = Page::new(&mut text);
    let is_no = write_reason(book, question, &mut page);
    if page.has_failed() {
        return Err(Stop::Memory);
    }
    Ok(if is_no { Some(text) } else { None })
}

/// Writes the first reason, if there is one, in the order in which the judge decides.
fn write_reason<P: fmt::Write>(
    book: &KeyBook<'_>,
    question: Question<'_>,
    page: &mut Page<'_, P>,
) -> bool {
    match secret_or_reason(book, question.headers, page) {
        Some(secret) => {
            let whole = hmac_sha256(secret.bytes, question.covered);
            write_wrong_tag(
                &whole,
                question.tag,
                secret.is_shared,
                question.aad_len,
                page,
            )
        }
        None => true,
    }
}

/// The secret of a key.
#[derive(Clone, Copy)]
pub struct Secret<'a> {
    /// Its bytes.
    pub bytes: &'a [u8],
    /// Whether another key has the id of this one.
    pub is_shared: bool,
    /// The id.
    pub id: &'a [u8],
}

/// The secret under which a judge by these keys verifies the tag of a COSE_Mac0 with these headers;
/// none if it says no whatever the tag is, and then the first reason is written.
pub fn secret_or_reason<'k, P: fmt::Write>(
    book: &KeyBook<'k>,
    headers: Headers<'_>,
    page: &mut Page<'_, P>,
) -> Option<Secret<'k>> {
    let (protected, unprotected) = (headers.protected, headers.unprotected);
    if !alg_is_hmac(protected) {
        write_other_alg(&protected.header.alg, &unprotected.alg, page);
        return None;
    }
    if !are_understood(&protected.header) {
        write_crit("protected", &protected.header, page);
        return None;
    }
    if !are_understood(unprotected) {
        write_crit("unprotected", unprotected, page);
        return None;
    }
    let id = headers.id();
    let Some(held) = book.find(id.bytes) else {
        write_no_key(book, id, page);
        return None;
    };
    if fits(held.key, id.bytes) {
        return Some(Secret {
            bytes: secret_of(held.key)?,
            is_shared: held.is_shared,
            id: held.key.key_id.as_slice(),
        });
    }
    write_key_id(book, id, page);
    write_bar(held.key, page);
    None
}

/// Writes that the algorithm of the protected header isn't HMAC 256/256.
fn write_other_alg<P: fmt::Write>(
    protected: &Option<Algorithm>,
    unprotected: &Option<Algorithm>,
    page: &mut Page<'_, P>,
) {
    match (protected, unprotected) {
        (Some(alg), _) => {
            page.write_str("alg in the protected header is ");
            write_alg(alg, page);
            page.write_str(", not HMAC 256/256 (5)");
        }
        (None, Some(alg)) => {
            page.write_str("alg isn't in the protected header; in the unprotected one it is ");
            write_alg(alg, page);
        }
        (None, None) => page.write_str("alg is in neither header"),
    }
}

fn write_alg<P: fmt::Write>(alg: &Algorithm, page: &mut Page<'_, P>) {
    match alg {
        RegisteredLabelWithPrivate::Assigned(entry) => {
            let number = (*entry).to_i64();
            write_named(algorithm(number), number, page);
        }
        RegisteredLabelWithPrivate::PrivateUse(number) => write!(page, "{number}"),
        RegisteredLabelWithPrivate::Text(text) => write_front(text.as_str(), page),
    }
}

/// Writes a number after its registered name, if it has one.
fn write_named<P: fmt::Write>(name: Option<&'static str>, number: i64, page: &mut Page<'_, P>) {
    match name {
        Some(name) => write!(page, "{name} ({number})"),
        None => write!(page, "{number}"),
    }
}

/// A text, of which no more than 64 bytes are shown.
fn write_front<P: fmt::Write>(text: &str, page: &mut Page<'_, P>) {
    if text.len() <= CUT {
        write_text(text, false, page);
        return;
    }
    write_text(front_text(text.as_bytes()), false, page);
    page.write_str("...");
}

/// Writes which critical label isn't known.
fn write_crit<P: fmt::Write>(name: &str, header: &Header, page: &mut Page<'_, P>) {
    write!(page, "crit of the {name} header has the label ");
    for label in &header.crit {
        match label {
            RegisteredLabelWithPrivate::Assigned(entry) => {
                let number = (*entry).to_i64();
                if !is_known(number) {
                    write_named(parameter(number), number, page);
                    break;
                }
            }
            RegisteredLabelWithPrivate::PrivateUse(number) => {
                write!(page, "{number}");
                break;
            }
            RegisteredLabelWithPrivate::Text(text) => {
                write_front(text.as_str(), page);
                break;
            }
        }
    }
    page.write_str(", which isn't known");
}

/// Whether this is the label of alg, crit or kid.
fn is_known(number: i64) -> bool {
    matches!(number, 1 | 2 | 4)
}

/// Writes that no key has the id of the message.
fn write_no_key<P: fmt::Write>(book: &KeyBook<'_>, id: Id<'_>, page: &mut Page<'_, P>) {
    if id.bytes.is_empty() {
        page.write_str("the message has no key id, and no key of the set is without one");
    } else {
        page.write_str("no key of the set has the id ");
        write_id(book, id, page);
    }
    let count = book.ids().len();
    if count == 0 {
        page.write_str("; the set is empty");
    }
    let mut shown = 0usize;
    for entry in book.ids().iter() {
        if shown == IDS {
            break;
        }
        page.write_str(if shown == 0 { "; its ids are " } else { ", " });
        let bytes = entry.0;
        let other = Id {
            bytes,
            is_hidden: false,
        };
        write_id(book, other, page);
        shown = shown.saturating_add(1);
    }
    if count > IDS {
        let more = count.saturating_sub(IDS);
        write!(page, " and {more} more");
    }
}

/// Writes a key id, and nothing of it if a secret of a key is in it.
fn write_id<P: fmt::Write>(book: &KeyBook<'_>, id: Id<'_>, page: &mut Page<'_, P>) {
    let (alloc, look) = (book.alloc(), book.look());
    if id.bytes.is_empty() {
        page.write_str("(none)");
    } else if id.is_hidden {
        page.write_str("...");
    } else if let Some(masked) = page.kept(mask(alloc, look, id.bytes)) {
        write_shown_id(masked.view(), look.full, page);
    }
}

/// Writes by which algorithm, and under the key with which id, a message passes.
pub fn write_key<P: fmt::Write>(book: &KeyBook<'_>, id: &[u8], page: &mut Page<'_, P>) {
    let (alloc, look) = (book.alloc(), book.look());
    page.write_str("HMAC 256/256, ");
    if let Some(masked) = page.kept(mask(alloc, look, id)) {
        write_shown_id(masked.view(), look.full, page);
    }
}

fn write_key_id<P: fmt::Write>(book: &KeyBook<'_>, id: Id<'_>, page: &mut Page<'_, P>) {
    if id.bytes.is_empty() {
        page.write_str("the key without an id ");
        return;
    }
    page.write_str("the key with the id ");
    write_id(book, id, page);
    page.write_str(" ");
}

/// Writes why a key that has the id doesn't fit.
fn write_bar<P: fmt::Write>(key: &CoseKey, page: &mut Page<'_, P>) {
    if !is_type(&key.kty, SYMMETRIC) {
        page.write_str("isn't symmetric: its kty is ");
        write_kty(&key.kty, page);
    } else if secret_of(key).is_none() {
        page.write_str("has no secret (k)");
    } else if allows(&key.alg, HMAC) {
        page.write_str("has no MAC verify (10) among its key_ops");
    } else if let Some(alg) = &key.alg {
        page.write_str("has another alg: ");
        write_alg(alg, page);
    }
}

fn write_kty<P: fmt::Write>(kty: &KeyType, page: &mut Page<'_, P>) {
    match kty {
        RegisteredLabel::Assigned(entry) => {
            let number = (*entry).to_i64();
            write_named(key_type(number), number, page);
        }
        RegisteredLabel::Text(text) => write_front(text.as_str(), page),
    }
}

/// Writes why a tag isn't the whole tag, if it isn't, and says whether it has. Of a tag of another
/// length than 32 bytes it says the length, whatever its bytes are, and of one of 32 bytes that it
/// is another: whoever sends messages and sees the text must not learn how much of a tag is right.
pub fn write_wrong_tag<P: fmt::Write>(
    whole: &[u8; TAG],
    tag: &[u8],
    is_shared: bool,
    aad_len: usize,
    page: &mut Page<'_, P>,
) -> bool {
    if tag.len() != TAG {
        page.write_str("the tag has ");
        write_len(tag.len(), page);
        page.write_str(", not 32");
        return true;
    }
    if same_tag(whole, tag) {
        return false;
    }
    page.write_str("the tag isn't that of the first matching key, with ");
    write_len(aad_len, page);
    page.write_str(" of external data");
    if is_shared {
        page.write_str("; another key of KEYS has its id, and isn't tried");
    }
    true
}
