//! Answers of the judge by HMAC.
use crate::out::{NoAnswer, Out};
use crate::words;
use ciborium_value::Value;
use cose_gate::{About, Header, HmacJudge, Judge, MessageKind, ProtectedHeader};
use cose_gate_program::is_good_tag;
use cose_reasons::{Headers, KeyBook, Look, Question, reason};
use coset_keys::CoseKeySet;
use coset_labels::CborSerializable;

/// The protected header that the next argument is in hex, as received.
fn read_protected(to: &mut Out, row: &mut &str) -> ProtectedHeader {
    let bytes = words::bytes(to, row);
    match ProtectedHeader::from_cbor_bstr(to.alloc(), Value::Bytes(bytes)) {
        Ok(header) => header,
        Err(error) => {
            to.not_read(error);
            ProtectedHeader::new(to.alloc())
        }
    }
}

/// The header that the next argument is in hex.
fn read_header(to: &mut Out, row: &mut &str) -> Header {
    let bytes = words::bytes(to, row);
    match Header::from_slice(to.alloc(), &bytes) {
        Ok(header) => header,
        Err(error) => {
            to.not_read(error);
            Header::new(to.alloc())
        }
    }
}

/// The key set that the next argument is in hex.
pub fn read_keys(to: &mut Out, row: &mut &str) -> CoseKeySet {
    let bytes = words::bytes(to, row);
    match CoseKeySet::from_slice(to.alloc(), &bytes) {
        Ok(keys) => keys,
        Err(error) => {
            to.not_read(error);
            CoseKeySet::new(to.alloc())
        }
    }
}

/// Whether a tag over the covered bytes of a COSE_Mac0 with these headers is good under one of
/// these keys.
pub fn tag(to: &mut Out, row: &mut &str) {
    let keys = read_keys(to, row);
    let protected = read_protected(to, row);
    let unprotected = read_header(to, row);
    let covered = words::bytes(to, row);
    let tag = words::bytes(to, row);
    to.yes_or_no(is_good_tag(&keys, &protected, &unprotected, &covered, &tag));
}

/// What a judge is asked about.
#[derive(Drop)]
struct Case {
    keys: CoseKeySet,
    protected: ProtectedHeader,
    unprotected: Header,
    /// The covered bytes, and the length of the pieces in which they come.
    covered: Vec<u8>,
    size: usize,
}

/// The case that the next arguments are.
fn read_case(to: &mut Out, row: &mut &str) -> Case {
    Case {
        keys: read_keys(to, row),
        protected: read_protected(to, row),
        unprotected: read_header(to, row),
        covered: words::bytes(to, row),
        size: words::number(to, row),
    }
}

/// The answers of a judge that hashes its keys anew for each message.
pub fn judge(to: &mut Out, row: &mut &str) {
    let case = read_case(to, row);
    let mut judge = HmacJudge::new(&case.keys);
    add_answers(to, &mut judge, &case, words::rest(row));
}

/// The answers of a judge that hashes each key once.
pub fn prepared_judge(to: &mut Out, row: &mut &str) {
    let case = read_case(to, row);
    let mut judge = HmacJudge::prepared(to.alloc(), &case.keys);
    add_answers(to, &mut judge, &case, words::rest(row));
}

/// What a judge answers about a COSE_Mac0 with this tag and so many bytes of external data, and the
/// reason that cose-show gives, `-` for none.
pub fn why(to: &mut Out, row: &mut &str) {
    let case = read_case(to, row);
    let tag = words::bytes(to, row);
    let aad_len = words::number(to, row);
    let mut judge = HmacJudge::prepared(to.alloc(), &case.keys);
    ask(to, &mut judge, &case, MessageKind::Mac0);
    to.yes_or_no(judge.decide(&tag));
    to.text(": ");
    let headers = Headers {
        protected: &case.protected,
        unprotected: &case.unprotected,
        hides_id: false,
    };
    let question = question_of(headers, case.covered.as_slice(), tag.as_slice(), aad_len);
    add_reason(to, &case.keys, question);
}

/// The question about this message.
fn question_of<'a>(
    headers: Headers<'a>,
    covered: &'a [u8],
    tag: &'a [u8],
    aad_len: usize,
) -> Question<'a> {
    Question {
        headers,
        covered,
        tag,
        aad_len,
    }
}

/// Appends why a judge by these keys says no, `-` for no reason.
fn add_reason(to: &mut Out, keys: &CoseKeySet, question: Question<'_>) {
    let Ok(book) = KeyBook::new(to.alloc(), Look::least(), keys) else {
        to.refuse(NoAnswer::Memory);
        return;
    };
    match reason(to.alloc(), &book, question) {
        Ok(Some(text)) => to.text(text.as_str()),
        Ok(None) => to.text("-"),
        Err(_) => to.refuse(NoAnswer::Memory),
    }
}

/// The answers of one judge to questions about messages of these kinds with these tags, each an
/// argument such as `Mac0:aa`.
fn add_answers(to: &mut Out, judge: &mut HmacJudge, case: &Case, asked: &str) {
    for word in asked.split(' ') {
        to.apart(" ");
        add_answer(to, judge, case, word);
    }
}

fn add_answer(to: &mut Out, judge: &mut HmacJudge, case: &Case, word: &str) {
    let Some((kind, tag)) = word.split_once(':') else {
        to.refuse(NoAnswer::NoCall);
        return;
    };
    let kind = kind_of(to, kind);
    let tag = to.bytes(tag);
    ask(to, judge, case, kind);
    to.yes_or_no(judge.decide(&tag));
}

/// Begins a question, and feeds what is covered.
fn ask(to: &mut Out, judge: &mut HmacJudge, case: &Case, kind: MessageKind) {
    let about = About::alone(kind, &case.protected, &case.unprotected);
    let begun = judge.begin(&about);
    to.note(begun);
    for piece in case.covered.chunks(case.size.max(1)) {
        let fed = judge.feed(piece);
        to.note(fed);
    }
}

fn kind_of(to: &mut Out, word: &str) -> MessageKind {
    match word {
        "Sign1" => MessageKind::Sign1,
        "Sign" => MessageKind::Sign,
        "Mac0" => MessageKind::Mac0,
        "Mac" => MessageKind::Mac,
        _ => {
            to.refuse(NoAnswer::NoCall);
            MessageKind::Mac
        }
    }
}
