//! The labels of headers.
ghost use Rattle.std.specs.Prelude.{◌≡◌, ◌&&◌, map, option_map, option_copied};
ghost use Rattle.std.specs.List.{find, list_any};
ghost use Rattle.ciborium_value.specs.View.{view};
ghost use Rattle.coset_headers.specs.View.{header_view, entry_view};
ghost use Rattle.coset_headers.specs.Fields.{plain_part};
ghost use Rattle.coset_labels.specs.Fields as fields;
ghost use Rattle.coset_labels.specs.View.{label_view};
ghost use Rattle.cose_rules.specs.Labels as spec;

use ciborium_value::Value;
use coset_headers::{CoseSignature, Header};
use coset_labels::Label;

/// Whether a label is this number.
pub(crate) fn is_number(label: &Label, number: i64) -> bool
    ensures { result ≡ spec.same_label (label_view label.now) (fields.number number) }
{
    match label {
        Label::Int(own) => *own == number,
        Label::Text(_) => false,
    }
}

/// Whether a label is this text.
fn is_words(label: &Label, words: &str) -> bool
    ensures { result ≡ spec.same_label (label_view label.now) (fields.words words.now) }
{
    match label {
        Label::Int(_) => false,
        Label::Text(own) => own.as_str() == words,
    }
}

/// Whether two labels are one.
pub(crate) fn is_same(one: &Label, other: &Label) -> bool
    ensures { result ≡ spec.same_label (label_view one.now) (label_view other.now) }
{
    match other {
        Label::Int(number) => is_number(one, *number),
        Label::Text(words) => is_words(one, words.as_str()),
    }
}

fn entry_of(entries: &[(Label, Value)], number: i64) -> Option<&(Label, Value)>
    ensures { option_copied result
        ≡ find (λ e. spec.same_label (label_view e.0) (fields.number number)) entries.now }
{
    entries.iter().find(|entry| is_number(&entry.0, number))
}

/// The value of the first entry with this number as its label.
pub(crate) fn value_of(entries: &[(Label, Value)], number: i64) -> Option<&Value>
    ensures { option_map view (option_copied result)
        ≡ spec.value_at number (map entry_view entries.now) }
{
    match entry_of(entries, number) {
        Some(entry) => Some(&entry.1),
        None => None,
    }
}

fn any_number(entries: &[(Label, Value)], number: i64) -> bool
    ensures { result ≡ list_any (λ e. spec.same_label (label_view e.0) (fields.number number)) entries.now }
{
    entries.iter().any(|entry| is_number(&entry.0, number))
}

fn any_words(entries: &[(Label, Value)], words: &str) -> bool
    ensures { result ≡ list_any (λ e. spec.same_label (label_view e.0) (fields.words words.now)) entries.now }
{
    entries.iter().any(|entry| is_words(&entry.0, words))
}

/// Whether a header has this number as a label without a field of its own.
fn has_other_number(header: &Header, number: i64) -> bool
    ensures { result ≡ spec.has_other (header_view header.now) (fields.number number) }
{
    any_number(&header.rest, number)
}

/// Whether a header has this text as a label.
pub(crate) fn has_words(header: &Header, words: &str) -> bool
    ensures { result ≡ spec.has_other (header_view header.now) (fields.words words.now) }
{
    any_words(&header.rest, words)
}

/// Whether a header has this label, which has a field of its own, 1 to 7 (RFC 9052, section 3.1).
fn has_own(header: &Header, number: i64) -> bool
    ensures { result ≡ spec.has_own (header_view header.now) number }
{
    if number == 1 {
        has_alg(header)
    } else if number == 2 {
        has_crit(header)
    } else if number == 3 {
        has_content_type(header)
    } else if number == 4 {
        has_key_id(header)
    } else if number == 5 {
        has_iv(header)
    } else if number == 6 {
        has_partial_iv(header)
    } else if number == 7 {
        is_countersigned(header)
    } else {
        false
    }
}

/// Whether a header has this number as a label.
pub(crate) fn has_number(header: &Header, number: i64) -> bool
    ensures { result ≡ spec.has_number (header_view header.now) number }
{
    has_own(header, number) || has_other_number(header, number)
}

/// Whether a header has this label.
pub fn has_label(header: &Header, label: &Label) -> bool
    ensures { result ≡ spec.has_label (header_view header.now) (label_view label.now) }
{
    match label {
        Label::Int(number) => has_number(header, *number),
        Label::Text(words) => has_words(header, words.as_str()),
    }
}

/// Whether both headers have this number as a label.
fn both_have(protected: &Header, unprotected: &Header, number: i64) -> bool
    ensures { result ≡ spec.both_have
        (header_view protected.now) (header_view unprotected.now) number }
{
    has_number(protected, number) && has_number(unprotected, number)
}

/// Whether both headers have a label 1 to 7.
fn share_own(protected: &Header, unprotected: &Header) -> bool
    ensures { result ≡ spec.share_own
        (header_view protected.now) (header_view unprotected.now) }
{
    both_have(protected, unprotected, 1)
        || both_have(protected, unprotected, 2)
        || both_have(protected, unprotected, 3)
        || both_have(protected, unprotected, 4)
        || both_have(protected, unprotected, 5)
        || both_have(protected, unprotected, 6)
        || both_have(protected, unprotected, 7)
}

/// Whether a header has one of the labels of these entries.
fn has_any(header: &Header, entries: &[(Label, Value)]) -> bool
    ensures { result ≡ list_any (λ e. spec.has_label (header_view header.now) (label_view e.0))
        entries.now }
{
    entries.iter().any(|entry| has_label(header, &entry.0))
}

/// Whether both headers have a label of the first that has no field of its own.
fn share_other(protected: &Header, unprotected: &Header) -> bool
    ensures { result ≡ spec.share_other
        (header_view protected.now) (header_view unprotected.now) }
{
    has_any(unprotected, &protected.rest)
}

/// Whether a label is in both headers (RFC 9052, section 3).
pub fn share_label(protected: &Header, unprotected: &Header) -> bool
    ensures { result ≡ spec.share_label
        (header_view protected.now) (header_view unprotected.now) }
{
    share_own(protected, unprotected) || share_other(protected, unprotected)
}

fn has_alg(header: &Header) -> bool
    ensures { result ≡ spec.has_alg (header_view header.now) }
{
    header.alg.is_some()
}

/// Whether a header has critical labels.
pub(crate) fn has_crit(header: &Header) -> bool
    ensures { result ≡ spec.has_crit (header_view header.now) }
{
    !header.crit.is_empty()
}

fn has_content_type(header: &Header) -> bool
    ensures { result ≡ spec.has_content_type (header_view header.now) }
{
    header.content_type.is_some()
}

fn has_key_id(header: &Header) -> bool
    ensures { result ≡ spec.has_key_id (header_view header.now) }
{
    !header.key_id.is_empty()
}

fn has_iv(header: &Header) -> bool
    ensures { result ≡ spec.has_iv (header_view header.now) }
{
    !header.iv.is_empty()
}

fn has_partial_iv(header: &Header) -> bool
    ensures { result ≡ spec.has_partial_iv (header_view header.now) }
{
    !header.partial_iv.is_empty()
}

fn are_some(signatures: &[CoseSignature]) -> bool
    ensures { result ≡ spec.is_there signatures.now }
{
    !signatures.is_empty()
}

fn is_countersigned(header: &Header) -> bool
    ensures { result ≡ spec.is_countersigned (header_view header.now) }
{
    are_some(&header.counter_signatures)
}
