//! What headers forbid.
ghost use Rattle.std.specs.Prelude.{◌≡◌, ◌*◌, length, nat_lt};
ghost use Rattle.std.specs.List.{list_all};
ghost use Rattle.cose_iana.specs.Headers.{header_parameters};
ghost use Rattle.coset_headers.specs.View.{header_view, protected_view};
ghost use Rattle.coset_headers.specs.Fields.{plain_part};
ghost use Rattle.coset_labels.specs.View.{named_view};
ghost use Rattle.cose_rules.specs.Headers as spec;
ghost use Rattle.cose_rules.specs.Labels.{has_label, label_of};

use crate::labels::{has_crit, has_label, has_number, has_words, share_label};
use ciborium_value::Value;
use coset_headers::{Header, ProtectedHeader};
use coset_labels::iana::{self, EnumI64};
use coset_labels::{Label, RegisteredLabelWithPrivate};
use std::fmt;

/// Why the headers of a layer forbid to go on (RFC 9052, sections 3 and 3.1).
#[derive(Debug, Clone, Copy, PartialEq, Eq)]
pub enum HeaderFault {
    /// There are more than 4,096 pairs of a label of the one header and one of the other outside 1
    /// to 7, too many to compare.
    ManyLabels,
    /// A label is in both headers.
    SameLabel,
    /// The unprotected header has critical labels, which nothing covers.
    UnprotectedCrit,
    /// A critical label isn't understood.
    UnknownCritical,
    /// A critical label isn't in the protected header.
    AbsentCritical,
}

impl fmt::Display for HeaderFault {
    ghost use Rattle.std.specs.Prelude.{Some};
    ghost use Rattle.cose_rules.specs.RefusalTexts.{header_text};

    ghost output = { λ why. Some (header_text why) };

    fn fmt<W: fmt::Write>(&self, f: &mut fmt::Formatter<W>) -> fmt::Result {
        match self {
            HeaderFault::ManyLabels => f.write_str("both headers have too many labels to compare"),
            HeaderFault::SameLabel => f.write_str("a label is in both headers"),
            HeaderFault::UnprotectedCrit => {
                f.write_str("the unprotected header has critical labels")
            }
            HeaderFault::UnknownCritical => f.write_str("a critical label is not understood"),
            HeaderFault::AbsentCritical => {
                f.write_str("a critical label is not in the protected header")
            }
        }
    }
}

impl std::error::Error for HeaderFault {}

/// A label that has to be understood.
type Critical = RegisteredLabelWithPrivate<iana::HeaderParameter>;

/// Whether a label is understood: that of the algorithm, of the critical labels, of the key id.
fn is_understood(label: &Critical) -> bool
    ensures { result ≡ spec.is_understood (named_view header_parameters.number label.now) }
{
    match label {
        RegisteredLabelWithPrivate::Assigned(entry) => {
            let number = entry.to_i64();
            number == 1 || number == 2 || number == 4
        }
        RegisteredLabelWithPrivate::PrivateUse(_) | RegisteredLabelWithPrivate::Text(_) => false,
    }
}

fn all_understood(labels: &[Critical]) -> bool
    ensures { result ≡ list_all
        (λ l. spec.is_understood (named_view header_parameters.number l)) labels.now }
{
    labels.iter().all(|label| is_understood(label))
}

/// Whether each critical label of a header is understood: 1, 2 or 4.
pub fn are_understood(header: &Header) -> bool
    ensures { result ≡ spec.are_understood (header_view header.now) }
{
    all_understood(&header.crit)
}

/// Whether a header has this label.
fn has_critical(header: &Header, label: &Critical) -> bool
    ensures { result ≡ has_label (header_view header.now)
        (label_of (named_view header_parameters.number label.now)) }
{
    match label {
        RegisteredLabelWithPrivate::Assigned(entry) => has_number(header, entry.to_i64()),
        RegisteredLabelWithPrivate::PrivateUse(number) => has_number(header, *number),
        RegisteredLabelWithPrivate::Text(words) => has_words(header, words.as_str()),
    }
}

fn has_all(header: &Header, labels: &[Critical]) -> bool
    ensures { result ≡ list_all (λ l. has_label (header_view header.now)
        (label_of (named_view header_parameters.number l))) labels.now }
{
    labels.iter().all(|label| has_critical(header, label))
}

/// Whether each critical label of a header is in it.
fn are_present(header: &Header) -> bool
    ensures { result ≡ spec.are_present (header_view header.now) }
{
    has_all(header, &header.crit)
}

fn count(entries: &[(Label, Value)]) -> usize
    ensures { result ≡ length entries.now }
{
    entries.len()
}

/// How many labels outside 1 to 7 a header has.
fn other_labels(header: &Header) -> usize
    ensures { result ≡ length (plain_part (header_view header.now)).rest }
{
    count(&header.rest)
}

fn are_many_pairs(labels: usize, others: usize) -> bool
    ensures { result ≡ nat_lt 4096 (labels * others) }
{
    labels.saturating_mul(others) > 4096
}

/// Whether both headers have so many labels outside 1 to 7 that they aren't compared.
fn has_many_labels(protected: &Header, unprotected: &Header) -> bool
    ensures { result ≡ spec.has_many_labels
        (header_view protected.now) (header_view unprotected.now) }
{
    are_many_pairs(other_labels(protected), other_labels(unprotected))
}

/// Why these headers of a layer forbid to go on.
fn fault_in(protected: &Header, unprotected: &Header) -> Option<HeaderFault>
    ensures { result ≡ spec.fault_in (header_view protected.now) (header_view unprotected.now) }
{
    if has_many_labels(protected, unprotected) {
        Some(HeaderFault::ManyLabels)
    } else if share_label(protected, unprotected) {
        Some(HeaderFault::SameLabel)
    } else if has_crit(unprotected) {
        Some(HeaderFault::UnprotectedCrit)
    } else if !are_understood(protected) {
        Some(HeaderFault::UnknownCritical)
    } else if !are_present(protected) {
        Some(HeaderFault::AbsentCritical)
    } else {
        None
    }
}

/// Why the headers of a layer, a message or a signer, forbid to go on; none if they don't: they have too
/// many labels, a label is in both, critical labels are unprotected, or one of them isn't understood
/// or isn't in the protected header. The first of these that holds is named.
pub fn layer_fault(protected: &ProtectedHeader, unprotected: &Header) -> Option<HeaderFault>
    ensures { result
        ≡ spec.layer_fault (protected_view protected.now) (header_view unprotected.now) }
{
    fault_in(&protected.header, unprotected)
}
