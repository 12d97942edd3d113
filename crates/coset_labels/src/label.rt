//! Labels of headers and keys.
ghost use Rattle.std.specs.Prelude.{◌≡◌, ℤ, refl, Some, IfOk, IsOk, length};
ghost use Rattle.std.specs.Cmp.{partial_equiv_from_equiv, on_equiv, eq_by_cmp_equiv, on_total};
ghost use Rattle.std.specs.Cmp.{partial_order_from_agreeing_total};
ghost use Rattle.std.specs.Ordering.{on, eq_by_cmp, as_partial_cmp};
ghost use Rattle.ciborium_value.specs.Encoding.{enc};
ghost use Rattle.ciborium_value.specs.Tree.{integer, text};
ghost use Rattle.coset_labels.specs.Fields.{LabelFields, number};
ghost use Rattle.coset_labels.specs.Labels.{label_of, label_tree, WrongLabel};
ghost use Rattle.coset_labels.specs.Orders.{label_cmp, label_length_first};
ghost use Rattle.coset_labels.specs.Facts.Orders.{label_total};
ghost use Rattle.coset_labels.specs.View.{label_view};

use crate::error::CoseError;
use crate::kinds::cbor_type_error;
use crate::laws::label_fits;
use crate::order::{cmp_integer_text, cmp_integers, cmp_text_integer, cmp_texts};
use crate::traits::{AsCborValue, CborSerializable};
use ciborium_ll::Header as Head;
use ciborium_value::laws::orders_of_encodings;
use ciborium_value::{Integer, Value};
use std::alloc::{AllocError, Global};
use std::cmp::Ordering;

/// The label of an entry of a header or a key (RFC 9052, section 1.5). Labels are ordered as the
/// bytes of their encodings are.
#[derive(Debug, Drop)]
pub enum Label {
    /// An integer.
    Int(i64),
    /// A text.
    Text(String),
}

impl Label {
    /// A label equal to this one. That of an integer takes no memory.
    ///
    /// # Errors
    /// Only if out of memory, and of a text alone.
    pub fn clone(&self, alloc: Global) -> Result<Label, AllocError>
        ensures ok { IfOk result (λ copy. label_view copy ≡ label_view self.now) }
        ensures number { (i : ℤ) → label_view self.now ≡ number i → IsOk result }
    {
        match self {
            Label::Int(i) => Ok(Label::Int(*i)),
            Label::Text(s) => Ok(Label::Text(String::from_str(alloc, s.as_str())?)),
        }
    }

    /// The other order: the shorter encoding first, and then byte by byte (RFC 8949, section
    /// 4.2.3). It takes no memory.
    pub fn cmp_canonical(&self, other: &Label) -> Ordering
        ensures { result ≡ label_length_first (label_view self.now) (label_view other.now) }
    {
        label_fits(self);
        label_fits(other);
        orders_of_encodings();
        let lengths = self.encoded_len().cmp(&other.encoded_len());
        lengths.then(self.cmp(other))
    }

    /// The length of the encoding in bytes.
    fn encoded_len(&self) -> usize
        ensures { result ≡ length (enc (label_tree (label_view self.now))) }
    {
        match self {
            Label::Int(i) => integer_len(*i),
            Label::Text(s) => text_len(s.as_str()),
        }
    }
}

fn integer_len(i: i64) -> usize
    ensures { result ≡ length (enc (integer i)) }
{
    if i < 0 {
        Head::Negative((-1 - i) as u64).title_len()
    } else {
        Head::Positive(i as u64).title_len()
    }
}

fn text_len(s: &str) -> usize
    ensures { result ≡ length (enc (text s.now)) }
{
    Head::Text(Some(s.len())).title_len() + s.len()
}

impl PartialEq for Label {
    ghost eq = { on label_view (eq_by_cmp label_cmp) };

    ghost laws = { partial_equiv_from_equiv (on_equiv label_view (eq_by_cmp_equiv label_total)) };

    fn eq(&self, other: &Label) -> bool {
        match (self, other) {
            (Label::Int(a), Label::Int(b)) => is_same(*a, *b),
            _ => self.cmp(other).is_eq(),
        }
    }
}

fn is_same(a: i64, b: i64) -> bool
    ensures { result ≡ eq_by_cmp label_cmp (number a) (number b) }
{
    a == b
}

impl Eq for Label {
    ghost laws = { on_equiv label_view (eq_by_cmp_equiv label_total) };
}

impl Ord for Label {
    ghost cmp = { on label_view label_cmp };

    ghost total = { on_total label_view label_total };

    ghost matches_partial_cmp = { λ a b. refl };

    ghost matches_eq = { λ a b. refl };

    fn cmp(&self, other: &Label) -> Ordering {
        match self {
            Label::Int(a) => match other {
                Label::Int(b) => cmp_integers(*a, *b),
                Label::Text(b) => cmp_integer_text(*a, b.as_str()),
            },
            Label::Text(a) => match other {
                Label::Int(b) => cmp_text_integer(a.as_str(), *b),
                Label::Text(b) => cmp_texts(a.as_str(), b.as_str()),
            },
        }
    }
}

impl PartialOrd for Label {
    ghost partial_cmp = { as_partial_cmp (on label_view label_cmp) };

    ghost laws = { partial_order_from_agreeing_total (on label_view label_cmp)
        (on_total label_view label_total) (λ a b. refl) (λ a b. refl) };

    fn partial_cmp(&self, other: &Label) -> Option<Ordering> {
        Some(self.cmp(other))
    }
}

impl AsCborValue for Label {
    ghost Fields = { LabelFields };

    ghost fields = { label_view };

    ghost shape = { λ t f. label_of t ≡ Some f };

    ghost wrong = { WrongLabel };

    ghost written = { λ f. Some (label_tree f) };

    fn from_cbor_value(_alloc: Global, value: Value) -> Result<Label, CoseError> {
        match value {
            Value::Integer(i) => match i64::try_from(i) {
                Ok(n) => Ok(Label::Int(n)),
                Err(_) => Err(CoseError::OutOfRangeIntegerValue),
            },
            Value::Text(text) => Ok(Label::Text(text)),
            other => Err(cbor_type_error(&other, "int/tstr")),
        }
    }

    fn to_cbor_value(self, _alloc: Global) -> Result<Value, CoseError> {
        match self {
            Label::Int(i) => Ok(Value::Integer(Integer::from(i))),
            Label::Text(text) => Ok(Value::Text(text)),
        }
    }
}

impl CborSerializable for Label {}
