//! Facts about labels and names, for proofs. The calls change nothing.
ghost use Rattle.std.specs.Prelude.{◌≡◌, ◌↔◌, IsTrue};
ghost use Rattle.std.specs.Cmp.{IsTotalOrder};
ghost use Rattle.std.specs.Ordering.{ordering_then, bool_cmp};
ghost use Rattle.std.specs.declared.cmp.Ordering.TheVariants.{Equal};
ghost use Rattle.ciborium_value.specs.Tree.{bytes, text, integer};
ghost use Rattle.ciborium_value.specs.Encoding.{Fits};
ghost use Rattle.ciborium_value.specs.Canonical.{bytewise};
ghost use Rattle.coset_labels.specs.Labels.{label_tree, named_tree};
ghost use Rattle.coset_labels.specs.Fields.{LabelFields, Named};
ghost use Rattle.coset_labels.specs.Limits.{nesting_of, layers_of};
ghost use Rattle.coset_labels.specs.Orders.{label_cmp, label_length_first, is_own_number};
ghost use Rattle.coset_labels.specs.Orders.{named_cmp};
ghost use Rattle.coset_labels.specs.View.{label_view, registered_view, named_view};

pub use crate::alike::{errors_compare, none_is_misplaced};
use crate::label::Label;
use crate::limits::Limits;
use crate::registered::{RegisteredLabel, RegisteredLabelWithPrivate};
use ciborium_value::laws::{orders_of_encodings, value_fits};
use ciborium_value::{Integer, Value};
use cose_iana::EnumI64;

fn integer_fits(i: i64)
    ensures { Fits (integer i) }
{
    value_fits(&Value::Integer(Integer::from(i)));
}

fn text_fits(content: &str)
    ensures { Fits (text content.now) }
{
    let _len = content.len();
}

/// No slice is longer than a head can say.
pub fn bytes_fit(content: &[u8])
    ensures { Fits (bytes content.now) }
{
    let _len = content.len();
}

/// The number of a label is in its range, and its text is UTF-8 and no longer than a head can
/// say.
pub fn label_fits(label: &Label)
    ensures { Fits (label_tree (label_view label.now)) }
{
    match label {
        Label::Int(i) => integer_fits(*i),
        Label::Text(s) => text_fits(s.as_str()),
    }
}

/// As `label_fits`, of a number of a registry or a text.
pub fn registered_fits<T: EnumI64>(label: &RegisteredLabel<T>)
    ensures { Fits (named_tree (registered_view T.number label.now)) }
{
    match label {
        RegisteredLabel::Assigned(entry) => integer_fits(entry.to_i64()),
        RegisteredLabel::Text(s) => text_fits(s.as_str()),
    }
}

/// As `label_fits`, of a number of a registry, one for private use, or a text.
pub fn name_fits<T: EnumI64>(label: &RegisteredLabelWithPrivate<T>)
    ensures { Fits (named_tree (named_view T.number label.now)) }
{
    match label {
        RegisteredLabelWithPrivate::PrivateUse(i) => integer_fits(*i),
        RegisteredLabelWithPrivate::Assigned(entry) => integer_fits(entry.to_i64()),
        RegisteredLabelWithPrivate::Text(s) => text_fits(s.as_str()),
    }
}

/// Labels are equal if they say the same, and their order is that of their encodings. The
/// length-first order ties equal ones alone.
pub fn labels_compare(a: &Label, b: &Label)
    ensures equality { IsTrue (⟦<Label as std::cmp::PartialEq>⟧.eq a.now b.now)
        ↔ (label_view a.now ≡ label_view b.now) }
    ensures order { ⟦<Label as std::cmp::Ord>⟧.cmp a.now b.now
        ≡ bytewise (label_tree (label_view a.now)) (label_tree (label_view b.now)) }
    ensures length_first { (label_length_first (label_view a.now) (label_view b.now) ≡ Equal)
        ↔ (label_view a.now ≡ label_view b.now) }
{
    label_fits(a);
    label_fits(b);
    orders_of_encodings();
}

/// Registered names are equal if they say the same, and their order is that of their encodings.
pub fn registered_compare<T: EnumI64>(a: &RegisteredLabel<T>, b: &RegisteredLabel<T>)
    ensures equality { IsTrue (⟦<RegisteredLabel<T> as std::cmp::PartialEq>⟧.eq a.now b.now)
        ↔ (registered_view T.number a.now ≡ registered_view T.number b.now) }
    ensures order { ⟦<RegisteredLabel<T> as std::cmp::Ord>⟧.cmp a.now b.now
        ≡ bytewise (named_tree (registered_view T.number a.now))
        (named_tree (registered_view T.number b.now)) }
{
    registered_fits(a);
    registered_fits(b);
    orders_of_encodings();
}

/// Names are equal if they say the same, and their order is that of their encodings; of two with
/// one encoding the entry of the registry is before the number for private use.
pub fn names_compare<T: EnumI64>(
    a: &RegisteredLabelWithPrivate<T>,
    b: &RegisteredLabelWithPrivate<T>,
)
    ensures equality { IsTrue
        (⟦<RegisteredLabelWithPrivate<T> as std::cmp::PartialEq>⟧.eq a.now b.now)
        ↔ (named_view T.number a.now ≡ named_view T.number b.now) }
    ensures order { ⟦<RegisteredLabelWithPrivate<T> as std::cmp::Ord>⟧.cmp a.now b.now
        ≡ ordering_then (bytewise (named_tree (named_view T.number a.now))
        (named_tree (named_view T.number b.now)))
        (bool_cmp (is_own_number (named_view T.number a.now))
        (is_own_number (named_view T.number b.now))) }
{
    name_fits(a);
    name_fits(b);
    orders_of_encodings();
}

/// Limits are equal if nesting and layers are.
pub fn limits_compare(a: &Limits, b: &Limits)
    ensures { IsTrue (⟦<Limits as std::cmp::PartialEq>⟧.eq a.now b.now)
        ↔ ((nesting_of a.now ≡ nesting_of b.now) × (layers_of a.now ≡ layers_of b.now)) }
{}

/// The orders of labels and of names are total, and those by heads tie what is equal alone.
pub fn orders_are_total()
    ensures labels { IsTotalOrder label_cmp }
    ensures length_first { IsTotalOrder label_length_first }
    ensures names { IsTotalOrder named_cmp }
    ensures labels_tie { (l m : LabelFields) → label_cmp l m ≡ Equal → l ≡ m }
    ensures names_tie { (n m : Named) → named_cmp n m ≡ Equal → n ≡ m }
{}
