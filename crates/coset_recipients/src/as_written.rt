//! Whether the value of a recipient is already the one that would be written.
ghost use Rattle.std.specs.Prelude.{◌≡◌, refl};
ghost use Rattle.ciborium_value.specs.View.{view, views};
ghost use Rattle.coset_labels.specs.Limits.{nesting, layers};
ghost use Rattle.coset_recipients.specs.AsWritten.{is_canonical_recipient, is_canonical_fourth};
ghost use Rattle.coset_recipients.specs.AsWritten.{is_canonical_list};
ghost use Rattle.coset_recipients.specs.AsWritten.{are_canonical_recipients};
ghost use Rattle.coset_recipients.specs.Fields.{RecipientFields};
ghost use Rattle.coset_recipients.specs.Shapes.{HasRecipient};
ghost use Rattle.coset_recipients.specs.Written.{recipient_tree};

use crate::recipient::CoseRecipient;
use ciborium_value::Value;
use coset_headers::are_canonical_elements;
use coset_labels::AsWritten;

/// Unprotected headers are as written, and no list of recipients is empty.
impl AsWritten for CoseRecipient {
    ghost Content = { RecipientFields };

    ghost has = { HasRecipient };

    ghost tree_of = { recipient_tree };

    fn is_as_written(value: &Value) -> bool {
        is_canonical_recipient(value)
    }

    ghost read = { λ t x s. (nesting, layers, x, s, refl) };
}

#[cycle(canonical)]
fn is_canonical_recipient(value: &Value) -> bool
    ensures { result ≡ is_canonical_recipient (view value.now) }
{
    match value {
        Value::Array(items) => are_canonical_elements(items) && is_canonical_fourth(items),
        _ => false,
    }
}

/// The fourth element, if there is one.
#[cycle(canonical)]
fn is_canonical_fourth(items: &[Value]) -> bool
    ensures { result ≡ is_canonical_fourth (views items.now) }
{
    match items {
        [_, _, _, inner, ..] => is_canonical_list(inner),
        _ => true,
    }
}

#[cycle(canonical)]
fn is_canonical_list(value: &Value) -> bool
    ensures { result ≡ is_canonical_list (view value.now) }
{
    match value {
        Value::Array(items) => !items.is_empty() && are_canonical_recipients(items),
        _ => false,
    }
}

/// Whether the values of recipients are as they would be written.
#[cycle(canonical)]
pub fn are_canonical_recipients(items: &[Value]) -> bool
    ensures { result ≡ are_canonical_recipients (views items.now) }
{
    'items: for item in items {
        if !is_canonical_recipient(item) {
            return false;
        }
    }
    true
}
