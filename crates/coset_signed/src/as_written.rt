//! Whether the value of a signed message is already the one that would be written.
ghost use Rattle.std.specs.Prelude.{◌≡◌, refl};
ghost use Rattle.ciborium_value.specs.View.{view, views};
ghost use Rattle.coset_labels.specs.Limits.{nesting, layers};
ghost use Rattle.coset_signed.specs.AsWritten.{is_canonical_sign, is_canonical_last};
ghost use Rattle.coset_signed.specs.AsWritten.{is_canonical_list};
ghost use Rattle.coset_signed.specs.Fields.{Sign1Fields, SignFields};
ghost use Rattle.coset_signed.specs.Shapes.{HasSign1, HasSign};
ghost use Rattle.coset_signed.specs.Written.{sign1_tree, sign_tree};

use crate::sign::CoseSign;
use crate::sign1::CoseSign1;
use ciborium_value::Value;
use coset_headers::{are_canonical_elements, are_canonical_signatures, is_canonical_signature};
use coset_labels::AsWritten;

/// The unprotected header, the second element as in a signature, is as written.
impl AsWritten for CoseSign1 {
    ghost Content = { Sign1Fields };

    ghost has = { HasSign1 };

    ghost tree_of = { sign1_tree };

    fn is_as_written(value: &Value) -> bool {
        is_canonical_signature(value)
    }

    ghost read = { λ t x s. (nesting, layers, x, s, refl) };
}

/// The unprotected header is as written, and so are the signatures.
impl AsWritten for CoseSign {
    ghost Content = { SignFields };

    ghost has = { HasSign };

    ghost tree_of = { sign_tree };

    fn is_as_written(value: &Value) -> bool {
        is_canonical_sign(value)
    }

    ghost read = { λ t x s. (nesting, layers, x, s, refl) };
}

fn is_canonical_sign(value: &Value) -> bool
    ensures { result ≡ is_canonical_sign (view value.now) }
{
    match value {
        Value::Array(items) => are_canonical_elements(items) && is_canonical_last(items),
        _ => false,
    }
}

/// The fourth element, the list of signatures.
fn is_canonical_last(items: &[Value]) -> bool
    ensures { result ≡ is_canonical_last (views items.now) }
{
    match items {
        [_, _, _, signatures, ..] => is_canonical_list(signatures),
        _ => false,
    }
}

fn is_canonical_list(value: &Value) -> bool
    ensures { result ≡ is_canonical_list (view value.now) }
{
    match value {
        Value::Array(items) => are_canonical_signatures(items),
        _ => false,
    }
}
