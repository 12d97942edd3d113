//! Whether the value of an authenticated message is already the one that would be written.
ghost use Rattle.std.specs.Prelude.{◌≡◌, refl};
ghost use Rattle.ciborium_value.specs.View.{view, views};
ghost use Rattle.coset_labels.specs.Limits.{nesting, layers};
ghost use Rattle.coset_maced.specs.AsWritten.{is_canonical_mac, is_canonical_last};
ghost use Rattle.coset_maced.specs.AsWritten.{is_canonical_list};
ghost use Rattle.coset_maced.specs.Fields.{Mac0Fields, MacFields};
ghost use Rattle.coset_maced.specs.Shapes.{HasMac0, HasMac};
ghost use Rattle.coset_maced.specs.Written.{mac0_tree, mac_tree};

use crate::mac::CoseMac;
use crate::mac0::CoseMac0;
use ciborium_value::Value;
use coset_headers::{are_canonical_elements, is_canonical_signature};
use coset_labels::AsWritten;
use coset_recipients::are_canonical_recipients;

/// The unprotected header, the second element as in a signature, is as written.
impl AsWritten for CoseMac0 {
    ghost Content = { Mac0Fields };

    ghost has = { HasMac0 };

    ghost tree_of = { mac0_tree };

    fn is_as_written(value: &Value) -> bool {
        is_canonical_signature(value)
    }

    ghost read = { λ t x s. (nesting, layers, x, s, refl) };
}

/// The unprotected header is as written, and so are the recipients.
impl AsWritten for CoseMac {
    ghost Content = { MacFields };

    ghost has = { HasMac };

    ghost tree_of = { mac_tree };

    fn is_as_written(value: &Value) -> bool {
        is_canonical_mac(value)
    }

    ghost read = { λ t x s. (nesting, layers, x, s, refl) };
}

fn is_canonical_mac(value: &Value) -> bool
    ensures { result ≡ is_canonical_mac (view value.now) }
{
    match value {
        Value::Array(items) => are_canonical_elements(items) && is_canonical_last(items),
        _ => false,
    }
}

/// The fifth element, the list of recipients.
fn is_canonical_last(items: &[Value]) -> bool
    ensures { result ≡ is_canonical_last (views items.now) }
{
    match items {
        [_, _, _, _, recipients, ..] => is_canonical_list(recipients),
        _ => false,
    }
}

fn is_canonical_list(value: &Value) -> bool
    ensures { result ≡ is_canonical_list (view value.now) }
{
    match value {
        Value::Array(items) => are_canonical_recipients(items),
        _ => false,
    }
}
