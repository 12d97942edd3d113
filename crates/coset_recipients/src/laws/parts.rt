//! Laws of parts.
ghost use Rattle.std.specs.Prelude.{◌≡◌, ◌↔◌, List, IsTrue, Some, option_map};
ghost use Rattle.ciborium_value.specs.Encoding.{Fits, FitAll};
ghost use Rattle.ciborium_value.specs.Tree.{Tree};
ghost use Rattle.ciborium_value.specs.View.{trees};
ghost use Rattle.coset_headers.specs.View.{header_view, protected_view};
ghost use Rattle.coset_recipients.specs.PartsShort.{PartsShort};
ghost use Rattle.coset_recipients.specs.PartsView.{parts_in, parts_view};
ghost use Rattle.coset_recipients.specs.PartsWritten.{optional_tree, parts_trees};

use crate::parts::Parts;
use coset_headers::laws::{header_fits, protected_fits};
use coset_headers::{Header, ProtectedHeader};
use coset_labels::laws::bytes_fit;

fn optional_fits(content: &Option<Vec<u8>>)
    ensures { Fits (optional_tree (option_map (λ v. v.items) content.now)) }
{
    match content {
        Some(content) => bytes_fit(content),
        None => {}
    }
}

/// What is written of parts fits heads, if each protected header in them that has no received bytes
/// is encoded in fewer than 2^64 bytes.
pub fn parts_fit(protected: &ProtectedHeader, unprotected: &Header, content: &Option<Vec<u8>>)
    ensures { (ts : List Tree)
        → parts_trees (parts_in protected.now unprotected.now content.now) ≡ Some ts
        → PartsShort (protected_view protected.now) (header_view unprotected.now)
        → FitAll (trees ts) }
{
    protected_fits(protected);
    header_fits(unprotected);
    optional_fits(content);
}

/// Parts are equal if each of them says the same and the protected headers have the same received
/// bytes, or none.
pub fn parts_compare(a: &Parts, b: &Parts)
    ensures { IsTrue (⟦<Parts as std::cmp::PartialEq>⟧.eq a.now b.now)
        ↔ (parts_view a.now ≡ parts_view b.now) }
{}
