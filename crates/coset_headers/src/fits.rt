//! That what is written of a header fits heads: each number is in its range, each length is one
//! that a head can have.
ghost use Rattle.std.specs.Prelude.{◌≡◌, ◌+◌, ◌^◌, ◌<◌, ℕ, List, length, map, option_map, Some};
ghost use Rattle.cose_iana.specs.Algorithms.{algorithm_number};
ghost use Rattle.cose_iana.specs.Formats.{coap_content_formats};
ghost use Rattle.cose_iana.specs.Headers.{header_parameters};
ghost use Rattle.ciborium_value.specs.Encoding.{Fits, FitAll};
ghost use Rattle.ciborium_value.specs.Tree.{Tree, Trees, bytes, tree_count};
ghost use Rattle.ciborium_value.specs.View.{trees};
ghost use Rattle.coset_labels.specs.Fields.{Named};
ghost use Rattle.coset_labels.specs.Labels.{named_tree};
ghost use Rattle.coset_labels.specs.View.{registered_view, named_view};
ghost use Rattle.coset_headers.specs.Entries.{AllFit};
ghost use Rattle.coset_headers.specs.Short.{IsShort, ShowsShort, SignatureShort, AllShort};
ghost use Rattle.coset_headers.specs.View.{header_view, protected_view, signature_view};
ghost use Rattle.coset_headers.specs.View.{signatures_view, entry_view};
ghost use Rattle.coset_headers.specs.Written.{header_tree, shown, signature_tree, signature_trees};

use crate::header::{CoseSignature, Header, ProtectedHeader};
use ciborium_value::Value;
use ciborium_value::laws::value_fits;
use coset_labels::laws::{bytes_fit, label_fits, name_fits, registered_fits};
use coset_labels::{Algorithm, ContentType, Label, RegisteredLabelWithPrivate, iana};

/// The algorithm fits a head.
pub(crate) fn alg_fits(alg: &Option<Algorithm>)
    ensures { (m : Named) → option_map (named_view algorithm_number) alg.now ≡ Some m
        → Fits (named_tree m) }
{
    if let Some(alg) = alg {
        name_fits(alg);
    }
}

/// The type of the content fits a head.
pub(crate) fn content_type_fits(content_type: &Option<ContentType>)
    ensures { (m : Named)
        → option_map (registered_view coap_content_formats.number) content_type.now ≡ Some m
        → Fits (named_tree m) }
{
    if let Some(content_type) = content_type {
        registered_fits(content_type);
    }
}

/// The labels that have to be understood fit heads.
pub(crate) fn crit_fits(crit: &[RegisteredLabelWithPrivate<iana::HeaderParameter>])
    ensures fits { FitAll
        (trees (map named_tree (map (named_view header_parameters.number) crit.now))) }
    ensures count { length crit.now < 2 ^ 64 }
{
    let _len = crit.len();
    'names: for name in crit {
        name_fits(name);
    }
}

/// The other entries fit heads.
pub(crate) fn rest_fits(rest: &[(Label, Value)])
    ensures fits { AllFit (map entry_view rest.now) }
    ensures count { length rest.now + 8 < 2 ^ 64 }
{
    let _len = rest.len();
    'entries: for entry in rest {
        label_fits(&entry.0);
        value_fits(&entry.1);
    }
}

/// What is written of this header fits heads, if each protected header in it that has no received
/// bytes is encoded in fewer than 2^64 bytes.
#[cycle(fits)]
pub fn header_fits(header: &Header)
    ensures { (u : Tree) → header_tree (header_view header.now) ≡ Some u
        → IsShort (header_view header.now) → Fits u }
{
    header.fields_fit();
    signatures_fit(&header.counter_signatures);
}

/// As `header_fits`, of the byte string that is shown for a protected header.
#[cycle(fits)]
pub fn protected_fits(protected: &ProtectedHeader)
    ensures { (b : List ℕ) → shown (protected_view protected.now) ≡ Some b
        → ShowsShort (protected_view protected.now) → Fits (bytes b) }
{
    match &protected.original_data {
        Some(content) => bytes_fit(content),
        None => header_fits(&protected.header),
    }
}

/// As `header_fits`, of a signature.
#[cycle(fits)]
pub fn signature_fits(signature: &CoseSignature)
    ensures { (u : Tree) → signature_tree (signature_view signature.now) ≡ Some u
        → SignatureShort (signature_view signature.now) → Fits u }
{
    protected_fits(&signature.protected);
    header_fits(&signature.unprotected);
    bytes_fit(&signature.signature);
}

#[cycle(fits)]
fn signatures_fit(signatures: &[CoseSignature])
    ensures fits { (ts : Trees) → signature_trees (signatures_view signatures.now) ≡ Some ts
        → AllShort (signatures_view signatures.now) → FitAll ts }
    ensures count { (ts : Trees) → signature_trees (signatures_view signatures.now) ≡ Some ts
        → tree_count ts < 2 ^ 64 }
{
    let _len = signatures.len();
    'signatures: for signature in signatures {
        signature_fits(signature);
    }
}
