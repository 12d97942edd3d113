//! Equality of headers and signatures.
ghost use Rattle.std.specs.Prelude.{◌≡◌};
ghost use Rattle.std.specs.Cmp.{partial_equiv_from_equiv, on_equiv};
ghost use Rattle.std.specs.Ordering.{on};
ghost use Rattle.coset_headers.specs.Copies.{unsigned};
ghost use Rattle.coset_headers.specs.Facts.Decided.{headers_equiv, protected_equiv};
ghost use Rattle.coset_headers.specs.Facts.Decided.{signature_equiv};
ghost use Rattle.coset_headers.specs.Same.{same_header, same_protected, same_signature};
ghost use Rattle.coset_headers.specs.Same.{same_signatures};
ghost use Rattle.coset_headers.specs.View.{header_view, protected_view, signature_view};
ghost use Rattle.coset_headers.specs.View.{signatures_view};

use crate::header::{CoseSignature, Header, ProtectedHeader};

/// Headers are equal if all their fields are, entries of `rest` in the same order.
impl PartialEq for Header {
    ghost eq = { on header_view same_header };

    ghost laws = { partial_equiv_from_equiv (on_equiv header_view headers_equiv) };

    fn eq(&self, other: &Header) -> bool {
        same_header(self, other)
    }
}

impl Eq for Header {
    ghost laws = { on_equiv header_view headers_equiv };
}

/// Protected headers are equal if their headers and their received bytes are.
impl PartialEq for ProtectedHeader {
    ghost eq = { on protected_view same_protected };

    ghost laws = { partial_equiv_from_equiv (on_equiv protected_view protected_equiv) };

    fn eq(&self, other: &ProtectedHeader) -> bool {
        same_protected(self, other)
    }
}

impl Eq for ProtectedHeader {
    ghost laws = { on_equiv protected_view protected_equiv };
}

/// Signatures are equal if their headers and their bytes are.
impl PartialEq for CoseSignature {
    ghost eq = { on signature_view same_signature };

    ghost laws = { partial_equiv_from_equiv (on_equiv signature_view signature_equiv) };

    fn eq(&self, other: &CoseSignature) -> bool {
        same_signature(self, other)
    }
}

impl Eq for CoseSignature {
    ghost laws = { on_equiv signature_view signature_equiv };
}

fn same_header(a: &Header, b: &Header) -> bool
    ensures { result ≡ same_header (header_view a.now) (header_view b.now) }
{
    a.same_plain(b) && same_signatures(&a.counter_signatures, &b.counter_signatures)
}

fn same_protected(a: &ProtectedHeader, b: &ProtectedHeader) -> bool
    ensures { result ≡ same_protected (protected_view a.now) (protected_view b.now) }
{
    a.original_data == b.original_data && same_header(&a.header, &b.header)
}

fn same_signature(a: &CoseSignature, b: &CoseSignature) -> bool
    ensures { result ≡ same_signature (signature_view a.now) (signature_view b.now) }
{
    same_protected(&a.protected, &b.protected)
        && same_header(&a.unprotected, &b.unprotected)
        && a.signature == b.signature
}

/// Whether two signatures are equal but for the counter signatures in their headers.
#[inline(never)]
fn same_fields(a: &CoseSignature, b: &CoseSignature) -> bool
    ensures { result
        ≡ same_signature (unsigned (signature_view a.now)) (unsigned (signature_view b.now)) }
{
    a.protected.original_data == b.protected.original_data
        && a.protected.header.same_plain(&b.protected.header)
        && a.unprotected.same_plain(&b.unprotected)
        && a.signature == b.signature
}

/// Whether the signatures of two lists are equal. It recurses by levels, each of which keeps little
/// on the stack.
#[cycle(equality)]
fn same_signatures(a: &[CoseSignature], b: &[CoseSignature]) -> bool
    ensures { result ≡ same_signatures (signatures_view a.now) (signatures_view b.now) }
{
    if a.len() != b.len() {
        return false;
    }
    for (x, y) in a.iter().zip(b) {
        if !same_fields(x, y) {
            return false;
        }
        if !same_signatures(
            &x.protected.header.counter_signatures,
            &y.protected.header.counter_signatures,
        ) {
            return false;
        }
        if !same_signatures(
            &x.unprotected.counter_signatures,
            &y.unprotected.counter_signatures,
        ) {
            return false;
        }
    }
    true
}
