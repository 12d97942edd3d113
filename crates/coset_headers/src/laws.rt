//! Laws of the definitions.
ghost use Rattle.std.specs.Prelude.{◌≡◌, ◌≢◌, ◌↔◌, ◌^◌, ◌<◌, IsTrue, ℕ, List, length, Some, None};
ghost use Rattle.ciborium.specs.Front.{Reads};
ghost use Rattle.ciborium_value.specs.Encoding.{enc, Fits};
ghost use Rattle.ciborium_value.specs.Tree.{Tree, bytes};
ghost use Rattle.coset_labels.specs.Faults.{CoseFault};
ghost use Rattle.coset_labels.specs.Limits.{nesting, layers};
ghost use Rattle.coset_labels.specs.Reading.{HasItem, WrongItem};
ghost use Rattle.coset_headers.specs.Fields.{HeaderFields, ProtectedFields, SignatureFields};
ghost use Rattle.coset_headers.specs.Headers.{HasHeader, HasProtected, HasSignature};
ghost use Rattle.coset_headers.specs.Short.{IsShort, ShowsShort, SignatureShort};
ghost use Rattle.coset_headers.specs.View.{header_view, protected_view, signature_view};
ghost use Rattle.coset_headers.specs.Written.{header_tree, shown, signature_tree};
ghost use Rattle.coset_headers.specs.Wrong.{WrongHeader, WrongProtected, WrongSignature};

pub use crate::fits::{header_fits, protected_fits, signature_fits};
use crate::header::{CoseSignature, Header, ProtectedHeader};

/// A value has the fields of at most one header, one protected header, one signature. So have the
/// bytes of one item.
pub fn one_header()
    ensures header { (n k : ℕ) (t : Tree) (h g : HeaderFields) → HasHeader n t h k
        → HasHeader n t g k → h ≡ g }
    ensures protected { (n k : ℕ) (t : Tree) (p q : ProtectedFields) → HasProtected n t p k
        → HasProtected n t q k → p ≡ q }
    ensures signature { (n k : ℕ) (t : Tree) (s u : SignatureFields) → HasSignature n t s k
        → HasSignature n t u k → s ≡ u }
    ensures header_item { (b : List ℕ) (h g : HeaderFields)
        → HasItem (λ t h. HasHeader nesting t h layers) b h
        → HasItem (λ t h. HasHeader nesting t h layers) b g → h ≡ g }
    ensures signature_item { (b : List ℕ) (s u : SignatureFields)
        → HasItem (λ t s. HasSignature nesting t s layers) b s
        → HasItem (λ t s. HasSignature nesting t s layers) b u → s ≡ u }
{}

/// A value with a fault has no fields. Nor have bytes that are not one readable item, or whose item
/// has a fault.
pub fn wrong_has_none()
    ensures header { (n k : ℕ) (t : Tree) (e : CoseFault) (h : HeaderFields) → WrongHeader n t k e
        → HasHeader n t h k → ⊥ }
    ensures protected { (n k : ℕ) (t : Tree) (e : CoseFault) (p : ProtectedFields)
        → WrongProtected n t k e → HasProtected n t p k → ⊥ }
    ensures signature { (n k : ℕ) (t : Tree) (e : CoseFault) (s : SignatureFields)
        → WrongSignature n t k e → HasSignature n t s k → ⊥ }
    ensures header_item { (b : List ℕ) (e : CoseFault) (h : HeaderFields)
        → WrongItem (λ t e. WrongHeader nesting t layers e) b e
        → HasItem (λ t h. HasHeader nesting t h layers) b h → ⊥ }
    ensures signature_item { (b : List ℕ) (e : CoseFault) (s : SignatureFields)
        → WrongItem (λ t e. WrongSignature nesting t layers e) b e
        → HasItem (λ t s. HasSignature nesting t s layers) b s → ⊥ }
{}

/// A header that was read can be written, and so can a signature, and the bytes that a protected
/// one shows are there: no label of what was read would be written twice in one map.
pub fn read_can_be_written()
    ensures header { (n k : ℕ) (t : Tree) (h : HeaderFields) → HasHeader n t h k
        → header_tree h ≢ None }
    ensures protected { (n k : ℕ) (t : Tree) (p : ProtectedFields) → HasProtected n t p k
        → shown p ≢ None }
    ensures signature { (n k : ℕ) (t : Tree) (s : SignatureFields) → HasSignature n t s k
        → signature_tree s ≢ None }
{}

/// What is written of a header or a signature that was read has its fields again, received bytes
/// included. A protected one shows the very bytes that it was read from.
pub fn written_has_same()
    ensures header { (n k : ℕ) (t u : Tree) (h : HeaderFields) → HasHeader n t h k
        → header_tree h ≡ Some u → HasHeader n u h k }
    ensures protected { (n k : ℕ) (t : Tree) (b : List ℕ) (p : ProtectedFields)
        → HasProtected n t p k → shown p ≡ Some b → t ≡ bytes b }
    ensures signature { (n k : ℕ) (t u : Tree) (s : SignatureFields) → HasSignature n t s k
        → signature_tree s ≡ Some u → HasSignature n u s k }
{}

/// The encoding of what is written nests no deeper than what was read, and is read again with the
/// same fields.
pub fn written_reads_same()
    ensures header { (n k limit : ℕ) (b : List ℕ) (t u : Tree) (h : HeaderFields) → Reads b limit t
        → HasHeader n t h k
        → header_tree h ≡ Some u → Fits u → Reads (enc u) limit u × HasHeader n u h k }
    ensures signature { (n k limit : ℕ) (b : List ℕ) (t u : Tree) (s : SignatureFields)
        → Reads b limit t → HasSignature n t s k
        → signature_tree s ≡ Some u → Fits u → Reads (enc u) limit u × HasSignature n u s k }
{}

/// What was read has its received bytes, so it is short, as `header_fits` and its like ask.
pub fn read_is_short()
    ensures header { (n k : ℕ) (t : Tree) (h : HeaderFields) → HasHeader n t h k → IsShort h }
    ensures protected { (n k : ℕ) (t : Tree) (p : ProtectedFields) → HasProtected n t p k
        → ShowsShort p }
    ensures signature { (n k : ℕ) (t : Tree) (s : SignatureFields) → HasSignature n t s k
        → SignatureShort s }
{}

/// What is written in fewer than 2^64 bytes is short, with or without received bytes.
pub fn small_is_short()
    ensures header { (h : HeaderFields) (u : Tree) → header_tree h ≡ Some u
        → length (enc u) < 2 ^ 64 → IsShort h }
    ensures protected { (p : ProtectedFields) (b : List ℕ) → shown p ≡ Some b
        → length b < 2 ^ 64 → ShowsShort p }
    ensures signature { (s : SignatureFields) (u : Tree) → signature_tree s ≡ Some u
        → length (enc u) < 2 ^ 64 → SignatureShort s }
{}

/// What is written of this header fits heads, if these are its bytes.
pub fn written_header_fits(header: &Header, written: &[u8])
    ensures { (u : Tree) → header_tree (header_view header.now) ≡ Some u → enc u ≡ written.now
        → Fits u }
{
    header_fits(header);
    small_is_short();
    let _len = written.len();
}

/// As `written_header_fits`, of a signature.
pub fn written_signature_fits(signature: &CoseSignature, written: &[u8])
    ensures { (u : Tree) → signature_tree (signature_view signature.now) ≡ Some u
        → enc u ≡ written.now → Fits u }
{
    signature_fits(signature);
    small_is_short();
    let _len = written.len();
}

/// A header that was read from bytes is read again from the bytes that it is written as, the same,
/// received bytes included.
pub fn header_reads_again(header: &Header)
    ensures { (b : List ℕ) (u : Tree)
        → HasItem (λ t h. HasHeader nesting t h layers) b (header_view header.now)
        → header_tree (header_view header.now) ≡ Some u
        → HasItem (λ t h. HasHeader nesting t h layers) (enc u) (header_view header.now) }
{
    header_fits(header);
    written_reads_same();
    read_is_short();
}

/// As `header_reads_again`, of a signature.
pub fn signature_reads_again(signature: &CoseSignature)
    ensures { (b : List ℕ) (u : Tree)
        → HasItem (λ t s. HasSignature nesting t s layers) b (signature_view signature.now)
        → signature_tree (signature_view signature.now) ≡ Some u
        → HasItem (λ t s. HasSignature nesting t s layers) (enc u) (signature_view signature.now) }
{
    signature_fits(signature);
    written_reads_same();
    read_is_short();
}

/// Headers are equal if they say the same, entries of `rest` in the same order.
pub fn headers_compare(a: &Header, b: &Header)
    ensures { IsTrue (⟦<Header as std::cmp::PartialEq>⟧.eq a.now b.now)
        ↔ (header_view a.now ≡ header_view b.now) }
{}

/// Protected headers are equal if they say the same and both have the same received bytes, or none.
pub fn protected_compare(a: &ProtectedHeader, b: &ProtectedHeader)
    ensures { IsTrue (⟦<ProtectedHeader as std::cmp::PartialEq>⟧.eq a.now b.now)
        ↔ (protected_view a.now ≡ protected_view b.now) }
{}

/// Signatures are equal if they say the same.
pub fn signatures_compare(a: &CoseSignature, b: &CoseSignature)
    ensures { IsTrue (⟦<CoseSignature as std::cmp::PartialEq>⟧.eq a.now b.now)
        ↔ (signature_view a.now ≡ signature_view b.now) }
{}
