//! Laws of the definitions.
ghost use Rattle.std.specs.Prelude.{◌≡◌, ◌≢◌, ◌↔◌, ℕ, List, IsTrue, true, Some, None, map};
ghost use Rattle.ciborium.specs.Front.{Reads};
ghost use Rattle.ciborium_value.specs.Encoding.{enc, Fits};
ghost use Rattle.ciborium_value.specs.Tree.{Tree, array, tag};
ghost use Rattle.ciborium_value.specs.View.{trees};
ghost use Rattle.coset_labels.specs.Arrays.{all_written};
ghost use Rattle.coset_labels.specs.Faults.{CoseFault};
ghost use Rattle.coset_labels.specs.Limits.{nesting, layers};
ghost use Rattle.coset_labels.specs.Reading.{HasItem, Tagged};
ghost use Rattle.coset_headers.specs.Fields.{SignatureFields};
ghost use Rattle.coset_headers.specs.Headers.{HasSignature};
ghost use Rattle.coset_headers.specs.Short.{AllShort};
ghost use Rattle.coset_headers.specs.View.{signature_view, signatures_view};
ghost use Rattle.coset_headers.specs.Written.{signature_tree};
ghost use Rattle.coset_signed.specs.Fields.{Sign1Fields, SignFields};
ghost use Rattle.coset_signed.specs.Shapes.{HasSign1, HasSign};
ghost use Rattle.coset_signed.specs.Short.{Sign1Short, SignShort};
ghost use Rattle.coset_signed.specs.Structure.{sign1_covered_with, sign_covered_with};
ghost use Rattle.coset_signed.specs.View.{sign1_view, sign_view};
ghost use Rattle.coset_signed.specs.Written.{sign1_tree, sign_tree};
ghost use Rattle.coset_signed.specs.Wrong.{WrongSign1, WrongSign};
ghost use Rattle.coset_signed.specs.Put.{sign1_put, sign_put, is_received_sign1, is_received_sign};

use crate::sign::CoseSign;
use crate::sign1::CoseSign1;
use coset_headers::CoseSignature;
use coset_headers::laws::signature_fits;
use coset_labels::laws::bytes_fit;
use coset_recipients::laws::parts::parts_fit;

/// A value has the fields of at most one message.
pub fn one_message()
    ensures sign1 { (n k : ℕ) (t : Tree) (m o : Sign1Fields) → HasSign1 n t m k → HasSign1 n t o k
        → m ≡ o }
    ensures sign { (n k : ℕ) (t : Tree) (m o : SignFields) → HasSign n t m k → HasSign n t o k
        → m ≡ o }
{}

/// A value with a fault has no fields.
pub fn wrong_has_none()
    ensures sign1 { (n k : ℕ) (t : Tree) (e : CoseFault) (m : Sign1Fields) → WrongSign1 n t k e
        → HasSign1 n t m k → ⊥ }
    ensures sign { (n k : ℕ) (t : Tree) (e : CoseFault) (m : SignFields) → WrongSign n t k e
        → HasSign n t m k → ⊥ }
{}

/// A message that was read can be written, and the bytes that its signatures cover are there.
pub fn read_can_be_written()
    ensures sign1 { (n k : ℕ) (t : Tree) (m : Sign1Fields) → HasSign1 n t m k
        → sign1_tree m ≢ None }
    ensures sign { (n k : ℕ) (t : Tree) (m : SignFields) → HasSign n t m k → sign_tree m ≢ None }
    ensures sign1_covered { (n k : ℕ) (t : Tree) (m : Sign1Fields) (payload aad : List ℕ)
        → HasSign1 n t m k → sign1_covered_with m payload aad ≢ None }
    ensures sign_covered { (n k : ℕ) (t u : Tree) (m : SignFields) (s : SignatureFields)
        (payload aad : List ℕ) → HasSign n t m k → HasSignature n u s k
        → sign_covered_with m s payload aad ≢ None }
{}

/// What is written of a message that was read has its fields again, received bytes included.
pub fn written_has_same()
    ensures sign1 { (n k : ℕ) (t u : Tree) (m : Sign1Fields) → HasSign1 n t m k
        → sign1_tree m ≡ Some u → HasSign1 n u m k }
    ensures sign { (n k : ℕ) (t u : Tree) (m : SignFields) → HasSign n t m k → sign_tree m ≡ Some u
        → HasSign n u m k }
{}

/// The encoding of what is written nests no deeper than what was read, and is read again with the
/// same fields.
pub fn written_reads_same()
    ensures sign1 { (n k limit : ℕ) (b : List ℕ) (t u : Tree) (m : Sign1Fields) → Reads b limit t
        → HasSign1 n t m k → sign1_tree m ≡ Some u → Fits u
        → Reads (enc u) limit u × HasSign1 n u m k }
    ensures sign { (n k limit : ℕ) (b : List ℕ) (t u : Tree) (m : SignFields) → Reads b limit t
        → HasSign n t m k → sign_tree m ≡ Some u → Fits u
        → Reads (enc u) limit u × HasSign n u m k }
{}

/// What was read has its received bytes, as `sign1_fits` and `sign_fits` ask.
pub fn read_is_short()
    ensures sign1 { (n k : ℕ) (t : Tree) (m : Sign1Fields) → HasSign1 n t m k → Sign1Short m }
    ensures sign { (n k : ℕ) (t : Tree) (m : SignFields) → HasSign n t m k → SignShort m }
{}

/// What is written of this message fits heads, if each protected header in it that has no received
/// bytes is encoded in fewer than 2^64 bytes.
pub fn sign1_fits(message: &CoseSign1)
    ensures { (u : Tree) → sign1_tree (sign1_view message.now) ≡ Some u
        → Sign1Short (sign1_view message.now) → Fits u }
{
    parts_fit(&message.protected, &message.unprotected, &message.payload);
    bytes_fit(&message.signature);
}

fn signatures_fit(signatures: &[CoseSignature])
    ensures { (ts : List Tree)
        → all_written signature_tree (map signature_view signatures.now) ≡ Some ts
        → AllShort (signatures_view signatures.now) → Fits (array (trees ts)) }
{
    let _len = signatures.len();
    'signatures: for signature in signatures {
        signature_fits(signature);
    }
}

/// As `sign1_fits`, of a message with several signatures.
pub fn sign_fits(message: &CoseSign)
    ensures { (u : Tree) → sign_tree (sign_view message.now) ≡ Some u
        → SignShort (sign_view message.now) → Fits u }
{
    parts_fit(&message.protected, &message.unprotected, &message.payload);
    signatures_fit(&message.signatures);
}

/// A message that was read from bytes is read again from the bytes that it is written as, the same,
/// received bytes included. So is one that was read in its tag and is written in it.
pub fn sign1_reads_again(message: &CoseSign1)
    ensures item { (b : List ℕ) (u : Tree)
        → HasItem (λ t m. HasSign1 nesting t m layers) b (sign1_view message.now)
        → sign1_tree (sign1_view message.now) ≡ Some u
        → HasItem (λ t m. HasSign1 nesting t m layers) (enc u) (sign1_view message.now) }
    ensures tagged { (b : List ℕ) (u : Tree)
        → HasItem (Tagged 18 (λ t m. HasSign1 nesting t m layers)) b (sign1_view message.now)
        → sign1_tree (sign1_view message.now) ≡ Some u
        → HasItem (Tagged 18 (λ t m. HasSign1 nesting t m layers)) (enc (tag 18 u))
        (sign1_view message.now) }
{
    sign1_fits(message);
    read_is_short();
}

/// As `sign1_reads_again`, of a message with several signatures.
pub fn sign_reads_again(message: &CoseSign)
    ensures item { (b : List ℕ) (u : Tree)
        → HasItem (λ t m. HasSign nesting t m layers) b (sign_view message.now)
        → sign_tree (sign_view message.now) ≡ Some u
        → HasItem (λ t m. HasSign nesting t m layers) (enc u) (sign_view message.now) }
    ensures tagged { (b : List ℕ) (u : Tree)
        → HasItem (Tagged 98 (λ t m. HasSign nesting t m layers)) b (sign_view message.now)
        → sign_tree (sign_view message.now) ≡ Some u
        → HasItem (Tagged 98 (λ t m. HasSign nesting t m layers)) (enc (tag 98 u))
        (sign_view message.now) }
{
    sign_fits(message);
    read_is_short();
}

/// Messages are equal if they say the same and their protected headers have the same received
/// bytes, or none.
pub fn sign1_compare(a: &CoseSign1, b: &CoseSign1)
    ensures { IsTrue (⟦<CoseSign1 as std::cmp::PartialEq>⟧.eq a.now b.now)
        ↔ (sign1_view a.now ≡ sign1_view b.now) }
{}

/// As `sign1_compare`, their signatures in the same order.
pub fn sign_compare(a: &CoseSign, b: &CoseSign)
    ensures { IsTrue (⟦<CoseSign as std::cmp::PartialEq>⟧.eq a.now b.now)
        ↔ (sign_view a.now ≡ sign_view b.now) }
{}

/// What is written straight from fields that are as received is what `to_cbor_value` writes of
/// them.
pub fn put_is_written()
    ensures sign1 { (m : Sign1Fields) → is_received_sign1 m ≡ true → sign1_tree m ≡ Some (sign1_put m) }
    ensures sign { (m : SignFields) → is_received_sign m ≡ true → sign_tree m ≡ Some (sign_put m) }
{}

/// What was read is as received: the calls that write it straight from its fields may be made.
pub fn read_is_received()
    ensures sign1 { (n k : ℕ) (t : Tree) (m : Sign1Fields) → HasSign1 n t m k
        → is_received_sign1 m ≡ true }
    ensures sign { (n k : ℕ) (t : Tree) (m : SignFields) → HasSign n t m k → is_received_sign m ≡ true }
{}

/// What was read is written straight from its fields as the same value as by `to_cbor_value`.
pub fn read_is_put()
    ensures sign1 { (n k : ℕ) (t : Tree) (m : Sign1Fields) → HasSign1 n t m k
        → sign1_tree m ≡ Some (sign1_put m) }
    ensures sign { (n k : ℕ) (t : Tree) (m : SignFields) → HasSign n t m k
        → sign_tree m ≡ Some (sign_put m) }
{}
