//! Laws of the definitions.
ghost use Rattle.std.specs.Prelude.{◌≡◌, ◌≢◌, ◌↔◌, ℕ, List, IsTrue, None, Some};
ghost use Rattle.ciborium.specs.Front.{Reads};
ghost use Rattle.ciborium_value.specs.Encoding.{enc, Fits};
ghost use Rattle.ciborium_value.specs.Tree.{Tree, tag};
ghost use Rattle.coset_labels.specs.Faults.{CoseFault};
ghost use Rattle.coset_labels.specs.Limits.{nesting, layers};
ghost use Rattle.coset_labels.specs.Reading.{HasItem, Tagged};
ghost use Rattle.coset_encrypted.specs.Fields.{Encrypt0Fields, EncryptFields};
ghost use Rattle.coset_encrypted.specs.Shapes.{HasEncrypt0, HasEncrypt};
ghost use Rattle.coset_encrypted.specs.Short.{Encrypt0Short, EncryptShort};
ghost use Rattle.coset_encrypted.specs.Structure.{encrypt0_covered, encrypt_covered};
ghost use Rattle.coset_encrypted.specs.View.{encrypt0_view, encrypt_view};
ghost use Rattle.coset_encrypted.specs.Written.{encrypt0_tree, encrypt_tree};
ghost use Rattle.coset_encrypted.specs.Wrong.{WrongEncrypt0, WrongEncrypt};

use crate::encrypt::CoseEncrypt;
use crate::encrypt0::CoseEncrypt0;
use coset_recipients::laws::parts::parts_fit;
use coset_recipients::laws::recipients_fit;

/// A value has the fields of at most one message of each kind.
pub fn one_message()
    ensures encrypt0 { (n k : ℕ) (t : Tree) (m w : Encrypt0Fields) → HasEncrypt0 n t m k
        → HasEncrypt0 n t w k → m ≡ w }
    ensures encrypt { (n k : ℕ) (t : Tree) (m w : EncryptFields) → HasEncrypt n t m k
        → HasEncrypt n t w k → m ≡ w }
{}

/// A value with a fault has no fields.
pub fn wrong_has_none()
    ensures encrypt0 { (n k : ℕ) (t : Tree) (e : CoseFault) (m : Encrypt0Fields)
        → WrongEncrypt0 n t k e → HasEncrypt0 n t m k → ⊥ }
    ensures encrypt { (n k : ℕ) (t : Tree) (e : CoseFault) (m : EncryptFields)
        → WrongEncrypt n t k e → HasEncrypt n t m k → ⊥ }
{}

/// A message that was read can be written, and what its ciphertext covers is there.
pub fn read_can_be_written()
    ensures encrypt0 { (n k : ℕ) (t : Tree) (m : Encrypt0Fields) → HasEncrypt0 n t m k
        → encrypt0_tree m ≢ None }
    ensures encrypt0_covered { (n k : ℕ) (t : Tree) (m : Encrypt0Fields) (aad : List ℕ)
        → HasEncrypt0 n t m k → encrypt0_covered m aad ≢ None }
    ensures encrypt { (n k : ℕ) (t : Tree) (m : EncryptFields) → HasEncrypt n t m k
        → encrypt_tree m ≢ None }
    ensures encrypt_covered { (n k : ℕ) (t : Tree) (m : EncryptFields) (aad : List ℕ)
        → HasEncrypt n t m k → encrypt_covered m aad ≢ None }
{}

/// What is written of a message that was read has its fields again, received bytes included.
pub fn written_has_same()
    ensures encrypt0 { (n k : ℕ) (t u : Tree) (m : Encrypt0Fields) → HasEncrypt0 n t m k
        → encrypt0_tree m ≡ Some u → HasEncrypt0 n u m k }
    ensures encrypt { (n k : ℕ) (t u : Tree) (m : EncryptFields) → HasEncrypt n t m k
        → encrypt_tree m ≡ Some u → HasEncrypt n u m k }
{}

/// The encoding of what is written nests no deeper than what was read, and is read again with the
/// same fields.
pub fn written_reads_same()
    ensures encrypt0 { (n k limit : ℕ) (b : List ℕ) (t u : Tree) (m : Encrypt0Fields)
        → Reads b limit t → HasEncrypt0 n t m k → encrypt0_tree m ≡ Some u → Fits u
        → Reads (enc u) limit u × HasEncrypt0 n u m k }
    ensures encrypt { (n k limit : ℕ) (b : List ℕ) (t u : Tree) (m : EncryptFields)
        → Reads b limit t → HasEncrypt n t m k → encrypt_tree m ≡ Some u → Fits u
        → Reads (enc u) limit u × HasEncrypt n u m k }
{}

/// What was read has its received bytes, as `encrypt0_fits` and `encrypt_fits` ask.
pub fn read_is_short()
    ensures encrypt0 { (n k : ℕ) (t : Tree) (m : Encrypt0Fields) → HasEncrypt0 n t m k
        → Encrypt0Short m }
    ensures encrypt { (n k : ℕ) (t : Tree) (m : EncryptFields) → HasEncrypt n t m k
        → EncryptShort m }
{}

/// What is written of this message fits heads, if each protected header in it that has no received
/// bytes is encoded in fewer than 2^64 bytes.
pub fn encrypt0_fits(message: &CoseEncrypt0)
    ensures { (u : Tree) → encrypt0_tree (encrypt0_view message.now) ≡ Some u
        → Encrypt0Short (encrypt0_view message.now) → Fits u }
{
    parts_fit(
        &message.protected,
        &message.unprotected,
        &message.ciphertext,
    );
}

/// As `encrypt0_fits`, of a message with recipients.
pub fn encrypt_fits(message: &CoseEncrypt)
    ensures { (u : Tree) → encrypt_tree (encrypt_view message.now) ≡ Some u
        → EncryptShort (encrypt_view message.now) → Fits u }
{
    parts_fit(
        &message.protected,
        &message.unprotected,
        &message.ciphertext,
    );
    recipients_fit(&message.recipients);
}

/// A message that was read from bytes is read again from the bytes that it is written as, the same,
/// received bytes included. So is one that was read in its tag and is written in it.
pub fn encrypt0_reads_again(message: &CoseEncrypt0)
    ensures item { (b : List ℕ) (u : Tree)
        → HasItem (λ t m. HasEncrypt0 nesting t m layers) b (encrypt0_view message.now)
        → encrypt0_tree (encrypt0_view message.now) ≡ Some u
        → HasItem (λ t m. HasEncrypt0 nesting t m layers) (enc u) (encrypt0_view message.now) }
    ensures tagged { (b : List ℕ) (u : Tree)
        → HasItem (Tagged 16 (λ t m. HasEncrypt0 nesting t m layers)) b (encrypt0_view message.now)
        → encrypt0_tree (encrypt0_view message.now) ≡ Some u
        → HasItem (Tagged 16 (λ t m. HasEncrypt0 nesting t m layers)) (enc (tag 16 u))
        (encrypt0_view message.now) }
{
    encrypt0_fits(message);
    read_is_short();
}

/// As `encrypt0_reads_again`, of a message with recipients.
pub fn encrypt_reads_again(message: &CoseEncrypt)
    ensures item { (b : List ℕ) (u : Tree)
        → HasItem (λ t m. HasEncrypt nesting t m layers) b (encrypt_view message.now)
        → encrypt_tree (encrypt_view message.now) ≡ Some u
        → HasItem (λ t m. HasEncrypt nesting t m layers) (enc u) (encrypt_view message.now) }
    ensures tagged { (b : List ℕ) (u : Tree)
        → HasItem (Tagged 96 (λ t m. HasEncrypt nesting t m layers)) b (encrypt_view message.now)
        → encrypt_tree (encrypt_view message.now) ≡ Some u
        → HasItem (Tagged 96 (λ t m. HasEncrypt nesting t m layers)) (enc (tag 96 u))
        (encrypt_view message.now) }
{
    encrypt_fits(message);
    read_is_short();
}

/// Messages are equal if they say the same and their protected headers have the same received
/// bytes, or none.
pub fn encrypt0_compare(a: &CoseEncrypt0, b: &CoseEncrypt0)
    ensures { IsTrue (⟦<CoseEncrypt0 as std::cmp::PartialEq>⟧.eq a.now b.now)
        ↔ (encrypt0_view a.now ≡ encrypt0_view b.now) }
{}

/// As `encrypt0_compare`, their recipients in the same order.
pub fn encrypt_compare(a: &CoseEncrypt, b: &CoseEncrypt)
    ensures { IsTrue (⟦<CoseEncrypt as std::cmp::PartialEq>⟧.eq a.now b.now)
        ↔ (encrypt_view a.now ≡ encrypt_view b.now) }
{}
