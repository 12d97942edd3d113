//! Laws of the definitions.
ghost use Rattle.std.specs.Prelude.{◌≡◌, ◌≢◌, ◌↔◌, ℕ, List, IsTrue, true, None, Some};
ghost use Rattle.ciborium.specs.Front.{Reads};
ghost use Rattle.ciborium_value.specs.Encoding.{enc, Fits};
ghost use Rattle.ciborium_value.specs.Tree.{Tree, tag};
ghost use Rattle.coset_labels.specs.Faults.{CoseFault};
ghost use Rattle.coset_labels.specs.Limits.{nesting, layers};
ghost use Rattle.coset_labels.specs.Reading.{HasItem, Tagged};
ghost use Rattle.coset_maced.specs.Fields.{Mac0Fields, MacFields};
ghost use Rattle.coset_maced.specs.Shapes.{HasMac0, HasMac};
ghost use Rattle.coset_maced.specs.Short.{Mac0Short, MacShort};
ghost use Rattle.coset_maced.specs.Structure.{mac0_covered_with, mac_covered_with};
ghost use Rattle.coset_maced.specs.View.{mac0_view, mac_view};
ghost use Rattle.coset_maced.specs.Written.{mac0_tree, mac_tree};
ghost use Rattle.coset_maced.specs.Wrong.{WrongMac0, WrongMac};
ghost use Rattle.coset_maced.specs.Put.{mac0_put, mac_put, is_received_mac0, is_received_mac};

use crate::mac::CoseMac;
use crate::mac0::CoseMac0;
use coset_labels::laws::bytes_fit;
pub use coset_recipients::laws as recipients;
pub use coset_recipients::laws::parts;
use coset_recipients::laws::parts::parts_fit;
use coset_recipients::laws::recipients_fit;

/// A value has the fields of at most one message of each kind.
pub fn one_message()
    ensures mac0 { (n k : ℕ) (t : Tree) (m w : Mac0Fields) → HasMac0 n t m k → HasMac0 n t w k
        → m ≡ w }
    ensures mac { (n k : ℕ) (t : Tree) (m w : MacFields) → HasMac n t m k → HasMac n t w k → m ≡ w }
{}

/// A value with a fault has no fields.
pub fn wrong_has_none()
    ensures mac0 { (n k : ℕ) (t : Tree) (e : CoseFault) (m : Mac0Fields) → WrongMac0 n t k e
        → HasMac0 n t m k → ⊥ }
    ensures mac { (n k : ℕ) (t : Tree) (e : CoseFault) (m : MacFields) → WrongMac n t k e
        → HasMac n t m k → ⊥ }
{}

/// A message that was read can be written, and what its tag covers is there.
pub fn read_can_be_written()
    ensures mac0 { (n k : ℕ) (t : Tree) (m : Mac0Fields) → HasMac0 n t m k → mac0_tree m ≢ None }
    ensures mac0_covered { (n k : ℕ) (t : Tree) (m : Mac0Fields) (payload aad : List ℕ)
        → HasMac0 n t m k → mac0_covered_with m payload aad ≢ None }
    ensures mac { (n k : ℕ) (t : Tree) (m : MacFields) → HasMac n t m k → mac_tree m ≢ None }
    ensures mac_covered { (n k : ℕ) (t : Tree) (m : MacFields) (payload aad : List ℕ)
        → HasMac n t m k → mac_covered_with m payload aad ≢ None }
{}

/// What is written of a message that was read has its fields again, received bytes included.
pub fn written_has_same()
    ensures mac0 { (n k : ℕ) (t u : Tree) (m : Mac0Fields) → HasMac0 n t m k → mac0_tree m ≡ Some u
        → HasMac0 n u m k }
    ensures mac { (n k : ℕ) (t u : Tree) (m : MacFields) → HasMac n t m k → mac_tree m ≡ Some u
        → HasMac n u m k }
{}

/// The encoding of what is written nests no deeper than what was read, and is read again with the
/// same fields.
pub fn written_reads_same()
    ensures mac0 { (n k limit : ℕ) (b : List ℕ) (t u : Tree) (m : Mac0Fields) → Reads b limit t
        → HasMac0 n t m k → mac0_tree m ≡ Some u → Fits u
        → Reads (enc u) limit u × HasMac0 n u m k }
    ensures mac { (n k limit : ℕ) (b : List ℕ) (t u : Tree) (m : MacFields) → Reads b limit t
        → HasMac n t m k → mac_tree m ≡ Some u → Fits u → Reads (enc u) limit u × HasMac n u m k }
{}

/// What was read has its received bytes, as `mac0_fits` and `mac_fits` ask.
pub fn read_is_short()
    ensures mac0 { (n k : ℕ) (t : Tree) (m : Mac0Fields) → HasMac0 n t m k → Mac0Short m }
    ensures mac { (n k : ℕ) (t : Tree) (m : MacFields) → HasMac n t m k → MacShort m }
{}

/// What is written of this message fits heads, if each protected header in it that has no received
/// bytes is encoded in fewer than 2^64 bytes.
pub fn mac0_fits(message: &CoseMac0)
    ensures { (u : Tree) → mac0_tree (mac0_view message.now) ≡ Some u
        → Mac0Short (mac0_view message.now) → Fits u }
{
    parts_fit(&message.protected, &message.unprotected, &message.payload);
    bytes_fit(&message.tag);
}

/// As `mac0_fits`, of a message with recipients.
pub fn mac_fits(message: &CoseMac)
    ensures { (u : Tree) → mac_tree (mac_view message.now) ≡ Some u
        → MacShort (mac_view message.now) → Fits u }
{
    parts_fit(&message.protected, &message.unprotected, &message.payload);
    bytes_fit(&message.tag);
    recipients_fit(&message.recipients);
}

/// A message that was read from bytes is read again from the bytes that it is written as, the same,
/// received bytes included. So is one that was read in its tag and is written in it.
pub fn mac0_reads_again(message: &CoseMac0)
    ensures item { (b : List ℕ) (u : Tree)
        → HasItem (λ t m. HasMac0 nesting t m layers) b (mac0_view message.now)
        → mac0_tree (mac0_view message.now) ≡ Some u
        → HasItem (λ t m. HasMac0 nesting t m layers) (enc u) (mac0_view message.now) }
    ensures tagged { (b : List ℕ) (u : Tree)
        → HasItem (Tagged 17 (λ t m. HasMac0 nesting t m layers)) b (mac0_view message.now)
        → mac0_tree (mac0_view message.now) ≡ Some u
        → HasItem (Tagged 17 (λ t m. HasMac0 nesting t m layers)) (enc (tag 17 u))
        (mac0_view message.now) }
{
    mac0_fits(message);
    read_is_short();
}

/// As `mac0_reads_again`, of a message with recipients.
pub fn mac_reads_again(message: &CoseMac)
    ensures item { (b : List ℕ) (u : Tree)
        → HasItem (λ t m. HasMac nesting t m layers) b (mac_view message.now)
        → mac_tree (mac_view message.now) ≡ Some u
        → HasItem (λ t m. HasMac nesting t m layers) (enc u) (mac_view message.now) }
    ensures tagged { (b : List ℕ) (u : Tree)
        → HasItem (Tagged 97 (λ t m. HasMac nesting t m layers)) b (mac_view message.now)
        → mac_tree (mac_view message.now) ≡ Some u
        → HasItem (Tagged 97 (λ t m. HasMac nesting t m layers)) (enc (tag 97 u))
        (mac_view message.now) }
{
    mac_fits(message);
    read_is_short();
}

/// Messages are equal if they say the same and their protected headers have the same received
/// bytes, or none.
pub fn mac0_compare(a: &CoseMac0, b: &CoseMac0)
    ensures { IsTrue (⟦<CoseMac0 as std::cmp::PartialEq>⟧.eq a.now b.now)
        ↔ (mac0_view a.now ≡ mac0_view b.now) }
{}

/// As `mac0_compare`, their recipients in the same order.
pub fn mac_compare(a: &CoseMac, b: &CoseMac)
    ensures { IsTrue (⟦<CoseMac as std::cmp::PartialEq>⟧.eq a.now b.now)
        ↔ (mac_view a.now ≡ mac_view b.now) }
{}

/// What is written straight from fields that are as received is what `to_cbor_value` writes of
/// them.
pub fn put_is_written()
    ensures mac0 { (m : Mac0Fields) → is_received_mac0 m ≡ true → mac0_tree m ≡ Some (mac0_put m) }
    ensures mac { (m : MacFields) → is_received_mac m ≡ true → mac_tree m ≡ Some (mac_put m) }
{}

/// What was read is as received: the calls that write it straight from its fields may be made.
pub fn read_is_received()
    ensures mac0 { (n k : ℕ) (t : Tree) (m : Mac0Fields) → HasMac0 n t m k → is_received_mac0 m ≡ true }
    ensures mac { (n k : ℕ) (t : Tree) (m : MacFields) → HasMac n t m k → is_received_mac m ≡ true }
{}

/// What was read is written straight from its fields as the same value as by `to_cbor_value`.
pub fn read_is_put()
    ensures mac0 { (n k : ℕ) (t : Tree) (m : Mac0Fields) → HasMac0 n t m k
        → mac0_tree m ≡ Some (mac0_put m) }
    ensures mac { (n k : ℕ) (t : Tree) (m : MacFields) → HasMac n t m k
        → mac_tree m ≡ Some (mac_put m) }
{}
