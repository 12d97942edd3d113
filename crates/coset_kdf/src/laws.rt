//! Laws of the definitions.
ghost use Rattle.std.specs.Prelude.{◌≡◌, ◌↔◌, ◌+◌, ◌^◌, ◌<◌, IsTrue, ℕ, List, Some, length, map};
ghost use Rattle.std.specs.Prelude.{option_map};
ghost use Rattle.ciborium_value.specs.Tree.{Tree, bytes};
ghost use Rattle.ciborium_value.specs.Encoding.{enc, Fits, FitAll};
ghost use Rattle.ciborium_value.specs.View.{trees};
ghost use Rattle.coset_labels.specs.Faults.{CoseFault};
ghost use Rattle.coset_labels.specs.Limits.{nesting, layers};
ghost use Rattle.coset_labels.specs.Reading.{HasItem};
ghost use Rattle.coset_headers.specs.View.{protected_view};
ghost use Rattle.coset_headers.specs.Written.{shown};
ghost use Rattle.coset_kdf.specs.Contexts.{HasContext, HasParty, HasPublic};
ghost use Rattle.coset_kdf.specs.Fields.{ContextFields, PartyFields, PublicFields};
ghost use Rattle.coset_kdf.specs.View.{context_view, nonce_view, party_view, public_view};
ghost use Rattle.coset_kdf.specs.Written.{bytes_or_nil_tree, context_tree, nonce_tree, party_tree};
ghost use Rattle.coset_kdf.specs.Written.{public_tree};
ghost use Rattle.coset_kdf.specs.Wrong.{WrongContext, WrongParty, WrongPublic};

use crate::context::{CoseKdfContext, Nonce, PartyInfo, SuppPubInfo};
use ciborium_value::laws::value_fits;
use ciborium_value::{Integer, Value};
use coset_headers::laws::{protected_fits, read_is_short};
use coset_labels::laws::{bytes_fit, name_fits};

/// A value has the fields of at most one party, one public information, one context.
pub fn one_context()
    ensures party { (t : Tree) (p q : PartyFields) → HasParty t p → HasParty t q → p ≡ q }
    ensures public { (n k : ℕ) (t : Tree) (s u : PublicFields) → HasPublic n t s k
        → HasPublic n t u k → s ≡ u }
    ensures context { (n k : ℕ) (t : Tree) (c d : ContextFields) → HasContext n t c k
        → HasContext n t d k → c ≡ d }
{}

/// A value with a fault has no fields.
pub fn wrong_has_none()
    ensures party { (t : Tree) (e : CoseFault) (p : PartyFields) → WrongParty t e
        → HasParty t p → ⊥ }
    ensures public { (n k : ℕ) (t : Tree) (e : CoseFault) (s : PublicFields) → WrongPublic n t k e
        → HasPublic n t s k → ⊥ }
    ensures context { (n k : ℕ) (t : Tree) (e : CoseFault) (c : ContextFields)
        → WrongContext n t k e → HasContext n t c k → ⊥ }
{}

/// What was read is written as the very value that it was read from. So it can be written, and is
/// read again the same.
pub fn read_is_written_back()
    ensures party { (t : Tree) (p : PartyFields) → HasParty t p → party_tree p ≡ t }
    ensures public { (n k : ℕ) (t : Tree) (s : PublicFields) → HasPublic n t s k
        → public_tree s ≡ Some t }
    ensures context { (n k : ℕ) (t : Tree) (c : ContextFields) → HasContext n t c k
        → context_tree c ≡ Some t }
{}

/// Nonces are equal exactly if they say the same.
pub fn nonces_compare(a: &Nonce, b: &Nonce)
    ensures { IsTrue (⟦<Nonce as std::cmp::PartialEq>⟧.eq a.now b.now)
        ↔ (nonce_view a.now ≡ nonce_view b.now) }
{}

/// What parties bring is equal exactly if it says the same.
pub fn parties_compare(a: &PartyInfo, b: &PartyInfo)
    ensures { IsTrue (⟦<PartyInfo as std::cmp::PartialEq>⟧.eq a.now b.now)
        ↔ (party_view a.now ≡ party_view b.now) }
{}

/// Public information is equal exactly if it says the same, received bytes included.
pub fn publics_compare(a: &SuppPubInfo, b: &SuppPubInfo)
    ensures { IsTrue (⟦<SuppPubInfo as std::cmp::PartialEq>⟧.eq a.now b.now)
        ↔ (public_view a.now ≡ public_view b.now) }
{}

/// Contexts are equal exactly if they say the same, received bytes included.
pub fn contexts_compare(a: &CoseKdfContext, b: &CoseKdfContext)
    ensures { IsTrue (⟦<CoseKdfContext as std::cmp::PartialEq>⟧.eq a.now b.now)
        ↔ (context_view a.now ≡ context_view b.now) }
{}

fn vec_fits(content: &Vec<u8>)
    ensures { Fits (bytes content.now.items) }
{
    bytes_fit(content.as_slice());
}

fn maybe_bytes_fit(content: &Option<Vec<u8>>)
    ensures { Fits (bytes_or_nil_tree (option_map (λ v. v.items) content.now)) }
{
    match content {
        Some(content) => vec_fits(content),
        None => {}
    }
}

fn maybe_nonce_fits(nonce: &Option<Nonce>)
    ensures { Fits (nonce_tree (option_map nonce_view nonce.now)) }
{
    match nonce {
        Some(Nonce::Bytes(content)) => vec_fits(content),
        Some(Nonce::Integer(i)) => value_fits(&Value::Integer(Integer::from(*i))),
        None => {}
    }
}

/// What a party is written as fits: each number is in its range, and each length is one that a
/// head can have.
pub fn party_fits(info: &PartyInfo)
    ensures { Fits (party_tree (party_view info.now)) }
{
    maybe_bytes_fit(&info.identity);
    maybe_nonce_fits(&info.nonce);
    maybe_bytes_fit(&info.other);
}

/// What public information is written as fits if the bytes that its protected header shows do. They
/// do in all that was read.
pub fn public_fits(info: &SuppPubInfo)
    ensures shown { (b : List ℕ) (t : Tree) → shown (protected_view info.now.protected) ≡ Some b
        → Fits (bytes b) → public_tree (public_view info.now) ≡ Some t → Fits t }
    ensures read { (n k : ℕ) (t u : Tree) → HasPublic n t (public_view info.now) k
        → public_tree (public_view info.now) ≡ Some u → Fits u }
{
    let _length = info.key_data_length;
    maybe_bytes_fit(&info.other);
    protected_fits(&info.protected);
    read_is_short();
}

fn private_fit(private: &[Vec<u8>])
    ensures all { FitAll (trees (map bytes (map (λ v. v.items) private.now))) }
    ensures short { length private.now + 4 < 2 ^ 64 }
{
    let _len = private.len();
    'private: for content in private {
        vec_fits(content);
    }
}

/// What a context is written as fits if the bytes that its protected header shows do. They do in
/// all that was read.
pub fn context_fits(context: &CoseKdfContext)
    ensures shown { (b : List ℕ) (t : Tree)
        → shown (protected_view context.now.supp_pub_info.protected) ≡ Some b
        → Fits (bytes b) → context_tree (context_view context.now) ≡ Some t → Fits t }
    ensures read { (n k : ℕ) (t u : Tree) → HasContext n t (context_view context.now) k
        → context_tree (context_view context.now) ≡ Some u → Fits u }
{
    name_fits(&context.algorithm_id);
    party_fits(&context.party_u_info);
    party_fits(&context.party_v_info);
    public_fits(&context.supp_pub_info);
    private_fit(&context.supp_priv_info);
}

/// What a party brings, read from bytes, is read again from the bytes that it is written as, the
/// same.
pub fn party_reads_again(info: &PartyInfo)
    ensures { (b : List ℕ) → HasItem HasParty b (party_view info.now)
        → HasItem HasParty (enc (party_tree (party_view info.now))) (party_view info.now) }
{
    party_fits(info);
}

/// As `party_reads_again`, of public information, received bytes included.
pub fn public_reads_again(info: &SuppPubInfo)
    ensures { (b : List ℕ) (u : Tree)
        → HasItem (λ t s. HasPublic nesting t s layers) b (public_view info.now)
        → public_tree (public_view info.now) ≡ Some u
        → HasItem (λ t s. HasPublic nesting t s layers) (enc u) (public_view info.now) }
{
    public_fits(info);
}

/// As `public_reads_again`, of a context.
pub fn context_reads_again(context: &CoseKdfContext)
    ensures { (b : List ℕ) (u : Tree)
        → HasItem (λ t c. HasContext nesting t c layers) b (context_view context.now)
        → context_tree (context_view context.now) ≡ Some u
        → HasItem (λ t c. HasContext nesting t c layers) (enc u) (context_view context.now) }
{
    context_fits(context);
}
