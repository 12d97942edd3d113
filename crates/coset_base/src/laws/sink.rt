//! Laws of what is written straight from fields.
ghost use Rattle.std.specs.Prelude.{◌≡◌, ◌↔◌, ℕ, List, true, false, Some, None, option_map};
ghost use Rattle.ciborium_value.specs.Tree.{Tree, bytes};
ghost use Rattle.coset_headers.specs.Fields.{Plain, HeaderFields, header, ProtectedFields};
ghost use Rattle.coset_headers.specs.Fields.{protected, SignatureFields, signature, Signatures};
ghost use Rattle.coset_headers.specs.Fields.{no_signatures, signature_more};
ghost use Rattle.coset_headers.specs.Headers.{HasHeader, HasProtected, HasSignature};
ghost use Rattle.coset_headers.specs.Written.{header_tree, shown, signature_tree};
ghost use Rattle.coset_headers.specs.Written.{signature_trees, is_empty, twice};
ghost use Rattle.coset_base.specs.Put.{header_put, protected_put, signature_put, signatures_put};
ghost use Rattle.coset_headers.specs.Received.{is_received_protected, is_received_header};
ghost use Rattle.coset_headers.specs.Received.{is_received_signature, are_received_signatures};

/// A header is as received exactly if no label is in its `rest` twice and its counter signatures are
/// as received, a protected one if it has its received bytes or is empty, and a signature if both of
/// its headers are.
pub fn header_is_received()
    ensures of_header { (p : Plain) (ss : Signatures) → (is_received_header (header p ss) ≡ true)
        ↔ ((twice p.rest ≡ false) × (are_received_signatures ss ≡ true)) }
    ensures of_received { (b : List ℕ) (h : HeaderFields)
        → is_received_protected (protected (Some b) h) ≡ true }
    ensures of_built { (h : HeaderFields)
        → is_received_protected (protected None h) ≡ is_empty h }
    ensures of_signature { (p : ProtectedFields) (h : HeaderFields) (c : List ℕ)
        → (is_received_signature (signature p h c) ≡ true)
        ↔ ((is_received_protected p ≡ true) × (is_received_header h ≡ true)) }
    ensures of_none { are_received_signatures no_signatures ≡ true }
    ensures of_more { (s : SignatureFields) (ss : Signatures)
        → (are_received_signatures (signature_more s ss) ≡ true)
        ↔ ((is_received_signature s ≡ true) × (are_received_signatures ss ≡ true)) }
{}

/// What is written straight from fields that are as received is what `to_cbor_value` writes of
/// them.
pub fn put_is_written()
    ensures header { (h : HeaderFields) → is_received_header h ≡ true
        → header_tree h ≡ Some (header_put h) }
    ensures protected { (p : ProtectedFields) → is_received_protected p ≡ true
        → option_map bytes (shown p) ≡ Some (protected_put p) }
    ensures signature { (s : SignatureFields) → is_received_signature s ≡ true
        → signature_tree s ≡ Some (signature_put s) }
    ensures signatures { (ss : Signatures) → are_received_signatures ss ≡ true
        → signature_trees ss ≡ Some (signatures_put ss) }
{}

/// What was read is as received: the calls that write it straight from its fields may be made.
pub fn read_is_received()
    ensures header { (n k : ℕ) (t : Tree) (h : HeaderFields) → HasHeader n t h k
        → is_received_header h ≡ true }
    ensures protected { (n k : ℕ) (t : Tree) (p : ProtectedFields) → HasProtected n t p k
        → is_received_protected p ≡ true }
    ensures signature { (n k : ℕ) (t : Tree) (s : SignatureFields) → HasSignature n t s k
        → is_received_signature s ≡ true }
{}

/// What was read is written straight from its fields as the same value as by `to_cbor_value`, and a
/// protected header as it was read.
pub fn read_is_put()
    ensures header { (n k : ℕ) (t : Tree) (h : HeaderFields) → HasHeader n t h k
        → header_tree h ≡ Some (header_put h) }
    ensures protected { (n k : ℕ) (t : Tree) (p : ProtectedFields) → HasProtected n t p k
        → protected_put p ≡ t }
    ensures signature { (n k : ℕ) (t : Tree) (s : SignatureFields) → HasSignature n t s k
        → signature_tree s ≡ Some (signature_put s) }
{}
