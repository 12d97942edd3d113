//! Laws of structures.
ghost use Rattle.std.specs.Prelude.{◌≡◌, ◌≢◌, ◌↔◌, ℕ, ◌<◌, ◌^◌, List, length, Option, Some, None};
ghost use Rattle.std.specs.Prelude.{option_map};
ghost use Rattle.coset_headers.specs.Fields.{ProtectedFields};
ghost use Rattle.coset_headers.specs.Written.{shown};
ghost use Rattle.coset_base.specs.declared.context.SignatureContext.{SignatureContext};
ghost use Rattle.coset_base.specs.declared.context.MacContext.{MacContext};
ghost use Rattle.coset_base.specs.declared.context.EncryptionContext.{EncryptionContext};
ghost use Rattle.coset_base.specs.Contexts.{signature_text, mac_text, encryption_text};
ghost use Rattle.coset_base.specs.Covered.{Covered, covered_bytes, CoveredFits, covered_by_sig};
ghost use Rattle.coset_base.specs.Covered.{covered_by_mac, covered_by_enc};
ghost use Rattle.coset_base.specs.Structure.{sig_structure, mac_structure, encryption_structure};

/// The structures over a protected header that can be written are there.
pub fn structures_can_be_written()
    ensures one { (context aad payload : List ℕ) (p : ProtectedFields) → shown p ≢ None
        → (sig_structure context p None aad payload ≢ None)
        × (mac_structure context p aad payload ≢ None)
        × (encryption_structure context p aad ≢ None) }
    ensures signer { (context aad payload : List ℕ) (p q : ProtectedFields) → shown p ≢ None
        → shown q ≢ None
        → sig_structure context p (Some q) aad payload ≢ None }
{}

/// Over all contexts, with and without a signer, two structures have the same bytes exactly when
/// they have the same parts: kind, context, whether there is a signer, shown protected bytes,
/// external data, and payload if the structure has one. So a Sig_structure is never a
/// MAC_structure, and neither is an Enc_structure. Each part has fewer than 2^64 bytes.
pub fn one_structure()
    ensures same { (x y : Covered) → CoveredFits x → CoveredFits y
        → (covered_bytes x ≡ covered_bytes y) ↔ (x ≡ y) }

    // A structure of fewer than 2^64 bytes, as one in hand is, has such parts.
    ensures fit { (x : Covered) → length (covered_bytes x) < 2 ^ 64 → CoveredFits x }

    // The structures of protected headers are those of their parts.
    ensures sig { (context : SignatureContext) (body : ProtectedFields)
        (signer : Option ProtectedFields) (aad payload : List ℕ)
        → sig_structure (signature_text context) body signer aad payload
        ≡ option_map covered_bytes (covered_by_sig context body signer aad payload) }
    ensures mac { (context : MacContext) (body : ProtectedFields) (aad payload : List ℕ)
        → mac_structure (mac_text context) body aad payload
        ≡ option_map covered_bytes (covered_by_mac context body aad payload) }
    ensures enc { (context : EncryptionContext) (body : ProtectedFields) (aad : List ℕ)
        → encryption_structure (encryption_text context) body aad
        ≡ option_map covered_bytes (covered_by_enc context body aad) }
{}
