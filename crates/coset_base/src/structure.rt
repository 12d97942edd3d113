//! What signatures, tags and encryptions cover.
ghost use Rattle.std.specs.Prelude.{◌≡◌, ◌≤◌, ◌+◌, ◌^◌, [], ◌++◌, None, Some, IsTrue, MatchOption};
ghost use Rattle.std.specs.Prelude.{MatchResult, IfOk};
ghost use Rattle.std.specs.Prelude.{length, option_map, vec_len, vec_capacity};
ghost use Rattle.std.specs.List.{flat_map};
ghost use Rattle.std.specs.Cow.{cow_slice_items, IsBorrowedSlice};
ghost use Rattle.ciborium_value.specs.Tree as spec;
ghost use Rattle.ciborium_value.specs.Encoding.{enc};
ghost use Rattle.coset_labels.specs.Faults.{CantWrite};
ghost use Rattle.coset_labels.specs.declared.error.CoseError.TheVariants.{Memory};
ghost use Rattle.coset_base.specs.Contexts.{signature_text, mac_text, encryption_text};
ghost use Rattle.coset_base.specs.Structure.{structure, is_at_hand, shown_signer, sig_structure};
ghost use Rattle.coset_base.specs.Structure.{mac_structure, encryption_structure, behind_prefix};
ghost use Rattle.coset_base.specs.Structure.{behind_enc_prefix, byte_string};
ghost use Rattle.coset_headers.specs.View.{protected_view};
ghost use Rattle.coset_headers.specs.Written.{shown};

use crate::context::{EncryptionContext, MacContext, SignatureContext};
use crate::title::bytes_title;
use coset_headers::{ProtectedHeader, show_protected};
use coset_labels::CoseError;
use std::alloc::{AllocError, Allocator, Global};
use std::borrow::CowSlice;

/// The bytes that a signature covers, the Sig_structure (RFC 9052, section 4.4): the context, the
/// protected header of the body, that of the signer if there is a signer, the external data and the
/// payload. The payload is copied once, into the result.
///
/// # Errors
/// `DuplicateMapKey` exactly when a label is repeated in a header that has to be encoded, or
/// `Memory`.
pub fn sig_structure_data(
    alloc: Global,
    context: SignatureContext,
    body: &ProtectedHeader,
    sign: Option<&ProtectedHeader>,
    aad: &[u8],
    payload: &[u8],
) -> Result<Vec<u8>, CoseError>
    ensures { MatchResult result
        (λ v. sig_structure (signature_text context) (protected_view body.now)
        (option_map (λ p. protected_view p.now) sign.entry) aad.now payload.now ≡ Some v.items)
        (λ e. CantWrite (sig_structure (signature_text context) (protected_view body.now)
        (option_map (λ p. protected_view p.now) sign.entry) aad.now payload.now) e) }
{
    sig_structure_in(alloc, context, body, sign, aad, payload)
}

/// As `sig_structure_data`, in memory of this allocator, of which it takes just the structure's
/// length, once.
pub fn sig_structure_in<A: Allocator>(
    alloc: A,
    context: SignatureContext,
    body: &ProtectedHeader,
    sign: Option<&ProtectedHeader>,
    aad: &[u8],
    payload: &[u8],
) -> Result<Vec<u8, A>, CoseError>
    ensures { MatchResult result
        (λ v. sig_structure (signature_text context) (protected_view body.now)
        (option_map (λ p. protected_view p.now) sign.entry) aad.now payload.now ≡ Some v.items)
        (λ e. CantWrite (sig_structure (signature_text context) (protected_view body.now)
        (option_map (λ p. protected_view p.now) sign.entry) aad.now payload.now) e) }
{
    let body = show(body)?;
    let signer = show_signer(sign)?;
    over_signer(alloc, context, &body, &signer, aad, payload)
}

/// The bytes that a tag covers, the MAC_structure (RFC 9052, section 6.3): the context, the
/// protected header, the external data and the payload. The payload is copied once, into the
/// result.
///
/// # Errors
/// `DuplicateMapKey` exactly when a label is repeated in a header that has to be encoded, or
/// `Memory`.
pub fn mac_structure_data(
    alloc: Global,
    context: MacContext,
    protected: &ProtectedHeader,
    aad: &[u8],
    payload: &[u8],
) -> Result<Vec<u8>, CoseError>
    ensures { MatchResult result
        (λ v. mac_structure (mac_text context) (protected_view protected.now) aad.now payload.now
        ≡ Some v.items)
        (λ e. CantWrite (mac_structure (mac_text context)
        (protected_view protected.now) aad.now payload.now) e) }
{
    mac_structure_in(alloc, context, protected, aad, payload)
}

/// As `mac_structure_data`, in memory of this allocator, of which it takes just the structure's
/// length, once.
pub fn mac_structure_in<A: Allocator>(
    alloc: A,
    context: MacContext,
    protected: &ProtectedHeader,
    aad: &[u8],
    payload: &[u8],
) -> Result<Vec<u8, A>, CoseError>
    ensures { MatchResult result
        (λ v. mac_structure (mac_text context) (protected_view protected.now) aad.now payload.now
        ≡ Some v.items)
        (λ e. CantWrite (mac_structure (mac_text context)
        (protected_view protected.now) aad.now payload.now) e) }
{
    let body = show(protected)?;
    covered(alloc, context.prefix(), &body, aad, payload)
}

/// The bytes that an encryption covers, the Enc_structure (RFC 9052, section 5.3): the context, the
/// protected header and the external data.
///
/// # Errors
/// `DuplicateMapKey` exactly when a label is repeated in a header that has to be encoded, or
/// `Memory`.
pub fn enc_structure_data(
    alloc: Global,
    context: EncryptionContext,
    protected: &ProtectedHeader,
    aad: &[u8],
) -> Result<Vec<u8>, CoseError>
    ensures { MatchResult result
        (λ v. encryption_structure (encryption_text context) (protected_view protected.now) aad.now
        ≡ Some v.items)
        (λ e. CantWrite (encryption_structure (encryption_text context)
        (protected_view protected.now) aad.now) e) }
{
    enc_structure_in(alloc, context, protected, aad)
}

/// As `enc_structure_data`, in memory of this allocator, of which it takes just the structure's
/// length, once.
pub fn enc_structure_in<A: Allocator>(
    alloc: A,
    context: EncryptionContext,
    protected: &ProtectedHeader,
    aad: &[u8],
) -> Result<Vec<u8, A>, CoseError>
    ensures { MatchResult result
        (λ v. encryption_structure (encryption_text context) (protected_view protected.now) aad.now
        ≡ Some v.items)
        (λ e. CantWrite (encryption_structure (encryption_text context)
        (protected_view protected.now) aad.now) e) }
{
    let body = show(protected)?;
    encrypted(alloc, context.prefix(), &body, aad)
}

/// The bytes that are shown for a protected header: those that were received, if it was. Only a
/// header with a field and without received bytes is encoded, in its own allocator's memory.
fn show(protected: &ProtectedHeader) -> Result<CowSlice<u8, Global>, CoseError>
    ensures shows { MatchResult result
        (λ b. shown (protected_view protected.now) ≡ Some (cow_slice_items b))
        (λ e. CantWrite (shown (protected_view protected.now)) e) }
    ensures lent { IfOk result
        (λ b. IsTrue (is_at_hand (protected_view protected.now)) → IsBorrowedSlice b) }
{
    match &protected.original_data {
        Some(bytes) => Ok(CowSlice::Borrowed(bytes)),
        None => {
            if protected.header.is_empty() {
                return Ok(CowSlice::Borrowed(&[]));
            }
            let alloc = *protected.header.rest.allocator();
            let copy = protected.clone(alloc)?;
            let made = show_protected(alloc, copy)?;
            Ok(CowSlice::Owned(made))
        }
    }
}

fn show_signer(signer: Option<&ProtectedHeader>) -> Result<Option<CowSlice<u8, Global>>, CoseError>
    ensures { MatchResult result
        (λ o. shown_signer (option_map (λ p. protected_view p.now) signer.entry)
        ≡ Some (option_map cow_slice_items o))
        (λ e. CantWrite (shown_signer (option_map (λ p. protected_view p.now) signer.entry)) e) }
{
    match signer {
        Some(signer) => {
            let bytes = show(signer)?;
            Ok(Some(bytes))
        }
        None => Ok(None),
    }
}

/// A Sig_structure with the signer's bytes if there is a signer.
fn over_signer<A: Allocator>(
    alloc: A,
    context: SignatureContext,
    body: &[u8],
    signer: &Option<CowSlice<u8, Global>>,
    aad: &[u8],
    payload: &[u8],
) -> Result<Vec<u8, A>, CoseError>
    ensures { MatchResult result
        (λ v. v.items
        ≡ structure (signature_text context) body.now (option_map cow_slice_items signer.now)
        aad.now payload.now) (λ e. e ≡ Memory) }
{
    match signer {
        None => covered(alloc, context.prefix(false), body, aad, payload),
        Some(signer) => signed(alloc, context.prefix(true), body, signer, aad, payload),
    }
}

/// A structure with a payload and without a signer, which begins so.
fn covered<'a, A: Allocator>(
    alloc: A,
    prefix: &[u8],
    body: &'a [u8],
    aad: &'a [u8],
    payload: &'a [u8],
) -> Result<Vec<u8, A>, CoseError>
    ensures { MatchResult result
        (λ v. v.items ≡ prefix.now ++ behind_prefix body.now None aad.now payload.now)
        (λ e. e ≡ Memory) }
{
    Ok(joined(alloc, prefix, &[body, aad, payload])?)
}

/// A structure with a payload and a signer, which begins so.
fn signed<'a, A: Allocator>(
    alloc: A,
    prefix: &[u8],
    body: &'a [u8],
    signer: &'a [u8],
    aad: &'a [u8],
    payload: &'a [u8],
) -> Result<Vec<u8, A>, CoseError>
    ensures { MatchResult result
        (λ v. v.items ≡ prefix.now ++ behind_prefix body.now (Some signer.now) aad.now payload.now)
        (λ e. e ≡ Memory) }
{
    Ok(joined(alloc, prefix, &[body, signer, aad, payload])?)
}

/// A structure without a payload, which begins so.
fn encrypted<'a, A: Allocator>(
    alloc: A,
    prefix: &[u8],
    body: &'a [u8],
    aad: &'a [u8],
) -> Result<Vec<u8, A>, CoseError>
    ensures { MatchResult result (λ v. v.items ≡ prefix.now ++ behind_enc_prefix body.now aad.now)
        (λ e. e ≡ Memory) }
{
    Ok(joined(alloc, prefix, &[body, aad])?)
}

/// A structure: how it begins, and byte strings, in one vector that was reserved with space for
/// just these.
fn joined<A: Allocator>(alloc: A, prefix: &[u8], parts: &[&[u8]]) -> Result<Vec<u8, A>, AllocError>
    ensures { IfOk result (λ v. v.items ≡ prefix.now ++ flat_map byte_string parts.now) }
{
    let mut out = with_room(alloc, prefix, parts)?;
    write(&mut out, prefix, parts);
    Ok(out)
}

/// An empty vector with space for just this structure.
fn with_room<A: Allocator>(
    alloc: A,
    prefix: &[u8],
    parts: &[&[u8]],
) -> Result<Vec<u8, A>, AllocError>
    ensures empty { IfOk result (λ v. v.items ≡ []) }
    ensures exact { IfOk result
        (λ v. vec_capacity v ≡ length (prefix.now ++ flat_map byte_string parts.now)) }
{
    let room = room(prefix, parts).ok_or(AllocError)?;
    Vec::with_capacity(alloc, room)
}

/// Appends a structure for which there is space, so that no memory is asked for.
fn write<A: Allocator>(out: &mut Vec<u8, A>, prefix: &[u8], parts: &[&[u8]])
    requires { vec_len out.old + length (prefix.now ++ flat_map byte_string parts.now)
        ≤ vec_capacity out.old }
    ensures { out.new.items ≡ out.old.items ++ (prefix.now ++ flat_map byte_string parts.now) }
{
    append(out, prefix);
    for part in parts {
        push_bytes(out, part);
    }
}

/// How long a structure is, if `usize` can hold it.
fn room(prefix: &[u8], parts: &[&[u8]]) -> Option<usize>
    ensures { MatchOption result (2 ^ 64 ≤ length (prefix.now ++ flat_map byte_string parts.now))
        (λ n. n ≡ length (prefix.now ++ flat_map byte_string parts.now)) }
{
    let mut room = prefix.len();
    for part in parts {
        let title = bytes_title(part.len()).as_slice().len();
        room = room.checked_add(title)?.checked_add(part.len())?;
    }
    Some(room)
}

/// Appends a byte string, its title and its bytes, for which there is space.
fn push_bytes<A: Allocator>(out: &mut Vec<u8, A>, bytes: &[u8])
    requires { vec_len out.old + length (enc (spec.bytes bytes.now)) ≤ vec_capacity out.old }
    ensures items { out.new.items ≡ out.old.items ++ enc (spec.bytes bytes.now) }
    ensures room { vec_capacity out.old ≤ vec_capacity out.new }
{
    append(out, bytes_title(bytes.len()).as_slice());
    append(out, bytes);
}

/// Appends bytes for which there is space, so that no memory is asked for.
fn append<A: Allocator>(out: &mut Vec<u8, A>, bytes: &[u8])
    requires { vec_len out.old + length bytes.now ≤ vec_capacity out.old }
    ensures items { out.new.items ≡ out.old.items ++ bytes.now }
    ensures room { vec_capacity out.old ≤ vec_capacity out.new }
{
    match out.extend_from_slice(bytes) {
        Ok(()) => {}
        Err(_) => unreachable!(),
    }
}
