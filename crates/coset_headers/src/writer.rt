//! Writes headers and signatures. They are moved into the values that stand for them.
ghost use Rattle.std.specs.Prelude.{◌≡◌, Some, MatchResult};
ghost use Rattle.ciborium_value.specs.Tree as spec;
ghost use Rattle.ciborium_value.specs.View.{view, views};
ghost use Rattle.coset_labels.specs.Faults.{CantWrite};
ghost use Rattle.coset_labels.specs.declared.error.CoseError.TheVariants.{Memory};
ghost use Rattle.coset_headers.specs.Fields.{plain_part};
ghost use Rattle.coset_headers.specs.Headers.{list_of_three};
ghost use Rattle.coset_headers.specs.View.{header_view, protected_view, signature_view};
ghost use Rattle.coset_headers.specs.View.{signatures_view};
ghost use Rattle.coset_headers.specs.Written.{header_of, header_tree, shown, signature_tree};
ghost use Rattle.coset_headers.specs.Written.{signature_trees, is_unsigned};

use crate::header::{CoseSignature, Header, ProtectedHeader};
use ciborium_value::Value;
use coset_labels::{CoseError, write_to_vec};
use std::alloc::Global;
use std::mem;

/// Whether there are no counter signatures.
pub(crate) fn is_unsigned(signatures: &[CoseSignature]) -> bool
    ensures { result ≡ is_unsigned (signatures_view signatures.now) }
{
    signatures.is_empty()
}

/// The map that stands for a header.
pub(crate) fn write_header(alloc: Global, header: Header) -> Result<Value, CoseError>
    ensures { MatchResult result (λ v. header_tree (header_view header) ≡ Some (view v))
        (λ e. CantWrite (header_tree (header_view header)) e) }
{
    let mut header = header;
    take_header(alloc, &mut header)
}

/// The map of a header, which is emptied. What a level of headers keeps on the stack is small.
#[cycle(writer)]
fn take_header(alloc: Global, header: &mut Header) -> Result<Value, CoseError>
    ensures { MatchResult result (λ v. header_tree (header_view header.old) ≡ Some (view v))
        (λ e. CantWrite (header_tree (header_view header.old)) e) }
{
    let signatures = take_signatures(alloc, &mut header.counter_signatures)?;
    take_parts(alloc, header, signatures)
}

/// The map of the other fields of a header, which is emptied, and of the values of its counter
/// signatures.
#[inline(never)]
fn take_parts(
    alloc: Global,
    header: &mut Header,
    signatures: Vec<Value>,
) -> Result<Value, CoseError>
    ensures { MatchResult result (λ v. header_of (plain_part (header_view header.old))
        (views signatures.items) ≡ Some (view v))
        (λ e. CantWrite (header_of (plain_part (header_view header.old)) (views signatures.items))
        e) }
{
    mem::replace(header, Header::new(alloc)).write(alloc, signatures)
}

/// The values of signatures, which are emptied.
#[cycle(writer)]
fn take_signatures(
    alloc: Global,
    signatures: &mut Vec<CoseSignature>,
) -> Result<Vec<Value>, CoseError>
    ensures { MatchResult result
        (λ v. signature_trees (signatures_view signatures.old.items) ≡ Some (views v.items))
        (λ e. CantWrite (signature_trees (signatures_view signatures.old.items)) e) }
{
    let mut values = Vec::with_capacity(alloc, signatures.len())?;
    'signatures: for signature in signatures.iter_mut() {
        let value = take_signature(alloc, signature)?;
        values.push(value)?;
    }
    Ok(values)
}

/// The array that stands for a signature.
pub(crate) fn write_signature(alloc: Global, signature: CoseSignature) -> Result<Value, CoseError>
    ensures { MatchResult result (λ v. signature_tree (signature_view signature) ≡ Some (view v))
        (λ e. CantWrite (signature_tree (signature_view signature)) e) }
{
    let mut signature = signature;
    take_signature(alloc, &mut signature)
}

/// The array of a signature, which is emptied.
#[cycle(writer)]
fn take_signature(alloc: Global, signature: &mut CoseSignature) -> Result<Value, CoseError>
    ensures { MatchResult result
        (λ v. signature_tree (signature_view signature.old) ≡ Some (view v))
        (λ e. CantWrite (signature_tree (signature_view signature.old)) e) }
{
    let protected = take_protected(alloc, &mut signature.protected)?;
    let unprotected = take_header(alloc, &mut signature.unprotected)?;
    let content = mem::replace(&mut signature.signature, Vec::new(alloc));
    three_items(alloc, protected, unprotected, content)
}

fn three_items(
    alloc: Global,
    protected: Vec<u8>,
    unprotected: Value,
    signature: Vec<u8>,
) -> Result<Value, CoseError>
    ensures { MatchResult result
        (λ v. view v ≡ spec.array (list_of_three (spec.bytes protected.items) (view unprotected)
        (spec.bytes signature.items))) (λ e. e ≡ Memory) }
{
    let mut items = Vec::new(alloc);
    items.push(Value::Bytes(protected))?;
    items.push(unprotected)?;
    items.push(Value::Bytes(signature))?;
    Ok(Value::Array(items))
}

/// The bytes that are shown for a protected header: those that were received; else none for an
/// empty header, and the encoded map for another (RFC 9052, section 3).
///
/// # Errors
/// `DuplicateMapKey` exactly when a label is repeated in a header that has to be encoded, or
/// `Memory`.
pub fn show_protected(alloc: Global, protected: ProtectedHeader) -> Result<Vec<u8>, CoseError>
    ensures { MatchResult result (λ b. shown (protected_view protected) ≡ Some b.items)
        (λ e. CantWrite (shown (protected_view protected)) e) }
{
    let mut protected = protected;
    take_protected(alloc, &mut protected)
}

/// The bytes that are shown for a protected header, which is emptied.
#[cycle(writer)]
fn take_protected(alloc: Global, protected: &mut ProtectedHeader) -> Result<Vec<u8>, CoseError>
    ensures { MatchResult result (λ b. shown (protected_view protected.old) ≡ Some b.items)
        (λ e. CantWrite (shown (protected_view protected.old)) e) }
{
    match mem::replace(&mut protected.original_data, None) {
        Some(bytes) => Ok(bytes),
        None => {
            if protected.header.is_empty() {
                return Ok(Vec::new(alloc));
            }
            let value = take_header(alloc, &mut protected.header)?;
            write_to_vec(alloc, &value)
        }
    }
}
