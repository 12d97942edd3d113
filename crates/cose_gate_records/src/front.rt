//! What a question is about, as its key shows it.
ghost use Rattle.std.specs.Prelude.{◌≡◌, ◌++◌, IfOk, OnOk};
ghost use Rattle.coset_headers.specs.View.{header_view};
ghost use Rattle.coset_recipients.specs.View.{recipients_view};
ghost use Rattle.cose_gate_core.specs.Lent.{signer_of, subject_of};
ghost use Rattle.cose_gate_records.specs.Framing.{framed};
ghost use Rattle.cose_gate_records.specs.Records as spec;

use crate::framing::{append, eight};
use cose_gate_core::{About, Header, ProtectedHeader, received};
use coset_labels::{CborSerializable, write_to_vec};
use coset_recipients::{CoseRecipient, clone_recipients, write_recipients};
use std::alloc::{AllocError, Global};

/// The encoded map of a header.
fn header_text(alloc: Global, header: &Header) -> Result<Vec<u8>, AllocError>
    ensures { IfOk result (λ text. text.items ≡ spec.header_text (header_view header.now)) }
{
    let copy = header.clone(alloc)?;
    match copy.to_vec(alloc) {
        Ok(text) => Ok(text),
        Err(_) => Err(AllocError),
    }
}

/// The encoded array of recipients.
fn recipients_text(alloc: Global, recipients: &[CoseRecipient]) -> Result<Vec<u8>, AllocError>
    ensures { IfOk result (λ text. text.items
        ≡ spec.recipients_text (recipients_view recipients.now)) }
{
    let copies = clone_recipients(alloc, recipients)?;
    let Ok(value) = write_recipients(alloc, copies) else {
        return Err(AllocError);
    };
    match write_to_vec(alloc, &value) {
        Ok(text) => Ok(text),
        Err(_) => Err(AllocError),
    }
}

/// Appends the headers of a signer, if there is one.
fn append_signer(
    alloc: Global,
    text: &mut Vec<u8>,
    signer: Option<(&ProtectedHeader, &Header)>,
) -> Result<(), AllocError>
    ensures { OnOk result («text».new.items ≡ «text».old.items
        ++ (framed (spec.signer_protected (signer_of signer.entry))
        ++ framed (spec.signer_unprotected (signer_of signer.entry)))) }
{
    match signer {
        Some((protected, unprotected)) => {
            append(text, received(protected))?;
            append(text, &header_text(alloc, unprotected)?)
        }
        None => {
            append(text, &[])?;
            append(text, &[])
        }
    }
}

/// The front of the key: all that is in it before the covered bytes.
pub(crate) fn front_of(alloc: Global, about: &About) -> Result<Vec<u8>, AllocError>
    ensures { IfOk result (λ front. front.items ≡ spec.front_of (subject_of about.now)) }
{
    let mut front = Vec::new(alloc);
    front.extend_from_slice(&eight(about.kind.tag() as usize))?;
    append(&mut front, received(about.protected))?;
    append(&mut front, &header_text(alloc, about.unprotected)?)?;
    append_signer(alloc, &mut front, about.signer)?;
    append(&mut front, &recipients_text(alloc, about.recipients)?)?;
    Ok(front)
}
