//! The elements of a message that are read as values.
ghost use Rattle.std.specs.Prelude.{◌≢◌, ◌-◌, IfOk, IfErr, None};
ghost use Rattle.ciborium_ll.specs.Seen.{Takes};
ghost use Rattle.ciborium_ll.specs.Views.{offset_of, seen};
ghost use Rattle.ciborium_value.specs.Tree as spec;
ghost use Rattle.ciborium_value.specs.View.{view};
ghost use Rattle.ciborium.specs.Front.{Reads};
ghost use Rattle.coset_labels.specs.Limits.{nesting_of, layers_of};
ghost use Rattle.coset_headers.specs.Headers.{HasProtected, HasHeader};
ghost use Rattle.coset_headers.specs.View.{header_view, protected_view};
ghost use Rattle.coset_headers.specs.Wrong.{WrongProtected, WrongHeader};
ghost use Rattle.cose_gate.specs.ElementFaults.{PartFault, IsPart, WrongPart, NoneWrong};
ghost use Rattle.cose_gate.specs.ElementFaults.{NoBytes};
ghost use Rattle.cose_gate.specs.Forms.{received_of};
ghost use Rattle.cose_gate.specs.StreamFaults.{IsFarFor, NamesWhy, Steady};

use crate::fault::{StreamFault, not_four};
use crate::titles::next_head;
use ciborium::{Value, de};
use ciborium_ll::laws::header_fits;
use ciborium_ll::{Decoder, Read};
use cose_gate_core::{Header, Limits, ProtectedHeader};
use coset_labels::ValueTryAs;
use std::alloc::Global;

/// The levels that are open around an element: the tag and the array.
const OPEN: usize = 2;

/// The next element of the array, as a value. Its title is pulled and pushed back, so that a break
/// in its place is a fault of shape.
fn part<R: Read>(
    alloc: Global,
    limits: Limits,
    decoder: &mut Decoder<R>,
) -> Result<Value, StreamFault<R::Error>>
    ensures ok { IfOk result (λ v. Takes (seen R.Read decoder.old) (seen R.Read decoder.new)
        (λ b. Reads b (nesting_of limits - 2) (view v))) }
    ensures err { IfErr result (NamesWhy R.ends (PartFault (nesting_of limits - 2) NoneWrong) 0
        (seen R.Read decoder.old)) }
    ensures far { IfErr result (IsFarFor 0 (offset_of decoder.new)) }
    ensures steady { Steady R.ends result (seen R.Read decoder.old) (seen R.Read decoder.new) }
{
    let header = next_head(decoder)?;
    if header.is_break() {
        return Err(not_four());
    }
    header_fits(header);
    decoder.push(header);
    let value = de::from_decoder(alloc, decoder, limits.nesting() - OPEN)?;
    Ok(value)
}

/// The protected header.
pub fn protected_part<R: Read>(
    alloc: Global,
    limits: Limits,
    decoder: &mut Decoder<R>,
) -> Result<ProtectedHeader, StreamFault<R::Error>>
    ensures ok { IfOk result (λ p. Takes (seen R.Read decoder.old) (seen R.Read decoder.new)
        (IsPart (nesting_of limits - 2)
        (λ v. HasProtected (nesting_of limits) v (protected_view p) (layers_of limits)))) }
    ensures received { IfOk result (λ p. received_of (protected_view p) ≢ None) }
    ensures err { IfErr result (NamesWhy R.ends (PartFault (nesting_of limits - 2)
        (WrongPart (λ v e. WrongProtected (nesting_of limits) v (layers_of limits) e))) 0
        (seen R.Read decoder.old)) }
    ensures far { IfErr result (IsFarFor 0 (offset_of decoder.new)) }
    ensures steady { Steady R.ends result (seen R.Read decoder.old) (seen R.Read decoder.new) }
{
    let value = part(alloc, limits, decoder)?;
    let protected = ProtectedHeader::from_cbor_bstr_with(alloc, value, limits)?;
    Ok(protected)
}

/// The unprotected header.
pub fn unprotected_part<R: Read>(
    alloc: Global,
    limits: Limits,
    decoder: &mut Decoder<R>,
) -> Result<Header, StreamFault<R::Error>>
    ensures ok { IfOk result (λ h. Takes (seen R.Read decoder.old) (seen R.Read decoder.new)
        (IsPart (nesting_of limits - 2)
        (λ v. HasHeader (nesting_of limits) v (header_view h) (layers_of limits)))) }
    ensures err { IfErr result (NamesWhy R.ends (PartFault (nesting_of limits - 2)
        (WrongPart (λ v e. WrongHeader (nesting_of limits) v (layers_of limits) e))) 0
        (seen R.Read decoder.old)) }
    ensures far { IfErr result (IsFarFor 0 (offset_of decoder.new)) }
    ensures steady { Steady R.ends result (seen R.Read decoder.old) (seen R.Read decoder.new) }
{
    let value = part(alloc, limits, decoder)?;
    let header = Header::from_cbor_value_with(alloc, value, limits)?;
    Ok(header)
}

/// The signature or tag.
pub fn signature_part<R: Read>(
    alloc: Global,
    limits: Limits,
    decoder: &mut Decoder<R>,
) -> Result<Vec<u8>, StreamFault<R::Error>>
    ensures ok { IfOk result (λ s. Takes (seen R.Read decoder.old) (seen R.Read decoder.new)
        (λ b. Reads b (nesting_of limits - 2) (spec.bytes s.items))) }
    ensures err { IfErr result (NamesWhy R.ends (PartFault (nesting_of limits - 2) NoBytes) 0
        (seen R.Read decoder.old)) }
    ensures far { IfErr result (IsFarFor 0 (offset_of decoder.new)) }
    ensures steady { Steady R.ends result (seen R.Read decoder.old) (seen R.Read decoder.new) }
{
    let value = part(alloc, limits, decoder)?;
    let bytes = value.try_as_bytes()?;
    Ok(bytes)
}
