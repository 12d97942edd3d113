//! The titles of a message, one after another.
ghost use Rattle.std.specs.Prelude.{◌≡◌, ◌≢◌, ◌≤◌, ℕ, Option, IfOk, IfErr, OnOk, MatchOption, None};
ghost use Rattle.std.specs.Prelude.{Some, length};
ghost use Rattle.ciborium_ll.specs.Seen.{Takes};
ghost use Rattle.ciborium_ll.specs.Title.{Title, title_of};
ghost use Rattle.ciborium_ll.specs.Views.{offset_of, waiting_of, seen};
ghost use Rattle.ciborium_ll.specs.declared.hdr.Header.TheVariants.{Tag, Bytes, Array};
ghost use Rattle.cose_gate.specs.ElementFaults.{TitleFault, TagFault, FourFault, SizeFault};
ghost use Rattle.cose_gate.specs.ElementFaults.{CloseFault, IsPayload, IsUnexpected};
ghost use Rattle.cose_gate.specs.Forms.{tag_number};
ghost use Rattle.cose_gate.specs.Stated.{IsFour, closing};
ghost use Rattle.cose_gate.specs.StreamFaults.{IsFarFor, NamesWhy, Steady};

use crate::fault::{StreamFault, not_four, other_kind};
use crate::form::{Form, form_of};
use ciborium_ll::{Decoder, Header, Read, simple};

/// The next title.
pub fn next_head<R: Read>(decoder: &mut Decoder<R>) -> Result<Header, StreamFault<R::Error>>
    ensures ok { IfOk result (λ h. Takes (seen R.Read decoder.old) (seen R.Read decoder.new)
        (λ b. Title b h)) }
    ensures within { IfOk result (λ h. length (title_of h) ≤ offset_of decoder.new) }
    ensures err { IfErr result (NamesWhy R.ends TitleFault 0 (seen R.Read decoder.old)) }
    ensures far { IfErr result (IsFarFor 0 (offset_of decoder.new)) }
    ensures steady { Steady R.ends result (seen R.Read decoder.old) (seen R.Read decoder.new) }
{
    let header = decoder.pull()?;
    Ok(header)
}

/// Takes the tag of a message, and says which message it is of.
pub fn message_tag<R: Read>(decoder: &mut Decoder<R>) -> Result<Form, StreamFault<R::Error>>
    ensures ok { IfOk result (λ form. Takes (seen R.Read decoder.old) (seen R.Read decoder.new)
        (λ b. Title b (Tag (tag_number form)))) }
    ensures err { IfErr result (NamesWhy R.ends TagFault 0 (seen R.Read decoder.old)) }
    ensures far { IfErr result (IsFarFor 0 (offset_of decoder.new)) }
    ensures steady { Steady R.ends result (seen R.Read decoder.old) (seen R.Read decoder.new) }
{
    let header = next_head(decoder)?;
    let Some(number) = header.as_tag() else {
        return Err(StreamFault::NotTagged);
    };
    match form_of(number) {
        Some(form) => Ok(form),
        None => Err(StreamFault::OtherTag(number)),
    }
}

/// The length of an array of four elements: stated, or open.
fn array_of_four(header: Header) -> Option<Option<usize>>
    ensures { MatchOption result ((o : Option ℕ) → IsFour o → header ≢ Array o)
        (λ o. (header ≡ Array o) × IsFour o) }
{
    match header {
        Header::Array(Some(4)) => Some(Some(4)),
        Header::Array(None) => Some(None),
        _ => None,
    }
}

/// The fault of a title that doesn't begin an array of four elements.
fn no_array<E>(header: Header) -> StreamFault<E>
    ensures { IsUnexpected result }
{
    match header {
        Header::Array(_) => not_four(),
        _ => other_kind(header, "array"),
    }
}

/// The title of an array of four elements, by its length: stated, or open.
pub fn four<R: Read>(decoder: &mut Decoder<R>) -> Result<Option<usize>, StreamFault<R::Error>>
    ensures ok { IfOk result (λ o. Takes (seen R.Read decoder.old) (seen R.Read decoder.new)
        (λ b. Title b (Array o))) }
    ensures is { IfOk result IsFour }
    ensures err { IfErr result (NamesWhy R.ends FourFault 0 (seen R.Read decoder.old)) }
    ensures far { IfErr result (IsFarFor 0 (offset_of decoder.new)) }
    ensures steady { Steady R.ends result (seen R.Read decoder.old) (seen R.Read decoder.new) }
{
    let header = next_head(decoder)?;
    match array_of_four(header) {
        Some(count) => Ok(count),
        None => Err(no_array(header)),
    }
}

/// What the title in the payload's place says.
pub enum Payload {
    /// A byte string of that length.
    Sized(usize),
    /// An open byte string.
    Open,
    /// Null, or undefined.
    Absent,
    /// Another item.
    Other,
}

fn payload_of(header: Header) -> Payload
    ensures { IsPayload header result }
{
    match header {
        Header::Bytes(Some(size)) => Payload::Sized(size),
        Header::Bytes(None) => Payload::Open,
        Header::Simple(simple::NULL | simple::UNDEFINED) => Payload::Absent,
        _ => Payload::Other,
    }
}

/// The fault of a title that doesn't begin a payload, by what was expected.
fn no_payload<E>(header: Header, want: &'static str) -> StreamFault<E>
    ensures { IsUnexpected result }
{
    match header {
        Header::Break => not_four(),
        _ => other_kind(header, want),
    }
}

/// The length of the payload of such a message, from its title.
pub fn payload_size<R: Read>(
    decoder: &mut Decoder<R>,
    form: Form,
) -> Result<usize, StreamFault<R::Error>>
    ensures ok { IfOk result (λ n. Takes (seen R.Read decoder.old) (seen R.Read decoder.new)
        (λ b. Title b (Bytes (Some n)))) }
    ensures err { IfErr result (NamesWhy R.ends SizeFault 0 (seen R.Read decoder.old)) }
    ensures far { IfErr result (IsFarFor 0 (offset_of decoder.new)) }
    ensures steady { Steady R.ends result (seen R.Read decoder.old) (seen R.Read decoder.new) }
{
    let header = next_head(decoder)?;
    match payload_of(header) {
        Payload::Sized(size) => Ok(size),
        Payload::Open => Err(StreamFault::Unsized),
        Payload::Absent => Err(StreamFault::Detached),
        Payload::Other => Err(no_payload(header, form.payload())),
    }
}

/// The end of an array whose title states that length, or is open.
pub fn close<R: Read>(
    decoder: &mut Decoder<R>,
    count: Option<usize>,
) -> Result<(), StreamFault<R::Error>>
    requires fresh { waiting_of decoder.old ≡ None }
    ensures ok { OnOk result (Takes (seen R.Read decoder.old) (seen R.Read decoder.new)
        (λ b. b ≡ closing count)) }
    ensures open { IfErr result (λ f. count ≡ None) }
    ensures err { IfErr result (NamesWhy R.ends CloseFault 0 (seen R.Read decoder.old)) }
    ensures far { IfErr result (IsFarFor 0 (offset_of decoder.new)) }
    ensures steady { Steady R.ends result (seen R.Read decoder.old) (seen R.Read decoder.new) }
{
    if count.is_some() {
        return Ok(());
    }
    let header = next_head(decoder)?;
    if !header.is_break() {
        return Err(not_four());
    }
    Ok(())
}
