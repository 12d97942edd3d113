//! The parts that each message and each recipient begins with.
ghost use Rattle.std.specs.Prelude.{◌≡◌, [], ◌∷◌, None, MatchResult, OnErr, map, option_map};
ghost use Rattle.ciborium.specs.Fronts.{TakesFour};
ghost use Rattle.ciborium.specs.Reading.{Steady};
ghost use Rattle.ciborium_ll.specs.Views.{seen, waiting_of};
ghost use Rattle.ciborium_value.specs.Tree.{Trees, array, bytes};
ghost use Rattle.ciborium_value.specs.View.{view};
ghost use Rattle.coset_headers.specs.Fields.{protected, no_header};
ghost use Rattle.coset_headers.specs.View.{header_view, protected_view};
ghost use Rattle.coset_headers.specs.declared.header.Header.{Header};
ghost use Rattle.coset_labels.specs.Faults.{OrMemory};
ghost use Rattle.coset_labels.specs.Limits.{nesting_of, layers_of};
ghost use Rattle.coset_recipients.specs.PartsFields.{no_parts};
ghost use Rattle.coset_recipients.specs.Results.{Writes};
ghost use Rattle.coset_recipients.specs.Elements.{AreElements};
ghost use Rattle.coset_recipients.specs.PartShapes.{HasParts, HasWhole};
ghost use Rattle.coset_recipients.specs.PartsView.{parts_in, parts_view};
ghost use Rattle.coset_recipients.specs.WrongParts.{WrongParts, WrongWhole, IsNoBytes};
ghost use Rattle.coset_recipients.specs.PartsWritten.{optional_tree, parts_trees, content_bytes};

use ciborium::{Decoder, Read, Spare, de, read_next};
use ciborium_value::Value;
use coset_headers::{Header, ProtectedHeader};
use coset_labels::{AsCborValue, CoseError, Limits, ValueTryAs};
use std::alloc::Global;

/// The headers of a message or a recipient, and what it carries: a payload or a ciphertext, or
/// nothing.
#[derive(Debug, PartialEq, Eq, Drop)]
pub struct Parts {
    /// The protected header.
    pub protected: ProtectedHeader,
    /// The unprotected header.
    pub unprotected: Header,
    /// What is carried; `None` if it is carried elsewhere.
    pub content: Option<Vec<u8>>,
}

/// The values of the parts, as they stand in a message or a recipient.
#[derive(Drop)]
pub struct PartValues {
    /// That of the protected header.
    pub protected: Value,
    /// That of the unprotected header.
    pub unprotected: Value,
    /// That of what is carried.
    pub content: Value,
}

impl PartValues {
    /// Reads the three parts from the last to the first, within these limits. `want` names what the
    /// content should have been, for the text of its error. No byte string is copied.
    ///
    /// # Errors
    /// A fault that one of the parts has, or `Memory`.
    pub fn read(self, alloc: Global, limits: Limits, want: &'static str) -> Result<Parts, CoseError>
        ensures { MatchResult result
            (λ p. HasParts (nesting_of limits) (view self.protected) (view self.unprotected)
            (view self.content) (parts_view p) (layers_of limits))
            (λ e. OrMemory
            (WrongParts (nesting_of limits) (view self.protected) (view self.unprotected)
            (view self.content) (layers_of limits)) e) }
    {
        let mut parts = Parts {
            protected: ProtectedHeader::new(alloc),
            unprotected: Header::new(alloc),
            content: None,
        };
        self.fill(
            alloc,
            limits,
            want,
            &mut parts.protected,
            &mut parts.unprotected,
            &mut parts.content,
        )?;
        Ok(parts)
    }

    /// Reads the three parts into their places, which are empty, as `read` does. After an error
    /// they are empty again.
    ///
    /// # Errors
    /// Those of `read`.
    pub fn fill(
        self,
        alloc: Global,
        limits: Limits,
        want: &'static str,
        protected: &mut ProtectedHeader,
        unprotected: &mut Header,
        content: &mut Option<Vec<u8>>,
    ) -> Result<(), CoseError>
        requires empty { parts_in protected.old unprotected.old content.old ≡ no_parts }
        ensures read { MatchResult result
            (λ _. HasParts (nesting_of limits) (view self.protected) (view self.unprotected)
            (view self.content) (parts_in protected.new unprotected.new content.new)
            (layers_of limits))
            (λ e. OrMemory
            (WrongParts (nesting_of limits) (view self.protected) (view self.unprotected)
            (view self.content) (layers_of limits)) e) }
        ensures err { OnErr result
            (parts_in protected.new unprotected.new content.new ≡ no_parts) }
    {
        let carried = self.content.try_as_bytes_or_nil(want)?;
        unprotected.fill(alloc, self.unprotected, limits)?;
        if let Err(error) = protected.fill_bstr(alloc, self.protected, limits) {
            *unprotected = Header::new(alloc);
            return Err(error);
        }
        *content = carried;
        Ok(())
    }
}

/// The four elements of a message, of which the unprotected header was read already.
#[derive(Drop)]
pub struct Elements {
    protected: Value,
    unprotected: Result<(), CoseError>,
    content: Value,
    last: Value,
}

impl Elements {
    /// Takes the next four items, each of at most `limit` levels, and reads the second as a header
    /// into one that has no field. No header may wait in the decoder.
    ///
    /// # Errors
    /// Those of reading the items. A fault of the header is kept.
    pub fn take<R: Read>(
        alloc: Global,
        decoder: &mut Decoder<R>,
        limit: usize,
        limits: Limits,
        unprotected: &mut Header,
        spare: &mut Spare,
    ) -> Result<Elements, de::Error<R::Error>>
        requires fresh { waiting_of decoder.old ≡ None }
        requires empty { header_view unprotected.old ≡ no_header }
        ensures read { TakesFour R.ends limit
            (AreElements (nesting_of limits) (layers_of limits) unprotected.new) result
            (seen R.Read decoder.old) (seen R.Read decoder.new) }
        ensures steady { Steady R.ends result (seen R.Read decoder.old) (seen R.Read decoder.new) }
    {
        let protected = read_next(alloc, decoder, limit, spare)?;
        let read = unprotected.walk(alloc, decoder, limit, limits, spare)?;
        let content = read_next(alloc, decoder, limit, spare)?;
        let last = read_next(alloc, decoder, limit, spare)?;
        Ok(Elements {
            protected,
            unprotected: read,
            content,
            last,
        })
    }

    /// Reads the other elements, from the last to the first, into their places, which are empty.
    /// `want` names what the content should have been, for the text of its error. After an error
    /// they may have any fields.
    ///
    /// # Errors
    /// A fault that one of the elements has, or `Memory`.
    pub fn fill(
        self,
        alloc: Global,
        limits: Limits,
        want: &'static str,
        header: &mut ProtectedHeader,
        content: &mut Option<Vec<u8>>,
    ) -> Result<Vec<u8>, CoseError>
        requires empty { protected_view header.old ≡ protected None no_header }
        ensures { (h : Header) (ts : Trees)
            → AreElements (nesting_of limits) (layers_of limits) h self ts
            → MatchResult result (λ last. HasWhole (nesting_of limits) (array ts)
            (parts_in header.new h content.new) ((λ d. d ≡ bytes last.items) ∷ [])
            (layers_of limits))
            (λ e. OrMemory (WrongWhole (nesting_of limits) (array ts) (IsNoBytes ∷ [])
            (layers_of limits)) e) }
    {
        let last = self.last.try_as_bytes()?;
        let bytes = self.content.try_as_bytes_or_nil(want)?;
        self.unprotected?;
        header.fill_bstr(alloc, self.protected, limits)?;
        *content = bytes;
        Ok(last)
    }
}

/// The values of the three parts, in their order.
///
/// # Errors
/// `DuplicateMapKey` exactly when a label is repeated in a header that has to be encoded, or
/// `Memory`.
pub fn write_parts(alloc: Global, parts: Parts) -> Result<Vec<Value>, CoseError>
    ensures { Writes (parts_trees (parts_view parts)) (λ v. map view v.items) result }
{
    let Parts {
        protected,
        unprotected,
        content,
    } = parts;
    let protected = protected.cbor_bstr(alloc)?;
    let unprotected = unprotected.to_cbor_value(alloc)?;
    let mut values = Vec::new(alloc);
    values.push(protected)?;
    values.push(unprotected)?;
    values.push(optional_value(content))?;
    Ok(values)
}

/// The value of bytes, or null if there are none.
pub fn optional_value(bytes: Option<Vec<u8>>) -> Value
    ensures { view result ≡ optional_tree (option_map (λ v. v.items) bytes) }
{
    match bytes {
        Some(bytes) => Value::Bytes(bytes),
        None => Value::Null,
    }
}

/// What is carried; empty if it is carried elsewhere.
pub fn content_bytes(content: &Option<Vec<u8>>) -> &[u8]
    ensures { result.now ≡ content_bytes (option_map (λ v. v.items) content.now) }
{
    match content {
        Some(content) => content.as_slice(),
        None => &[],
    }
}
