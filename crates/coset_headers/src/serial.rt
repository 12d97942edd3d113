//! Headers and signatures as values and bytes.
ghost use Rattle.std.specs.Prelude.{◌≡◌, [], Some, None, MatchResult, OnErr};
ghost use Rattle.std.specs.Prelude.{option_map};
ghost use Rattle.ciborium.specs.Fronts.{TakesItem};
ghost use Rattle.ciborium.specs.Reading.{Steady};
ghost use Rattle.ciborium_ll.specs.Views.{seen, waiting_of};
ghost use Rattle.ciborium_value.specs.Tree as spec;
ghost use Rattle.ciborium_value.specs.View.{view};
ghost use Rattle.coset_labels.specs.Faults.{OrMemory, CantWrite};
ghost use Rattle.coset_labels.specs.Limits.{nesting, layers, nesting_of, layers_of};
ghost use Rattle.coset_headers.specs.Unsent.{HasUnsent, unsent_tree, is_unset};
ghost use Rattle.coset_headers.specs.Fields.{HeaderFields, ProtectedFields, SignatureFields};
ghost use Rattle.coset_headers.specs.Fields.{protected, signature, no_header};
ghost use Rattle.coset_headers.specs.Headers.{HasHeader, HasProtected, HasSignature};
ghost use Rattle.coset_headers.specs.View.{header_view, protected_view, signature_view};
ghost use Rattle.coset_headers.specs.Walks.{IsHeader};
ghost use Rattle.coset_headers.specs.Written.{header_tree, signature_tree, shown};
ghost use Rattle.coset_headers.specs.Wrong.{WrongHeader, WrongProtected, WrongSignature};

use crate::header::{CoseSignature, Header, ProtectedHeader};
use crate::reader::{
    fill_header, fill_protected, read_header, read_protected, read_signature, walk_header,
};
use crate::writer::{show_protected, write_header, write_signature};
use ciborium::{Decoder, Read, Spare, de};
use ciborium_value::Value;
use coset_labels::{AsCborValue, CborSerializable, CoseError, Limits};
use std::alloc::Global;

impl Header {
    /// As `from_cbor_value`, within these limits.
    ///
    /// # Errors
    /// A fault that the value has, or `Memory`.
    pub fn from_cbor_value_with(
        alloc: Global,
        value: Value,
        limits: Limits,
    ) -> Result<Header, CoseError>
        ensures { MatchResult result
            (λ h. HasHeader (nesting_of limits) (view value) (header_view h) (layers_of limits))
            (λ e. OrMemory (WrongHeader (nesting_of limits) (view value) (layers_of limits)) e) }
    {
        read_header(alloc, value, limits.nesting(), limits.layers())
    }

    /// Reads the next item as a header into this one, which has no field, within these limits. In
    /// its map at most `limit` levels may open, itself among them. No header may wait in the
    /// decoder. After an error this one may have any fields.
    ///
    /// # Errors
    /// Outside those of reading the item, and inside a fault that the item has as a header, or
    /// `Memory`: it was taken then.
    pub fn walk<R: Read>(
        &mut self,
        alloc: Global,
        decoder: &mut Decoder<R>,
        limit: usize,
        limits: Limits,
        spare: &mut Spare,
    ) -> Result<Result<(), CoseError>, de::Error<R::Error>>
        requires fresh { waiting_of decoder.old ≡ None }
        requires empty { header_view self.old ≡ no_header }
        ensures read { TakesItem R.ends limit
            (λ r t. IsHeader (nesting_of limits) (layers_of limits) t self.new r) result
            (seen R.Read decoder.old) (seen R.Read decoder.new) }
        ensures steady { Steady R.ends result (seen R.Read decoder.old) (seen R.Read decoder.new) }
    {
        walk_header(
            alloc,
            decoder,
            limit,
            limits.nesting(),
            limits.layers(),
            self,
            spare,
        )
    }

    /// Reads a header into this one, which has no field, within these limits. After an error it has
    /// none again.
    ///
    /// # Errors
    /// A fault that the value has, or `Memory`.
    pub fn fill(&mut self, alloc: Global, value: Value, limits: Limits) -> Result<(), CoseError>
        requires empty { header_view self.old ≡ no_header }
        ensures read { MatchResult result
            (λ _. HasHeader (nesting_of limits) (view value) (header_view self.new)
            (layers_of limits))
            (λ e. OrMemory (WrongHeader (nesting_of limits) (view value) (layers_of limits)) e) }
        ensures err { OnErr result (header_view self.new ≡ no_header) }
    {
        let filled = fill_header(alloc, value, limits.nesting(), limits.layers(), self);
        if filled.is_err() {
            *self = Header::new(alloc);
        }
        filled
    }
}

/// A header is read from its map, its entries in their order: of each first its label, then whether
/// it was there before, its value, and IV against partial IV.
impl AsCborValue for Header {
    ghost Fields = { HeaderFields };

    ghost fields = { header_view };

    ghost shape = { λ t h. HasHeader nesting t h layers };

    ghost wrong = { λ t e. WrongHeader nesting t layers e };

    ghost written = { header_tree };

    fn from_cbor_value(alloc: Global, value: Value) -> Result<Header, CoseError> {
        Header::from_cbor_value_with(alloc, value, Limits::default())
    }

    fn to_cbor_value(self, alloc: Global) -> Result<Value, CoseError> {
        write_header(alloc, self)
    }
}

impl CborSerializable for Header {}

/// As a header map, without received bytes.
impl AsCborValue for ProtectedHeader {
    ghost Fields = { ProtectedFields };

    ghost fields = { protected_view };

    ghost shape = { λ t p. HasUnsent nesting t p layers };

    ghost wrong = { λ t e. WrongHeader nesting t layers e };

    ghost written = { unsent_tree };

    fn from_cbor_value(alloc: Global, value: Value) -> Result<ProtectedHeader, CoseError> {
        let header = Header::from_cbor_value(alloc, value)?;
        Ok(ProtectedHeader {
            original_data: None,
            header,
        })
    }

    fn to_cbor_value(self, alloc: Global) -> Result<Value, CoseError> {
        let ProtectedHeader {
            original_data: _,
            header,
        } = self;
        write_header(alloc, header)
    }
}

impl CborSerializable for ProtectedHeader {}

/// The elements are read from the last to the first.
impl AsCborValue for CoseSignature {
    ghost Fields = { SignatureFields };

    ghost fields = { signature_view };

    ghost shape = { λ t s. HasSignature nesting t s layers };

    ghost wrong = { λ t e. WrongSignature nesting t layers e };

    ghost written = { signature_tree };

    fn from_cbor_value(alloc: Global, value: Value) -> Result<CoseSignature, CoseError> {
        CoseSignature::from_cbor_value_with(alloc, value, Limits::default())
    }

    fn to_cbor_value(self, alloc: Global) -> Result<Value, CoseError> {
        write_signature(alloc, self)
    }
}

impl CborSerializable for CoseSignature {}

impl CoseSignature {
    /// A signature with no field. It takes no memory.
    pub fn new(alloc: Global) -> CoseSignature
        ensures { signature_view result ≡ signature (protected None no_header) no_header [] }
    {
        CoseSignature {
            protected: ProtectedHeader::new(alloc),
            unprotected: Header::new(alloc),
            signature: Vec::new(alloc),
        }
    }

    /// As `from_cbor_value`, within these limits.
    ///
    /// # Errors
    /// A fault that the value has, or `Memory`.
    pub fn from_cbor_value_with(
        alloc: Global,
        value: Value,
        limits: Limits,
    ) -> Result<CoseSignature, CoseError>
        ensures { MatchResult result
            (λ s. HasSignature (nesting_of limits) (view value) (signature_view s)
            (layers_of limits))
            (λ e. OrMemory (WrongSignature (nesting_of limits) (view value) (layers_of limits)) e) }
    {
        read_signature(alloc, value, limits.nesting(), limits.layers())
    }
}

impl ProtectedHeader {
    /// A header with no field and no bytes received. It takes no memory.
    pub fn new(alloc: Global) -> ProtectedHeader
        ensures { protected_view result ≡ protected None no_header }
    {
        ProtectedHeader {
            original_data: None,
            header: Header::new(alloc),
        }
    }

    /// Whether no field is set.
    pub fn is_empty(&self) -> bool
        ensures { result ≡ is_unset (protected_view self.now) }
    {
        self.header.is_empty()
    }

    /// Reads the byte string that a protected header is, and keeps its bytes (RFC 9052, section 3).
    /// The header in them opens at most 256 levels, and at most 16 protected headers may lie inside
    /// one another.
    ///
    /// # Errors
    /// A fault that the value has, or `Memory`. `ExtraneousData` if bytes follow the
    /// header.
    pub fn from_cbor_bstr(alloc: Global, value: Value) -> Result<ProtectedHeader, CoseError>
        ensures { MatchResult result
            (λ p. HasProtected nesting (view value) (protected_view p) layers)
            (λ e. OrMemory (WrongProtected nesting (view value) layers) e) }
    {
        ProtectedHeader::from_cbor_bstr_with(alloc, value, Limits::default())
    }

    /// As `from_cbor_bstr`, within these limits: the header in the bytes opens at most
    /// `limits.nesting()` levels, and at most `limits.layers()` protected headers lie inside one
    /// another, this one among them.
    ///
    /// # Errors
    /// A fault that the value has, or `Memory`. `ExtraneousData` if bytes follow the header,
    /// `TooManyLayers` if more protected headers lie inside one another.
    pub fn from_cbor_bstr_with(
        alloc: Global,
        value: Value,
        limits: Limits,
    ) -> Result<ProtectedHeader, CoseError>
        ensures { MatchResult result
            (λ p. HasProtected (nesting_of limits) (view value) (protected_view p)
            (layers_of limits))
            (λ e. OrMemory (WrongProtected (nesting_of limits) (view value) (layers_of limits)) e) }
    {
        read_protected(alloc, value, limits.nesting(), limits.layers())
    }

    /// Reads the byte string of a protected header into this one, which has no field and no bytes
    /// received, within these limits. After an error it is as before.
    ///
    /// # Errors
    /// Those of `from_cbor_bstr_with`.
    pub fn fill_bstr(
        &mut self,
        alloc: Global,
        value: Value,
        limits: Limits,
    ) -> Result<(), CoseError>
        requires empty { protected_view self.old ≡ protected None no_header }
        ensures read { MatchResult result
            (λ _. HasProtected (nesting_of limits) (view value) (protected_view self.new)
            (layers_of limits))
            (λ e. OrMemory (WrongProtected (nesting_of limits) (view value) (layers_of limits)) e) }
        ensures err { OnErr result (protected_view self.new ≡ protected None no_header) }
    {
        let filled = fill_protected(alloc, value, limits.nesting(), limits.layers(), self);
        if filled.is_err() {
            *self = ProtectedHeader::new(alloc);
        }
        filled
    }

    /// The byte string that stands for this header: the bytes that were received; else an empty
    /// string for an empty header, and the encoded map for another.
    ///
    /// # Errors
    /// `DuplicateMapKey` exactly when a label is repeated in a header that has to be encoded, or
    /// `Memory`.
    pub fn cbor_bstr(self, alloc: Global) -> Result<Value, CoseError>
        ensures { MatchResult result
            (λ v. option_map spec.bytes (shown (protected_view self)) ≡ Some (view v))
            (λ e. CantWrite (option_map spec.bytes (shown (protected_view self))) e) }
    {
        let bytes = show_protected(alloc, self)?;
        Ok(Value::Bytes(bytes))
    }
}
