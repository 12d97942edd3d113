//! KDF contexts and their parts as values and bytes.
ghost use Rattle.std.specs.Prelude.{Some};
ghost use Rattle.coset_labels.specs.Limits.{nesting, layers};
ghost use Rattle.coset_kdf.specs.Contexts.{HasContext, HasParty, HasPublic};
ghost use Rattle.coset_kdf.specs.Fields.{ContextFields, PartyFields, PublicFields};
ghost use Rattle.coset_kdf.specs.View.{context_view, party_view, public_view};
ghost use Rattle.coset_kdf.specs.Written.{context_tree, party_tree, public_tree};
ghost use Rattle.coset_kdf.specs.Wrong.{WrongContext, WrongParty, WrongPublic};

use crate::context::{CoseKdfContext, PartyInfo, SuppPubInfo};
use crate::reader::{read_context, read_party, read_public};
use crate::writer::{write_context, write_party, write_public};
use ciborium_value::Value;
use coset_labels::{AsCborValue, CborSerializable, CoseError};
use std::alloc::Global;

/// The elements are read from the last to the first.
impl AsCborValue for PartyInfo {
    ghost Fields = { PartyFields };

    ghost fields = { party_view };

    ghost shape = { HasParty };

    ghost wrong = { WrongParty };

    ghost written = { λ p. Some (party_tree p) };

    fn from_cbor_value(_alloc: Global, value: Value) -> Result<PartyInfo, CoseError> {
        read_party(value)
    }

    fn to_cbor_value(self, alloc: Global) -> Result<Value, CoseError> {
        write_party(alloc, self)
    }
}

impl CborSerializable for PartyInfo {}

/// The elements are read from the last to the first.
impl AsCborValue for SuppPubInfo {
    ghost Fields = { PublicFields };

    ghost fields = { public_view };

    ghost shape = { λ t s. HasPublic nesting t s layers };

    ghost wrong = { λ t e. WrongPublic nesting t layers e };

    ghost written = { public_tree };

    fn from_cbor_value(alloc: Global, value: Value) -> Result<SuppPubInfo, CoseError> {
        read_public(alloc, value)
    }

    fn to_cbor_value(self, alloc: Global) -> Result<Value, CoseError> {
        write_public(alloc, self)
    }
}

impl CborSerializable for SuppPubInfo {}

/// The elements are read from the last to the first, and so are those of its parts.
impl AsCborValue for CoseKdfContext {
    ghost Fields = { ContextFields };

    ghost fields = { context_view };

    ghost shape = { λ t c. HasContext nesting t c layers };

    ghost wrong = { λ t e. WrongContext nesting t layers e };

    ghost written = { context_tree };

    fn from_cbor_value(alloc: Global, value: Value) -> Result<CoseKdfContext, CoseError> {
        read_context(alloc, value)
    }

    fn to_cbor_value(self, alloc: Global) -> Result<Value, CoseError> {
        write_context(alloc, self)
    }
}

impl CborSerializable for CoseKdfContext {}
