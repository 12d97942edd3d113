//! Keys as values and bytes.
ghost use Rattle.std.specs.Prelude.{List};
ghost use Rattle.coset_keys.specs.Fields.{KeyFields};
ghost use Rattle.coset_keys.specs.Keys.{HasKey, HasKeySet};
ghost use Rattle.coset_keys.specs.View.{key_view, key_set_view};
ghost use Rattle.coset_keys.specs.Written.{key_tree, key_set_tree};
ghost use Rattle.coset_keys.specs.Wrong.{WrongKey, WrongKeySet};

use crate::key::{CoseKey, CoseKeySet};
use crate::reader::{read_key, read_key_set};
use crate::writer::write_key;
use ciborium_value::Value;
use coset_labels::{AsCborValue, CborSerializable, CoseError, to_cbor_array};
use std::alloc::Global;

/// A key is read from its map, its entries in their order: of each first its label, then whether it
/// was there before, then its value. That the key has a type is seen after all of them.
impl AsCborValue for CoseKey {
    ghost Fields = { KeyFields };

    ghost fields = { key_view };

    ghost shape = { HasKey };

    ghost wrong = { WrongKey };

    ghost written = { key_tree };

    fn from_cbor_value(alloc: Global, value: Value) -> Result<CoseKey, CoseError> {
        read_key(alloc, value)
    }

    fn to_cbor_value(self, alloc: Global) -> Result<Value, CoseError> {
        write_key(alloc, self)
    }
}

impl CborSerializable for CoseKey {}

/// The keys are read from the first to the last.
impl AsCborValue for CoseKeySet {
    ghost Fields = { List KeyFields };

    ghost fields = { key_set_view };

    ghost shape = { HasKeySet };

    ghost wrong = { WrongKeySet };

    ghost written = { key_set_tree };

    fn from_cbor_value(alloc: Global, value: Value) -> Result<CoseKeySet, CoseError> {
        read_key_set(alloc, value)
    }

    fn to_cbor_value(self, alloc: Global) -> Result<Value, CoseError> {
        to_cbor_array(alloc, self.0)
    }
}

impl CborSerializable for CoseKeySet {}
