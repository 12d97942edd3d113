//! COSE_Encrypt0 messages as values and bytes.
ghost use Rattle.ciborium_value.specs.View.{view};
ghost use Rattle.coset_labels.specs.Limits.{nesting, layers};
ghost use Rattle.coset_recipients.specs.Results.{ReadsWithin};
ghost use Rattle.coset_encrypted.specs.Fields.{Encrypt0Fields};
ghost use Rattle.coset_encrypted.specs.Shapes.{HasEncrypt0};
ghost use Rattle.coset_encrypted.specs.View.{encrypt0_view};
ghost use Rattle.coset_encrypted.specs.Written.{encrypt0_tree};
ghost use Rattle.coset_encrypted.specs.Wrong.{WrongEncrypt0};

use crate::encrypt0::CoseEncrypt0;
use ciborium_value::Value;
use cose_iana::CborTag;
use coset_labels::tuples::three;
use coset_labels::{
    AsCborValue, CborSerializable, CoseError, Limits, TaggedCborSerializable, ValueTryAs,
};
use coset_recipients::{PartValues, Parts, write_parts};
use std::alloc::Global;

/// The elements are read from the last to the first.
impl AsCborValue for CoseEncrypt0 {
    ghost Fields = { Encrypt0Fields };

    ghost fields = { encrypt0_view };

    ghost shape = { λ t m. HasEncrypt0 nesting t m layers };

    ghost wrong = { λ t e. WrongEncrypt0 nesting t layers e };

    ghost written = { encrypt0_tree };

    fn from_cbor_value(alloc: Global, value: Value) -> Result<CoseEncrypt0, CoseError> {
        CoseEncrypt0::from_cbor_value_with(alloc, value, Limits::default())
    }

    fn to_cbor_value(self, alloc: Global) -> Result<Value, CoseError> {
        let parts = Parts {
            protected: self.protected,
            unprotected: self.unprotected,
            content: self.ciphertext,
        };
        Ok(Value::Array(write_parts(alloc, parts)?))
    }
}

impl CoseEncrypt0 {
    /// As `from_cbor_value`, within these limits.
    ///
    /// # Errors
    /// A fault that the value has, or `Memory`.
    pub fn from_cbor_value_with(
        alloc: Global,
        value: Value,
        limits: Limits,
    ) -> Result<CoseEncrypt0, CoseError>
        ensures { ReadsWithin limits HasEncrypt0 WrongEncrypt0 (view value) encrypt0_view result }
    {
        let items = value.try_as_array()?;
        match three(items) {
            Some((protected, unprotected, ciphertext)) => {
                let values = PartValues {
                    protected,
                    unprotected,
                    content: ciphertext,
                };
                let parts = values.read(alloc, limits, "bstr")?;
                Ok(CoseEncrypt0 {
                    protected: parts.protected,
                    unprotected: parts.unprotected,
                    ciphertext: parts.content,
                })
            }
            None => Err(CoseError::UnexpectedItem("array", "array with 3 items")),
        }
    }
}

impl CborSerializable for CoseEncrypt0 {}

impl TaggedCborSerializable for CoseEncrypt0 {
    ghost TAG = { 16 };

    const TAG: u64 = CborTag::CoseEncrypt0 as u64;
}
