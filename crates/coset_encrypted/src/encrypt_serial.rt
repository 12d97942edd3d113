//! COSE_Encrypt messages as values and bytes.
ghost use Rattle.ciborium_value.specs.View.{view};
ghost use Rattle.coset_labels.specs.Limits.{nesting, layers};
ghost use Rattle.coset_recipients.specs.Results.{ReadsWithin};
ghost use Rattle.coset_encrypted.specs.Fields.{EncryptFields};
ghost use Rattle.coset_encrypted.specs.Shapes.{HasEncrypt};
ghost use Rattle.coset_encrypted.specs.View.{encrypt_view};
ghost use Rattle.coset_encrypted.specs.Written.{encrypt_tree};
ghost use Rattle.coset_encrypted.specs.Wrong.{WrongEncrypt};

use crate::encrypt::CoseEncrypt;
use ciborium_value::Value;
use cose_iana::CborTag;
use coset_labels::tuples::four;
use coset_labels::{
    AsCborValue, CborSerializable, CoseError, Limits, TaggedCborSerializable, ValueTryAs,
};
use coset_recipients::{PartValues, Parts, read_recipients, write_parts, write_recipients};
use std::alloc::Global;

/// The elements are read from the last to the first, and the recipients from the first to the last.
impl AsCborValue for CoseEncrypt {
    ghost Fields = { EncryptFields };

    ghost fields = { encrypt_view };

    ghost shape = { λ t m. HasEncrypt nesting t m layers };

    ghost wrong = { λ t e. WrongEncrypt nesting t layers e };

    ghost written = { encrypt_tree };

    fn from_cbor_value(alloc: Global, value: Value) -> Result<CoseEncrypt, CoseError> {
        CoseEncrypt::from_cbor_value_with(alloc, value, Limits::default())
    }

    fn to_cbor_value(self, alloc: Global) -> Result<Value, CoseError> {
        let parts = Parts {
            protected: self.protected,
            unprotected: self.unprotected,
            content: self.ciphertext,
        };
        let mut items = write_parts(alloc, parts)?;
        let list = write_recipients(alloc, self.recipients)?;
        items.push(list)?;
        Ok(Value::Array(items))
    }
}

impl CoseEncrypt {
    /// As `from_cbor_value`, within these limits.
    ///
    /// # Errors
    /// A fault that the value has, or `Memory`.
    pub fn from_cbor_value_with(
        alloc: Global,
        value: Value,
        limits: Limits,
    ) -> Result<CoseEncrypt, CoseError>
        ensures { ReadsWithin limits HasEncrypt WrongEncrypt (view value) encrypt_view result }
    {
        let items = value.try_as_array()?;
        match four(items) {
            Some((protected, unprotected, ciphertext, list)) => {
                let recipients = read_recipients(alloc, list, limits)?;
                let values = PartValues {
                    protected,
                    unprotected,
                    content: ciphertext,
                };
                let parts = values.read(alloc, limits, "bstr")?;
                Ok(CoseEncrypt {
                    protected: parts.protected,
                    unprotected: parts.unprotected,
                    ciphertext: parts.content,
                    recipients,
                })
            }
            None => Err(CoseError::UnexpectedItem("array", "array with 4 items")),
        }
    }
}

impl CborSerializable for CoseEncrypt {}

impl TaggedCborSerializable for CoseEncrypt {
    ghost TAG = { 96 };

    const TAG: u64 = CborTag::CoseEncrypt as u64;
}
