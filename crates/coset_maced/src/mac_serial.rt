//! COSE_Mac messages as values and bytes.
ghost use Rattle.std.specs.Prelude.{◌≡◌, OnErr};
ghost use Rattle.ciborium_value.specs.View.{view};
ghost use Rattle.coset_labels.specs.Limits.{nesting, layers};
ghost use Rattle.coset_recipients.specs.Results.{ReadsWithin};
ghost use Rattle.coset_maced.specs.Fields.{MacFields, no_mac};
ghost use Rattle.coset_maced.specs.Shapes.{HasMac};
ghost use Rattle.coset_maced.specs.View.{mac_view};
ghost use Rattle.coset_maced.specs.Written.{mac_tree};
ghost use Rattle.coset_maced.specs.Wrong.{WrongMac};

use crate::mac::CoseMac;
use ciborium_value::Value;
use cose_iana::CborTag;
use coset_labels::tuples::five;
use coset_labels::{
    AsCborValue, CborSerializable, CoseError, Limits, TaggedCborSerializable, ValueTryAs,
};
use coset_recipients::{PartValues, Parts, read_recipients, write_parts, write_recipients};
use std::alloc::Global;

/// The elements are read from the last to the first, and the recipients from the first to the last.
impl AsCborValue for CoseMac {
    ghost Fields = { MacFields };

    ghost fields = { mac_view };

    ghost shape = { λ t m. HasMac nesting t m layers };

    ghost wrong = { λ t e. WrongMac nesting t layers e };

    ghost written = { mac_tree };

    fn from_cbor_value(alloc: Global, value: Value) -> Result<CoseMac, CoseError> {
        CoseMac::from_cbor_value_with(alloc, value, Limits::default())
    }

    fn to_cbor_value(self, alloc: Global) -> Result<Value, CoseError> {
        let parts = Parts {
            protected: self.protected,
            unprotected: self.unprotected,
            content: self.payload,
        };
        let mut items = write_parts(alloc, parts)?;
        let list = write_recipients(alloc, self.recipients)?;
        items.push(Value::Bytes(self.tag))?;
        items.push(list)?;
        Ok(Value::Array(items))
    }
}

impl CoseMac {
    /// As `from_cbor_value`, within these limits.
    ///
    /// # Errors
    /// A fault that the value has, or `Memory`.
    pub fn from_cbor_value_with(
        alloc: Global,
        value: Value,
        limits: Limits,
    ) -> Result<CoseMac, CoseError>
        ensures { ReadsWithin limits HasMac WrongMac (view value) mac_view result }
    {
        let mut message = CoseMac::new(alloc);
        message.fill(alloc, value, limits)?;
        Ok(message)
    }

    /// Reads a message into this one, in place of its fields, within these limits. After an error
    /// it has no field.
    ///
    /// # Errors
    /// Those of `from_cbor_value_with`.
    pub fn fill(&mut self, alloc: Global, value: Value, limits: Limits) -> Result<(), CoseError>
        ensures read { ReadsWithin limits HasMac WrongMac (view value) (λ _. mac_view self.new)
            result }
        ensures err { OnErr result (mac_view self.new ≡ no_mac) }
    {
        *self = CoseMac::new(alloc);
        let items = value.try_as_array()?;
        match five(items) {
            Some((protected, unprotected, payload, tag, list)) => {
                let recipients = read_recipients(alloc, list, limits)?;
                let tag = tag.try_as_bytes()?;
                let values = PartValues {
                    protected,
                    unprotected,
                    content: payload,
                };
                values.fill(
                    alloc,
                    limits,
                    "bstr",
                    &mut self.protected,
                    &mut self.unprotected,
                    &mut self.payload,
                )?;
                self.tag = tag;
                self.recipients = recipients;
                Ok(())
            }
            None => Err(CoseError::UnexpectedItem("array", "array with 5 items")),
        }
    }
}

impl CborSerializable for CoseMac {}

impl TaggedCborSerializable for CoseMac {
    ghost TAG = { 97 };

    const TAG: u64 = CborTag::CoseMac as u64;
}
