//! COSE_Mac0 messages as values and bytes.
ghost use Rattle.std.specs.Prelude.{◌≡◌, None, OnErr};
ghost use Rattle.ciborium.specs.Fronts.{TakesFour};
ghost use Rattle.ciborium.specs.Reading.{Steady};
ghost use Rattle.ciborium_ll.specs.Views.{seen, waiting_of};
ghost use Rattle.ciborium_value.specs.Tree.{Trees, array};
ghost use Rattle.ciborium_value.specs.View.{view};
ghost use Rattle.coset_headers.specs.Fields.{protected, no_header};
ghost use Rattle.coset_headers.specs.View.{protected_view};
ghost use Rattle.coset_labels.specs.Limits.{nesting, layers, nesting_of, layers_of};
ghost use Rattle.coset_recipients.specs.Elements.{AreElements};
ghost use Rattle.coset_recipients.specs.PartsView.{four_of};
ghost use Rattle.coset_recipients.specs.Results.{ReadsWithin};
ghost use Rattle.coset_maced.specs.Fields.{Mac0Fields, no_mac0};
ghost use Rattle.coset_maced.specs.Shapes.{HasMac0};
ghost use Rattle.coset_maced.specs.View.{mac0_view};
ghost use Rattle.coset_maced.specs.Written.{mac0_tree};
ghost use Rattle.coset_maced.specs.Wrong.{WrongMac0};

use crate::mac0::CoseMac0;
use ciborium::{Decoder, Read, Spare, de};
use ciborium_value::Value;
use cose_iana::CborTag;
use coset_labels::tuples::four;
use coset_labels::{
    AsCborValue, CborSerializable, CoseError, Limits, TaggedCborSerializable, ValueTryAs,
};
use coset_recipients::{Elements, PartValues, Parts, write_parts};
use std::alloc::Global;

/// The elements are read from the last to the first.
impl AsCborValue for CoseMac0 {
    ghost Fields = { Mac0Fields };

    ghost fields = { mac0_view };

    ghost shape = { λ t m. HasMac0 nesting t m layers };

    ghost wrong = { λ t e. WrongMac0 nesting t layers e };

    ghost written = { mac0_tree };

    fn from_cbor_value(alloc: Global, value: Value) -> Result<CoseMac0, CoseError> {
        CoseMac0::from_cbor_value_with(alloc, value, Limits::default())
    }

    fn to_cbor_value(self, alloc: Global) -> Result<Value, CoseError> {
        let parts = Parts {
            protected: self.protected,
            unprotected: self.unprotected,
            content: self.payload,
        };
        let mut items = write_parts(alloc, parts)?;
        items.push(Value::Bytes(self.tag))?;
        Ok(Value::Array(items))
    }
}

impl CoseMac0 {
    /// As `from_cbor_value`, within these limits.
    ///
    /// # Errors
    /// A fault that the value has, or `Memory`.
    pub fn from_cbor_value_with(
        alloc: Global,
        value: Value,
        limits: Limits,
    ) -> Result<CoseMac0, CoseError>
        ensures { ReadsWithin limits HasMac0 WrongMac0 (view value) mac0_view result }
    {
        let mut message = CoseMac0::new(alloc);
        message.fill(alloc, value, limits)?;
        Ok(message)
    }

    /// Reads a message into this one, in place of its fields, within these limits. After an error
    /// it has no field.
    ///
    /// # Errors
    /// Those of `from_cbor_value_with`.
    pub fn fill(&mut self, alloc: Global, value: Value, limits: Limits) -> Result<(), CoseError>
        ensures read { ReadsWithin limits HasMac0 WrongMac0 (view value) (λ _. mac0_view self.new)
            result }
        ensures err { OnErr result (mac0_view self.new ≡ no_mac0) }
    {
        *self = CoseMac0::new(alloc);
        let items = value.try_as_array()?;
        match four(items) {
            Some((protected, unprotected, content, tag)) => {
                let parts = PartValues {
                    protected,
                    unprotected,
                    content,
                };
                self.fill_four(alloc, parts, tag, limits)
            }
            None => Err(CoseError::UnexpectedItem("array", "array with 4 items")),
        }
    }

    /// As `fill`, of the array of these parts and the tag, into a message that has no field.
    ///
    /// # Errors
    /// Those of `from_cbor_value_with`.
    fn fill_four(
        &mut self,
        alloc: Global,
        parts: PartValues,
        tag: Value,
        limits: Limits,
    ) -> Result<(), CoseError>
        requires empty { mac0_view self.old ≡ no_mac0 }
        ensures read { ReadsWithin limits HasMac0 WrongMac0 (four_of parts tag)
            (λ _. mac0_view self.new) result }
        ensures err { OnErr result (mac0_view self.new ≡ no_mac0) }
    {
        let tag = tag.try_as_bytes()?;
        parts.fill(
            alloc,
            limits,
            "bstr",
            &mut self.protected,
            &mut self.unprotected,
            &mut self.payload,
        )?;
        self.tag = tag;
        Ok(())
    }

    /// Reads the next four items, which are the elements of a message, into one that has no field,
    /// within these limits. Each item opens at most `limit` levels. No header may wait in the
    /// decoder. After an error the message may have any fields.
    ///
    /// # Errors
    /// Outside those of reading the items, and inside those of `from_cbor_value_with`: the items
    /// were taken then.
    pub fn walk<R: Read>(
        &mut self,
        alloc: Global,
        decoder: &mut Decoder<R>,
        limit: usize,
        limits: Limits,
        spare: &mut Spare,
    ) -> Result<Result<(), CoseError>, de::Error<R::Error>>
        requires fresh { waiting_of decoder.old ≡ None }
        requires empty { mac0_view self.old ≡ no_mac0 }
        ensures read { TakesFour R.ends limit (λ r ts. ReadsWithin limits HasMac0 WrongMac0 (array ts)
            (λ _. mac0_view self.new) r) result
            (seen R.Read decoder.old) (seen R.Read decoder.new) }
        ensures steady { Steady R.ends result (seen R.Read decoder.old) (seen R.Read decoder.new) }
    {
        let elements = Elements::take(alloc, decoder, limit, limits, &mut self.unprotected, spare)?;
        Ok(self.fill_elements(alloc, elements, limits))
    }

    /// Reads the elements of which the unprotected header was read into this message, which has no
    /// other field.
    fn fill_elements(
        &mut self,
        alloc: Global,
        elements: Elements,
        limits: Limits,
    ) -> Result<(), CoseError>
        requires empty { protected_view self.old.protected ≡ protected None no_header }
        ensures { (ts : Trees) → AreElements (nesting_of limits) (layers_of limits)
            self.old.unprotected elements ts
            → ReadsWithin limits HasMac0 WrongMac0 (array ts) (λ _. mac0_view self.new) result }
    {
        let last = elements.fill(
            alloc,
            limits,
            "bstr",
            &mut self.protected,
            &mut self.payload,
        )?;
        self.tag = last;
        Ok(())
    }
}

impl CborSerializable for CoseMac0 {}

impl TaggedCborSerializable for CoseMac0 {
    ghost TAG = { 17 };

    const TAG: u64 = CborTag::CoseMac0 as u64;
}
