//! Messages with several signatures as values and bytes.
ghost use Rattle.std.specs.Prelude.{◌≡◌, MatchResult, OnErr, map};
ghost use Rattle.ciborium_value.specs.View.{view, views};
ghost use Rattle.coset_labels.specs.Faults.{OrMemory};
ghost use Rattle.coset_labels.specs.Limits.{nesting, layers, nesting_of, layers_of};
ghost use Rattle.coset_labels.specs.Walks.{WrongItems};
ghost use Rattle.coset_headers.specs.Headers.{HasSignature, HasSignatures};
ghost use Rattle.coset_headers.specs.View.{signature_view, signatures_view};
ghost use Rattle.coset_recipients.specs.Results.{ReadsWithin};
ghost use Rattle.coset_signed.specs.Fields.{SignFields, no_sign};
ghost use Rattle.coset_signed.specs.Shapes.{IsSignatureList, HasSign};
ghost use Rattle.coset_signed.specs.View.{sign_view};
ghost use Rattle.coset_signed.specs.Written.{sign_tree};
ghost use Rattle.coset_signed.specs.Wrong.{Hides, IsNoSignature, WrongSignatureList, WrongSign};

use crate::sign::CoseSign;
use ciborium_value::Value;
use cose_iana::CborTag;
use coset_headers::CoseSignature;
use coset_labels::tuples::four;
use coset_labels::{
    AsCborValue, CborSerializable, CoseError, Limits, TaggedCborSerializable, ValueTryAs,
    to_cbor_array,
};
use coset_recipients::{PartValues, Parts, write_parts};
use std::alloc::Global;

/// The elements are read from the last to the first, and the signatures from the first to the last.
impl AsCborValue for CoseSign {
    ghost Fields = { SignFields };

    ghost fields = { sign_view };

    ghost shape = { λ t m. HasSign nesting t m layers };

    ghost wrong = { λ t e. WrongSign nesting t layers e };

    ghost written = { sign_tree };

    fn from_cbor_value(alloc: Global, value: Value) -> Result<CoseSign, CoseError> {
        CoseSign::from_cbor_value_with(alloc, value, Limits::default())
    }

    fn to_cbor_value(self, alloc: Global) -> Result<Value, CoseError> {
        let parts = Parts {
            protected: self.protected,
            unprotected: self.unprotected,
            content: self.payload,
        };
        let mut items = write_parts(alloc, parts)?;
        let signatures = to_cbor_array(alloc, self.signatures)?;
        items.push(signatures)?;
        Ok(Value::Array(items))
    }
}

impl CoseSign {
    /// As `from_cbor_value`, within these limits.
    ///
    /// # Errors
    /// A fault that the value has, or `Memory`.
    pub fn from_cbor_value_with(
        alloc: Global,
        value: Value,
        limits: Limits,
    ) -> Result<CoseSign, CoseError>
        ensures { ReadsWithin limits HasSign WrongSign (view value) sign_view result }
    {
        let mut message = CoseSign::new(alloc);
        message.fill(alloc, value, limits)?;
        Ok(message)
    }

    /// Reads a message into this one, in place of its fields, within these limits. After an error
    /// it has no field.
    ///
    /// # Errors
    /// Those of `from_cbor_value_with`.
    pub fn fill(&mut self, alloc: Global, value: Value, limits: Limits) -> Result<(), CoseError>
        ensures read { ReadsWithin limits HasSign WrongSign (view value) (λ _. sign_view self.new)
            result }
        ensures err { OnErr result (sign_view self.new ≡ no_sign) }
    {
        *self = CoseSign::new(alloc);
        let items = value.try_as_array()?;
        match four(items) {
            Some((protected, unprotected, payload, list)) => {
                let signatures = read_signatures(alloc, list, limits)?;
                let values = PartValues {
                    protected,
                    unprotected,
                    content: payload,
                };
                values.fill(
                    alloc,
                    limits,
                    "bstr or nil",
                    &mut self.protected,
                    &mut self.unprotected,
                    &mut self.payload,
                )?;
                self.signatures = signatures;
                Ok(())
            }
            None => Err(CoseError::UnexpectedItem("array", "array with 4 items")),
        }
    }
}

impl CborSerializable for CoseSign {}

/// A COSE_Sign has tag 98 (RFC 9052, section 4.1).
impl TaggedCborSerializable for CoseSign {
    ghost TAG = { 98 };

    const TAG: u64 = CborTag::CoseSign as u64;
}

fn read_signatures(
    alloc: Global,
    value: Value,
    limits: Limits,
) -> Result<Vec<CoseSignature>, CoseError>
    ensures { ReadsWithin limits IsSignatureList WrongSignatureList (view value)
        (λ v. map signature_view v.items) result }
{
    let items = value.try_as_array()?;
    read_list(alloc, items, limits)
}

fn read_list(
    alloc: Global,
    items: Vec<Value>,
    limits: Limits,
) -> Result<Vec<CoseSignature>, CoseError>
    ensures { MatchResult result
        (λ v. HasSignatures (nesting_of limits) (views items.items) (signatures_view v.items)
        (layers_of limits))
        (λ e. OrMemory
        (WrongItems
        (λ t. IsNoSignature (nesting_of limits) t (layers_of limits)) (views items.items))
        e) }
{
    let mut signatures = Vec::new(alloc);
    'items: for item in items {
        let signature = read_signature(alloc, item, limits)?;
        signatures.push(signature)?;
    }
    Ok(signatures)
}

fn read_signature(alloc: Global, value: Value, limits: Limits) -> Result<CoseSignature, CoseError>
    ensures { ReadsWithin limits HasSignature IsNoSignature (view value) signature_view result }
{
    match CoseSignature::from_cbor_value_with(alloc, value, limits) {
        Ok(signature) => Ok(signature),
        Err(error) => Err(hide(error)),
    }
}

/// Each error inside a signature becomes one and the same, as in coset; being out of memory stays.
fn hide(error: CoseError) -> CoseError
    ensures { Hides error result }
{
    match error {
        CoseError::Memory => CoseError::Memory,
        _ => CoseError::UnexpectedItem("non-signature", "map for COSE_Signature"),
    }
}
