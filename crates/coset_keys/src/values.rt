//! The fields of a key while its entries are read.
ghost use Rattle.std.specs.Prelude.{MatchResult};
ghost use Rattle.ciborium_value.specs.View.{view};
ghost use Rattle.coset_labels.specs.Faults.{OrMemory};
ghost use Rattle.coset_labels.specs.View.{label_view};
ghost use Rattle.coset_keys.specs.Parts.{Fills};
ghost use Rattle.coset_keys.specs.Places.{Names};
ghost use Rattle.coset_keys.specs.View.{key_view};
ghost use Rattle.coset_keys.specs.Wrong.{WrongValue};

use crate::key::CoseKey;
use crate::operations::read_operations;
use ciborium_value::Value;
use coset_labels::{Algorithm, AsCborValue, CoseError, KeyType, Label, ValueTryAs};
use std::alloc::Global;

/// Where the value of an entry belongs.
#[derive(Drop)]
pub(crate) enum Place {
    Kty,
    KeyId,
    Alg,
    KeyOps,
    BaseIv,
    Params,
}

/// Where the value after this label belongs (RFC 9052, section 7.1).
fn place_of(label: &Label) -> Place
    ensures { Names result (label_view label.now) }
{
    match label {
        Label::Int(1) => Place::Kty,
        Label::Int(2) => Place::KeyId,
        Label::Int(3) => Place::Alg,
        Label::Int(4) => Place::KeyOps,
        Label::Int(5) => Place::BaseIv,
        _ => Place::Params,
    }
}

impl CoseKey {
    /// Takes the value of a label.
    pub(crate) fn fill(
        &mut self,
        alloc: Global,
        label: Label,
        value: Value,
    ) -> Result<(), CoseError>
        ensures { MatchResult result
            (λ _. Fills (label_view label) (view value) (key_view self.old) (key_view self.new))
            (λ e. OrMemory (WrongValue (view value) (label_view label)) e) }
    {
        match place_of(&label) {
            Place::Kty => {
                let kty = KeyType::from_cbor_value(alloc, value)?;
                self.kty = kty;
                Ok(())
            }
            Place::KeyId => {
                let key_id = value.try_as_nonempty_bytes()?;
                self.key_id = key_id;
                Ok(())
            }
            Place::Alg => {
                let alg = Algorithm::from_cbor_value(alloc, value)?;
                self.alg = Some(alg);
                Ok(())
            }
            Place::KeyOps => {
                let key_ops = read_operations(alloc, value)?;
                self.key_ops = key_ops;
                Ok(())
            }
            Place::BaseIv => {
                let base_iv = value.try_as_nonempty_bytes()?;
                self.base_iv = base_iv;
                Ok(())
            }
            Place::Params => {
                self.params.push((label, value))?;
                Ok(())
            }
        }
    }
}
