//! Recipients as values and bytes.
ghost use Rattle.ciborium_value.specs.View.{view};
ghost use Rattle.coset_labels.specs.Limits.{nesting, layers};
ghost use Rattle.coset_recipients.specs.Results.{ReadsWithin};
ghost use Rattle.coset_recipients.specs.Fields.{RecipientFields};
ghost use Rattle.coset_recipients.specs.Shapes.{HasRecipient};
ghost use Rattle.coset_recipients.specs.View.{recipient_view};
ghost use Rattle.coset_recipients.specs.Written.{recipient_tree};
ghost use Rattle.coset_recipients.specs.Wrong.{WrongRecipient};

use crate::reader::read_recipient;
use crate::recipient::CoseRecipient;
use crate::writer::write_recipient;
use ciborium_value::Value;
use coset_labels::{AsCborValue, CborSerializable, CoseError, Limits};
use std::alloc::Global;

/// The elements are read from the last to the first, and the recipients of a list from the first to
/// the last. A recipient without recipients of its own is written with three elements.
impl AsCborValue for CoseRecipient {
    ghost Fields = { RecipientFields };

    ghost fields = { recipient_view };

    ghost shape = { λ t r. HasRecipient nesting t r layers };

    ghost wrong = { λ t e. WrongRecipient nesting t layers e };

    ghost written = { recipient_tree };

    fn from_cbor_value(alloc: Global, value: Value) -> Result<CoseRecipient, CoseError> {
        CoseRecipient::from_cbor_value_with(alloc, value, Limits::default())
    }

    fn to_cbor_value(self, alloc: Global) -> Result<Value, CoseError> {
        write_recipient(alloc, self)
    }
}

impl CoseRecipient {
    /// As `from_cbor_value`, within these limits.
    ///
    /// # Errors
    /// A fault that the value has, or `Memory`.
    pub fn from_cbor_value_with(
        alloc: Global,
        value: Value,
        limits: Limits,
    ) -> Result<CoseRecipient, CoseError>
        ensures { ReadsWithin limits HasRecipient WrongRecipient (view value) recipient_view
            result }
    {
        read_recipient(alloc, value, limits)
    }
}

impl CborSerializable for CoseRecipient {}
