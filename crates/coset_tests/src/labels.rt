//! A type of the caller's that is written with a tag.
use crate::checks::{gives, of_hex};
use coset::cbor::Value;
use coset::{AsCborValue, CoseError, Label, TaggedCborSerializable};
use std::alloc::Global;

/// A label that is written with a tag.
#[derive(Drop)]
struct Stamp(Label);

impl AsCborValue for Stamp {
    ghost use Rattle.std.specs.Prelude.{◌≡◌, Some};
    ghost use Rattle.coset_labels.specs.Fields.{LabelFields};
    ghost use Rattle.coset_labels.specs.Labels.{label_of, label_tree, WrongLabel};
    ghost use Rattle.coset_labels.specs.View.{label_view};

    ghost Fields = { LabelFields };

    ghost fields = { λ s. label_view s.0 };

    ghost shape = { λ t f. label_of t ≡ Some f };

    ghost wrong = { WrongLabel };

    ghost written = { λ f. Some (label_tree f) };

    fn from_cbor_value(alloc: Global, value: Value) -> Result<Stamp, CoseError> {
        Ok(Stamp(Label::from_cbor_value(alloc, value)?))
    }

    fn to_cbor_value(self, alloc: Global) -> Result<Value, CoseError> {
        self.0.to_cbor_value(alloc)
    }
}

impl TaggedCborSerializable for Stamp {
    ghost TAG = { 99 };

    const TAG: u64 = 99;
}

#[test]
fn a_type_of_the_caller_is_written_in_its_tag(rt: HostRuntime) {
    let alloc = rt.alloc();
    let bytes = of_hex(&rt, alloc, "d8636161");
    let stamp = Stamp::from_tagged_slice(alloc, &bytes).expect(&rt, "a label");
    gives(&rt, alloc, stamp.to_tagged_vec(alloc), "d8636161");
    let bytes = of_hex(&rt, alloc, "d8646161");
    let other = Stamp::from_tagged_slice(alloc, &bytes).err();
    assert!(rt; other == Some(CoseError::UnexpectedItem("tag", "other tag")));
}
