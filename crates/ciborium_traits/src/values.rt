//! Values as they are.
ghost use Rattle.std.specs.Prelude.{◌≡◌, None, OnOk, OnErr, false};
ghost use Rattle.ciborium_value.specs.View.{view};
ghost use Rattle.ciborium_traits.specs.Events.{events, Puts, Stops};

use crate::de::Deserialize;
use crate::error::Error;
use crate::ser::{Serialize, Sink};
use ciborium_value::{CanonicalValue, Value};
use std::alloc::Global;

/// Writes an item.
#[tactic(auto, using(crate::proofs::Opened::array_opened, crate::proofs::Opened::map_opened, crate::proofs::Opened::tag_opened, crate::proofs::Opened::bool_opened))]
fn write_value<S: Sink>(sink: &mut S, value: &Value) -> Result<(), S::Error>
    ensures ok { OnOk result (Puts S.due sink.old (events (view value.now)) sink.new) }
    ensures err { OnErr result (Stops S.due S.torn sink.old
        (events (view value.now)) sink.new) }
{
    match value {
        Value::Integer(number) => sink.integer(*number),
        Value::Bytes(bytes) => sink.bytes(bytes.as_slice()),
        Value::Float(float) => sink.float(*float),
        Value::Text(text) => sink.text(text.as_str()),
        Value::Bool(b) => sink.boolean(*b),
        Value::Null => sink.null(),
        Value::Tag(tag, content) => {
            sink.tag(*tag)?;
            write_value(sink, content)
        }
        Value::Array(items) => {
            sink.array(items.len())?;
            'items: for item in items {
                write_value(sink, item)?;
            }
            Ok(())
        }
        Value::Map(entries) => {
            sink.map(entries.len())?;
            'entries: for entry in entries {
                write_value(sink, &entry.0)?;
                write_value(sink, &entry.1)?;
            }
            Ok(())
        }
    }
}

impl Serialize for Value {
    ghost put = { view };

    fn serialize<S: Sink>(&self, sink: &mut S) -> Result<(), S::Error> {
        write_value(sink, self)
    }
}

impl Deserialize for Value {
    ghost refusal = { λ t. None };

    ghost takes = { λ t v. view v ≡ t };

    ghost grows = { false };

    fn take(_alloc: Global, value: Value) -> Result<Value, Error> {
        Ok(value)
    }
}

impl Serialize for CanonicalValue {
    ghost put = { λ c. view c.0 };

    fn serialize<S: Sink>(&self, sink: &mut S) -> Result<(), S::Error> {
        write_value(sink, &self.0)
    }
}

impl Deserialize for CanonicalValue {
    ghost refusal = { λ t. None };

    ghost takes = { λ t c. view c.0 ≡ t };

    ghost grows = { false };

    fn take(_alloc: Global, value: Value) -> Result<CanonicalValue, Error> {
        Ok(CanonicalValue(value))
    }
}
