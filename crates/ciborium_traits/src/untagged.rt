//! The items inside tags.
ghost use Rattle.std.specs.Prelude.{◌≡◌};
ghost use Rattle.ciborium_value.specs.View.{view};
ghost use Rattle.ciborium_traits.specs.Reading.{bare};

use ciborium_value::Value;

/// The item without the tags around it.
pub fn bare(value: Value) -> Value
    ensures { view result ≡ bare (view value) }
{
    match value {
        Value::Tag(_, content) => bare(Box::into_inner(content)),
        other => other,
    }
}
