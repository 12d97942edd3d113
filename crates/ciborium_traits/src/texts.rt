//! Characters and texts.
ghost use Rattle.std.specs.Prelude.{◌≡◌, None, string_bytes, encode_utf8, false};
ghost use Rattle.ciborium_value.specs.Kinds.{is_text};
ghost use Rattle.ciborium_value.specs.Tree as spec;
ghost use Rattle.ciborium_traits.specs.Reading.{bare, unless};
ghost use Rattle.ciborium_traits.specs.Texts.{is_character};

use crate::de::Deserialize;
use crate::error::Error;
use crate::ser::{Serialize, Sink};
use crate::untagged::bare;
use ciborium_value::{Kind, Value};
use std::alloc::Global;

impl Serialize for char {
    ghost put = { λ c. spec.text (encode_utf8 c) };

    fn serialize<S: Sink>(&self, sink: &mut S) -> Result<(), S::Error> {
        let mut buffer = [0; 4];
        sink.text((*self).encode_utf8(&mut buffer))
    }
}

impl Deserialize for char {
    ghost refusal = { λ t. unless (is_character (bare t)) };

    ghost takes = { λ t c. bare t ≡ spec.text (encode_utf8 c) };

    ghost grows = { false };

    fn take(_alloc: Global, value: Value) -> Result<char, Error> {
        if let Value::Text(text) = bare(value) {
            if let Ok(character) = text.as_str().parse::<char>() {
                return Ok(character);
            }
        }
        Err(Error::Kind(Kind::WrongType))
    }
}

impl Serialize for &str {
    ghost put = { λ s. spec.text s.now };

    fn serialize<S: Sink>(&self, sink: &mut S) -> Result<(), S::Error> {
        sink.text(*self)
    }
}

impl Serialize for String {
    ghost put = { λ s. spec.text (string_bytes s) };

    fn serialize<S: Sink>(&self, sink: &mut S) -> Result<(), S::Error> {
        sink.text(self.as_str())
    }
}

impl Deserialize for String {
    ghost refusal = { λ t. unless (is_text (bare t)) };

    ghost takes = { λ t s. bare t ≡ spec.text (string_bytes s) };

    ghost grows = { false };

    fn take(_alloc: Global, value: Value) -> Result<String, Error> {
        match bare(value) {
            Value::Text(text) => Ok(text),
            _ => Err(Error::Kind(Kind::WrongType)),
        }
    }
}
