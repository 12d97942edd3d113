//! A struct as an array of its fields.
ghost use Rattle.ciborium.specs.Typed.{Gives, ReadsAs};

use crate::items::first;
use ciborium::End;
use ciborium::de::{self, Deserialize};
use ciborium::ser::{Serialize, Sink};
use ciborium::value::{Error, Value};
use std::alloc::Global;

/// A station and its number.
#[derive(Debug, PartialEq, Eq, Drop)]
pub struct Station {
    pub number: u8,
    pub name: String,
}

impl Deserialize for Station {
    ghost refusal = { ⟦<(u8, String) as Deserialize>⟧.refusal };

    ghost takes = { λ t s. ⟦<(u8, String) as Deserialize>⟧.takes t (s.number, s.name) };

    ghost grows = { ⟦<(u8, String) as Deserialize>⟧.grows };

    fn take(alloc: Global, value: Value) -> Result<Station, Error> {
        let (number, name) = <(u8, String)>::take(alloc, value)?;
        Ok(Station { number, name })
    }
}

impl Serialize for Station {
    ghost use Rattle.std.specs.Prelude.{string_bytes, [], ◌∷◌, pos};
    ghost use Rattle.ciborium.specs.Tree as spec;
    ghost use Rattle.ciborium.specs.View.{trees};

    ghost put = { λ s. spec.array
        (trees (spec.integer (pos s.number) ∷ spec.text (string_bytes s.name) ∷ [])) };

    fn serialize<S: Sink>(&self, sink: &mut S) -> Result<(), S::Error> {
        (self.number, self.name.as_str()).serialize(sink)
    }
}

/// Stations at the front of the bytes, which are then those after them.
///
/// # Errors
/// Those of [`first`].
pub fn stations(alloc: Global, input: &mut &[u8]) -> Result<Vec<Station>, de::Error<End>> {
    first(alloc, input)
}
