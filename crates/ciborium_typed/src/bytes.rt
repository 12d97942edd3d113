//! Byte strings.
ghost use Rattle.std.specs.Prelude.{◌≡◌, IfOk, false, refl, ⊤};
ghost use Rattle.std.proofs.Common.{sym, ◌∙◌};
ghost use Rattle.ciborium_value.specs.Tree as spec;
ghost use Rattle.ciborium_value.specs.Tree.{is_bytes};
ghost use Rattle.ciborium_traits.specs.Facts.Texts.{tied_bytes};
ghost use Rattle.ciborium_traits.specs.Reading.{bare, unless};

use ciborium_traits::{Deserialize, Error, MapKey, RoundTrip, Serialize, Sink, bare};
use ciborium_value::{Kind, Value};
use std::alloc::{AllocError, Global};

/// The content of a byte string. A `Vec<u8>` is an array of numbers.
#[derive(Debug, PartialEq, Eq, PartialOrd, Ord, Hash, Drop)]
pub struct ByteBuf(pub Vec<u8>);

impl ByteBuf {
    /// A byte string with this content.
    ///
    /// # Errors
    /// Only if out of memory.
    pub fn clone(&self, alloc: Global) -> Result<ByteBuf, AllocError>
        ensures { IfOk result (λ copy. copy.0.items ≡ self.now.0.items) }
    {
        Ok(ByteBuf(self.0.as_slice().to_vec(alloc)?))
    }
}

impl From<Vec<u8>> for ByteBuf {
    ghost from_gives = { λ content b. b.0 ≡ content };

    fn from(content: Vec<u8>) -> ByteBuf {
        ByteBuf(content)
    }
}

impl From<ByteBuf> for Vec<u8> {
    ghost from_gives = { λ b content. content ≡ b.0 };

    fn from(bytes: ByteBuf) -> Vec<u8> {
        bytes.0
    }
}

impl Serialize for ByteBuf {
    ghost put = { λ b. spec.bytes b.0.items };

    fn serialize<S: Sink>(&self, sink: &mut S) -> Result<(), S::Error> {
        sink.bytes(&self.0)
    }
}

impl Deserialize for ByteBuf {
    ghost refusal = { λ t. unless (is_bytes (bare t)) };

    ghost takes = { λ t b. bare t ≡ spec.bytes b.0.items };

    ghost grows = { false };

    fn take(_alloc: Global, value: Value) -> Result<ByteBuf, Error> {
        match bare(value) {
            Value::Bytes(content) => Ok(ByteBuf(content)),
            _ => Err(Error::Kind(Kind::WrongType)),
        }
    }
}

impl RoundTrip for ByteBuf {
    ghost kept = { λ b. ⊤ };

    ghost taken_back = { λ b h. (refl, refl, refl) };

    ghost takes_one = { λ t x y a b. sym a ∙ b };
}

impl MapKey for ByteBuf {
    ghost written_alike = { λ x y. tied_bytes x.0.items y.0.items };
}
