//! Reads items as types.
ghost use Rattle.std.specs.Prelude.{◌≡◌, ◌⊎◌, Some, IfOk, IfErr, []};
ghost use Rattle.ciborium_ll.specs.Seen.{Takes};
ghost use Rattle.ciborium_ll.specs.Views.{left_of, seen};
ghost use Rattle.ciborium.specs.Damage.{Damage};
ghost use Rattle.ciborium.specs.Front.{HoldsOne};
ghost use Rattle.ciborium.specs.Reading.{NamesFault, IsNoMemory, IfEnd};
ghost use Rattle.ciborium.specs.Reading.{Leaves};
ghost use Rattle.ciborium.specs.Typed.{ReadsAs, IsRefused};

use crate::de::{Error, from_decoder};
use crate::value;
use ciborium_ll::{Decoder, Read};
use ciborium_typed::Deserialize;
use std::alloc::Global;

/// Reads the item at the front of the bytes to come as a value of the type, and leaves what follows
/// it.
///
/// # Errors
/// Those of `from_decoder`; `Semantic` with the type's fault if the item isn't of it, and it was
/// taken then; `Memory` also for an item that was taken, if the type grows.
pub fn typed_item<T: Deserialize, R: Read>(
    alloc: Global,
    decoder: &mut Decoder<R>,
    limit: usize,
) -> Result<T, Error<R::Error>>
    ensures ok { IfOk result (λ x. Takes (seen R.Read decoder.old) (seen R.Read decoder.new)
        (ReadsAs T.refusal T.takes limit x)) }
    ensures err { IfErr result (λ e. NamesFault R.ends (λ stop b f. Damage stop b limit f)
        (seen R.Read decoder.old) (seen R.Read decoder.new) e
        ⊎ Takes (seen R.Read decoder.old) (seen R.Read decoder.new)
        (IsRefused T.grows T.refusal limit e)) }
    ensures nothing { left_of R.left decoder.old ≡ Some [] → IfErr result IsNoMemory }
    ensures ended { left_of R.left decoder.old ≡ Some []
        → IfErr result (IfEnd R.ends (left_of R.left decoder.new ≡ Some [])) }
    ensures leaves { Leaves R.ends HoldsOne result
        (seen R.Read decoder.old) (seen R.Read decoder.new) }
{
    let value = from_decoder(alloc, decoder, limit)?;
    match T::take(alloc, value) {
        Ok(x) => Ok(x),
        Err(value::Error::Kind(kind)) => Err(Error::Semantic(None, kind)),
        Err(value::Error::Memory) => Err(Error::Memory),
    }
}
