//! A message for calls that take what serializes.
ghost use Rattle.std.specs.Prelude.{◌≡◌, true};
ghost use Rattle.cose_gate_core.specs.Put.{tagged_put, is_as_received};

use crate::message::Message;
use ciborium::ser::{Serialize, Sink};

/// A message that is as received. It is written with its tag.
#[derive(Drop)]
pub struct Written<'a, M: Message> {
    /// The message.
    pub message: &'a M,
    ghost received: { is_as_received (M.message message.now) ≡ true },
}

impl<M: Message> Serialize for Written<'_, M> {
    ghost put = { λ w. tagged_put (M.message w.message.now) };

    fn serialize<S: Sink>(&self, sink: &mut S) -> Result<(), S::Error> {
        self.message.put(sink)
    }
}
