//! The parts of what is told of a question.
ghost use Rattle.std.specs.Prelude.{◌≡◌};
ghost use Rattle.cose_gate_command.specs.Written.{parts_in};
ghost use Rattle.cose_gate_records.specs.Framing.{framed, key_by};

use ciborium_ll::log::Log;
use cose_gate_records::{Held, logged, logged_record};

/// What is told of a question: what its line says of its key, and its record. It is in contracts
/// alone, and takes no memory.
#[derive(Drop)]
pub(crate) struct Parts {
    pub fields: Log<u8>,
    pub record: Log<u8>,
}

impl Parts {
    /// These fields, and the record of the question that is held, with this signature.
    pub(crate) fn new(fields: &[u8], held: &Held, signature: &[u8]) -> Parts
        ensures { parts_in result ≡ (
          fields.now,
          framed (key_by held.now.front.items held.now.covered.items signature.now),
        ) }
    {
        Parts {
            fields: logged(Log::new(), fields),
            record: logged_record(Log::new(), held, signature),
        }
    }
}
