//! Messages that are as received, written again in their tags straight from their fields, as a gate
//! writes them. `coset_signed`, `coset_maced`, `coset`, `cose_gate` and `ciborium` are the
//! crates that it names.
ghost use Rattle.std.specs.Prelude.{◌≡◌, true, IfOk};
ghost use Rattle.ciborium_value.specs.Encoding.{enc};
ghost use Rattle.cose_gate.specs.Questions.{message_text};
ghost use Rattle.callers.specs.Tagged.{fields_of, tagged_put, is_as_received};

use ciborium::ser::{Serialize, Sink};
use ciborium::{Mem, into_writer};
use coset::laws::{maced, signed};
use coset::{CoseMac, CoseMac0, CoseSign, CoseSign1};
use coset_maced::{put_tagged_mac, put_tagged_mac0};
use coset_signed::{put_tagged_sign, put_tagged_sign1};
use std::alloc::{AllocError, Global};

/// A message of one of the kinds that a gate passes.
#[derive(Clone, Copy)]
pub enum Message<'a> {
    /// In tag 18.
    Sign1(&'a CoseSign1),
    /// In tag 17.
    Mac0(&'a CoseMac0),
    /// In tag 98.
    Sign(&'a CoseSign),
    /// In tag 97.
    Mac(&'a CoseMac),
}

/// A message that is as received, for calls that take what serializes. It is written in its tag.
#[derive(Drop)]
struct Received<'a> {
    message: Message<'a>,
    ghost received: { is_as_received message ≡ true },
}

impl Serialize for Received<'_> {
    ghost put = { λ r. tagged_put r.message };

    fn serialize<S: Sink>(&self, sink: &mut S) -> Result<(), S::Error> {
        match self.message {
            Message::Sign1(message) => put_tagged_sign1(message, sink),
            Message::Mac0(message) => put_tagged_mac0(message, sink),
            Message::Sign(message) => put_tagged_sign(message, sink),
            Message::Mac(message) => put_tagged_mac(message, sink),
        }
    }
}

/// What a gate writes of a message that is as received, if the message passes.
///
/// # Errors
/// Only if out of memory.
pub fn gate_text(alloc: Global, message: Message) -> Result<Vec<u8>, AllocError>
    requires { is_as_received message ≡ true }
    ensures { IfOk result (λ out. out.items ≡ message_text (fields_of message.entry)) }
{
    signed::put_is_written();
    maced::put_is_written();
    let mut out = Mem::new(Vec::new(alloc));
    match into_writer(&Received { message }, &mut out) {
        Ok(()) => Ok(out.into_inner()),
        Err(_) => Err(AllocError),
    }
}
