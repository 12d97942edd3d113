//! The records of questions.
ghost use Rattle.std.specs.Prelude.{◌≡◌, ◌++◌, OnOk, OnErr, length};
ghost use Rattle.cose_gate_records.specs.Framing.{eight, framed, key_by};
ghost use Rattle.cose_gate_records.specs.Kept.{told_of};

use crate::framing::eight;
use crate::held::Held;
use ciborium_ll::log::Log;
use std::alloc::{AllocError, Global};

/// The records so far, or, once memory ran out for one, their history, which only proofs read.
#[derive(Drop)]
pub(crate) enum Text {
    /// The records of all questions so far.
    Whole(Vec<u8>),
    /// Out of memory.
    Lost(Log<u8>),
}

impl Text {
    /// The records with that of this question.
    pub(crate) fn and(self, held: &Held, signature: &[u8]) -> Text
        ensures { told_of result ≡ told_of self
            ++ framed (key_by held.now.front.items held.now.covered.items signature.now) }
    {
        match self {
            Text::Whole(text) => with_record(text, held, signature),
            Text::Lost(told) => Text::Lost(logged_record(told, held, signature)),
        }
    }
}

/// These records with the record of a question, unless out of memory.
fn with_record(text: Vec<u8>, held: &Held, signature: &[u8]) -> Text
    ensures { told_of result ≡ text.items
        ++ framed (key_by held.now.front.items held.now.covered.items signature.now) }
{
    let mut text = text;
    match append_record(&mut text, held, signature) {
        Ok(()) => Text::Whole(text),
        Err(AllocError) => Text::Lost(logged_record(logged(Log::new(), &text), held, signature)),
    }
}

/// Appends the record of a question, or nothing.
fn append_record(text: &mut Vec<u8>, held: &Held, signature: &[u8]) -> Result<(), AllocError>
    ensures ok { OnOk result («text».new.items ≡ «text».old.items
        ++ framed (key_by held.now.front.items held.now.covered.items signature.now)) }
    ensures err { OnErr result («text».new.items ≡ «text».old.items) }
{
    let record = held.record(*text.allocator(), signature)?;
    text.extend_from_slice(&record)
}

/// This history with the record of a question, which isn't made. It does nothing at run time.
pub fn logged_record(told: Log<u8>, held: &Held, signature: &[u8]) -> Log<u8>
    ensures { result.items ≡ told.items
        ++ framed (key_by held.now.front.items held.now.covered.items signature.now) }
{
    let told = logged(told, &length_of_key(held, signature));
    let told = logged(told, &held.front);
    let told = logged(told, &eight(held.covered.len()));
    let told = logged(told, &held.covered);
    let told = logged(told, &eight(signature.len()));
    logged(told, signature)
}

/// The length of a key in eight bytes, the lowest first.
pub(crate) fn length_of_key(held: &Held, signature: &[u8]) -> [u8; 8]
    ensures { result ≡ eight (length
        (key_by held.now.front.items held.now.covered.items signature.now)) }
{
    let lengths = held.front.len() as u128 + held.covered.len() as u128 + signature.len() as u128;
    low_eight(16 + lengths)
}

/// The lowest eight bytes.
fn low_eight(number: u128) -> [u8; 8]
    ensures { result ≡ eight number }
{
    let [a, b, c, d, e, f, g, h, ..] = number.to_le_bytes();
    [a, b, c, d, e, f, g, h]
}

/// The history with these bytes. It does nothing at run time.
pub fn logged(told: Log<u8>, bytes: &[u8]) -> Log<u8>
    ensures { result.items ≡ told.items ++ bytes.now }
{
    let mut told = told;
    for byte in bytes {
        told = told.and(byte);
    }
    told
}
