//! `example_judge ID`: reads a CBOR sequence from standard input, one item a line and in hex, and
//! says of each item whether it is a message with this key id. The messages that passed are printed
//! at the end, in hex.
#![tactic(auto)]

ghost use Rattle.std.specs.Prelude.{◌≡◌, ℕ, List};
ghost use Rattle.std.specs.Str.{bytes_eq};
ghost use Rattle.cose_gate.specs.KeyHeaders.{key_id_of};

use anyhow::Context;
use cose_gate::{About, Decoder, Judge, Log, Mem, gate, key_id};
use std::alloc::AllocError;
use std::env;

/// A judge that says yes to the messages with one key id. It looks at no signature.
#[derive(Drop)]
struct KeyId<'a> {
    id: &'a [u8],
    is_found: bool,
    pieces: Log<usize>,
}

impl<'a> KeyId<'a> {
    fn new(id: &'a [u8]) -> KeyId<'a> {
        KeyId {
            id,
            is_found: false,
            pieces: Log::new(),
        }
    }
}

impl Judge for KeyId<'_> {
    ghost Who = { List ℕ };

    ghost Told = { Unit {0} };

    ghost who = { λ j. j.id.now };

    ghost told = { λ _. tt };

    ghost holds = { λ j subject _. j.is_found ≡ bytes_eq (key_id_of subject) j.id.now };

    ghost pieces = { λ j. j.pieces.items };

    ghost yes = { λ id q. bytes_eq (key_id_of q.subject) id };

    ghost decided = { λ told _. told };

    fn begin(&mut self, about: &About) -> Result<(), AllocError> {
        self.is_found = key_id(about) == self.id;
        self.pieces = Log::new();
        Ok(())
    }

    fn feed(&mut self, piece: &[u8]) -> Result<(), AllocError> {
        self.pieces = self.pieces.and(&piece.len());
        Ok(())
    }

    fn decide(&mut self, _signature: &[u8]) -> bool {
        self.is_found
    }
}

fn main(rt: HostRuntime) -> anyhow::Result<()> {
    let alloc = rt.alloc();
    let id = env::args(&rt)?.nth(1).context("usage: example_judge ID")?;
    let mut input = Vec::new(alloc);
    for line in rt.lines(alloc) {
        input.extend_from_slice(&hex::decode(alloc, line?)?)?;
    }
    let mut decoder = Decoder::from(input.as_slice());
    let mut out = Mem::new(Vec::new(alloc));
    let mut entries = Vec::new(alloc);
    let mut judge = KeyId::new(id.as_bytes());
    gate(alloc, &mut decoder, &mut out, &mut entries, b"", &mut judge)?;
    for entry in &entries {
        println!(rt;
            "item {} at {}: {}",
            entry.number, entry.offset, entry.verdict
        )?;
    }
    println!(rt; "{}", hex::encode(alloc, out.into_inner())?)?;
    Ok(())
}
