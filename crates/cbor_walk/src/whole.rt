//! Whether bytes begin with an item.
ghost use Rattle.std.specs.Prelude.{◌≡◌, true};
ghost use Rattle.cbor_walk.specs.Grammar.{body_of};
ghost use Rattle.cbor_walk.specs.Walking.{BeginsItem};

use crate::walk::Walk;
use ciborium_ll::{Decoder, Header};
use std::alloc::Global;

/// How many bytes of a string follow its head.
pub fn body_of(header: Header) -> usize
    ensures { result ≡ body_of header }
{
    match header {
        Header::Bytes(Some(n)) => n,
        Header::Text(Some(n)) => n,
        _ => 0,
    }
}

/// Whether the bytes begin with an item. The answer may be no though they do, if it has strings,
/// arrays or maps of open length. It takes no memory.
pub fn begins_item(alloc: Global, bytes: &[u8]) -> bool
    ensures { result ≡ true → BeginsItem bytes.now }
{
    let mut walk = Walk::new(alloc, 0);
    let mut decoder = Decoder::from(bytes);
    'heads: for _ in 0..u64::MAX {
        if walk.is_done() {
            return true;
        }
        let header = match decoder.pull() {
            Ok(header) => header,
            Err(_) => return false,
        };
        match walk.take(header) {
            Ok(()) => {}
            Err(_) => return false,
        }
        if !decoder.take(body_of(header)) {
            return false;
        }
    }
    false
}
