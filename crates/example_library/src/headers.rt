//! Headers made and read. `coset_base` is the one crate that this names.
ghost use Rattle.std.specs.Prelude.{◌≡◌, IfOk, IfErr};
ghost use Rattle.coset_base.specs.Faults.{OrMemory};
ghost use Rattle.coset_base.specs.Fields.{HeaderFields, header, no_plain, no_signatures};
ghost use Rattle.coset_base.specs.Headers.{HasHeader};
ghost use Rattle.coset_base.specs.LimitsView.{nesting, layers};
ghost use Rattle.coset_base.specs.Reading.{HasItem, WrongItem};
ghost use Rattle.coset_base.specs.View.{header_view};
ghost use Rattle.coset_base.specs.Wrong.{WrongHeader};

use coset_base::{CborSerializable, CoseError, Header, HeaderBuilder};
use std::alloc::{AllocError, Global};

/// A header with a key id, and nothing else.
///
/// # Errors
/// Only if out of memory.
pub fn with_key_id(alloc: Global, key_id: &[u8]) -> Result<Header, AllocError>
    ensures { IfOk result (λ h. header_view h
        ≡ header (record no_plain { key_id = key_id.now }) no_signatures) }
{
    let key_id = key_id.to_vec(alloc)?;
    Ok(HeaderBuilder::new(alloc).key_id(key_id).build())
}

/// The header that the bytes are.
///
/// # Errors
/// A fault of the bytes, or `Memory`.
pub fn read_header(alloc: Global, bytes: &[u8]) -> Result<Header, CoseError>
    ensures ok { IfOk result (λ h.
        HasItem (λ t f. HasHeader nesting t f layers) bytes.now (header_view h)) }
    ensures err { IfErr result
        (OrMemory (WrongItem (λ t e. WrongHeader nesting t layers e) bytes.now)) }
{
    Header::from_slice(alloc, bytes)
}
