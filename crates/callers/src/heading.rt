//! Headers made and read. `coset_base` is the one crate that it names.
ghost use Rattle.std.specs.Prelude.{◌≡◌, ◌≢◌, None, Some, IfOk, IfErr, option_map};
ghost use Rattle.cose_iana.specs.Algorithms.{algorithm_number};
ghost use Rattle.coset_base.specs.Encoding.{enc};
ghost use Rattle.coset_base.specs.Faults.{OrMemory};
ghost use Rattle.coset_base.specs.Fields.{HeaderFields, header, no_plain, no_signatures};
ghost use Rattle.coset_base.specs.Headers.{HasHeader};
ghost use Rattle.coset_base.specs.LabelFields.{assigned};
ghost use Rattle.coset_base.specs.LimitsView.{nesting, layers};
ghost use Rattle.coset_base.specs.Reading.{HasItem, WrongItem};
ghost use Rattle.coset_base.specs.View.{header_view};
ghost use Rattle.coset_base.specs.Written.{header_tree};
ghost use Rattle.coset_base.specs.Wrong.{WrongHeader};

use coset_base::laws::headers::{header_reads_again, read_can_be_written};
use coset_base::{CborSerializable, CoseError, Header, HeaderBuilder, iana};
use std::alloc::{AllocError, Global};

/// A header with an algorithm and a key id, and nothing else.
///
/// # Errors
/// Only if out of memory.
pub fn plain_header(
    alloc: Global,
    alg: iana::Algorithm,
    key_id: &[u8],
) -> Result<Header, AllocError>
    ensures { IfOk result (λ h. header_view h
        ≡ header (record no_plain {
          alg = Some (assigned (algorithm_number alg));
          key_id = key_id.now;
        }) no_signatures) }
{
    let key_id = key_id.to_vec(alloc)?;
    Ok(
        HeaderBuilder::new(alloc)
            .algorithm(alg)
            .key_id(key_id)
            .build(),
    )
}

/// The header that the bytes are. It can be written: no label would be there twice.
///
/// # Errors
/// A fault of the bytes, or `Memory`.
pub fn header_of(alloc: Global, bytes: &[u8]) -> Result<Header, CoseError>
    ensures ok { IfOk result (λ h.
        HasItem (λ t f. HasHeader nesting t f layers) bytes.now (header_view h)
        × (header_tree (header_view h) ≢ None)) }
    ensures err { IfErr result
        (OrMemory (WrongItem (λ t e. WrongHeader nesting t layers e) bytes.now)) }
{
    read_can_be_written();
    Header::from_slice(alloc, bytes)
}

/// The canonical encoding of the header that the bytes are; the same header is read from it.
///
/// # Errors
/// A fault of the bytes, or `Memory`. Never that a label is repeated in what was read.
pub fn rewritten(alloc: Global, bytes: &[u8]) -> Result<Vec<u8>, CoseError>
    ensures ok { IfOk result (λ out. (h : HeaderFields)
        × HasItem (λ t f. HasHeader nesting t f layers) bytes.now h
        × (option_map enc (header_tree h) ≡ Some out.items)
        × HasItem (λ t f. HasHeader nesting t f layers) out.items h) }
    ensures err { IfErr result
        (OrMemory (WrongItem (λ t e. WrongHeader nesting t layers e) bytes.now)) }
{
    let header = header_of(alloc, bytes)?;
    header_reads_again(&header);
    header.to_vec(alloc)
}
