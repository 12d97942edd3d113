//! One COSE_Mac0 (RFC 9052, section 6.2), and the tag over what it covers.
ghost use Rattle.std.specs.Prelude.{◌<◌, IfOk, length};

use ciborium::{Decoder, End, Read};
use cose_gate::{StreamFault, stream_check};
use cose_gate_program::HmacJudge;
use cose_hmac::HmacSha256;
use coset_base::{MacContext, bytes_title};
use coset_keys::CoseKeySet;
use std::alloc::{AllocError, Global};
use test_tools::LongMessage;

/// How many bytes are passed at a time.
const BUFFER: usize = 65536;

/// The secret of the key.
const SECRET: &[u8] = b"\x00";

/// The message before its payload's title: the tag 17, an array of four, the protected header with
/// the algorithm HMAC with SHA-256, and an empty unprotected one.
const FRONT: &[u8] = b"\xd1\x84\x43\xa1\x01\x05\xa0";

/// The structure between the context and the payload's title: the protected header, and no external
/// data (RFC 9052, section 6.3).
const COVERED: &[u8] = b"\x43\xa1\x01\x05\x40";

/// The title of a tag of 32 bytes.
const TAG_TITLE: &[u8] = b"\x58\x20";

/// A buffer.
pub fn new_buffer(alloc: Global) -> Result<Vec<u8>, AllocError>
    ensures { IfOk result (λ buffer. 0 < length buffer.items) }
{
    vec![in alloc; 0; BUFFER]
}

/// The tag of the message with a payload of so many bytes, which are passed through the buffer.
pub fn tag(buffer: &mut [u8], size: usize) -> Result<[u8; 32], End>
    requires { 0 < length buffer.old }
{
    let mut mac = HmacSha256::new(SECRET);
    mac.update(MacContext::CoseMac0.prefix());
    mac.update(COVERED);
    mac.update(bytes_title(size).as_slice());
    let mut source = LongMessage {
        front: &[],
        payload: size,
        back: &[],
    };
    feed(&mut source, buffer, size, &mut mac)?;
    Ok(mac.finalize())
}

/// Feeds the bytes of a payload.
fn feed(
    source: &mut LongMessage,
    buffer: &mut [u8],
    size: usize,
    mac: &mut HmacSha256,
) -> Result<(), End>
    requires { 0 < length buffer.old }
{
    let len = buffer.len();
    for _ in 0..size / len {
        source.read_exact(buffer)?;
        mac.update(buffer);
    }
    let rest = &mut buffer[..size % len];
    source.read_exact(rest)?;
    mac.update(rest);
    Ok(())
}

/// What `stream_check` returns for the message with this tag.
pub fn checked(
    alloc: Global,
    keys: &CoseKeySet,
    buffer: &mut [u8],
    size: usize,
    tag: &[u8; 32],
) -> Result<bool, StreamFault<End>>
    requires { 0 < length buffer.old }
{
    let mut front = FRONT.to_vec(alloc)?;
    front.extend_from_slice(bytes_title(size).as_slice())?;
    let mut back = TAG_TITLE.to_vec(alloc)?;
    back.extend_from_slice(tag)?;
    let mut decoder = Decoder::from(LongMessage {
        front: &front,
        payload: size,
        back: &back,
    });
    stream_check(alloc, &mut decoder, buffer, &[], &mut HmacJudge::new(keys))
}
