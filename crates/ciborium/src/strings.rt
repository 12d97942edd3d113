//! Reads titles and strings.
ghost use Rattle.std.specs.Prelude.{◌≡◌, ◌≢◌, ◌≤◌, ◌<◌, ◌+◌, ◌++◌, ◌^◌, ℕ, OnOk, OnErr};
ghost use Rattle.std.specs.Prelude.{Option, None, Some, IsTrue, IsFalse};
ghost use Rattle.std.specs.Prelude.{IfOk, IfErr, IfSome, IfNone, MatchBool, length, min, max};
ghost use Rattle.std.specs.Prelude.{Bool, true, false, []};
ghost use Rattle.std.specs.Prelude.{string_bytes};
ghost use Rattle.std.specs.Str.{IsUtf8};
ghost use Rattle.std.specs.String.{string_capacity};
ghost use Rattle.std.specs.Vec.{vec_capacity};
ghost use Rattle.ciborium_ll.specs.Title.{Title, title_of, IsShortest};
ghost use Rattle.ciborium_ll.specs.declared.hdr.Header.{Header};
ghost use Rattle.ciborium_ll.specs.declared.hdr.Header.TheVariants.{Bytes, Text};
ghost use Rattle.ciborium_ll.specs.Seen.{Takes};
ghost use Rattle.ciborium_ll.specs.Views.{left_of, offset_of, waiting_of};
ghost use Rattle.ciborium_ll.specs.Views.{reader_of, seen, shortest_of, last_head, last_length};
ghost use Rattle.ciborium.specs.Damage.{TitleDamage, ChunkDamage, StringDamage};
ghost use Rattle.ciborium.specs.Held.{IsEarned, IsEarnedSince, IsFitting, UnlessMemory};
ghost use Rattle.ciborium.specs.Reading.{NamesFault, NamesFaultAfterTitle, NamesShort};
ghost use Rattle.ciborium.specs.Reading.{Steady, TakesSome, IsNoMemory, IfEnd};
ghost use Rattle.ciborium.specs.Reading.{Leaves, OneAfterTitle};
ghost use Rattle.ciborium.specs.Reading.{string_head, IsBody, StringAfterHead, ChunkBody};

use crate::de::Error;
use ciborium_ll::{Decoder, Header, Read};
use std::alloc::{AllocError, Global};

/// The next title, and its place.
#[inline(always)]
pub fn next_title<R: Read>(decoder: &mut Decoder<R>) -> Result<(usize, Header), Error<R::Error>>
    ensures ok { IfOk result (λ r. Takes (seen R.Read decoder.old) (seen R.Read decoder.new)
        (λ b. Title b r.1)) }
    ensures shortest { waiting_of decoder.old ≡ None → IfOk result (λ r.
        Takes (seen R.Read decoder.old) (seen R.Read decoder.new)
        (λ b. Title b r.1 × IsShortest (shortest_of decoder.new) b r.1)) }
    ensures at { IfOk result (λ r. r.0 ≡ offset_of decoder.old) }
    ensures fits { offset_of decoder.new < 2 ^ 64 }
    ensures nothing { left_of R.left decoder.old ≡ Some [] → OnOk result ⊥ }
    ensures waited { (h : Header) → waiting_of decoder.old ≡ Some h
        → (result ≡ Ok (offset_of decoder.old, h)) × (reader_of decoder.new ≡ reader_of decoder.old)
        × (offset_of decoder.new ≡ offset_of decoder.old + length (title_of h)) }
    ensures memory { IfErr result IsNoMemory }
    ensures err { IfErr result (NamesFault R.ends TitleDamage
        (seen R.Read decoder.old) (seen R.Read decoder.new)) }
    ensures ended { left_of R.left decoder.old ≡ Some []
        → IfErr result (IfEnd R.ends (left_of R.left decoder.new ≡ Some [])) }
    ensures stops { IfErr result (TakesSome (seen R.Read decoder.old) (seen R.Read decoder.new)) }
    ensures steady { Steady R.ends result (seen R.Read decoder.old) (seen R.Read decoder.new) }
{
    let at = decoder.offset();
    let header = decoder.pull()?;
    Ok((at, header))
}

/// Takes the next head, and leaves what it says in the decoder.
pub fn next_head<R: Read>(decoder: &mut Decoder<R>) -> Result<(), Error<R::Error>>
    requires fresh { waiting_of decoder.old ≡ None }
    ensures ok { OnOk result (Takes (seen R.Read decoder.old) (seen R.Read decoder.new)
        (λ b. Title b (last_head decoder.new)
        × IsShortest (shortest_of decoder.new) b (last_head decoder.new))) }
    ensures memory { IfErr result IsNoMemory }
    ensures nothing { left_of R.left decoder.old ≡ Some [] → OnOk result ⊥ }
    ensures ended { left_of R.left decoder.old ≡ Some []
        → IfErr result (IfEnd R.ends (left_of R.left decoder.new ≡ Some [])) }
    ensures err { IfErr result (NamesFault R.ends TitleDamage
        (seen R.Read decoder.old) (seen R.Read decoder.new)) }
    ensures stops { IfErr result (TakesSome (seen R.Read decoder.old) (seen R.Read decoder.new)) }
    ensures steady { Steady R.ends result (seen R.Read decoder.old) (seen R.Read decoder.new) }
{
    if decoder.take_head() {
        return Ok(());
    }
    decoder.pull_head()?;
    Ok(())
}

/// So many bytes are asked for at a time.
const PIECE: usize = 4096;

/// An open string takes room for so many bytes at least when its second body comes.
const FEW: usize = 64;

/// Makes space for the next piece of a string of which so many bytes have come and so many are to
/// come. No length is believed: at most as much is reserved as is held, or one piece. A string that
/// is alone in the buffer gets no more than its own size.
fn make_room(into: &mut Vec<u8>, got: usize, rest: usize) -> Result<(), AllocError>
    ensures items { into.new.items ≡ into.old.items }
    ensures room { OnOk result (length into.new.items + min rest 4096 ≤ vec_capacity into.new) }
    ensures earned { IsEarned (length into.old.items) (vec_capacity into.old)
        → IsEarned (length into.old.items) (vec_capacity into.new) }
    ensures alone { length into.old.items ≡ got
        → vec_capacity into.new ≤ max (vec_capacity into.old) (got + rest) }
{
    let held = into.len();
    let piece = rest.min(PIECE);
    if into.capacity() - held >= piece {
        return Ok(());
    }
    let more = if held == got {
        rest.min(held.max(PIECE))
    } else {
        piece.max(held).max(FEW)
    };
    into.reserve_exact(more)
}

/// The next bytes, so many, in one piece that the reader fills, with this capacity.
fn fill_piece<R: Read>(
    decoder: &mut Decoder<R>,
    size: usize,
    into: &mut Vec<u8>,
    room: usize,
) -> Result<(), Error<R::Error>>
    requires fresh { waiting_of decoder.old ≡ None }
    requires small { size ≤ 4096 }
    ensures ok { OnOk result (Takes (seen R.Read decoder.old) (seen R.Read decoder.new)
        (λ b. (length b ≡ size) × (into.new.items ≡ into.old.items ++ b))) }
    ensures held { UnlessMemory result (vec_capacity into.new ≤ room) }
    ensures grows { offset_of decoder.old ≤ offset_of decoder.new }
    ensures err { IfErr result (NamesShort R.ends size
        (seen R.Read decoder.old) (seen R.Read decoder.new)) }
    ensures leaves { Leaves R.ends (λ b. length b ≤ size) result
        (seen R.Read decoder.old) (seen R.Read decoder.new) }
{
    let at = into.len();
    let Ok(()) = into.resize(at + size, 0) else {
        return Err(Error::Memory);
    };
    // No contract of std says that a vector keeps a capacity that is enough.
    if into.capacity() > room {
        return Err(Error::Memory);
    }
    decoder.read_exact(&mut into[at..])?;
    Ok(())
}

/// Appends the next n bytes and takes them, if the reader has so many at hand, and says whether it
/// did. After `Ok(false)` nothing has changed.
///
/// # Errors
/// Out of memory. No byte is taken then.
fn append_held<R: Read>(
    decoder: &mut Decoder<R>,
    n: usize,
    into: &mut Vec<u8>,
) -> Result<bool, AllocError>
    ensures ok { IfOk result (λ done. IsTrue done
        → Takes (seen R.Read decoder.old) (seen R.Read decoder.new)
        (λ b. (length b ≡ n) × (into.new.items ≡ into.old.items ++ b))) }
    ensures none { IfOk result (λ done. IsFalse done
        → (decoder.new ≡ decoder.old) × (into.new.items ≡ into.old.items)) }
    ensures err { OnErr result ((decoder.new ≡ decoder.old)
        × (into.new.items ≡ into.old.items)) }
    ensures fits { offset_of decoder.new < 2 ^ 64 }
    ensures failed { R.failed (reader_of decoder.new) ≡ R.failed (reader_of decoder.old) }
    ensures handle { R.handle (reader_of decoder.new) ≡ R.handle (reader_of decoder.old) }
    ensures waiting { waiting_of decoder.new ≡ waiting_of decoder.old }
    ensures same { shortest_of decoder.new ≡ shortest_of decoder.old }
{
    let Some((front, _)) = decoder.held().split_at_checked(n) else {
        return Ok(false);
    };
    let len = into.len();
    into.extend_from_slice(front)?;
    if !decoder.take(n) {
        into.truncate(len);
        return Ok(false);
    }
    Ok(true)
}

/// The next bytes, so many, in one piece, in the capacity that there is for them. Those at hand are
/// appended as they are.
#[inline(always)]
fn read_piece<R: Read>(
    decoder: &mut Decoder<R>,
    size: usize,
    into: &mut Vec<u8>,
) -> Result<(), Error<R::Error>>
    requires fresh { waiting_of decoder.old ≡ None }
    requires small { size ≤ 4096 }
    ensures ok { OnOk result (Takes (seen R.Read decoder.old) (seen R.Read decoder.new)
        (λ b. (length b ≡ size) × (into.new.items ≡ into.old.items ++ b))) }
    ensures held { UnlessMemory result (vec_capacity into.new ≤ vec_capacity into.old) }
    ensures grows { offset_of decoder.old ≤ offset_of decoder.new }
    ensures err { IfErr result (NamesShort R.ends size
        (seen R.Read decoder.old) (seen R.Read decoder.new)) }
    ensures leaves { Leaves R.ends (λ b. length b ≤ size) result
        (seen R.Read decoder.old) (seen R.Read decoder.new) }
{
    let room = into.capacity();
    let Ok(is_appended) = append_held(decoder, size, into) else {
        return Err(Error::Memory);
    };
    if !is_appended {
        return fill_piece(decoder, size, into, room);
    }
    if into.capacity() > room {
        return Err(Error::Memory);
    }
    Ok(())
}

/// The next n bytes, in pieces.
fn read_bytes<R: Read>(
    decoder: &mut Decoder<R>,
    n: usize,
    into: &mut Vec<u8>,
) -> Result<(), Error<R::Error>>
    requires fresh { waiting_of decoder.old ≡ None }
    requires earned { IsEarned (length into.old.items) (vec_capacity into.old) }
    ensures ok { OnOk result (Takes (seen R.Read decoder.old) (seen R.Read decoder.new)
        (λ b. (length b ≡ n) × (into.new.items ≡ into.old.items ++ b))) }
    ensures held { UnlessMemory result (IsEarnedSince (length into.old.items)
        (offset_of decoder.old) (offset_of decoder.new) (vec_capacity into.new)) }
    ensures alone { into.old.items ≡ [] → UnlessMemory result
        (vec_capacity into.new ≤ max (vec_capacity into.old) n) }
    ensures err { IfErr result (NamesShort R.ends n
        (seen R.Read decoder.old) (seen R.Read decoder.new)) }
    ensures leaves { Leaves R.ends (λ b. length b ≤ n) result
        (seen R.Read decoder.old) (seen R.Read decoder.new) }
{
    let mut got = 0;
    'pieces: while got < n {
        let rest = n - got;
        let Ok(()) = make_room(into, got, rest) else {
            return Err(Error::Memory);
        };
        let size = rest.min(PIECE);
        read_piece(decoder, size, into)?;
        got += size;
    }
    Ok(())
}

/// The body of a definite string whose title begins at the place `at`.
fn read_chunk<R: Read>(
    decoder: &mut Decoder<R>,
    text: bool,
    n: usize,
    at: usize,
    into: &mut Vec<u8>,
) -> Result<(), Error<R::Error>>
    requires fresh { waiting_of decoder.old ≡ None }
    requires earned { IsEarned (length into.old.items) (vec_capacity into.old) }
    ensures ok { OnOk result (Takes (seen R.Read decoder.old) (seen R.Read decoder.new)
        (λ b. ChunkBody text n into.old.items into.new.items b)) }
    ensures held { UnlessMemory result (IsEarnedSince (length into.old.items)
        (offset_of decoder.old) (offset_of decoder.new) (vec_capacity into.new)) }
    ensures err { IfErr result (NamesFaultAfterTitle R.ends (string_head text (Some n)) at
        (ChunkDamage (string_head text) (IsBody text))
        (seen R.Read decoder.old) (seen R.Read decoder.new)) }
    ensures leaves { Leaves R.ends (λ b. length b ≤ n) result
        (seen R.Read decoder.old) (seen R.Read decoder.new) }
{
    let start = into.len();
    read_bytes(decoder, n, into)?;
    if text && simdutf8::compat::from_utf8(&into[start..]).is_err() {
        return Err(Error::Syntax(at));
    }
    Ok(())
}

/// Whether the head that was read is one of a string of this kind.
fn is_string<R: Read>(decoder: &Decoder<R>, text: bool) -> bool
    ensures { MatchBool result (last_head decoder.now ≡ string_head text (last_length decoder.now))
        ((o : Option ℕ) → last_head decoder.now ≢ string_head text o) }
{
    if text {
        decoder.major() == 3
    } else {
        decoder.major() == 2
    }
}

/// The bytes of a string of this length, in their own size. A short one comes in one piece.
#[inline(always)]
fn read_sized<R: Read>(
    alloc: Global,
    decoder: &mut Decoder<R>,
    n: usize,
) -> Result<Vec<u8>, Error<R::Error>>
    requires fresh { waiting_of decoder.old ≡ None }
    ensures ok { IfOk result (λ v. Takes (seen R.Read decoder.old) (seen R.Read decoder.new)
        (λ b. (length b ≡ n) × (v.items ≡ b))) }
    ensures held { IfOk result (λ v. vec_capacity v ≤ n) }
    ensures err { IfErr result (NamesShort R.ends n
        (seen R.Read decoder.old) (seen R.Read decoder.new)) }
    ensures leaves { Leaves R.ends (λ b. length b ≤ n) result
        (seen R.Read decoder.old) (seen R.Read decoder.new) }
{
    if n > PIECE {
        let mut bytes = Vec::new(alloc);
        read_bytes(decoder, n, &mut bytes)?;
        return Ok(bytes);
    }
    let Ok(mut bytes) = Vec::with_capacity(alloc, n) else {
        return Err(Error::Memory);
    };
    read_piece(decoder, n, &mut bytes)?;
    Ok(bytes)
}

/// The bytes of a byte string whose title, with the length given, begins at the place `at`.
#[inline(always)]
pub fn read_string<R: Read>(
    alloc: Global,
    decoder: &mut Decoder<R>,
    length: Option<usize>,
    at: usize,
) -> Result<Vec<u8>, Error<R::Error>>
    requires fresh { waiting_of decoder.old ≡ None }
    ensures ok { IfOk result (λ v. Takes (seen R.Read decoder.old) (seen R.Read decoder.new)
        (λ b. StringAfterHead false length v.items b)) }
    ensures held { IfOk result (λ v. IsFitting length v.items (vec_capacity v)) }
    ensures err { IfErr result (NamesFaultAfterTitle R.ends (Bytes length) at
        (StringDamage Bytes (IsBody false)) (seen R.Read decoder.old) (seen R.Read decoder.new)) }
    ensures leaves { Leaves R.ends (OneAfterTitle (Bytes length)) result
        (seen R.Read decoder.old) (seen R.Read decoder.new) }
{
    match length {
        Some(n) => {
            let bytes = read_sized(alloc, decoder, n)?;
            Ok(bytes)
        }
        None => {
            let mut bytes = Vec::new(alloc);
            read_open(decoder, false, at, &mut bytes)?;
            Ok(bytes)
        }
    }
}

/// The bodies of an open string up to its break.
fn read_open<R: Read>(
    decoder: &mut Decoder<R>,
    text: bool,
    at: usize,
    into: &mut Vec<u8>,
) -> Result<(), Error<R::Error>>
    requires fresh { waiting_of decoder.old ≡ None }
    requires empty { into.old.items ≡ [] }
    requires earned { IsEarned 0 (vec_capacity into.old) }
    ensures ok { OnOk result (Takes (seen R.Read decoder.old) (seen R.Read decoder.new)
        (λ b. StringAfterHead text None into.new.items b)) }
    ensures held { OnOk result (IsEarned (length into.new.items) (vec_capacity into.new)) }
    ensures err { IfErr result (NamesFaultAfterTitle R.ends (string_head text None) at
        (StringDamage (string_head text) (IsBody text))
        (seen R.Read decoder.old) (seen R.Read decoder.new)) }
    ensures leaves { Leaves R.ends (OneAfterTitle (string_head text None)) result
        (seen R.Read decoder.old) (seen R.Read decoder.new) }
{
    let mut inner: usize = 0;
    'parts: loop {
        let place = decoder.offset();
        next_head(decoder)?;
        if is_string(decoder, text) {
            match decoder.head_length() {
                Some(n) => read_chunk(decoder, text, n, place, into)?,
                None => inner += 1,
            }
        } else if decoder.head().is_break() {
            if inner == 0 {
                return Ok(());
            }
            inner -= 1;
        } else {
            return Err(Error::Syntax(place));
        }
    }
}

/// Texts of so many bytes at most are tested for ASCII first.
const SHORT: usize = 32;

/// Whether all bytes are ASCII.
fn is_ascii(bytes: &[u8]) -> bool
    ensures { IsTrue result → IsUtf8 bytes.now }
{
    let mut i = 0;
    'bytes: while i < bytes.len() {
        if bytes[i] >= 128 {
            return false;
        }
        i += 1;
    }
    true
}

/// Whether the bytes are UTF-8.
fn is_text(bytes: &[u8]) -> bool
    ensures { MatchBool result (IsUtf8 bytes.now) (IsUtf8 bytes.now → ⊥) }
{
    if bytes.len() <= SHORT && is_ascii(bytes) {
        return true;
    }
    simdutf8::basic::from_utf8(bytes).is_ok()
}

/// The text of these bytes, if they are UTF-8.
fn text_of(bytes: Vec<u8>) -> Option<String>
    ensures none { IfNone result (IsUtf8 bytes.items → ⊥) }
    ensures text { IfSome result (λ s. string_bytes s ≡ bytes.items) }
    ensures valid { IfSome result (λ s. IsUtf8 (string_bytes s)) }
    ensures capacity { IfSome result (λ s. string_capacity s ≡ vec_capacity bytes) }
{
    if !is_text(&bytes) {
        return None;
    }
    Some(unsafe { String::from_utf8_unchecked(bytes) })
}

/// The text of a string whose title, with the length given, begins at the place `at`.
#[inline(always)]
pub fn read_text<R: Read>(
    alloc: Global,
    decoder: &mut Decoder<R>,
    length: Option<usize>,
    at: usize,
) -> Result<String, Error<R::Error>>
    requires fresh { waiting_of decoder.old ≡ None }
    ensures ok { IfOk result (λ v. Takes (seen R.Read decoder.old) (seen R.Read decoder.new)
        (λ b. StringAfterHead true length (string_bytes v) b)) }
    ensures held { IfOk result (λ v. IsFitting length (string_bytes v) (string_capacity v)) }
    ensures err { IfErr result (NamesFaultAfterTitle R.ends (Text length) at
        (StringDamage Text IsUtf8) (seen R.Read decoder.old) (seen R.Read decoder.new)) }
    ensures leaves { Leaves R.ends (OneAfterTitle (Text length)) result
        (seen R.Read decoder.old) (seen R.Read decoder.new) }
{
    match length {
        Some(n) => read_whole_text(alloc, decoder, n, at),
        None => read_cut_text(alloc, decoder, at),
    }
}

/// The text of a definite string. It is tested once.
#[inline]
fn read_whole_text<R: Read>(
    alloc: Global,
    decoder: &mut Decoder<R>,
    n: usize,
    at: usize,
) -> Result<String, Error<R::Error>>
    requires fresh { waiting_of decoder.old ≡ None }
    ensures ok { IfOk result (λ v. Takes (seen R.Read decoder.old) (seen R.Read decoder.new)
        (λ b. StringAfterHead true (Some n) (string_bytes v) b)) }
    ensures held { IfOk result (λ v. string_capacity v ≤ n) }
    ensures err { IfErr result (NamesFaultAfterTitle R.ends (Text (Some n)) at
        (StringDamage Text IsUtf8) (seen R.Read decoder.old) (seen R.Read decoder.new)) }
    ensures leaves { Leaves R.ends (OneAfterTitle (Text (Some n))) result
        (seen R.Read decoder.old) (seen R.Read decoder.new) }
{
    let bytes = read_sized(alloc, decoder, n)?;
    match text_of(bytes) {
        Some(text) => Ok(text),
        None => Err(Error::Syntax(at)),
    }
}

/// The text of an open string, each of whose bodies is a text.
fn read_cut_text<R: Read>(
    alloc: Global,
    decoder: &mut Decoder<R>,
    at: usize,
) -> Result<String, Error<R::Error>>
    requires fresh { waiting_of decoder.old ≡ None }
    ensures ok { IfOk result (λ v. Takes (seen R.Read decoder.old) (seen R.Read decoder.new)
        (λ b. StringAfterHead true None (string_bytes v) b)) }
    ensures held { IfOk result (λ v. IsEarned (length (string_bytes v)) (string_capacity v)) }
    ensures err { IfErr result (NamesFaultAfterTitle R.ends (Text None) at
        (StringDamage Text IsUtf8) (seen R.Read decoder.old) (seen R.Read decoder.new)) }
    ensures leaves { Leaves R.ends (OneAfterTitle (Text None)) result
        (seen R.Read decoder.old) (seen R.Read decoder.new) }
{
    let mut bytes = Vec::new(alloc);
    read_open(decoder, true, at, &mut bytes)?;
    match text_of(bytes) {
        Some(text) => Ok(text),
        None => Err(Error::Syntax(at)),
    }
}
