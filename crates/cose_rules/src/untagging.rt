//! The tags around a token that only say what it is.
ghost use Rattle.std.specs.Prelude.{◌<◌, ℕ, List, length, IfSome, IfNone, MatchBool};
ghost use Rattle.cose_rules.specs.Untagging.{IsWrapper, Wraps, Unwraps};

use ciborium_ll::{Decoder, Header};

/// Whether this is the head of a tag that is taken off: of a CBOR Web Token, or of CBOR.
fn is_wrapper(header: Header) -> bool
    ensures { MatchBool result (IsWrapper header) (IsWrapper header → ⊥) }
{
    match header {
        Header::Tag(number) => number == 61 || number == 55_799,
        _ => false,
    }
}

/// What comes after the head of such a tag, if these bytes begin with one.
fn inner_of(item: &[u8]) -> Option<&[u8]>
    ensures some { IfSome result (λ inner. Wraps item.now inner.now
        × (length inner.now < length item.now)) }
    ensures none { IfNone result ((inner : List ℕ) → Wraps item.now inner → ⊥) }
{
    let mut decoder = Decoder::from(item);
    match decoder.pull() {
        Ok(header) => {
            if is_wrapper(header) {
                Some(&item[decoder.offset()..])
            } else {
                None
            }
        }
        Err(_) => None,
    }
}

/// What is in all tags 61 and 55799 at the front of a message (RFC 8392, section 6; RFC 8949,
/// section 3.4.6).
pub fn untagged(item: &[u8]) -> &[u8]
    ensures { Unwraps item.now result.now }
{
    let mut rest = item;
    'tags: for done in 0..item.len() {
        match inner_of(rest) {
            Some(inner) => rest = inner,
            None => return rest,
        }
    }
    rest
}
