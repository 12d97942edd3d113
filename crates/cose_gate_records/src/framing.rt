//! Bytes after their length: eight bytes, the lowest first.
ghost use Rattle.std.specs.Prelude.{◌≡◌, ◌<◌, ◌^◌, ◌++◌, ℕ, List, MatchOption, IfOk, OnOk, OnErr};
ghost use Rattle.std.specs.Prelude.{map, flat_map};
ghost use Rattle.std.specs.Ordering.{ordering_then};
ghost use Rattle.cose_gate_records.specs.Framing.{eight, framed};
ghost use Rattle.cose_gate_records.specs.Order.{bytes_cmp};

use std::alloc::{AllocError, Global};
use std::cmp::Ordering;

/// A number in eight bytes, the lowest first.
pub fn eight(length: usize) -> [u8; 8]
    ensures { result ≡ eight length }
{
    (length as u64).to_le_bytes()
}

/// Appends the bytes after their length.
pub fn append(text: &mut Vec<u8>, piece: &[u8]) -> Result<(), AllocError>
    ensures { OnOk result («text».new.items ≡ «text».old.items ++ framed piece.now) }
{
    text.extend_from_slice(&eight(piece.len()))?;
    text.extend_from_slice(piece)
}

/// The number that eight bytes are.
fn number_of(bytes: [u8; 8]) -> u64
    ensures { eight result ≡ bytes }
{
    u64::from_le_bytes(bytes)
}

/// The number that the first eight bytes are, the lowest first, and the rest; `None` if there are
/// fewer bytes.
pub fn split_number(bytes: &[u8]) -> Option<(u64, &[u8])>
    ensures { MatchOption result
        ((number : ℕ) (rest : List ℕ) → bytes.now ≡ eight number ++ rest → ⊥)
        (λ p. (p.0 < 2 ^ 64) × (bytes.now ≡ eight p.0 ++ p.1.now)) }
{
    let (number, rest) = bytes.split_first_chunk::<8>()?;
    Some((number_of(*number), rest))
}

/// The first bytes that come after their length, and the rest; `None` if there are fewer bytes than
/// that length.
pub fn split_first(bytes: &[u8]) -> Option<(&[u8], &[u8])>
    ensures { MatchOption result
        ((piece rest : List ℕ) → bytes.now ≡ framed piece ++ rest → ⊥)
        (λ p. bytes.now ≡ framed p.0.now ++ p.1.now) }
{
    let (length, rest) = split_number(bytes)?;
    let (piece, rest) = rest.split_at_checked(length as usize)?;
    Some((piece, rest))
}

/// The pieces that the bytes are, each framed, one after another; `None` if they are no such
/// pieces.
pub(crate) fn split(alloc: Global, bytes: &[u8]) -> Result<Option<Vec<&[u8]>>, AllocError>
    ensures { IfOk result (λ pieces. MatchOption pieces
        ((all : List (List ℕ)) → bytes.now ≡ flat_map framed all → ⊥)
        (λ v. bytes.now ≡ flat_map framed (map (λ p. p.now) v.items))) }
{
    let mut pieces = Vec::new(alloc);
    let mut rest = bytes;
    while rest.len() > 0 {
        let Some((piece, more)) = split_first(rest) else {
            return Ok(None);
        };
        pieces.push(piece)?;
        rest = more;
    }
    Ok(Some(pieces))
}

/// How `text` compares with any bytes that begin with `front`: the order, if `front` decides it,
/// and else equal; and what of `text` comes after as many bytes as `front` has.
pub(crate) fn order_to<'a>(text: &'a [u8], front: &[u8]) -> (Ordering, &'a [u8])
    ensures { (more : List ℕ) → bytes_cmp text.now (front.now ++ more)
        ≡ ordering_then result.0 (bytes_cmp result.1.now more) }
{
    let (head, rest) = text.split_at(text.len().min(front.len()));
    (head.cmp(&front), rest)
}

/// As `order_to`, of any bytes that begin with the framed piece.
pub(crate) fn order_to_framed<'a>(text: &'a [u8], piece: &[u8]) -> (Ordering, &'a [u8])
    ensures { (more : List ℕ) → bytes_cmp text.now (framed piece.now ++ more)
        ≡ ordering_then result.0 (bytes_cmp result.1.now more) }
{
    let (order, rest) = order_to(text, &eight(piece.len()));
    if order.is_ne() {
        return (order, rest);
    }
    order_to(rest, piece)
}
