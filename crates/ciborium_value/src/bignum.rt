//! The bytes of bignums, the highest first (RFC 8949, section 3.4.3).
ghost use Rattle.std.specs.Prelude.{◌≡◌, ◌<◌, ◌≤◌, length, MatchOption};
ghost use Rattle.ciborium_value.specs.Folding.{big_endian_from, without_zeros};

/// The number of at most 16 bytes, the highest first, or none for more bytes.
pub fn number(bytes: &[u8]) -> Option<u128>
    ensures { MatchOption result (16 < length bytes.now)
        (λ n. (n ≡ big_endian_from 0 bytes.now) × (length bytes.now ≤ 16)) }
{
    if bytes.len() > 16 {
        return None;
    }
    let mut n = 0;
    for x in bytes {
        n = n * 256 + u128::from(*x);
    }
    Some(n)
}

/// The bytes without the zeros in front.
pub fn stripped(bytes: &[u8]) -> &[u8]
    ensures { result.now ≡ without_zeros bytes.now }
{
    let mut rest = bytes;
    'zeros: while let [0, more @ ..] = rest {
        rest = more;
    }
    rest
}
