//! Integers of CBOR.
ghost use Rattle.std.specs.Prelude.{◌≡◌, pos, negsuc, ◌≤ℤ◌};

use std::num::TryFromIntError;

/// An integer from -2^64 to 2^64 - 1, the numbers that a head can say (RFC 8949, section 3.1).
#[derive(Debug, Clone, Copy, PartialEq, Eq, PartialOrd, Ord, Hash)]
pub struct Integer {
    number: i128,
    ghost low: { negsuc 0xffff_ffff_ffff_ffff ≤ℤ number },
    ghost high: { number ≤ℤ pos 0xffff_ffff_ffff_ffff },
}

impl Integer {
    ghost use Rattle.ciborium_value.specs.View.{number_of};

    /// The integer -1 - n.
    pub fn negative(n: u64) -> Integer
        ensures { number_of result ≡ negsuc n }
    {
        Integer {
            number: -1 - n as i128,
        }
    }
}

impl From<u8> for Integer {
    ghost use Rattle.std.specs.Prelude.{◌≡◌, pos};
    ghost use Rattle.ciborium_value.specs.View.{number_of};

    ghost from_gives = { λ n i. number_of i ≡ pos n };

    fn from(n: u8) -> Integer {
        Integer::from(u64::from(n))
    }
}

impl From<u16> for Integer {
    ghost use Rattle.std.specs.Prelude.{◌≡◌, pos};
    ghost use Rattle.ciborium_value.specs.View.{number_of};

    ghost from_gives = { λ n i. number_of i ≡ pos n };

    fn from(n: u16) -> Integer {
        Integer::from(u64::from(n))
    }
}

impl From<u32> for Integer {
    ghost use Rattle.std.specs.Prelude.{◌≡◌, pos};
    ghost use Rattle.ciborium_value.specs.View.{number_of};

    ghost from_gives = { λ n i. number_of i ≡ pos n };

    fn from(n: u32) -> Integer {
        Integer::from(u64::from(n))
    }
}

impl From<u64> for Integer {
    ghost use Rattle.std.specs.Prelude.{◌≡◌, pos};
    ghost use Rattle.ciborium_value.specs.View.{number_of};

    ghost from_gives = { λ n i. number_of i ≡ pos n };

    fn from(n: u64) -> Integer {
        Integer { number: n as i128 }
    }
}

impl From<usize> for Integer {
    ghost use Rattle.std.specs.Prelude.{◌≡◌, pos};
    ghost use Rattle.ciborium_value.specs.View.{number_of};

    ghost from_gives = { λ n i. number_of i ≡ pos n };

    fn from(n: usize) -> Integer {
        Integer::from(n as u64)
    }
}

impl From<i8> for Integer {
    ghost use Rattle.std.specs.Prelude.{◌≡◌};
    ghost use Rattle.ciborium_value.specs.View.{number_of};

    ghost from_gives = { λ n i. number_of i ≡ n };

    fn from(n: i8) -> Integer {
        Integer::from(i64::from(n))
    }
}

impl From<i16> for Integer {
    ghost use Rattle.std.specs.Prelude.{◌≡◌};
    ghost use Rattle.ciborium_value.specs.View.{number_of};

    ghost from_gives = { λ n i. number_of i ≡ n };

    fn from(n: i16) -> Integer {
        Integer::from(i64::from(n))
    }
}

impl From<i32> for Integer {
    ghost use Rattle.std.specs.Prelude.{◌≡◌};
    ghost use Rattle.ciborium_value.specs.View.{number_of};

    ghost from_gives = { λ n i. number_of i ≡ n };

    fn from(n: i32) -> Integer {
        Integer::from(i64::from(n))
    }
}

impl From<i64> for Integer {
    ghost use Rattle.std.specs.Prelude.{◌≡◌};
    ghost use Rattle.ciborium_value.specs.View.{number_of};

    ghost from_gives = { λ n i. number_of i ≡ n };

    fn from(n: i64) -> Integer {
        Integer {
            number: i128::from(n),
        }
    }
}

impl From<isize> for Integer {
    ghost use Rattle.std.specs.Prelude.{◌≡◌};
    ghost use Rattle.ciborium_value.specs.View.{number_of};

    ghost from_gives = { λ n i. number_of i ≡ n };

    fn from(n: isize) -> Integer {
        Integer::from(n as i64)
    }
}

impl TryFrom<i128> for Integer {
    type Error = TryFromIntError;

    ghost use Rattle.std.specs.Prelude.{◌≡◌, MatchResult};
    ghost use Rattle.ciborium_value.specs.Numbers.{IsHeld};
    ghost use Rattle.ciborium_value.specs.View.{number_of};

    ghost try_from_gives = { λ n r. MatchResult r (λ i. (number_of i ≡ n) × IsHeld n)
        (λ _. ¬ IsHeld n) };

    fn try_from(n: i128) -> Result<Integer, TryFromIntError> {
        if n < 0 {
            return Ok(Integer::negative(u64::try_from(-1 - n)?));
        }
        Ok(Integer::from(u64::try_from(n)?))
    }
}

impl TryFrom<u128> for Integer {
    type Error = TryFromIntError;

    ghost use Rattle.std.specs.Prelude.{◌≡◌, pos, MatchResult};
    ghost use Rattle.ciborium_value.specs.Numbers.{IsHeld};
    ghost use Rattle.ciborium_value.specs.View.{number_of};

    ghost try_from_gives = { λ n r. MatchResult r (λ i. (number_of i ≡ pos n) × IsHeld (pos n))
        (λ _. ¬ IsHeld (pos n)) };

    fn try_from(n: u128) -> Result<Integer, TryFromIntError> {
        Ok(Integer::from(u64::try_from(n)?))
    }
}

impl From<Integer> for i128 {
    ghost use Rattle.std.specs.Prelude.{◌≡◌, pos, negsuc, ◌≤ℤ◌};
    ghost use Rattle.ciborium_value.specs.View.{number_of};

    ghost from_gives = { λ i n. (n ≡ number_of i) × (negsuc 0xffff_ffff_ffff_ffff ≤ℤ n)
        × (n ≤ℤ pos 0xffff_ffff_ffff_ffff) };

    fn from(i: Integer) -> i128 {
        i.number
    }
}

impl TryFrom<Integer> for u8 {
    type Error = TryFromIntError;

    ghost use Rattle.std.specs.Prelude.{OkIff, unsigned_abs};
    ghost use Rattle.std.specs.Int.{w8, FitsUnsigned};
    ghost use Rattle.ciborium_value.specs.View.{number_of};

    ghost try_from_gives = { λ i r. OkIff r (FitsUnsigned w8 (number_of i))
        (unsigned_abs (number_of i)) };

    fn try_from(i: Integer) -> Result<u8, TryFromIntError> {
        u8::try_from(i.number)
    }
}

impl TryFrom<Integer> for u16 {
    type Error = TryFromIntError;

    ghost use Rattle.std.specs.Prelude.{OkIff, unsigned_abs};
    ghost use Rattle.std.specs.Int.{w16, FitsUnsigned};
    ghost use Rattle.ciborium_value.specs.View.{number_of};

    ghost try_from_gives = { λ i r. OkIff r (FitsUnsigned w16 (number_of i))
        (unsigned_abs (number_of i)) };

    fn try_from(i: Integer) -> Result<u16, TryFromIntError> {
        u16::try_from(i.number)
    }
}

impl TryFrom<Integer> for u32 {
    type Error = TryFromIntError;

    ghost use Rattle.std.specs.Prelude.{OkIff, unsigned_abs};
    ghost use Rattle.std.specs.Int.{w32, FitsUnsigned};
    ghost use Rattle.ciborium_value.specs.View.{number_of};

    ghost try_from_gives = { λ i r. OkIff r (FitsUnsigned w32 (number_of i))
        (unsigned_abs (number_of i)) };

    fn try_from(i: Integer) -> Result<u32, TryFromIntError> {
        u32::try_from(i.number)
    }
}

impl TryFrom<Integer> for u64 {
    type Error = TryFromIntError;

    ghost use Rattle.std.specs.Prelude.{OkIff, unsigned_abs};
    ghost use Rattle.std.specs.Int.{w64, FitsUnsigned};
    ghost use Rattle.ciborium_value.specs.View.{number_of};

    ghost try_from_gives = { λ i r. OkIff r (FitsUnsigned w64 (number_of i))
        (unsigned_abs (number_of i)) };

    fn try_from(i: Integer) -> Result<u64, TryFromIntError> {
        u64::try_from(i.number)
    }
}

impl TryFrom<Integer> for usize {
    type Error = TryFromIntError;

    ghost use Rattle.std.specs.Prelude.{OkIff, unsigned_abs};
    ghost use Rattle.std.specs.Int.{w64, FitsUnsigned};
    ghost use Rattle.ciborium_value.specs.View.{number_of};

    ghost try_from_gives = { λ i r. OkIff r (FitsUnsigned w64 (number_of i))
        (unsigned_abs (number_of i)) };

    fn try_from(i: Integer) -> Result<usize, TryFromIntError> {
        usize::try_from(i.number)
    }
}

impl TryFrom<Integer> for u128 {
    type Error = TryFromIntError;

    ghost use Rattle.std.specs.Prelude.{OkIff, pos, ◌≤ℤ◌, unsigned_abs};
    ghost use Rattle.ciborium_value.specs.View.{number_of};

    ghost try_from_gives = { λ i r. OkIff r (pos 0 ≤ℤ number_of i) (unsigned_abs (number_of i)) };

    fn try_from(i: Integer) -> Result<u128, TryFromIntError> {
        u128::try_from(i.number)
    }
}

impl TryFrom<Integer> for i8 {
    type Error = TryFromIntError;

    ghost use Rattle.std.specs.Prelude.{OkIff, FitsSigned};
    ghost use Rattle.std.specs.Int.{w8};
    ghost use Rattle.ciborium_value.specs.View.{number_of};

    ghost try_from_gives = { λ i r. OkIff r (FitsSigned w8 (number_of i)) (number_of i) };

    fn try_from(i: Integer) -> Result<i8, TryFromIntError> {
        i8::try_from(i.number)
    }
}

impl TryFrom<Integer> for i16 {
    type Error = TryFromIntError;

    ghost use Rattle.std.specs.Prelude.{OkIff, FitsSigned};
    ghost use Rattle.std.specs.Int.{w16};
    ghost use Rattle.ciborium_value.specs.View.{number_of};

    ghost try_from_gives = { λ i r. OkIff r (FitsSigned w16 (number_of i)) (number_of i) };

    fn try_from(i: Integer) -> Result<i16, TryFromIntError> {
        i16::try_from(i.number)
    }
}

impl TryFrom<Integer> for i32 {
    type Error = TryFromIntError;

    ghost use Rattle.std.specs.Prelude.{OkIff, FitsSigned};
    ghost use Rattle.std.specs.Int.{w32};
    ghost use Rattle.ciborium_value.specs.View.{number_of};

    ghost try_from_gives = { λ i r. OkIff r (FitsSigned w32 (number_of i)) (number_of i) };

    fn try_from(i: Integer) -> Result<i32, TryFromIntError> {
        i32::try_from(i.number)
    }
}

impl TryFrom<Integer> for i64 {
    type Error = TryFromIntError;

    ghost use Rattle.std.specs.Prelude.{OkIff, FitsSigned};
    ghost use Rattle.std.specs.Int.{w64};
    ghost use Rattle.ciborium_value.specs.View.{number_of};

    ghost try_from_gives = { λ i r. OkIff r (FitsSigned w64 (number_of i)) (number_of i) };

    fn try_from(i: Integer) -> Result<i64, TryFromIntError> {
        i64::try_from(i.number)
    }
}

impl TryFrom<Integer> for isize {
    type Error = TryFromIntError;

    ghost use Rattle.std.specs.Prelude.{OkIff, FitsSigned};
    ghost use Rattle.std.specs.Int.{w64};
    ghost use Rattle.ciborium_value.specs.View.{number_of};

    ghost try_from_gives = { λ i r. OkIff r (FitsSigned w64 (number_of i)) (number_of i) };

    fn try_from(i: Integer) -> Result<isize, TryFromIntError> {
        isize::try_from(i.number)
    }
}
