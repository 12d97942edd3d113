//! Times compared with whole seconds.
ghost use Rattle.std.specs.Ordering.{int_cmp, nat_cmp};
ghost use Rattle.std.specs.Prelude.{◌≡◌, ◌<◌, ◌≤◌, ℕ, ◌*◌, ◌^◌, ℤ, pos, ◌*ℤ◌, nat_eq};
ghost use Rattle.std.specs.Prelude.{if◌then◌else◌};
ghost use Rattle.coset_claims.specs.Seconds.{against, infinite, no_number, number_by, number_of};
ghost use Rattle.coset_claims.specs.Seconds.{signed, time_against, units};
ghost use Rattle.coset_claims.specs.View.{time_view};

use crate::cwt::Timestamp;
use ciborium_ll::Float;
use std::cmp::Ordering;

impl Timestamp {
    /// How this time compares with a whole number of seconds since 1970-01-01T00:00:00Z, exactly,
    /// also if it is a float; `None` if it is a NaN, which is no number.
    pub fn partial_cmp_seconds(&self, seconds: i64) -> Option<Ordering>
        ensures { result ≡ time_against (time_view self.now) seconds }
    {
        match self {
            Timestamp::WholeSeconds(own) => Some(own.cmp(&seconds)),
            Timestamp::FractionalSeconds(own) => float_cmp(*own, seconds),
        }
    }
}

/// How a float compares with a whole number.
fn float_cmp(float: Float, whole: i64) -> Option<Ordering>
    ensures { result ≡ against (number_of float) whole }
{
    match float {
        Float::Half(bits) => bits_cmp(5, 10, u64::from(bits), whole),
        Float::Single(bits) => bits_cmp(8, 23, u64::from(bits), whole),
        Float::Double(bits) => bits_cmp(11, 52, bits, whole),
    }
}

/// The same by the bits, of which so many are the exponent's, and so many the fraction's.
fn bits_cmp(width: u32, places: u32, bits: u64, whole: i64) -> Option<Ordering>
    requires some { 1 < width }
    requires few { width ≤ 11 }
    requires room { places ≤ 52 }
    ensures { result ≡ against (number_by width places bits) whole }
{
    let negative = bits / 2u64.pow(width + places) == 1;
    let exponent = bits / 2u64.pow(places) % 2u64.pow(width);
    let fraction = bits % 2u64.pow(places);
    if exponent == 2u64.pow(width) - 1 {
        return infinite_cmp(negative, fraction);
    }
    let (size, power) = units_of(places, exponent as u32, fraction);
    let least = 2u32.pow(width - 1) - 2 + places;
    Some(signed_cmp(negative, size, power, whole, least))
}

/// How an infinity compares with every number; `None` if the fraction makes it a NaN.
fn infinite_cmp(negative: bool, fraction: u64) -> Option<Ordering>
    ensures { (n : ℤ) → result
        ≡ against (if nat_eq fraction 0 then infinite negative else no_number) n }
{
    match (fraction, negative) {
        (0, true) => Some(Ordering::Less),
        (0, false) => Some(Ordering::Greater),
        _ => None,
    }
}

/// The units of a number: the first, times two to the power of the second.
fn units_of(places: u32, exponent: u32, fraction: u64) -> (u64, u32)
    requires room { places ≤ 52 }
    requires fits { fraction < 2 ^ places }
    ensures { result.0 * 2 ^ result.1 ≡ units places exponent fraction }
{
    if exponent == 0 {
        (fraction, 0)
    } else {
        (2u64.pow(places) + fraction, exponent - 1)
    }
}

/// How `a` times two to the power `j`, less than 0 if it is negative, stands to `b` times two to
/// the power `k`.
fn signed_cmp(negative: bool, a: u64, j: u32, b: i64, k: u32) -> Ordering
    ensures { result ≡ int_cmp (signed negative (a * 2 ^ j)) (b *ℤ pos (2 ^ k)) }
{
    let size = b.unsigned_abs();
    match (negative, b.is_negative()) {
        (false, false) => scaled_cmp(a, j, size, k),
        (true, true) => scaled_cmp(size, k, a, j),
        (false, true) => Ordering::Greater,
        (true, false) if a == 0 && size == 0 => Ordering::Equal,
        (true, false) => Ordering::Less,
    }
}

/// How `a` times two to the power `j` stands to `b` times two to the power `k`. Each is divided by
/// the lesser of the two powers. What is left of the other decides no otherwise if it is cut to 64,
/// since `a` and `b` are less than two to the power 64.
fn scaled_cmp(a: u64, j: u32, b: u64, k: u32) -> Ordering
    ensures { result ≡ nat_cmp (a * 2 ^ j) (b * 2 ^ k) }
{
    let up = j.saturating_sub(k).min(64);
    let down = k.saturating_sub(j).min(64);
    (u128::from(a) << up).cmp(&(u128::from(b) << down))
}
