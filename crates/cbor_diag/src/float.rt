//! Floats as text. Their bits are taken apart, and put together as a number of 64 bits, exactly.
use crate::page::Page;
use ciborium_ll::Float;
use std::alloc::Global;
use std::fmt;

/// A float taken apart.
#[derive(Debug, Clone, Copy, PartialEq, Eq)]
struct Parts {
    negative: bool,
    size: Size,
}

#[derive(Debug, Clone, Copy, PartialEq, Eq)]
enum Size {
    /// The first number times two to the power of the second.
    Finite(u64, i32),
    Infinite,
    /// A NaN, by the bits after its exponent, in the places that they have in 64 bits.
    NoNumber(u64),
}

/// The parts of a float, by its sign, its exponent and the bits after it.
fn apart(bits: u64, exponent_bits: u32, fraction_bits: u32) -> Parts {
    let fraction = bits & mask(fraction_bits);
    let exponent = shifted(bits, fraction_bits) & mask(exponent_bits);
    let negative = shifted(bits, fraction_bits.wrapping_add(exponent_bits)) & 1 == 1;
    let bias = (mask(exponent_bits) >> 1).wrapping_add(u64::from(fraction_bits));
    let size = if exponent == mask(exponent_bits) {
        special(fraction, fraction_bits)
    } else if exponent == 0 {
        Size::Finite(fraction, below(1, bias))
    } else {
        Size::Finite(fraction | top(fraction_bits), below(exponent, bias))
    };
    Parts { negative, size }
}

fn special(fraction: u64, fraction_bits: u32) -> Size {
    if fraction == 0 {
        Size::Infinite
    } else {
        Size::NoNumber(
            fraction
                .checked_shl(52u32.saturating_sub(fraction_bits))
                .unwrap_or(0),
        )
    }
}

fn mask(bits: u32) -> u64 {
    top(bits).wrapping_sub(1)
}

fn top(bits: u32) -> u64 {
    1u64.checked_shl(bits).unwrap_or(0)
}

fn shifted(bits: u64, by: u32) -> u64 {
    bits.checked_shr(by).unwrap_or(0)
}

/// The difference of two small numbers.
fn below(a: u64, b: u64) -> i32 {
    let a = i32::try_from(a).unwrap_or(0);
    let b = i32::try_from(b).unwrap_or(0);
    a.wrapping_sub(b)
}

fn parts_of(float: Float) -> Parts {
    match float {
        Float::Half(bits) => apart(u64::from(bits), 5, 10),
        Float::Single(bits) => apart(u64::from(bits), 8, 23),
        Float::Double(bits) => apart(bits, 11, 52),
    }
}

/// A float without its fraction; none below 0, from 2^64 on, and of what is no number.
pub fn whole_part(float: Float) -> Option<u64> {
    let parts = parts_of(float);
    match parts.size {
        Size::Finite(count, power) if !parts.negative => doubled(count, power),
        _ => None,
    }
}

/// `count` times two to this power, without its fraction; none if it needs more than 64 bits.
fn doubled(count: u64, power: i32) -> Option<u64> {
    match u32::try_from(power) {
        Ok(by) if by <= count.leading_zeros() => count.checked_shl(by),
        Ok(_) => None,
        Err(_) => {
            let by = u32::try_from(0i32.wrapping_sub(power)).unwrap_or(64);
            Some(shifted(count, by))
        }
    }
}

/// The encoding indicator of a float: 2 or 3 if fewer bits would do.
pub fn wide(float: Float) -> Option<u8> {
    let size = parts_of(float).size;
    match float {
        Float::Half(_) => None,
        Float::Single(_) if fits(size, HALF) => Some(2),
        Float::Double(_) if fits(size, HALF) || fits(size, SINGLE) => Some(3),
        _ => None,
    }
}

/// What a width can hold.
#[derive(Clone, Copy)]
struct Width {
    /// How many bits a number has at most.
    bits: u32,
    /// The power of two of its smallest number.
    least: i32,
    /// All numbers are below this power of two.
    most: i32,
    /// How many of the 52 bits after the exponent of a double it lacks.
    lost: u32,
}

const HALF: Width = Width {
    bits: 11,
    least: -24,
    most: 16,
    lost: 42,
};

const SINGLE: Width = Width {
    bits: 24,
    least: -149,
    most: 128,
    lost: 29,
};

fn fits(size: Size, width: Width) -> bool {
    match size {
        Size::Infinite => true,
        Size::NoNumber(fraction) => fraction & mask(width.lost) == 0,
        Size::Finite(0, _) => true,
        Size::Finite(count, power) => {
            let zeros = count.trailing_zeros();
            let bits = 64u32.saturating_sub(count.leading_zeros());
            let needed = bits.saturating_sub(zeros);
            let least = power.saturating_add(to_i32(zeros));
            let most = power.saturating_add(to_i32(bits));
            needed <= width.bits && least >= width.least && most <= width.most
        }
    }
}

fn to_i32(n: u32) -> i32 {
    i32::try_from(n).unwrap_or(0)
}

/// `count` times two to this power; exact if a float of 64 bits can be that.
fn scaled(count: u64, power: i32) -> f64 {
    let [a, b, c, d, e, f, g, h] = count.to_be_bytes();
    let high = f64::from(u32::from_be_bytes([a, b, c, d]));
    let low = f64::from(u32::from_be_bytes([e, f, g, h]));
    let mut value = high * 4294967296.0 + low;
    let factor = if power < 0 { 0.5 } else { 2.0 };
    for _ in 0..power.unsigned_abs() {
        value *= factor;
    }
    value
}

/// Writes a float: its shortest decimal, with a point, in the form of RFC 8949, Appendix A.
pub fn write_float<W: fmt::Write>(alloc: Global, float: Float, page: &mut Page<'_, W>) {
    let parts = parts_of(float);
    let sign = if parts.negative { "-" } else { "" };
    match parts.size {
        Size::Infinite => write!(page, "{sign}Infinity"),
        Size::NoNumber(fraction) => write_no_number(float, parts.negative, fraction, page),
        Size::Finite(count, power) => write_finite(alloc, sign, scaled(count, power), page),
    }
}

/// A NaN that isn't the usual one has its bits after it, in a comment.
fn write_no_number<W: fmt::Write>(
    float: Float,
    negative: bool,
    fraction: u64,
    page: &mut Page<'_, W>,
) {
    if !negative && fraction == top(51) {
        page.write_str("NaN");
        return;
    }
    match float {
        Float::Half(bits) => write!(page, "NaN /{bits:04x}/"),
        Float::Single(bits) => write!(page, "NaN /{bits:08x}/"),
        Float::Double(bits) => write!(page, "NaN /{bits:016x}/"),
    }
}

fn write_finite<W: fmt::Write>(alloc: Global, sign: &str, value: f64, page: &mut Page<'_, W>) {
    let Some(scientific) = page.kept(format!(in alloc; "{value:e}")) else {
        return;
    };
    page.write_str(sign);
    let Some((digits, exponent)) = scientific.as_str().split_once('e') else {
        page.write_str(scientific.as_str());
        return;
    };
    let exponent = exponent.parse::<i32>().unwrap_or(0);
    let (front, back) = digits.split_once('.').unwrap_or((digits, ""));
    if let Some(digits) = page.kept(format!(in alloc; "{front}{back}")) {
        write_digits(digits.as_str(), exponent, page);
    }
}

/// Digits with the point after the first of them, times ten to this power.
fn write_digits<W: fmt::Write>(digits: &str, exponent: i32, page: &mut Page<'_, W>) {
    if exponent < -6 || exponent > 20 {
        let (front, back) = digits.split_at_checked(1).unwrap_or((digits, ""));
        let back = if back.is_empty() { "0" } else { back };
        let mark = if exponent < 0 { "" } else { "+" };
        write!(page, "{front}.{back}e{mark}{exponent}");
    } else if exponent < 0 {
        page.write_str("0.");
        write_zeros(exponent.unsigned_abs().saturating_sub(1), page);
        page.write_str(digits);
    } else {
        write_whole(digits, exponent.unsigned_abs(), page);
    }
}

/// Digits with so many of them and one more in front of the point.
fn write_whole<W: fmt::Write>(digits: &str, exponent: u32, page: &mut Page<'_, W>) {
    let point = usize::try_from(exponent).unwrap_or(0).saturating_add(1);
    match digits.split_at_checked(point) {
        Some((front, back)) => {
            let back = if back.is_empty() { "0" } else { back };
            write!(page, "{front}.{back}");
        }
        None => {
            page.write_str(digits);
            let missing = point.saturating_sub(digits.len());
            write_zeros(u32::try_from(missing).unwrap_or(0), page);
            page.write_str(".0");
        }
    }
}

fn write_zeros<W: fmt::Write>(count: u32, page: &mut Page<'_, W>) {
    for _ in 0..count {
        page.write_str("0");
    }
}
