//! Floats written, and read as numbers. In CBOR a float is its bits, of 16, 32 or 64.
use ciborium::value::{Error, Value};
use ciborium::{Float, cbor};
use std::alloc::Global;
use std::num::{f32_from_bits_with_nan, f64_from_bits_with_nan, f64_to_bits_with_nan};

/// An array with this number, in 64 bits.
pub fn array_of(alloc: Global, number: f64) -> Result<Value, Error> {
    let float = Value::Float(Float::Double(f64_to_bits_with_nan(number)));
    cbor!(alloc, [float])
}

/// The number that a float is.
pub fn number_of(float: Float) -> f64 {
    match float {
        Float::Half(bits) => half(bits),
        Float::Single(bits) => f64::from(f32_from_bits_with_nan(bits)),
        Float::Double(bits) => f64_from_bits_with_nan(bits),
    }
}

/// The number that 16 bits are (RFC 8949, Appendix D).
fn half(bits: u16) -> f64 {
    let fraction = f64::from(bits % 1024);
    let size = match bits / 1024 % 32 {
        0 => fraction / 16_777_216.0,
        31 if bits % 1024 == 0 => f64::INFINITY,
        31 => f64::NAN,
        power => (1024.0 + fraction) * f64::from(1u32 << power) / 33_554_432.0,
    };
    if bits < 1 << 15 { size } else { -size }
}
