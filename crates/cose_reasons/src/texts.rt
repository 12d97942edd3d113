//! Bytes of text in hex and in base64.
ghost use Rattle.std.specs.Prelude.{◌≡◌};
ghost use Rattle.cose_reasons.specs.Texts as spec;

/// Whether a byte is of a text in hex: a digit, or white space.
pub fn is_of_hex(byte: u8) -> bool
    ensures { result ≡ spec.is_of_hex byte }
{
    byte.is_ascii_hexdigit() || byte.is_ascii_whitespace()
}

/// Whether a byte is of a text in base64, of either alphabet (RFC 4648, sections 4 and 5), or white
/// space.
pub fn is_of_base64(byte: u8) -> bool
    ensures { result ≡ spec.is_of_base64 byte }
{
    byte.is_ascii_alphanumeric()
        || byte.is_ascii_whitespace()
        || matches!(byte, b'+' | b'/' | b'-' | b'_' | b'=')
}
