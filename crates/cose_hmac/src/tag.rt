//! The comparison of tags.
ghost use Rattle.std.specs.Prelude.{◌≡◌, ◌↔◌, IsTrue};

/// Whether two tags are equal, byte for byte. It doesn't stop at the first difference.
pub fn same_tag(a: &[u8], b: &[u8]) -> bool
    ensures { IsTrue result ↔ (a.now ≡ b.now) }
{
    let mut difference = 0;
    for (x, y) in a.iter().zip(b) {
        difference |= x ^ y;
    }
    a.len() == b.len() && difference == 0
}
