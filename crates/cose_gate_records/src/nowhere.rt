//! A writer that keeps nothing.
ghost use Rattle.std.specs.Prelude.{None};

use ciborium_ll::{Full, Write};

/// Takes all that is written, and keeps none of it.
#[derive(Drop)]
pub struct Nowhere;

impl Write for Nowhere {
    type Error = Full;

    ghost written = { λ _. None };

    ghost failed = { λ _. 0 };

    fn write_all(&mut self, _data: &[u8]) -> Result<(), Full> {
        Ok(())
    }

    fn flush(&mut self) -> Result<(), Full> {
        Ok(())
    }
}
