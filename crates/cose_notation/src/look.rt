//! How much of an item is shown.
use cbor_diag::Style;

/// How much of an item is shown.
#[derive(Debug, Clone, Copy, PartialEq, Eq)]
pub struct Look {
    /// Strings of more than 64 bytes are shown whole, bignums as numbers, and what is known to hold
    /// an item as that item.
    pub full: bool,
    /// What may be secret in a key is shown.
    pub secrets: bool,
}

impl Look {
    /// Long strings are cut, and secrets aren't shown.
    pub fn least() -> Look {
        Look {
            full: false,
            secrets: false,
        }
    }

    /// Notation on several lines.
    pub fn lines(self) -> Style {
        Style {
            lines: true,
            ..self.line()
        }
    }

    /// Notation on one line.
    pub fn line(self) -> Style {
        Style {
            bignums: self.full,
            embedded: self.full,
            cut: !self.full,
            ..Style::line()
        }
    }
}
