//! What a value can't be.
ghost use Rattle.std.specs.Prelude.{◌≡◌};
ghost use Rattle.ciborium_value.specs.KindNames.{kind_name};

use std::fmt;

/// Why an item has no value, or a value isn't what was asked for.
/// Its text is its name.
#[derive(Debug, Clone, Copy, PartialEq, Eq)]
pub enum Kind {
    /// A simple value that is not assigned (RFC 8949, section 3.3).
    Simple,
    /// A break if an item is due.
    Break,
    /// A negative bignum below -2^127.
    BigNegative,
    /// A value of another type.
    WrongType,
    /// A number outside the range of its type.
    Range,
    /// An array of another length.
    Length,
    /// Another tag, or none.
    Tag,
}

impl Kind {
    /// Its name.
    pub fn name(self) -> &'static str
        ensures { result.now ≡ kind_name self }
    {
        match self {
            Kind::Simple => "Simple",
            Kind::Break => "Break",
            Kind::BigNegative => "BigNegative",
            Kind::WrongType => "WrongType",
            Kind::Range => "Range",
            Kind::Length => "Length",
            Kind::Tag => "Tag",
        }
    }
}

impl fmt::Display for Kind {
    ghost use Rattle.std.specs.Prelude.{Some};
    ghost use Rattle.ciborium_value.specs.KindNames.{kind_name};

    ghost output = { λ kind. Some (kind_name kind) };

    fn fmt<W: fmt::Write>(&self, f: &mut fmt::Formatter<W>) -> fmt::Result {
        f.write_str(self.name())
    }
}

impl std::error::Error for Kind {}
