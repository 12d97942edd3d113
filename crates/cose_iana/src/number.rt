//! Entries and their numbers.
ghost use Rattle.std.specs.Ordering.{int_cmp};
ghost use Rattle.std.specs.Prelude.{◌≡◌, ℤ, Bool, true, false, Option, Some, MatchOption, IsTrue};
ghost use Rattle.cose_iana.specs.Registry.{entry_of, rise};

use std::cmp::Ordering;

/// A registry: each entry has a number, each number of the registry is that of one entry, and the
/// entries are ordered by their numbers.
pub trait EnumI64: Copy + Ord {
    /// The number of an entry.
    ghost number: { Self → ℤ };

    /// Whether the registry has the number.
    ghost is_registered: { ℤ → Bool };

    /// The entry with a number, if the registry has it.
    ghost entry: { ℤ → Option Self };

    /// The entry with this number, or none if the registry has no such number.
    fn from_i64(i: i64) -> Option<Self>
        ensures entry { result ≡ entry i }
        ensures found { MatchOption result (is_registered i ≡ false)
            (λ x. (number x ≡ i) × (is_registered i ≡ true)) };

    /// The number of this entry, which `as i64` gives too.
    fn to_i64(self) -> i64
        ensures number { result ≡ number self }
        ensures registered { is_registered result ≡ true };

    /// The entry with the number of an entry is that entry.
    ghost there_and_back: { (x : Self) → entry (number x) ≡ Some x };

    /// The entry with a number has that number, and there is none exactly when the registry has no
    /// such number.
    ghost back_and_there: { (i : ℤ) → MatchOption (entry i) (is_registered i ≡ false)
        (λ x. (number x ≡ i) × (is_registered i ≡ true)) };

    /// The order is that of the numbers.
    ghost in_order: { (x y : Self) → Self.cmp x y ≡ int_cmp (number x) (number y) };
}

/// A registry that leaves a range of numbers for private use.
pub trait WithPrivateRange: EnumI64 {
    /// Whether a number is for private use.
    ghost is_private_number: { ℤ → Bool };

    /// Whether this number is for private use.
    fn is_private(i: i64) -> bool
        ensures { result ≡ is_private_number i };

    /// No entry of the registry has a number for private use.
    ghost no_entry_is_private: { (i : ℤ) → is_private_number i ≡ true
        → Self.is_registered i ≡ false };
}

/// The entry in the row with this number, where the numbers rise.
pub(crate) fn entry_with<E: Copy>(table: &[(E, i64)], i: i64) -> Option<E>
    requires { IsTrue (rise table.now) }
    ensures { result ≡ entry_of table.now i }
{
    let mut low = 0;
    let mut high = table.len();
    'halves: while low < high {
        let middle = low + (high - low) / 2;
        let row = &table[middle];
        match row.1.cmp(&i) {
            Ordering::Less => low = middle + 1,
            Ordering::Equal => return Some(row.0),
            Ordering::Greater => high = middle,
        }
    }
    None
}

/// A row for each entry of an enum: the entry, and its number, which the enum gives.
macro_rules! rows {
    ($registry:ident: $($entry:ident),* $(,)?) => {
        &[$(($registry::$entry, $registry::$entry as i64)),*]
    };
}

pub(crate) use rows;
