//! Laws of the definitions of the streaming check.
ghost use Rattle.std.specs.Prelude.{◌≡◌, ◌≤◌, ◌<◌, ◌+◌, ◌*◌, ℕ, List, All, length, sum, ◌++◌};
ghost use Rattle.cose_gate.specs.Stated.{Stated, Cut};

/// Pieces by a space are all the bytes: their lengths add up to n, none is longer than the space,
/// and they are no more than n divided by the space, rounded up.
pub fn pieces_fit()
    ensures sum { (room n : ℕ) (pieces : List ℕ) → Cut room n pieces → sum pieces ≡ n }
    ensures each { (room n : ℕ) (pieces : List ℕ) → Cut room n pieces
        → All (λ p. p ≤ room) pieces }
    ensures few { (room n : ℕ) (pieces : List ℕ) → 0 < room → Cut room n pieces
        → length pieces * room < n + room }
{}

/// A message has one stated length, and none begins another.
pub fn one_stated_length()
    ensures { (a b u v : List ℕ) (n m : ℕ) → Stated a n → Stated b m → a ++ u ≡ b ++ v
        → (a ≡ b) × (n ≡ m) }
{}
