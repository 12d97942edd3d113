//! A law of blocks.
ghost use Rattle.std.specs.Prelude.{◌≡◌, ◌-◌, ◌++◌, ℕ, List, length, take, drop};
ghost use Rattle.cose_ruled.specs.Blocks.{common_front, common_back};

/// A block says the covered bytes of each question whole: they are what the first question's begin
/// with, its own bytes, and what the first question's end with.
pub fn covered_bytes_are_whole()
    ensures { (base covered : List ℕ) → let front = common_front base covered in
        let rest = drop front covered in let back = common_back (drop front base) rest in
        take front base ++ (take (length rest - back) rest ++ drop (length base - back) base)
        ≡ covered }
{}
