//! Laws of errors.
ghost use Rattle.std.specs.Prelude.{◌≡◌, ◌≢◌, ◌↔◌, ℕ, List, IsTrue};
ghost use Rattle.coset_labels.specs.Faults.{CoseFault, misplaced};
ghost use Rattle.coset_labels.specs.Reading.{NotReadable};
ghost use Rattle.coset_labels.specs.ErrorContent.{content_of};

use crate::error::CoseError;

/// Errors are equal if they say the same, texts included.
pub fn errors_compare(a: CoseError, b: CoseError)
    ensures { IsTrue (⟦<CoseError as std::cmp::PartialEq>⟧.eq a b) ↔ (content_of a ≡ content_of b) }
{}

/// No bytes have the fault `misplaced`: that bytes mean no value is returned without an offset.
pub fn none_is_misplaced()
    ensures { (b : List ℕ) (limit : ℕ) (f : CoseFault) → NotReadable b limit f → f ≢ misplaced }
{}
