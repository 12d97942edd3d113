//! One order of a key's entries.
ghost use Rattle.std.specs.Prelude.{◌≡◌, map, MatchResult};
ghost use Rattle.coset_labels.specs.View.{label_view};
ghost use Rattle.coset_labels.specs.declared.error.CoseError.TheVariants.{Memory};
ghost use Rattle.coset_labels.specs.declared.order.CborOrdering.TheVariants.{Lexicographic};
ghost use Rattle.coset_labels.specs.declared.order.CborOrdering.TheVariants.{LengthFirstLexicographic};
ghost use Rattle.coset_headers.specs.View.{entry_view};
ghost use Rattle.coset_keys.specs.Sorted.{Canonicalized, Sorts, encoded_cmp};
ghost use Rattle.coset_keys.specs.View.{key_view};

use crate::key::CoseKey;
use ciborium_value::Value;
use coset_labels::laws::labels_compare;
use coset_labels::{CborOrdering, CoseError, Label};
use std::alloc::{AllocError, Global};
use std::cmp::Ordering;

impl CoseKey {
    /// Sorts `params` by the encodings of their labels (RFC 8949, section 4.2). Entries with one
    /// label keep their order. The fields with labels of their own are written in either order
    /// already.
    ///
    /// # Errors
    /// Only if out of memory, and then the key is as it was.
    pub fn canonicalize(&mut self, alloc: Global, ordering: CborOrdering) -> Result<(), CoseError>
        ensures { MatchResult result
            (λ _. Canonicalized ordering (key_view self.old) (key_view self.new))
            (λ e. (e ≡ Memory) × (key_view self.new ≡ key_view self.old)) }
    {
        match ordering {
            CborOrdering::Lexicographic => sort_bytewise(alloc, self.params.as_mut_slice())?,
            CborOrdering::LengthFirstLexicographic => {
                sort_length_first(alloc, self.params.as_mut_slice())?
            }
        }
        Ok(())
    }
}

fn sort_bytewise(alloc: Global, params: &mut [(Label, Value)]) -> Result<(), AllocError>
    ensures { MatchResult result
        (λ _. Sorts Lexicographic (map entry_view params.old) (map entry_view params.new))
        (λ _. params.new ≡ params.old) }
{
    params.sort_by(alloc, |a, b| cmp_bytewise(&a.0, &b.0))?;
    Ok(())
}

fn sort_length_first(alloc: Global, params: &mut [(Label, Value)]) -> Result<(), AllocError>
    ensures { MatchResult result
        (λ _. Sorts LengthFirstLexicographic (map entry_view params.old)
        (map entry_view params.new))
        (λ _. params.new ≡ params.old) }
{
    params.sort_by(alloc, |a, b| a.0.cmp_canonical(&b.0))?;
    Ok(())
}

/// The order of the encodings of two labels, byte by byte.
fn cmp_bytewise(a: &Label, b: &Label) -> Ordering
    ensures { result ≡ encoded_cmp Lexicographic (label_view a.now) (label_view b.now) }
{
    labels_compare(a, b);
    a.cmp(b)
}
