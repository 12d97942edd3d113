//! Lists of a fixed length, as tuples. Nothing is copied.
ghost use Rattle.std.specs.Prelude.{◌≡◌, ◌≢◌, [], ◌∷◌, length, count_by, MatchOption};
ghost use Rattle.ciborium_value.specs.View.{view};
ghost use Rattle.coset_labels.specs.Arrays.{is_structure};

use ciborium_value::Value;

/// The items of a list of two; none if it has another length.
pub fn two<T: Drop>(items: Vec<T>) -> Option<(T, T)>
    ensures { MatchOption result (length items.items ≢ 2) (λ t. items.items ≡ t.0 ∷ t.1 ∷ []) }
{
    let mut items = items.into_iter();
    if items.len() != 2 {
        return None;
    }
    let first = items.next()?;
    let second = items.next()?;
    Some((first, second))
}

/// The items of a list of three; none if it has another length.
pub fn three<T: Drop>(items: Vec<T>) -> Option<(T, T, T)>
    ensures { MatchOption result (length items.items ≢ 3)
        (λ t. items.items ≡ t.0 ∷ t.1 ∷ t.2 ∷ []) }
{
    let mut items = items.into_iter();
    if items.len() != 3 {
        return None;
    }
    let first = items.next()?;
    let second = items.next()?;
    let third = items.next()?;
    Some((first, second, third))
}

/// The items of a list of four; none if it has another length.
pub fn four<T: Drop>(items: Vec<T>) -> Option<(T, T, T, T)>
    ensures { MatchOption result (length items.items ≢ 4)
        (λ t. items.items ≡ t.0 ∷ t.1 ∷ t.2 ∷ t.3 ∷ []) }
{
    let mut items = items.into_iter();
    if items.len() != 4 {
        return None;
    }
    let first = items.next()?;
    let second = items.next()?;
    let third = items.next()?;
    let fourth = items.next()?;
    Some((first, second, third, fourth))
}

/// The items of a list of five; none if it has another length.
pub fn five<T: Drop>(items: Vec<T>) -> Option<(T, T, T, T, T)>
    ensures { MatchOption result (length items.items ≢ 5)
        (λ t. items.items ≡ t.0 ∷ t.1 ∷ t.2 ∷ t.3 ∷ t.4 ∷ []) }
{
    let mut items = items.into_iter();
    if items.len() != 5 {
        return None;
    }
    let first = items.next()?;
    let second = items.next()?;
    let third = items.next()?;
    let fourth = items.next()?;
    let fifth = items.next()?;
    Some((first, second, third, fourth, fifth))
}

/// Whether a value is an array of three items or more: it takes four bytes at least.
fn is_structure(item: &Value) -> bool
    ensures { result ≡ is_structure (view item.now) }
{
    match item.as_array() {
        Some(parts) => parts.len() > 2,
        None => false,
    }
}

/// How many of the items are arrays of three or more: each of them takes four bytes at least.
pub fn count_structures(items: &[Value]) -> usize
    ensures { result ≡ count_by (λ item. is_structure (view item)) items.now }
{
    items.iter().filter(|item| is_structure(item)).count()
}
