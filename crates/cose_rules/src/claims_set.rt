//! The claims set of a token.
ghost use Rattle.std.specs.Prelude.{◌≡◌, ◌⊎◌, List, map, option_map, MatchResult, Option, Some, None, Ok, Err};
ghost use Rattle.ciborium_value.specs.Tree.{Tree};
ghost use Rattle.ciborium_value.specs.View.{view, view_pairs};
ghost use Rattle.coset_headers.specs.View.{entry_view};
ghost use Rattle.coset_labels.specs.Entries.{entries};
ghost use Rattle.coset_labels.specs.Labels as labels;
ghost use Rattle.coset_labels.specs.View.{label_view};
ghost use Rattle.cose_rules.specs.ClaimsSet as spec;
ghost use Rattle.cose_rules.specs.ClaimsSet.{ReadsClaim};
ghost use Rattle.cose_rules.specs.declared.claims_set.NoClaims.TheVariants.{NotLabels, Memory};

use ciborium_value::Value;
use coset_headers::repeats;
use coset_labels::Label;
use std::alloc::Global;

/// Why a value is no claims set.
#[derive(Debug, Clone, Copy, PartialEq, Eq)]
pub enum NoClaims {
    /// It is no map.
    NotMap,
    /// A key is neither an integer of 64 bits nor a text.
    NotLabels,
    /// A claim is there twice.
    Repeated,
    /// Out of memory.
    Memory,
}

/// The label that a key is.
fn label_of(key: Value) -> Option<Label>
    ensures { option_map label_view result ≡ labels.label_of (view key) }
{
    match key {
        Value::Integer(integer) => match i64::try_from(integer) {
            Ok(number) => Some(Label::Int(number)),
            Err(_) => None,
        },
        Value::Text(words) => Some(Label::Text(words)),
        _ => None,
    }
}

/// Appends an entry with its label.
fn read_claim(claims: &mut Vec<(Label, Value)>, key: Value, value: Value) -> Result<(), NoClaims>
    ensures { MatchResult result (λ _. ReadsClaim (view key) (view value)
        (map entry_view claims.old.items) (map entry_view claims.new.items))
        (λ e. (e ≡ Memory) ⊎ ((e ≡ NotLabels) × (labels.label_of (view key) ≡ None))) }
{
    match label_of(key) {
        Some(label) => match claims.push((label, value)) {
            Ok(()) => Ok(()),
            Err(_) => Err(NoClaims::Memory),
        },
        None => Err(NoClaims::NotLabels),
    }
}

/// The entries with their labels.
fn labelled(alloc: Global, pairs: Vec<(Value, Value)>) -> Result<Vec<(Label, Value)>, NoClaims>
    ensures { MatchResult result
        (λ v. entries labels.label_of (view_pairs pairs.items) ≡ Some (map entry_view v.items))
        (λ e. (e ≡ Memory) ⊎ ((e ≡ NotLabels)
        × (entries labels.label_of (view_pairs pairs.items) ≡ None))) }
{
    let mut claims = Vec::new(alloc);
    'entries: for entry in pairs {
        read_claim(&mut claims, entry.0, entry.1)?;
    }
    Ok(claims)
}

fn once(alloc: Global, pairs: Vec<(Value, Value)>) -> Result<Vec<(Label, Value)>, NoClaims>
    ensures { MatchResult result
        (λ v. spec.once (entries labels.label_of (view_pairs pairs.items))
        ≡ Ok (map entry_view v.items))
        (λ e. (e ≡ Memory)
        ⊎ (spec.once (entries labels.label_of (view_pairs pairs.items)) ≡ Err e)) }
{
    match labelled(alloc, pairs) {
        Ok(claims) => match repeats(alloc, &claims) {
            Ok(false) => Ok(claims),
            Ok(true) => Err(NoClaims::Repeated),
            Err(_) => Err(NoClaims::Memory),
        },
        Err(fault) => Err(fault),
    }
}

/// The claims set that the payload of a token is, as entries with their labels: a claim that isn't
/// registered, or whose value isn't what the registry says, is among them.
///
/// # Errors
/// The first of `NotMap`, `NotLabels` and `Repeated` that holds, or that it is out of memory.
pub fn claims_of(alloc: Global, payload: Value) -> Result<Vec<(Label, Value)>, NoClaims>
    ensures { MatchResult result
        (λ v. spec.claims_of (view payload) ≡ Ok (map entry_view v.items))
        (λ e. (e ≡ Memory) ⊎ (spec.claims_of (view payload) ≡ Err e)) }
{
    match payload.into_map() {
        Ok(pairs) => once(alloc, pairs),
        Err(_) => Err(NoClaims::NotMap),
    }
}
