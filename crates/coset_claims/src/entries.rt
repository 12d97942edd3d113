//! Writes the entries of claims in their fixed order (RFC 8392, section 3.1). They are moved into
//! the map that stands for them.
ghost use Rattle.std.specs.Prelude.{◌≡◌, ◌++◌, map, option_map, string_bytes, MatchResult};
ghost use Rattle.ciborium_value.specs.Tree.{bytes, text};
ghost use Rattle.ciborium_value.specs.View.{view, view_pair};
ghost use Rattle.coset_labels.specs.declared.error.CoseError.TheVariants.{Memory};
ghost use Rattle.coset_claims.specs.View.{claims_view, entry_view, time_view};
ghost use Rattle.coset_claims.specs.Written.{claims_tree, entry_tree, field_entry, time_tree};

use crate::cwt::{ClaimName, ClaimsSet, Timestamp};
use ciborium_value::{Integer, Value};
use coset_labels::{AsCborValue, CoseError};
use std::alloc::Global;

type Entries = Vec<(Value, Value)>;

/// The map that stands for claims.
pub(crate) fn write_claims(alloc: Global, claims: ClaimsSet) -> Result<Value, CoseError>
    ensures { MatchResult result (λ v. view v ≡ claims_tree (claims_view claims))
        (λ e. e ≡ Memory) }
{
    let mut entries = Vec::new(alloc);
    push_text(&mut entries, 1, claims.issuer)?;
    push_text(&mut entries, 2, claims.subject)?;
    push_text(&mut entries, 3, claims.audience)?;
    push_time(alloc, &mut entries, 4, claims.expiration_time)?;
    push_time(alloc, &mut entries, 5, claims.not_before)?;
    push_time(alloc, &mut entries, 6, claims.issued_at)?;
    push_bytes(&mut entries, 7, claims.cwt_id)?;
    push_rest(alloc, &mut entries, claims.rest)?;
    Ok(Value::Map(entries))
}

fn push_text(entries: &mut Entries, name: u64, content: Option<String>) -> Result<(), CoseError>
    ensures { MatchResult result (λ _. map view_pair entries.new.items
        ≡ map view_pair entries.old.items
        ++ map entry_tree (field_entry text name (option_map string_bytes content)))
        (λ e. e ≡ Memory) }
{
    if let Some(content) = content {
        entries.push((Value::Integer(Integer::from(name)), Value::Text(content)))?;
    }
    Ok(())
}

fn push_time(
    alloc: Global,
    entries: &mut Entries,
    name: u64,
    time: Option<Timestamp>,
) -> Result<(), CoseError>
    ensures { MatchResult result (λ _. map view_pair entries.new.items
        ≡ map view_pair entries.old.items
        ++ map entry_tree (field_entry time_tree name (option_map time_view time)))
        (λ e. e ≡ Memory) }
{
    if let Some(time) = time {
        let time = time.to_cbor_value(alloc)?;
        entries.push((Value::Integer(Integer::from(name)), time))?;
    }
    Ok(())
}

fn push_bytes(entries: &mut Entries, name: u64, content: Option<Vec<u8>>) -> Result<(), CoseError>
    ensures { MatchResult result (λ _. map view_pair entries.new.items
        ≡ map view_pair entries.old.items
        ++ map entry_tree (field_entry bytes name (option_map (λ v. v.items) content)))
        (λ e. e ≡ Memory) }
{
    if let Some(content) = content {
        entries.push((Value::Integer(Integer::from(name)), Value::Bytes(content)))?;
    }
    Ok(())
}

fn push_rest(
    alloc: Global,
    entries: &mut Entries,
    rest: Vec<(ClaimName, Value)>,
) -> Result<(), CoseError>
    ensures { MatchResult result (λ _. map view_pair entries.new.items
        ≡ map view_pair entries.old.items ++ map entry_tree (map entry_view rest.items))
        (λ e. e ≡ Memory) }
{
    'rest: for entry in rest {
        let name = entry.0.to_cbor_value(alloc)?;
        entries.push((name, entry.1))?;
    }
    Ok(())
}
