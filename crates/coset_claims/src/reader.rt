//! Reads claims. Values are moved into their fields, and nothing but names is copied.
ghost use Rattle.std.specs.Prelude.{List, MatchResult};
ghost use Rattle.ciborium_value.specs.Tree.{Tree};
ghost use Rattle.ciborium_value.specs.View.{view, view_pairs};
ghost use Rattle.coset_labels.specs.Faults.{OrMemory};
ghost use Rattle.coset_labels.specs.Fields.{Named, assigned};
ghost use Rattle.coset_claims.specs.Claims.{HasClaims};
ghost use Rattle.coset_claims.specs.Steps.{Names, Fills, KnownIn, Added, HasEntries};
ghost use Rattle.coset_claims.specs.View.{claims_view, name_view};
ghost use Rattle.coset_claims.specs.Wrong.{WrongClaims, WrongEntries, WrongEntry, WrongField};

use crate::cwt::{ClaimName, ClaimsSet, Timestamp};
use ciborium_value::Value;
use coset_labels::iana::EnumI64;
use coset_labels::{AsCborValue, CoseError, SeenLabels, ValueTryAs};
use std::alloc::Global;

/// Where the value of a claim belongs.
#[derive(Drop)]
pub(crate) enum Place {
    Issuer,
    Subject,
    Audience,
    ExpirationTime,
    NotBefore,
    IssuedAt,
    CwtId,
    Rest,
}

/// Where the value of this claim belongs (RFC 8392, section 3.1).
fn place_of(name: &ClaimName) -> Place
    ensures { Names result (name_view name.now) }
{
    match name {
        ClaimName::Assigned(entry) => place_at(entry.to_i64()),
        _ => Place::Rest,
    }
}

/// Where the value of the claim with this number belongs.
fn place_at(number: i64) -> Place
    ensures { Names result (assigned number) }
{
    match number {
        1 => Place::Issuer,
        2 => Place::Subject,
        3 => Place::Audience,
        4 => Place::ExpirationTime,
        5 => Place::NotBefore,
        6 => Place::IssuedAt,
        7 => Place::CwtId,
        _ => Place::Rest,
    }
}

/// Reads claims from their map.
pub(crate) fn read_claims(alloc: Global, value: Value) -> Result<ClaimsSet, CoseError>
    ensures { MatchResult result (λ c. HasClaims (view value) (claims_view c))
        (λ e. OrMemory (WrongClaims (view value)) e) }
{
    let entries = value.try_as_map()?;
    read_entries(alloc, entries)
}

fn read_entries(alloc: Global, entries: Vec<(Value, Value)>) -> Result<ClaimsSet, CoseError>
    ensures { MatchResult result (λ c. HasEntries (view_pairs entries.items) (claims_view c))
        (λ e. OrMemory (WrongEntries (view_pairs entries.items)) e) }
{
    let mut seen = SeenLabels::new(alloc);
    let mut claims = ClaimsSet::new(alloc);
    'entries: for entry in entries {
        read_entry(alloc, &mut seen, &mut claims, entry.0, entry.1)?;
    }
    Ok(claims)
}

/// Reads one entry after those that were seen: its name, whether that was there before, its value.
fn read_entry(
    alloc: Global,
    seen: &mut SeenLabels<ClaimName>,
    claims: &mut ClaimsSet,
    key: Value,
    value: Value,
) -> Result<(), CoseError>
    ensures { (es : List (Named × Tree)) → KnownIn es seen.old claims.old
        → MatchResult result (λ _. Added es (view key) (view value) seen.new claims.new)
        (λ e. OrMemory (WrongEntry es (view key) (view value)) e) }
{
    let name = ClaimName::from_cbor_value(alloc, key)?;
    let fresh = seen.add(alloc, &name)?;
    if !fresh {
        return Err(CoseError::DuplicateMapKey);
    }
    fill(alloc, claims, name, value)
}

/// Takes the value of a claim.
fn fill(
    alloc: Global,
    claims: &mut ClaimsSet,
    name: ClaimName,
    value: Value,
) -> Result<(), CoseError>
    ensures { MatchResult result
        (λ _. Fills (name_view name) (view value) (claims_view claims.old) (claims_view claims.new))
        (λ e. OrMemory (WrongField (view value) (name_view name)) e) }
{
    match place_of(&name) {
        Place::Issuer => {
            let issuer = value.try_as_string()?;
            claims.issuer = Some(issuer);
            Ok(())
        }
        Place::Subject => {
            let subject = value.try_as_string()?;
            claims.subject = Some(subject);
            Ok(())
        }
        Place::Audience => {
            let audience = value.try_as_string()?;
            claims.audience = Some(audience);
            Ok(())
        }
        Place::ExpirationTime => {
            let time = Timestamp::from_cbor_value(alloc, value)?;
            claims.expiration_time = Some(time);
            Ok(())
        }
        Place::NotBefore => {
            let time = Timestamp::from_cbor_value(alloc, value)?;
            claims.not_before = Some(time);
            Ok(())
        }
        Place::IssuedAt => {
            let time = Timestamp::from_cbor_value(alloc, value)?;
            claims.issued_at = Some(time);
            Ok(())
        }
        Place::CwtId => {
            let cwt_id = value.try_as_bytes()?;
            claims.cwt_id = Some(cwt_id);
            Ok(())
        }
        Place::Rest => {
            claims.rest.push((name, value))?;
            Ok(())
        }
    }
}
