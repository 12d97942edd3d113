//! Laws of the definitions.
ghost use Rattle.std.specs.Prelude.{◌≡◌, ◌↔◌, ◌+◌, ◌^◌, ◌<◌, IsTrue, ℕ, List, length, map};
ghost use Rattle.std.specs.Prelude.{option_map, string_bytes};
ghost use Rattle.ciborium_value.specs.Tree.{Tree, bytes, text};
ghost use Rattle.ciborium_value.specs.Encoding.{enc, Fits, FitPairs};
ghost use Rattle.ciborium_value.specs.View.{pairs};
ghost use Rattle.coset_labels.specs.Faults.{CoseFault};
ghost use Rattle.coset_labels.specs.Reading.{HasItem};
ghost use Rattle.coset_claims.specs.Claims.{HasClaims};
ghost use Rattle.coset_claims.specs.Fields.{ClaimsFields};
ghost use Rattle.coset_claims.specs.View.{claims_view, entry_view, time_view};
ghost use Rattle.coset_claims.specs.Written.{FieldFits, claims_tree, entry_tree, time_tree};
ghost use Rattle.coset_claims.specs.Wrong.{WrongClaims};

use crate::cwt::{ClaimName, ClaimsSet, Timestamp};
use ciborium_value::laws::value_fits;
use ciborium_value::{Integer, Value};
use coset_labels::laws::{bytes_fit, name_fits};

/// A value has one set of claims at most.
pub fn one_claims_set()
    ensures { (t : Tree) (c d : ClaimsFields) → HasClaims t c → HasClaims t d → c ≡ d }
{}

/// A value with a fault has no claims.
pub fn wrong_has_none()
    ensures { (t : Tree) (e : CoseFault) (c : ClaimsFields) → WrongClaims t e → HasClaims t c → ⊥ }
{}

/// What claims that were read are written as has the same claims.
pub fn claims_are_read_again()
    ensures { (t : Tree) (c : ClaimsFields) → HasClaims t c → HasClaims (claims_tree c) c }
{}

/// Times are equal if they say the same. Floats are the same if their widths and bits are.
pub fn times_compare(a: &Timestamp, b: &Timestamp)
    ensures { IsTrue (⟦<Timestamp as std::cmp::PartialEq>⟧.eq a.now b.now)
        ↔ (time_view a.now ≡ time_view b.now) }
{}

/// Claims are equal if they say the same, the others in the same order.
pub fn claims_compare(a: &ClaimsSet, b: &ClaimsSet)
    ensures { IsTrue (⟦<ClaimsSet as std::cmp::PartialEq>⟧.eq a.now b.now)
        ↔ (claims_view a.now ≡ claims_view b.now) }
{}

/// The number of a time, or its bits, are in their range.
pub fn time_fits(time: &Timestamp)
    ensures { Fits (time_tree (time_view time.now)) }
{
    match time {
        Timestamp::WholeSeconds(seconds) => value_fits(&Value::Integer(Integer::from(*seconds))),
        Timestamp::FractionalSeconds(seconds) => value_fits(&Value::Float(*seconds)),
    }
}

fn text_fits(content: &str)
    ensures { Fits (text content.now) }
{
    let _len = content.len();
}

fn maybe_text_fits(content: &Option<String>)
    ensures { FieldFits text (option_map string_bytes content.now) }
{
    match content {
        Some(content) => text_fits(content.as_str()),
        None => {}
    }
}

fn maybe_time_fits(time: &Option<Timestamp>)
    ensures { FieldFits time_tree (option_map time_view time.now) }
{
    match time {
        Some(time) => time_fits(time),
        None => {}
    }
}

fn maybe_bytes_fit(content: &Option<Vec<u8>>)
    ensures { FieldFits bytes (option_map (λ v. v.items) content.now) }
{
    match content {
        Some(content) => bytes_fit(content.as_slice()),
        None => {}
    }
}

fn rest_fits(rest: &[(ClaimName, Value)])
    ensures entries { FitPairs (pairs (map entry_tree (map entry_view rest.now))) }
    ensures short { length rest.now + 7 < 2 ^ 64 }
{
    let _len = rest.len();
    'entries: for entry in rest {
        name_fits(&entry.0);
        value_fits(&entry.1);
    }
}

/// What claims are written as fits: each number is in its range, each text is UTF-8, and each
/// length is one that a head can have.
pub fn claims_fit(claims: &ClaimsSet)
    ensures { Fits (claims_tree (claims_view claims.now)) }
{
    maybe_text_fits(&claims.issuer);
    maybe_text_fits(&claims.subject);
    maybe_text_fits(&claims.audience);
    maybe_time_fits(&claims.expiration_time);
    maybe_time_fits(&claims.not_before);
    maybe_time_fits(&claims.issued_at);
    maybe_bytes_fit(&claims.cwt_id);
    rest_fits(&claims.rest);
}

/// Claims that were read from bytes are read again from the bytes that they are written as, the
/// same.
pub fn claims_reads_again(claims: &ClaimsSet)
    ensures { (b : List ℕ) → HasItem HasClaims b (claims_view claims.now)
        → HasItem HasClaims (enc (claims_tree (claims_view claims.now))) (claims_view claims.now) }
{
    claims_fit(claims);
}
