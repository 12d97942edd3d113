//! Writes the entries of a header in their fixed order (RFC 9052, section 3.1).
ghost use Rattle.std.specs.Prelude.{◌≡◌, map, option_map, MatchResult};
ghost use Rattle.cose_iana.specs.Algorithms.{algorithm_number};
ghost use Rattle.cose_iana.specs.Formats.{coap_content_formats};
ghost use Rattle.cose_iana.specs.Headers.{header_parameters};
ghost use Rattle.ciborium_value.specs.View.{view, views};
ghost use Rattle.coset_labels.specs.View.{registered_view, named_view};
ghost use Rattle.coset_labels.specs.declared.error.CoseError.TheVariants.{Memory};
ghost use Rattle.coset_headers.specs.Entries.{Appends};
ghost use Rattle.coset_headers.specs.View.{entry_view};
ghost use Rattle.coset_headers.specs.Written.{name_entry, crit_entry, bytes_entry, entry_of};
ghost use Rattle.coset_headers.specs.Written.{bare_or_list, twice};

use ciborium_value::{Integer, Value};
use coset_labels::{
    Algorithm, AsCborValue, ContentType, CoseError, Label, RegisteredLabelWithPrivate, SeenLabels,
    iana, to_cbor_array,
};
use std::alloc::Global;

type Entries = Vec<(Value, Value)>;

/// Whether a label is repeated.
///
/// # Errors
/// Only if out of memory.
pub fn repeats(alloc: Global, entries: &[(Label, Value)]) -> Result<bool, CoseError>
    ensures { MatchResult result (λ r. r ≡ twice (map entry_view entries.now)) (λ e. e ≡ Memory) }
{
    let mut seen = SeenLabels::new(alloc);
    'entries: for entry in entries {
        let fresh = seen.add(alloc, &entry.0)?;
        if !fresh {
            return Ok(true);
        }
    }
    Ok(false)
}

/// Appends the entry of the algorithm, or none.
pub(crate) fn push_alg(
    alloc: Global,
    entries: &mut Entries,
    alg: Option<Algorithm>,
) -> Result<(), CoseError>
    ensures { MatchResult result (λ _. Appends entries.old.items entries.new.items
        (name_entry 1 (option_map (named_view algorithm_number) alg)))
        (λ e. e ≡ Memory) }
{
    if let Some(alg) = alg {
        let alg = alg.to_cbor_value(alloc)?;
        entries.push((Value::Integer(Integer::from(1i64)), alg))?;
    }
    Ok(())
}

/// Appends the entry of the labels that have to be understood, or none.
pub(crate) fn push_crit(
    alloc: Global,
    entries: &mut Entries,
    crit: Vec<RegisteredLabelWithPrivate<iana::HeaderParameter>>,
) -> Result<(), CoseError>
    ensures { MatchResult result (λ _. Appends entries.old.items entries.new.items
        (crit_entry (map (named_view header_parameters.number) crit.items)))
        (λ e. e ≡ Memory) }
{
    if crit.is_empty() {
        return Ok(());
    }
    let list = to_cbor_array(alloc, crit)?;
    entries.push((Value::Integer(Integer::from(2i64)), list))?;
    Ok(())
}

/// Appends the entry of the type of the content, or none.
pub(crate) fn push_content_type(
    alloc: Global,
    entries: &mut Entries,
    content_type: Option<ContentType>,
) -> Result<(), CoseError>
    ensures { MatchResult result (λ _. Appends entries.old.items entries.new.items
        (name_entry 3 (option_map (registered_view coap_content_formats.number) content_type)))
        (λ e. e ≡ Memory) }
{
    if let Some(content_type) = content_type {
        let content_type = content_type.to_cbor_value(alloc)?;
        entries.push((Value::Integer(Integer::from(3i64)), content_type))?;
    }
    Ok(())
}

/// Appends the entry of a byte string, or none if it is empty.
///
/// # Errors
/// Only if out of memory.
pub fn push_bytes(entries: &mut Entries, label: u64, bytes: Vec<u8>) -> Result<(), CoseError>
    ensures { MatchResult result
        (λ _. Appends entries.old.items entries.new.items (bytes_entry label bytes.items))
        (λ e. e ≡ Memory) }
{
    if !bytes.is_empty() {
        entries.push((Value::Integer(Integer::from(label)), Value::Bytes(bytes)))?;
    }
    Ok(())
}

/// One counter signature is by itself, and several are in a list.
pub(crate) fn push_signatures(
    entries: &mut Entries,
    signatures: Vec<Value>,
) -> Result<(), CoseError>
    ensures { MatchResult result
        (λ _. Appends entries.old.items entries.new.items
        (entry_of 7 (bare_or_list (views signatures.items))))
        (λ e. e ≡ Memory) }
{
    if let Some(signatures) = one_or_list(signatures) {
        entries.push((Value::Integer(Integer::from(7i64)), signatures))?;
    }
    Ok(())
}

fn one_or_list(signatures: Vec<Value>) -> Option<Value>
    ensures { option_map view result ≡ bare_or_list (views signatures.items) }
{
    let mut signatures = signatures;
    if signatures.len() > 1 {
        return Some(Value::Array(signatures));
    }
    signatures.pop()
}

/// Appends entries that have labels.
///
/// # Errors
/// Only if out of memory.
pub fn push_rest(
    alloc: Global,
    entries: &mut Entries,
    rest: Vec<(Label, Value)>,
) -> Result<(), CoseError>
    ensures { MatchResult result
        (λ _. Appends entries.old.items entries.new.items (map entry_view rest.items))
        (λ e. e ≡ Memory) }
{
    'rest: for entry in rest {
        let label = entry.0.to_cbor_value(alloc)?;
        entries.push((label, entry.1))?;
    }
    Ok(())
}
