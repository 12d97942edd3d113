//! The values of single fields.
ghost use Rattle.std.specs.Prelude.{◌≡◌, ◌≢◌, [], Some, map, MatchResult, MatchBool, false};
ghost use Rattle.std.specs.List.{count_by};
ghost use Rattle.cose_iana.specs.Formats.{coap_content_formats};
ghost use Rattle.cose_iana.specs.Headers.{header_parameters};
ghost use Rattle.ciborium_value.specs.Tree as spec;
ghost use Rattle.ciborium_value.specs.View.{view, views};
ghost use Rattle.coset_labels.specs.Faults.{OrMemory, fault_of, unexpected};
ghost use Rattle.coset_labels.specs.Fields.{named};
ghost use Rattle.ciborium_value.specs.Kinds.{is_array};
ghost use Rattle.coset_labels.specs.View.{registered_view, named_view};
ghost use Rattle.coset_headers.specs.AsWritten.{is_bare};
ghost use Rattle.coset_headers.specs.Headers.{is_slash, crit_of, HasContentType, IsContentType};
ghost use Rattle.coset_headers.specs.Headers.{IsBare, IsList};
ghost use Rattle.coset_headers.specs.Wrong.{WrongCrit, WrongContentType, NoSignature};

use ciborium_value::Value;
use coset_labels::{
    AsCborValue, ContentType, CoseError, RegisteredLabel, RegisteredLabelWithPrivate, ValueTryAs,
    cbor_type_error, iana,
};
use std::alloc::Global;

type Parameter = RegisteredLabelWithPrivate<iana::HeaderParameter>;

/// The labels that have to be understood: a list that is not empty.
pub(crate) fn read_crit(alloc: Global, value: Value) -> Result<Vec<Parameter>, CoseError>
    ensures { MatchResult result
        (λ v. crit_of (view value) ≡ Some (map (named_view header_parameters.number) v.items))
        (λ e. OrMemory (WrongCrit (view value)) e) }
{
    let items = array_or(value, "array value")?;
    if items.is_empty() {
        return Err(CoseError::UnexpectedItem("empty array", "non-empty array"));
    }
    read_parameters(alloc, items)
}

/// The items of an array; the error of another value has this text.
fn array_or(value: Value, want: &'static str) -> Result<Vec<Value>, CoseError>
    ensures { MatchResult result (λ v. view value ≡ spec.array (views v.items))
        (λ e. (fault_of e ≡ unexpected) × (is_array (view value) ≡ false)) }
{
    match value {
        Value::Array(items) => Ok(items),
        other => Err(cbor_type_error(&other, want)),
    }
}

fn read_parameters(alloc: Global, items: Vec<Value>) -> Result<Vec<Parameter>, CoseError>
    requires { items.items ≢ [] }
    ensures { MatchResult result
        (λ v. crit_of (spec.array (views items.items))
        ≡ Some (map (named_view header_parameters.number) v.items))
        (λ e. OrMemory (WrongCrit (spec.array (views items.items))) e) }
{
    let mut names = Vec::with_capacity(alloc, items.len())?;
    'names: for item in items {
        let name = Parameter::from_cbor_value(alloc, item)?;
        names.push(name)?;
    }
    Ok(names)
}

/// The type of the content.
pub(crate) fn read_content_type(alloc: Global, value: Value) -> Result<ContentType, CoseError>
    ensures { MatchResult result
        (λ c. HasContentType (Some (view value))
        (Some (registered_view coap_content_formats.number c)))
        (λ e. OrMemory (WrongContentType (view value)) e) }
{
    let content_type = ContentType::from_cbor_value(alloc, value)?;
    match content_type {
        RegisteredLabel::Assigned(format) => Ok(RegisteredLabel::Assigned(format)),
        RegisteredLabel::Text(text) => {
            check_content_type(text.as_str())?;
            Ok(RegisteredLabel::Text(text))
        }
    }
}

/// Tells whether a text has the form type/subtype.
fn check_content_type(text: &str) -> Result<(), CoseError>
    ensures { MatchResult result (λ _. IsContentType (named text.now))
        (λ e. WrongContentType (spec.text text.now) (fault_of e)) }
{
    if text.is_empty() {
        return Err(CoseError::UnexpectedItem("empty tstr", "non-empty tstr"));
    }
    if text.trim() != text {
        return Err(CoseError::UnexpectedItem(
            "leading/trailing whitespace",
            "no leading/trailing whitespace",
        ));
    }
    if slashes(text.as_bytes()) != 1 {
        return Err(CoseError::UnexpectedItem("arbitrary text", "text of form type/subtype"));
    }
    Ok(())
}

fn slashes(text: &[u8]) -> usize
    ensures { result ≡ count_by is_slash text.now }
{
    text.iter().filter(|byte| **byte == b'/').count()
}

/// Whether a list is one signature by itself and no list of them: its first element is bytes.
pub(crate) fn is_one_signature(items: &[Value]) -> bool
    ensures { result ≡ is_bare (views items.now) }
{
    matches!(items, [Value::Bytes(_), ..])
}

/// Whether a list of signatures is one by itself, by its first element.
pub(crate) fn is_bare(items: &[Value]) -> Result<bool, CoseError>
    ensures { MatchResult result
        (λ b. MatchBool b (IsBare (views items.now)) (IsList (views items.now)))
        (λ e. (fault_of e ≡ unexpected) × NoSignature (views items.now)) }
{
    if is_one_signature(items) {
        return Ok(true);
    }
    match items.first() {
        Some(Value::Array(_)) => Ok(false),
        Some(first) => Err(cbor_type_error(first, "array or bstr value")),
        None => Err(CoseError::UnexpectedItem("empty sig array", "non-empty sig array")),
    }
}
