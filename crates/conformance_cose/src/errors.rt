//! The texts of errors.
use coset::cbor::de;
use coset::cbor::values::Kind;
use coset::{CoseError, EndOfFile, Fault, ParseSec1OctetStringError, ToSec1OctetStringError};
use test_tools::{NoAnswer, Out};

/// Errors by name.
const ERRORS: &[(&str, CoseError)] = &[
    (
        "DecodeFailed.Io",
        CoseError::DecodeFailed(de::Error::Io(EndOfFile)),
    ),
    (
        "DecodeFailed.Syntax.7",
        CoseError::DecodeFailed(de::Error::Syntax(7)),
    ),
    (
        "DecodeFailed.Semantic.BigNegative",
        CoseError::DecodeFailed(de::Error::Semantic(None, Kind::BigNegative)),
    ),
    (
        "DecodeFailed.RecursionLimitExceeded",
        CoseError::DecodeFailed(de::Error::RecursionLimitExceeded),
    ),
    (
        "DecodeFailed.Memory",
        CoseError::DecodeFailed(de::Error::Memory),
    ),
    (
        "DecodeFailed.TooLong",
        CoseError::DecodeFailed(de::Error::TooLong),
    ),
    ("DuplicateMapKey", CoseError::DuplicateMapKey),
    ("EncodeFailed", CoseError::EncodeFailed),
    ("ExtraneousData", CoseError::ExtraneousData),
    ("OutOfRangeIntegerValue", CoseError::OutOfRangeIntegerValue),
    (
        "UnexpectedItem.map.int/tstr",
        CoseError::UnexpectedItem("map", "int/tstr"),
    ),
    ("UnregisteredIanaValue", CoseError::UnregisteredIanaValue),
    (
        "UnregisteredIanaNonPrivateValue",
        CoseError::UnregisteredIanaNonPrivateValue,
    ),
    ("Memory", CoseError::Memory),
    ("TooManyLayers", CoseError::TooManyLayers),
];

/// The text of the error with this name.
pub fn text(to: &mut Out, name: &str) {
    match name {
        "ParseSec1OctetStringError.Memory" => to.show(&ParseSec1OctetStringError::Memory),
        "ToSec1OctetStringError.Memory" => to.show(&ToSec1OctetStringError::Memory),
        _ => {
            let error = named(to, name);
            to.show(&error);
        }
    }
}

/// The text that a failing test shows of the error with this name.
pub fn debug_text(to: &mut Out, name: &str) {
    let error = named(to, name);
    to.debug(&error);
}

fn named(to: &mut Out, name: &str) -> CoseError {
    for (known, error) in ERRORS {
        if *known == name {
            return *error;
        }
    }
    to.refuse(NoAnswer::NoArgument);
    CoseError::Memory
}

/// The fault with this name, which is that of its error, after `Caller.` if the caller's code gave
/// it.
fn fault(to: &mut Out, name: &str) -> Fault<CoseError> {
    match name.strip_prefix("Caller.") {
        Some(name) => Fault::Caller(named(to, name)),
        None => Fault::Cose(named(to, name)),
    }
}

/// The error of a key's point with this name.
fn of_point(name: &str) -> Option<ToSec1OctetStringError> {
    match name {
        "ToSec1OctetStringError.NotEcKey" => Some(ToSec1OctetStringError::NotEcKey),
        "ToSec1OctetStringError.Memory" => Some(ToSec1OctetStringError::Memory),
        _ => None,
    }
}

/// The error of an octet string with this name.
fn of_octets(name: &str) -> Option<ParseSec1OctetStringError> {
    match name {
        "ParseSec1OctetStringError.Malformed" => Some(ParseSec1OctetStringError::Malformed),
        "ParseSec1OctetStringError.Memory" => Some(ParseSec1OctetStringError::Memory),
        _ => None,
    }
}

/// Whether the errors or faults with these names are the same.
pub fn are_same(to: &mut Out, first: &str, second: &str) {
    if let (Some(first), Some(second)) = (of_point(first), of_point(second)) {
        to.yes_or_no(first == second);
    } else if let (Some(first), Some(second)) = (of_octets(first), of_octets(second)) {
        to.yes_or_no(first == second);
    } else {
        let (first, second) = (fault(to, first), fault(to, second));
        to.yes_or_no(first == second);
    }
}
