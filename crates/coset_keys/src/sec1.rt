//! Points of keys over elliptic curves as octet strings (SEC 1, section 2.3.3).
ghost use Rattle.std.specs.Prelude.{◌≡◌, ◌≢◌, pos, ◌⊎◌, ◌∷◌, ◌++◌, map, option_map, option_copied};
ghost use Rattle.std.specs.Prelude.{IfOk, MatchBool, MatchOption, MatchResult};
ghost use Rattle.ciborium_value.specs.View.{view};
ghost use Rattle.coset_labels.specs.Fields.{assigned};
ghost use Rattle.coset_labels.specs.View.{label_view};
ghost use Rattle.coset_headers.specs.View.{entry_view};
ghost use Rattle.coset_keys.specs.Points as spec;
ghost use Rattle.coset_keys.specs.Points.{IsSec1, HasPoint, WrongPoint, WrongCoordinates, first_at};
ghost use Rattle.coset_keys.specs.Points.{sign_byte, x_tree, y_tree};
ghost use Rattle.coset_keys.specs.View.{key_view, point_view};
ghost use Rattle.coset_keys.specs.declared.sec1.ToSec1OctetStringError.TheVariants as code;

use crate::key::CoseKey;
use ciborium_value::Value;
use coset_labels::{KeyType, Label, iana};
use std::alloc::{AllocError, Global};
use thiserror::Error;

/// Why a key was not written as an octet string.
#[derive(Debug, Clone, Copy, PartialEq, Eq, Error)]
pub enum ToSec1OctetStringError {
    /// The key is of another type.
    #[error("not an EC key")]
    NotEcKey,
    /// The key has no x or no y.
    #[error("missing coordinate")]
    MissingCoordinate,
    /// x is no byte string, or y is neither one nor a sign.
    #[error("invalid coordinate type")]
    InvalidCoordinateType,
    /// x and y differ in length.
    #[error("unequal coordinate lengths")]
    UnequalCoordinateLength,
    /// Out of memory.
    #[error("out of memory")]
    Memory,
}

/// Why an octet string was not read as a point.
#[derive(Debug, Clone, Copy, PartialEq, Eq, Error)]
pub enum ParseSec1OctetStringError {
    /// The octet string is that of no point.
    #[error("ParseSec1OctetStringError")]
    Malformed,
    /// Out of memory.
    #[error("out of memory")]
    Memory,
}

impl From<AllocError> for ToSec1OctetStringError {
    ghost use Rattle.std.specs.Prelude.{◌≡◌};
    ghost use Rattle.coset_keys.specs.declared.sec1.ToSec1OctetStringError.TheVariants.{Memory};

    ghost from_gives = { λ _ e. e ≡ Memory };

    fn from(_: AllocError) -> ToSec1OctetStringError {
        ToSec1OctetStringError::Memory
    }
}

impl From<AllocError> for ParseSec1OctetStringError {
    ghost use Rattle.std.specs.Prelude.{◌≡◌};
    ghost use Rattle.coset_keys.specs.declared.sec1.ParseSec1OctetStringError.TheVariants.{Memory};

    ghost from_gives = { λ _ e. e ≡ Memory };

    fn from(_: AllocError) -> ParseSec1OctetStringError {
        ParseSec1OctetStringError::Memory
    }
}

/// The label of the x-coordinate (RFC 9053, section 7.1.1).
pub(crate) const X: i64 = -2;

/// The label of the y-coordinate, or of its sign (RFC 9053, section 7.1.1).
pub(crate) const Y: i64 = -3;

/// A point: x with the sign of y, or x and y.
#[derive(Clone, Copy)]
pub(crate) enum Point<'a> {
    Signed(&'a [u8], bool),
    Both(&'a [u8], &'a [u8]),
}

/// The point of an octet string, if it is that of one.
pub(crate) fn parse_point(sec1: &[u8]) -> Option<Point<'_>>
    ensures { MatchOption result ((p : spec.Point) → IsSec1 sec1.now p → ⊥)
        (λ p. IsSec1 sec1.now (point_view p)) }
{
    match sec1.split_first() {
        Some((2, x)) => Some(Point::Signed(x, false)),
        Some((3, x)) => Some(Point::Signed(x, true)),
        Some((4, both)) => {
            if both.len() % 2 != 0 {
                return None;
            }
            let (x, y) = both.split_at(both.len() / 2);
            Some(Point::Both(x, y))
        }
        _ => None,
    }
}

impl CoseKey {
    /// The octet string of the point of a key over an elliptic curve (SEC 1, section 2.3.3), by the
    /// first x and the first y of its `params`. The coordinates may have any length, and the curve
    /// is not looked at.
    ///
    /// # Errors
    /// `NotEcKey` for a key of another type, `MissingCoordinate` if x or y is missing,
    /// `InvalidCoordinateType` if x is no byte string, or y neither one nor a sign,
    /// `UnequalCoordinateLength` if x and y differ in length, or `Memory`.
    pub fn to_sec1_octet_string(&self, alloc: Global) -> Result<Vec<u8>, ToSec1OctetStringError>
        ensures { MatchResult result
            (λ b. (p : spec.Point) × HasPoint (key_view self.now) p × IsSec1 b.items p)
            (λ e. (e ≡ code.Memory) ⊎ WrongPoint (key_view self.now) e) }
    {
        if !self.is_ec2() {
            return Err(ToSec1OctetStringError::NotEcKey);
        }
        match first_value(&self.params, &Label::Int(X)) {
            Some(x) => match first_value(&self.params, &Label::Int(Y)) {
                Some(y) => write_point(alloc, x, y),
                None => Err(ToSec1OctetStringError::MissingCoordinate),
            },
            None => Err(ToSec1OctetStringError::MissingCoordinate),
        }
    }

    fn is_ec2(&self) -> bool
        ensures { MatchBool result ((key_view self.now).kty ≡ assigned (pos 2))
            ((key_view self.now).kty ≢ assigned (pos 2)) }
    {
        self.kty == KeyType::Assigned(iana::KeyType::EC2)
    }
}

/// The value of the first entry with this label.
fn first_value<'a>(params: &'a [(Label, Value)], label: &Label) -> Option<&'a Value>
    ensures { option_map view (option_copied result)
        ≡ first_at (label_view label.now) (map entry_view params.now) }
{
    'entries: for entry in params {
        if entry.0 == *label {
            return Some(&entry.1);
        }
    }
    None
}

/// The octet string of the point that two coordinates are.
fn write_point(alloc: Global, x: &Value, y: &Value) -> Result<Vec<u8>, ToSec1OctetStringError>
    ensures { MatchResult result
        (λ b. (p : spec.Point) × (view x.now ≡ x_tree p) × (view y.now ≡ y_tree p)
        × IsSec1 b.items p)
        (λ e. (e ≡ code.Memory) ⊎ WrongCoordinates (view x.now) (view y.now) e) }
{
    match x {
        Value::Bytes(x) => match y {
            Value::Bool(sign) => Ok(write_signed(alloc, x, *sign)?),
            Value::Bytes(y) => {
                if x.len() != y.len() {
                    return Err(ToSec1OctetStringError::UnequalCoordinateLength);
                }
                Ok(write_both(alloc, x, y)?)
            }
            _ => Err(ToSec1OctetStringError::InvalidCoordinateType),
        },
        _ => Err(ToSec1OctetStringError::InvalidCoordinateType),
    }
}

fn write_signed(alloc: Global, x: &[u8], sign: bool) -> Result<Vec<u8>, AllocError>
    ensures { IfOk result (λ b. b.items ≡ sign_byte sign ∷ x.now) }
{
    let mut bytes = Vec::new(alloc);
    bytes.push(if sign { 3 } else { 2 })?;
    bytes.extend_from_slice(x)?;
    Ok(bytes)
}

fn write_both(alloc: Global, x: &[u8], y: &[u8]) -> Result<Vec<u8>, AllocError>
    ensures { IfOk result (λ b. b.items ≡ 4 ∷ (x.now ++ y.now)) }
{
    let mut bytes = Vec::new(alloc);
    bytes.push(4)?;
    bytes.extend_from_slice(x)?;
    bytes.extend_from_slice(y)?;
    Ok(bytes)
}
