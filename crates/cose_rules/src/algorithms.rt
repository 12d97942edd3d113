//! Algorithms, and the keys that they take.
ghost use Rattle.std.specs.Prelude.{◌≡◌, option_copied};
ghost use Rattle.cose_iana.specs.Algorithms.{algorithm_number};
ghost use Rattle.coset_labels.specs.View.{named_view};
ghost use Rattle.cose_rules.specs.Algorithms as spec;

use coset_labels::iana::EnumI64;
use coset_labels::{Algorithm, RegisteredLabelWithPrivate};

/// The operation that verifies a signature (RFC 9052, section 7.1).
pub const VERIFY: i64 = 2;

/// The operation that verifies a MAC.
pub const MAC_VERIFY: i64 = 10;

/// The curves that the keys of an algorithm have, by their numbers in the registry "COSE Elliptic
/// Curves".
#[derive(Debug, Clone, Copy, PartialEq, Eq)]
pub enum Curves {
    /// Its keys have no curve, or it isn't looked at.
    Any,
    /// This one.
    One(i64),
    /// One of these two.
    Either(i64, i64),
}

/// What an algorithm asks of its keys.
#[derive(Debug, Clone, Copy, PartialEq, Eq)]
pub struct Scheme {
    /// The number of the algorithm.
    pub number: i64,
    /// The type of its keys.
    pub kty: i64,
    /// Their curves.
    pub curves: Curves,
    /// What they have to be for: `VERIFY` or `MAC_VERIFY`.
    pub operation: i64,
}

macro_rules! scheme {
    ($number:expr, $kty:expr, $curves:expr, $operation:expr) => {
        Scheme { number: $number, kty: $kty, curves: $curves, operation: $operation }
    };
}

/// The scheme with this number.
fn scheme_with(schemes: &[Scheme], number: i64) -> Option<Scheme>
    ensures { result ≡ spec.scheme_with schemes.now number }
{
    match find_scheme(schemes, number) {
        Some(scheme) => Some(*scheme),
        None => None,
    }
}

fn find_scheme(schemes: &[Scheme], number: i64) -> Option<&Scheme>
    ensures { option_copied result ≡ spec.scheme_with schemes.now number }
{
    schemes.iter().find(|scheme| scheme.number == number)
}

/// The scheme of an algorithm, by its number.
fn scheme_numbered(number: i64) -> Option<Scheme>
    ensures { result ≡ spec.scheme_with spec.schemes number }
{
    scheme_with(
        &[
            scheme!(-7, 2, Curves::One(1), 2),
            scheme!(-35, 2, Curves::One(2), 2),
            scheme!(-36, 2, Curves::One(3), 2),
            scheme!(-47, 2, Curves::One(8), 2),
            scheme!(-9, 2, Curves::One(1), 2),
            scheme!(-51, 2, Curves::One(2), 2),
            scheme!(-52, 2, Curves::One(3), 2),
            scheme!(-8, 1, Curves::Either(6, 7), 2),
            scheme!(-19, 1, Curves::One(6), 2),
            scheme!(-53, 1, Curves::One(7), 2),
            scheme!(-37, 3, Curves::Any, 2),
            scheme!(-38, 3, Curves::Any, 2),
            scheme!(-39, 3, Curves::Any, 2),
            scheme!(-257, 3, Curves::Any, 2),
            scheme!(-258, 3, Curves::Any, 2),
            scheme!(-259, 3, Curves::Any, 2),
            scheme!(4, 4, Curves::Any, 10),
            scheme!(5, 4, Curves::Any, 10),
            scheme!(6, 4, Curves::Any, 10),
            scheme!(7, 4, Curves::Any, 10),
        ],
        number,
    )
}

/// The scheme of an algorithm; none if it isn't one of those that are known here.
pub fn scheme_of(algorithm: &Algorithm) -> Option<Scheme>
    ensures { result ≡ spec.scheme_of (named_view algorithm_number algorithm.now) }
{
    match algorithm {
        RegisteredLabelWithPrivate::Assigned(entry) => scheme_numbered(entry.to_i64()),
        RegisteredLabelWithPrivate::PrivateUse(_) | RegisteredLabelWithPrivate::Text(_) => None,
    }
}

/// The scheme of an algorithm, if its keys have to be for this operation.
pub(crate) fn scheme_for(algorithm: &Algorithm, operation: i64) -> Option<Scheme>
    ensures { result ≡ spec.scheme_for operation (named_view algorithm_number algorithm.now) }
{
    match scheme_of(algorithm) {
        Some(scheme) => if_for(scheme, operation),
        None => None,
    }
}

fn if_for(scheme: Scheme, operation: i64) -> Option<Scheme>
    ensures { result ≡ spec.if_for operation scheme }
{
    if scheme.operation == operation {
        Some(scheme)
    } else {
        None
    }
}
