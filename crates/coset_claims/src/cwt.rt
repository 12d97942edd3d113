//! CBOR web tokens (RFC 8392).
ghost use Rattle.std.specs.Prelude.{◌≡◌, Some};
ghost use Rattle.coset_claims.specs.Claims.{HasClaims, time_of};
ghost use Rattle.coset_claims.specs.Fields.{ClaimsFields, TimeFields, no_claims};
ghost use Rattle.coset_claims.specs.View.{claims_view, time_view};
ghost use Rattle.coset_claims.specs.Written.{claims_tree, time_tree};
ghost use Rattle.coset_claims.specs.Wrong.{WrongClaims, WrongTime};

pub use crate::builder::ClaimsSetBuilder;
use crate::entries::write_claims;
use crate::reader::read_claims;
use ciborium_ll::Float;
use ciborium_value::{Integer, Value};
use coset_labels::{
    AsCborValue, CborSerializable, CoseError, RegisteredLabelWithPrivate, cbor_type_error, iana,
};
use std::alloc::Global;

/// A number of seconds since 1970-01-01T00:00:00Z (RFC 8392, section 2).
#[derive(Debug, PartialEq, Eq, Drop)]
pub enum Timestamp {
    /// An integer.
    WholeSeconds(i64),
    /// A float, by its width and its bits; `partial_cmp_seconds` compares the number that it is.
    FractionalSeconds(Float),
}

/// The name of a claim (RFC 8392, section 3): a number of the registry or of its private range, or
/// a text.
pub type ClaimName = RegisteredLabelWithPrivate<iana::CwtClaimName>;

/// The claims of a token (RFC 8392, section 3.1).
#[derive(Debug, PartialEq, Eq, Drop)]
pub struct ClaimsSet {
    /// Who issued the token, claim 1.
    pub issuer: Option<String>,
    /// Whom it is about, claim 2.
    pub subject: Option<String>,
    /// Whom it is for, claim 3.
    pub audience: Option<String>,
    /// From when on it is no longer accepted, claim 4.
    pub expiration_time: Option<Timestamp>,
    /// Before when it is not yet accepted, claim 5.
    pub not_before: Option<Timestamp>,
    /// When it was issued, claim 6.
    pub issued_at: Option<Timestamp>,
    /// The id of the token, claim 7. It may have no byte.
    pub cwt_id: Option<Vec<u8>>,
    /// The other claims, in their order.
    pub rest: Vec<(ClaimName, Value)>,
}

impl ClaimsSet {
    /// Claims with none set. It takes no memory.
    pub fn new(alloc: Global) -> ClaimsSet
        ensures { claims_view result ≡ no_claims }
    {
        ClaimsSet {
            issuer: None,
            subject: None,
            audience: None,
            expiration_time: None,
            not_before: None,
            issued_at: None,
            cwt_id: None,
            rest: Vec::new(alloc),
        }
    }
}

impl AsCborValue for Timestamp {
    ghost Fields = { TimeFields };

    ghost fields = { time_view };

    ghost shape = { λ t f. time_of t ≡ Some f };

    ghost wrong = { WrongTime };

    ghost written = { λ f. Some (time_tree f) };

    fn from_cbor_value(_alloc: Global, value: Value) -> Result<Timestamp, CoseError> {
        match value {
            Value::Integer(i) => match i64::try_from(i) {
                Ok(seconds) => Ok(Timestamp::WholeSeconds(seconds)),
                Err(_) => Err(CoseError::OutOfRangeIntegerValue),
            },
            Value::Float(seconds) => Ok(Timestamp::FractionalSeconds(seconds)),
            other => Err(cbor_type_error(&other, "int/float")),
        }
    }

    fn to_cbor_value(self, _alloc: Global) -> Result<Value, CoseError> {
        match self {
            Timestamp::WholeSeconds(seconds) => Ok(Value::Integer(Integer::from(seconds))),
            Timestamp::FractionalSeconds(seconds) => Ok(Value::Float(seconds)),
        }
    }
}

/// Claims are read from their map, its entries in their order: of each first its name, then whether
/// that was there before, then its value. They are written in the order of their fields; a repeated
/// name isn't looked for.
impl AsCborValue for ClaimsSet {
    ghost Fields = { ClaimsFields };

    ghost fields = { claims_view };

    ghost shape = { HasClaims };

    ghost wrong = { WrongClaims };

    ghost written = { λ f. Some (claims_tree f) };

    fn from_cbor_value(alloc: Global, value: Value) -> Result<ClaimsSet, CoseError> {
        read_claims(alloc, value)
    }

    fn to_cbor_value(self, alloc: Global) -> Result<Value, CoseError> {
        write_claims(alloc, self)
    }
}

impl CborSerializable for ClaimsSet {}
