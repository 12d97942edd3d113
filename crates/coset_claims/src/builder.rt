//! A builder of claims.
ghost use Rattle.std.specs.Prelude.{◌≡◌, false, true, Some, MatchResult, string_bytes};
ghost use Rattle.cose_iana.specs.Claims.{cwt_claim_names};
ghost use Rattle.cose_iana.specs.Registry.{is_private_use};
ghost use Rattle.ciborium_value.specs.View.{view};
ghost use Rattle.coset_labels.specs.Fields.{assigned, named, private_use};
ghost use Rattle.coset_labels.specs.declared.error.CoseError.TheVariants.{Memory};
ghost use Rattle.coset_claims.specs.Builder.{so_far, also};
ghost use Rattle.coset_claims.specs.Claims.{is_core};
ghost use Rattle.coset_claims.specs.Fields.{no_claims};
ghost use Rattle.coset_claims.specs.View.{claims_view, time_view};

use crate::cwt::{ClaimName, ClaimsSet, Timestamp};
use ciborium_value::Value;
use coset_labels::{CoseError, iana};
use std::alloc::Global;

/// Claims while they are built (RFC 8392, section 3.1). Calls that append can run out of memory;
/// the others take none.
#[derive(Drop)]
pub struct ClaimsSetBuilder {
    claims: ClaimsSet,
}

impl ClaimsSetBuilder {
    /// A builder of claims with none set.
    pub fn new(alloc: Global) -> ClaimsSetBuilder
        ensures { so_far result ≡ no_claims }
    {
        ClaimsSetBuilder {
            claims: ClaimsSet::new(alloc),
        }
    }

    /// The claims.
    pub fn build(self) -> ClaimsSet
        ensures { claims_view result ≡ so_far self }
    {
        self.claims
    }

    /// Sets who issued the token.
    pub fn issuer(mut self, issuer: String) -> ClaimsSetBuilder
        ensures { so_far result ≡ record (so_far self) { issuer = Some (string_bytes issuer) } }
    {
        self.claims.issuer = Some(issuer);
        self
    }

    /// Sets whom the token is about.
    pub fn subject(mut self, subject: String) -> ClaimsSetBuilder
        ensures { so_far result ≡ record (so_far self) { subject = Some (string_bytes subject) } }
    {
        self.claims.subject = Some(subject);
        self
    }

    /// Sets whom the token is for.
    pub fn audience(mut self, audience: String) -> ClaimsSetBuilder
        ensures { so_far result ≡ record (so_far self) { audience = Some (string_bytes audience) } }
    {
        self.claims.audience = Some(audience);
        self
    }

    /// Sets from when on the token is no longer accepted.
    pub fn expiration_time(mut self, time: Timestamp) -> ClaimsSetBuilder
        ensures { so_far result ≡ record (so_far self) { expiration_time = Some (time_view time) } }
    {
        self.claims.expiration_time = Some(time);
        self
    }

    /// Sets before when the token is not yet accepted.
    pub fn not_before(mut self, time: Timestamp) -> ClaimsSetBuilder
        ensures { so_far result ≡ record (so_far self) { not_before = Some (time_view time) } }
    {
        self.claims.not_before = Some(time);
        self
    }

    /// Sets when the token was issued.
    pub fn issued_at(mut self, time: Timestamp) -> ClaimsSetBuilder
        ensures { so_far result ≡ record (so_far self) { issued_at = Some (time_view time) } }
    {
        self.claims.issued_at = Some(time);
        self
    }

    /// Sets the id of the token.
    pub fn cwt_id(mut self, cwt_id: Vec<u8>) -> ClaimsSetBuilder
        ensures { so_far result ≡ record (so_far self) { cwt_id = Some cwt_id.items } }
    {
        self.claims.cwt_id = Some(cwt_id);
        self
    }

    /// Appends a claim with a number outside 1 to 7, which have fields of their own (RFC 8392,
    /// section 3.1).
    ///
    /// # Errors
    /// Only if out of memory.
    pub fn claim(
        mut self,
        name: iana::CwtClaimName,
        value: Value,
    ) -> Result<ClaimsSetBuilder, CoseError>
        requires { is_core (assigned (cwt_claim_names.number name)) ≡ false }
        ensures { MatchResult result
            (λ b. so_far b
            ≡ also (assigned (cwt_claim_names.number name), view value) (so_far self))
            (λ e. e ≡ Memory) }
    {
        self.claims.rest.push((ClaimName::Assigned(name), value))?;
        Ok(self)
    }

    /// Appends a claim whose name is a text.
    ///
    /// # Errors
    /// Only if out of memory.
    pub fn text_claim(mut self, name: String, value: Value) -> Result<ClaimsSetBuilder, CoseError>
        ensures { MatchResult result
            (λ b. so_far b ≡ also (named (string_bytes name), view value) (so_far self))
            (λ e. e ≡ Memory) }
    {
        self.claims.rest.push((ClaimName::Text(name), value))?;
        Ok(self)
    }

    /// Appends a claim whose name is a number for private use, below -65536 (RFC 8392, section
    /// 9.1).
    ///
    /// # Errors
    /// Only if out of memory.
    pub fn private_claim(mut self, id: i64, value: Value) -> Result<ClaimsSetBuilder, CoseError>
        requires { is_private_use id ≡ true }
        ensures { MatchResult result
            (λ b. so_far b ≡ also (private_use id, view value) (so_far self))
            (λ e. e ≡ Memory) }
    {
        self.claims.rest.push((ClaimName::PrivateUse(id), value))?;
        Ok(self)
    }
}
