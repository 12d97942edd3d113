//! Copies of times and claims.
ghost use Rattle.std.specs.Prelude.{◌≡◌, IfOk, IsOkAnd, option_map, string_bytes};
ghost use Rattle.coset_claims.specs.View.{claims_view, time_view};

use crate::cwt::{ClaimsSet, Timestamp};
use coset_labels::{clone_bytes, clone_entries};
use std::alloc::{AllocError, Global};

fn clone_text(alloc: Global, text: &Option<String>) -> Result<Option<String>, AllocError>
    ensures { IfOk result
        (λ copy. option_map string_bytes copy ≡ option_map string_bytes text.now) }
{
    match text {
        Some(text) => Ok(Some(String::from_str(alloc, text.as_str())?)),
        None => Ok(None),
    }
}

fn clone_time(alloc: Global, time: &Option<Timestamp>) -> Result<Option<Timestamp>, AllocError>
    ensures { IfOk result (λ copy. option_map time_view copy ≡ option_map time_view time.now) }
{
    match time {
        Some(time) => Ok(Some(time.clone(alloc)?)),
        None => Ok(None),
    }
}

impl Timestamp {
    /// A time equal to this one. It takes no memory.
    ///
    /// # Errors
    /// None.
    pub fn clone(&self, _alloc: Global) -> Result<Timestamp, AllocError>
        ensures { IsOkAnd result (λ copy. time_view copy ≡ time_view self.now) }
    {
        match self {
            Timestamp::WholeSeconds(seconds) => Ok(Timestamp::WholeSeconds(*seconds)),
            Timestamp::FractionalSeconds(seconds) => Ok(Timestamp::FractionalSeconds(*seconds)),
        }
    }
}

impl ClaimsSet {
    /// Claims equal to these.
    ///
    /// # Errors
    /// Only if out of memory.
    pub fn clone(&self, alloc: Global) -> Result<ClaimsSet, AllocError>
        ensures { IfOk result (λ copy. claims_view copy ≡ claims_view self.now) }
    {
        Ok(ClaimsSet {
            issuer: clone_text(alloc, &self.issuer)?,
            subject: clone_text(alloc, &self.subject)?,
            audience: clone_text(alloc, &self.audience)?,
            expiration_time: clone_time(alloc, &self.expiration_time)?,
            not_before: clone_time(alloc, &self.not_before)?,
            issued_at: clone_time(alloc, &self.issued_at)?,
            cwt_id: clone_bytes(alloc, &self.cwt_id)?,
            rest: clone_entries(alloc, &self.rest)?,
        })
    }
}
