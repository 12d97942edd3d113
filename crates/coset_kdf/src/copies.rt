//! Copies of KDF contexts and their parts.
ghost use Rattle.std.specs.Prelude.{◌≡◌, ℤ, IfOk, IsOk, map, option_map};
ghost use Rattle.coset_kdf.specs.Fields.{nonce_integer};
ghost use Rattle.coset_kdf.specs.View.{context_view, nonce_view, party_view, public_view};

use crate::context::{CoseKdfContext, Nonce, PartyInfo, SuppPubInfo};
use coset_labels::clone_bytes;
use std::alloc::{AllocError, Global};

fn clone_nonce(alloc: Global, nonce: &Option<Nonce>) -> Result<Option<Nonce>, AllocError>
    ensures { IfOk result (λ copy. option_map nonce_view copy ≡ option_map nonce_view nonce.now) }
{
    match nonce {
        Some(nonce) => Ok(Some(nonce.clone(alloc)?)),
        None => Ok(None),
    }
}

fn clone_private(alloc: Global, private: &[Vec<u8>]) -> Result<Vec<Vec<u8>>, AllocError>
    ensures { IfOk result
        (λ copies. map (λ v. v.items) copies.items ≡ map (λ v. v.items) private.now) }
{
    let mut copies = Vec::new(alloc);
    for bytes in private {
        copies.push(bytes.as_slice().to_vec(alloc)?)?;
    }
    Ok(copies)
}

/// Copies of both parties.
fn clone_parties(
    alloc: Global,
    one: &PartyInfo,
    other: &PartyInfo,
) -> Result<(PartyInfo, PartyInfo), AllocError>
    ensures { IfOk result
        (λ copies. (party_view copies.0 ≡ party_view one.now)
        × (party_view copies.1 ≡ party_view other.now)) }
{
    let one = one.clone(alloc)?;
    let other = other.clone(alloc)?;
    Ok((one, other))
}

impl Nonce {
    /// A nonce equal to this one. That of an integer takes no memory.
    ///
    /// # Errors
    /// Only if out of memory, and of bytes alone.
    pub fn clone(&self, alloc: Global) -> Result<Nonce, AllocError>
        ensures ok { IfOk result (λ copy. nonce_view copy ≡ nonce_view self.now) }
        ensures number { (i : ℤ) → nonce_view self.now ≡ nonce_integer i → IsOk result }
    {
        match self {
            Nonce::Bytes(bytes) => Ok(Nonce::Bytes(bytes.as_slice().to_vec(alloc)?)),
            Nonce::Integer(i) => Ok(Nonce::Integer(*i)),
        }
    }
}

impl PartyInfo {
    /// A value equal to this one.
    ///
    /// # Errors
    /// Only if out of memory.
    pub fn clone(&self, alloc: Global) -> Result<PartyInfo, AllocError>
        ensures { IfOk result (λ copy. party_view copy ≡ party_view self.now) }
    {
        let identity = clone_bytes(alloc, &self.identity)?;
        let nonce = clone_nonce(alloc, &self.nonce)?;
        let other = clone_bytes(alloc, &self.other)?;
        Ok(PartyInfo {
            identity,
            nonce,
            other,
        })
    }
}

impl SuppPubInfo {
    /// A value equal to this one, whose header has the same bytes.
    ///
    /// # Errors
    /// Only if out of memory.
    pub fn clone(&self, alloc: Global) -> Result<SuppPubInfo, AllocError>
        ensures { IfOk result (λ copy. public_view copy ≡ public_view self.now) }
    {
        let protected = self.protected.clone(alloc)?;
        let other = clone_bytes(alloc, &self.other)?;
        Ok(SuppPubInfo {
            key_data_length: self.key_data_length,
            protected,
            other,
        })
    }
}

impl CoseKdfContext {
    /// A context equal to this one.
    ///
    /// # Errors
    /// Only if out of memory.
    pub fn clone(&self, alloc: Global) -> Result<CoseKdfContext, AllocError>
        ensures { IfOk result (λ copy. context_view copy ≡ context_view self.now) }
    {
        let supp_priv_info = clone_private(alloc, &self.supp_priv_info)?;
        let algorithm_id = self.algorithm_id.clone(alloc)?;
        let supp_pub_info = self.supp_pub_info.clone(alloc)?;
        let (party_u_info, party_v_info) = clone_parties(
            alloc,
            &self.party_u_info,
            &self.party_v_info,
        )?;
        Ok(CoseKdfContext {
            algorithm_id,
            party_u_info,
            party_v_info,
            supp_pub_info,
            supp_priv_info,
        })
    }
}
