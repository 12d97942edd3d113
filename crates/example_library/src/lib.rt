//! Types of one's own, read and written, over `ciborium`; headers, over `coset_base`; and a message
//! opened by a cipher of one's own, over `coset`.
#![tactic(auto)]

pub mod encrypted;
pub mod headers;
pub mod items;
pub mod reading;
pub mod station;
