//! Tests of `ciborium_ll`, `ciborium_typed` (with `ciborium_traits`), `ciborium` and `cbor_diag`,
//! by their public names: what no clause and no row of `conformance_cbor` says.
#![tactic(auto)]

#[cfg(test)]
mod checks;
#[cfg(test)]
mod diag;
#[cfg(test)]
mod items;
#[cfg(test)]
mod ll;
#[cfg(test)]
mod typed;
