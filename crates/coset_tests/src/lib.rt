//! Tests of COSE: values by builders, what signers, verifiers and ciphers are handed, what is met
//! first, refused memory, and messages, keys and claims together. What a call answers for bytes is
//! a row of `conformance_cose`.
#![tactic(auto)]

#[cfg(test)]
mod checks;
#[cfg(test)]
mod labels;
#[cfg(test)]
mod recipients;
#[cfg(test)]
mod signed;
#[cfg(test)]
mod together;
