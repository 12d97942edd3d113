//! Tests of the gate, by the public names of `cose_gate`: the gate, the check of one large message,
//! the program, and the calls of `callers`, beside the rows of `conformance_gate`.
#![tactic(auto)]

#[cfg(test)]
mod calling;
#[cfg(test)]
mod checks;
#[cfg(test)]
mod equal;
#[cfg(test)]
mod gate;
#[cfg(test)]
mod judges;
#[cfg(test)]
mod messages;
#[cfg(test)]
mod program;
#[cfg(test)]
mod stream;
