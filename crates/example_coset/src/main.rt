//! What the two examples of coset 0.4.2, `signature` and `cwt`, do.
#![tactic(auto)]

mod cwt;
mod signature;
mod signer;

fn main(rt: HostRuntime) -> anyhow::Result<()> {
    signature::run(&rt)?;
    cwt::run(&rt)
}
