//! `example_ruled KEYS RECEIVER NOW`: reads CBOR web tokens (RFC 8392) from standard input, one a line
//! and in hex, and says of each whether it may pass for the receiver at NOW, in seconds since 1970,
//! or why not.
#![tactic(auto)]

mod hmac;
mod token;

use crate::hmac::Hmac;
use anyhow::Context;
use cose_ruled::RuledJudge;
use cose_rules::{Audience, TokenTerms};
use coset::{CborSerializable, CoseKeySet, Label};
use std::{env, fs};

/// How far clocks may be apart, in seconds.
const LEEWAY: i64 = 60;

const USAGE: &str = "usage: example_ruled KEYS RECEIVER NOW";

fn main(rt: HostRuntime) -> anyhow::Result<()> {
    let mut words = env::args(&rt)?.skip(1);
    let keys = words.next().context(USAGE)?;
    let receiver = words.next().context(USAGE)?;
    let now = words.next().context(USAGE)?.as_str().parse::<i64>()?;
    let keys = CoseKeySet::from_slice(rt.alloc(), &fs::read(&rt, keys.as_str())?)?;
    let terms = TokenTerms {
        earliest: now.saturating_sub(LEEWAY),
        latest: now.saturating_add(LEEWAY),
        issuer: None,
        audience: Audience::Named(receiver.as_str()),
        needed: &[Label::Int(4)],
    };
    let mut judge = RuledJudge::new(rt.alloc(), Hmac, &keys.0);
    for line in rt.lines(rt.alloc()) {
        let bytes = hex::decode(rt.alloc(), line?)?;
        match token::check(rt.alloc(), &mut judge, terms, &bytes) {
            Ok(()) => println!(rt; "passes")?,
            Err(refused) => println!(rt; "refused: {refused:?}")?,
        }
    }
    Ok(())
}
