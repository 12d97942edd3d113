//! The gate with a judge by key ids, with one by secrets, and with one by rules.
use crate::gating::{add_end, add_output};
use crate::judging::read_keys;
use crate::out::Out;
use crate::words;
use callers::choosing::{Secret, pass_good};
use callers::judging::KeyIds;
use callers::relaying::relay;
use callers::ruling::pass_ruled;
use callers::tally::Tally;
use callers::twice::relay_twice;
use cose_gate::{Counts, End, GateFault};

/// A relay that knows one key id: its output and counts or its fault, its tally, and the key ids
/// that its judge was asked about.
pub fn run(to: &mut Out, row: &mut &str) {
    let key_id = words::bytes(to, row);
    let input = words::bytes(to, row);
    let known = [key_id.as_slice()];
    let mut judge = KeyIds::new(to.alloc(), &known);
    let mut tally = Tally::new();
    let relayed = relay(to.alloc(), &input, &[], &mut judge, &mut tally);
    add_relayed(to, relayed);
    to.text("; tally ");
    to.show(&tally.passed);
    to.text(" ");
    to.show(&tally.refused);
    add_ids(to, judge.asked());
}

fn add_relayed(to: &mut Out, relayed: Result<(Vec<u8>, Counts), GateFault<End>>) {
    match relayed {
        Ok((output, counts)) => {
            add_output(to, &output);
            add_end(to, Ok(counts));
        }
        Err(fault) => add_end(to, Err(fault)),
    }
}

pub fn add_ids(to: &mut Out, ids: &[Vec<u8>]) {
    to.text("; asked");
    for id in ids {
        to.text(" ");
        to.hex(id);
    }
}

/// What a relay that knows one key id gives, and then another one over its output.
pub fn run_twice(to: &mut Out, row: &mut &str) {
    let key_id = words::bytes(to, row);
    let input = words::bytes(to, row);
    let known = [key_id.as_slice()];
    let mut judge = KeyIds::new(to.alloc(), &known);
    let mut tally = Tally::new();
    match relay_twice(to.alloc(), &input, &[], &mut judge, &mut tally) {
        Ok((once, again)) => {
            add_relayed(to, Ok(once));
            add_relayed(to, Ok(again));
        }
        Err(fault) => add_end(to, Err(fault)),
    }
}

/// The messages whose tags are good under two secrets, each of which comes after its key id, and
/// how the run ended.
pub fn run_good(to: &mut Out, row: &mut &str) {
    let id = words::bytes(to, row);
    let secret = words::bytes(to, row);
    let other_id = words::bytes(to, row);
    let other = words::bytes(to, row);
    let aad = words::bytes(to, row);
    let input = words::bytes(to, row);
    let secrets = [
        Secret {
            id: id.as_slice(),
            secret: secret.as_slice(),
        },
        Secret {
            id: other_id.as_slice(),
            secret: other.as_slice(),
        },
    ];
    let passed = pass_good(to.alloc(), &input, &aad, &secrets);
    add_relayed(to, passed);
}

/// The messages that the rules allow under these keys and whose signatures are the covered bytes,
/// and how the run ended.
pub fn run_ruled(to: &mut Out, row: &mut &str) {
    let keys = read_keys(to, row);
    let aad = words::bytes(to, row);
    let input = words::bytes(to, row);
    let passed = pass_ruled(to.alloc(), &input, &aad, &keys.0);
    add_relayed(to, passed);
}
