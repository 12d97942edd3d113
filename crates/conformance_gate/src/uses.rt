//! Calls of `callers`, and runs with its judges, by their names.
use crate::out::{NoAnswer, Out};
use crate::{asking, checking, heads, items, keeping, relaying, signing};

/// What the call with this name returns.
pub fn answer(to: &mut Out, name: &str, row: &mut &str) {
    match name {
        "first-head" => heads::first(to, row),
        "array-len" => heads::array_len(to, row),
        "numbers" => heads::numbers(to, row),
        "shortened" => heads::shortened(to, row),
        "labelled" => items::labelled(to, row),
        "whole-byte" => items::whole(to, row),
        "front-value" => items::front(to, row),
        "two-values" => items::two(to, row),
        _ => of_cose(to, name, row),
    }
}

fn of_cose(to: &mut Out, name: &str, row: &mut &str) {
    match name {
        "header" => keeping::header(to, row),
        "is-header" => keeping::is_header(to, row),
        "rewritten" => keeping::rewritten(to, row),
        "is-same-key" => keeping::is_same_key(to, row),
        "spelling" => keeping::spelling(to, row),
        "signed" => signing::signed(to, row),
        "signed-payload" => signing::signed_payload(to, row),
        _ => of_gate(to, name, row),
    }
}

fn of_gate(to: &mut Out, name: &str, row: &mut &str) {
    match name {
        "relay" => relaying::run(to, row),
        "relay-twice" => relaying::run_twice(to, row),
        "pass-good" => relaying::run_good(to, row),
        "pass-ruled" => relaying::run_ruled(to, row),
        "run-gated" => asking::within(to, row),
        "run-exact" => asking::exact(to, row),
        "run-by-ids" => asking::by_ids(to, row),
        "is-tagged" => checking::is_tagged(to, row),
        "is-fed" => checking::is_fed(to, row),
        _ => to.refuse(NoAnswer::NoCall),
    }
}
