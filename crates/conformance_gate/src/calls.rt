//! Calls by their names.
use crate::out::{NoAnswer, Out};
use crate::{asking, buffers, cutting, gating, judging, program, showing, streaming, uses, words};

/// What the call returns that the first argument names.
pub fn answer(to: &mut Out, row: &str) {
    let mut row = row;
    let name = words::word(to, &mut row);
    if name == "cut" {
        cutting::answers(to, &mut row);
    } else {
        named(to, name, &mut row);
    }
    end(to, row);
}

/// What the call returns over the whole input.
pub fn uncut(to: &mut Out, row: &str) {
    let mut row = row;
    let name = words::word(to, &mut row);
    named(to, name, &mut row);
    end(to, row);
}

/// Refuses a row with more arguments than its call has.
fn end(to: &mut Out, row: &str) {
    if !row.is_empty() {
        to.refuse(NoAnswer::NoCall);
    }
}

/// The gate's calls.
fn named(to: &mut Out, name: &str, row: &mut &str) {
    match name {
        "gate" => gating::run(to, row),
        "gate-with" => gating::run_within(to, row),
        "gate-strict" => gating::run_strict(to, row),
        "gate-strict-with" => gating::run_strict_within(to, row),
        "gate-again" => gating::run_again(to, row),
        "gate-room" => gating::run_in_room(to, row),
        "ask" => asking::ask(to, row),
        "pass" => asking::pass(to, row),
        "stream" => streaming::check(to, row),
        "stream-with" => streaming::check_within(to, row),
        "stream-fault" => streaming::fault(to, row),
        _ => of_program(to, name, row),
    }
}

/// Calls of the program, of the judge, and of what is shown.
fn of_program(to: &mut Out, name: &str, row: &mut &str) {
    match name {
        "run" => program::run(to, row),
        "run-held" => program::run_held(to, row),
        "words" => program::arguments(to, row),
        "command" => program::command(to, row),
        "command-room" => program::command_in_room(to, row),
        "ask-command" => program::ask_command(to, row),
        "ask-command-full" => program::ask_command_full(to, row),
        "ask-keys-command" => program::ask_keys_command(to, row),
        "pass-command" => program::pass_command(to, row),
        "stream-command" => program::stream_command(to, row),
        "stream-held" => program::stream_held(to, row),
        "stream-room" => program::stream_in_room(to, row),
        "tag" => judging::tag(to, row),
        "judge" => judging::judge(to, row),
        "judge-prepared" => judging::prepared_judge(to, row),
        "why" => judging::why(to, row),
        "show" => showing::show(to, row),
        "pieces" => showing::pieces(to, row),
        _ => of_buffers(to, name, row),
    }
}

/// Calls over buffers.
fn of_buffers(to: &mut Out, name: &str, row: &mut &str) {
    match name {
        "check-into" => buffers::check_into(to, row),
        "ask-into" => buffers::ask_into(to, row),
        "pass-into" => buffers::pass_into(to, row, false),
        "pass-digests-into" => buffers::pass_into(to, row, true),
        _ => uses::answer(to, name, row),
    }
}
