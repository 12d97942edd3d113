//! Questions as records, the messages that some of them were accepted for, and runs of the program.
use crate::gating::{Way, add_end, add_output, gated};
use crate::out::{NoAnswer, Out};
use crate::program::{aad_word, add_ended, shown, shown_writer};
use crate::relaying::add_ids;
use crate::words;
use callers::asking::{run_exact, run_gated};
use callers::judging::KeyIds;
use cose_gate::{Accepted, Asker, Mem, Silent, Terms, run_judged};

/// The records of the questions of this input, and how the run ended.
pub fn ask(to: &mut Out, row: &mut &str) {
    let input = words::bytes(to, row);
    let aad = words::bytes(to, row);
    let mut asker = Asker::new(to.alloc());
    let ended = callers::asking::ask(to.alloc(), &input, &aad, &mut asker);
    add_records(to, &asker);
    add_end(to, ended);
}

fn add_records(to: &mut Out, asker: &Asker) {
    match asker.records() {
        Some(records) => {
            to.text("asked ");
            to.hex(records);
        }
        None => to.refuse(NoAnswer::Memory),
    }
}

/// The messages of this input whose questions' records were accepted, and how the run ended.
pub fn pass(to: &mut Out, row: &mut &str) {
    let accepted = words::bytes(to, row);
    let input = words::bytes(to, row);
    let aad = words::bytes(to, row);
    match Accepted::new(to.alloc(), &accepted) {
        Ok(Some(judge)) => pass_by(to, &input, &aad, judge),
        Ok(None) => to.text("no records"),
        Err(_) => to.refuse(NoAnswer::Memory),
    }
}

fn pass_by(to: &mut Out, input: &[u8], aad: &[u8], judge: Accepted) {
    let (alloc, way, mut judge) = (to.alloc(), Way::Plain, judge);
    let mut out = Mem::new(Vec::new(alloc));
    let ended = gated(alloc, way, input, aad, &mut out, &mut Silent, &mut judge);
    add_output(to, out.as_written());
    add_end(to, ended);
}

/// The limits that the next two arguments are, and whether the one after them is `strict`.
fn read_terms(to: &mut Out, row: &mut &str) -> Terms {
    Terms {
        limits: words::limits(to, row),
        strict: words::word(to, row) == "strict",
    }
}

/// The program with these keys and this AADHEX: its status, its output, and its lines.
pub fn within(to: &mut Out, row: &mut &str) {
    let terms = read_terms(to, row);
    let keys = words::optional(to, row);
    let aad = aad_word(words::word(to, row));
    let input = words::bytes(to, row);
    let (mut out, mut err) = (shown_writer(to), shown_writer(to));
    let (alloc, keys, mut left) = (to.alloc(), keys.as_deref(), input.as_slice());
    let status = run_gated(alloc, terms, keys, aad, &mut left, &mut out, &mut err);
    add_ended(to, status, shown(&out), shown(&err));
}

/// The strict program with these keys and this external data: its status, its output, its lines.
pub fn exact(to: &mut Out, row: &mut &str) {
    let limits = words::limits(to, row);
    let keys = words::bytes(to, row);
    let aad = words::bytes(to, row);
    let input = words::bytes(to, row);
    let (mut out, mut err) = (shown_writer(to), shown_writer(to));
    let (alloc, mut left) = (to.alloc(), input.as_slice());
    let status = run_exact(alloc, limits, &keys, &aad, &mut left, &mut out, &mut err);
    add_ended(to, status, shown(&out), shown(&err));
}

/// The program with a judge that knows one key id: its status, its output, its lines, and the key
/// ids that its judge was asked about.
pub fn by_ids(to: &mut Out, row: &mut &str) {
    let terms = read_terms(to, row);
    let key_id = words::bytes(to, row);
    let aad = words::bytes(to, row);
    let input = words::bytes(to, row);
    let known = [key_id.as_slice()];
    let mut ids = KeyIds::new(to.alloc(), &known);
    let (mut out, mut err) = (shown_writer(to), shown_writer(to));
    let (alloc, mut left) = (to.alloc(), input.as_slice());
    let status = run_judged(alloc, terms, &aad, &mut left, &mut out, &mut err, &mut ids);
    add_ended(to, status, shown(&out), shown(&err));
    add_ids(to, ids.asked());
}
