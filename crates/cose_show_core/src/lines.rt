//! An item as lines of text.
use crate::asking::Answer;
use crate::said::{Said, Says, around};
use crate::verdict::{Difference, UNTAGGED};
use cbor_diag::Page;
use cose_gate_core::{GateFault, MessageKind};
use cose_notation::{Done, Text, View, is_message, write_len, write_shown_id};
use cose_reasons::{write_damage, write_refusal};
use std::fmt;

impl<'a, P: fmt::Write> Says for Text<'a, P> {
    fn said(&mut self, said: Said<'_>) -> Done {
        let page = &mut self.page;
        match said {
            Said::Item(item) => {
                let (number, offset) = (item.number, item.offset);
                write!(page, "item {number} at {offset}, ");
                write_len(item.bytes.len(), page);
                page.write_str("\n");
            }
            Said::Content(item, keys) => {
                let is_shown_by_parts = keys.is_some() || is_message(item);
                let may_show = self.look.secrets || keys.is_none();
                if may_show && (self.look.full || !is_shown_by_parts) {
                    self.notation(item);
                    self.page.write_str("\n");
                }
            }
            Said::NotReached(number) => {
                writeln!(
                    page,
                    "  check: not reached: cose-gate stops at item {number}"
                );
            }
            Said::MayPass(kind, count) => write_unchecked(kind, count, page),
            Said::Answer(Answer::No(why)) => writeln!(page, "  check: refused: Judged: {why}"),
            Said::Answer(Answer::Yes(id)) => {
                page.write_str("  check: the MAC is good");
                if let Some(id) = id {
                    page.write_str(", under ");
                    write_shown_id(id.view(), self.look.full, page);
                }
                page.write_str("\n");
            }
            Said::Refused(refusal) => {
                let name = refusal.name();
                write!(page, "  check: refused: {name}: ");
                write_refusal(refusal, page);
                page.write_str("\n");
            }
            Said::Wrapped(tag) => {
                write!(
                    page,
                    "  check: cose-gate refuses tag {tag}; cose-sift --untag takes it off"
                );
                page.write_str(", and so does cose-verify --cwt\n");
            }
            Said::Stops(fault) => {
                page.write_str("  check: cose-gate stops at this item: ");
                if let GateFault::Decode(error) = fault {
                    write_damage(error, page);
                }
                page.write_str("\n");
            }
            Said::Part(wrong) => {
                let (name, fault) = (wrong.name.as_str(), wrong.fault);
                writeln!(page, "    {name}: {fault}");
            }
            Said::Untagged => writeln!(
                page,
                "    it has the shape of a {UNTAGGED} without its tag"
            ),
            Said::Shortest => page.write_str("  strict: it is in canonical encoding\n"),
            Said::Differs(difference, place) => {
                let (before, behind, last) = match difference {
                    Difference::Order => ("a header's entries are in another ", ", from", " on"),
                    Difference::NoRecipients => ("a recipient with ", " at", ""),
                    Difference::Other => ("", " from", " on"),
                    Difference::Excess(_) | Difference::ListOfOne => ("", " at", ""),
                };
                write!(page, "  strict: not in canonical encoding: {before}");
                writeln!(page, "{difference}{behind} {place}{last}");
            }
            Said::Covered(kind, number, covered) => {
                match kind {
                    MessageKind::Mac0 | MessageKind::Mac => page.write_str("  MAC covers "),
                    MessageKind::Sign1 => page.write_str("  signature covers "),
                    MessageKind::Sign => write!(page, "  signature {number} covers "),
                }
                self.end_with_bytes(covered, true);
            }
            Said::AllCovered | Said::LastCovered | Said::End => {}
            Said::Damaged(number, offset) => writeln!(page, "item {number} at {offset}, damaged"),
            Said::Fault(fault, offset, held) => {
                match held {
                    Some(held) => {
                        self.notation(View::open(held));
                        self.page.write_str("...\n");
                    }
                    None => self.page.write_str(
                        "  not shown, as it may hold secrets of keys (--secrets shows it)\n",
                    ),
                }
                let (why, place) = (fault.why, offset.saturating_add(fault.at));
                writeln!(self.page, "  fault at {place}: {why}");
                if let Some(held) = held {
                    write_around(held, offset, fault.at, &mut self.page);
                }
            }
        }
        self.page.end()
    }
}

/// Writes what isn't checked of a message that may pass, and what does check it.
fn write_unchecked<P: fmt::Write>(kind: Option<MessageKind>, count: usize, page: &mut Page<'_, P>) {
    page.write_str("  check: well-formed; ");
    match kind {
        Some(MessageKind::Mac0) | None => {
            page.write_str("its MAC isn't checked here (--keys KEYS does)\n");
        }
        Some(MessageKind::Mac) => {
            page.write_str("its MAC has recipients, which no command here checks");
            page.write_str(" (cose-ask says what it covers)\n");
        }
        Some(MessageKind::Sign1 | MessageKind::Sign) => {
            if count > 1 {
                write!(page, "its {count} signatures aren't");
            } else {
                page.write_str("its signature isn't");
            }
            page.write_str(" checked here (cose-verify does; cose-gate refuses it)\n");
        }
    }
}

/// Writes the bytes around a place, with a bar after those before it.
fn write_around<P: fmt::Write>(held: &[u8], offset: usize, at: usize, page: &mut Page<'_, P>) {
    let (before, behind) = around(held, at);
    let first = at.saturating_sub(before.len());
    write!(page, "  bytes from {}:", offset.saturating_add(first));
    for byte in before {
        write!(page, " {byte:02x}");
    }
    page.write_str(" |");
    for byte in behind {
        write!(page, " {byte:02x}");
    }
    page.write_str("\n");
}
