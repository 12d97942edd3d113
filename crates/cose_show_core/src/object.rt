//! An item as a JSON object.
use crate::asking::Answer;
use crate::said::{Said, Says, around};
use crate::verdict::UNTAGGED;
use cose_notation::{Done, Json, View};
use std::fmt;

/// What `gate` is of a message that may pass.
const MAY_PASS: &str = "passes if judged good";

/// What `check` is of an item that is neither good nor refused.
const NOT_MADE: &str = "not made";

impl<'a, P: fmt::Write> Says for Json<'a, P> {
    fn said(&mut self, said: Said<'_>) -> Done {
        match said {
            Said::Item(item) => {
                let (number, offset, len) = (item.number, item.offset, item.bytes.len());
                write!(
                    self.page,
                    "{{\"number\":{number},\"offset\":{offset},\"length\":{len}"
                );
            }
            Said::Content(item, _) => self.noted(item),
            Said::NotReached(_) => self.words(&[("gate", "not reached"), ("check", NOT_MADE)]),
            Said::MayPass(_, _) => self.words(&[("gate", MAY_PASS), ("check", NOT_MADE)]),
            Said::Answer(Answer::Yes(_)) => {
                self.words(&[("gate", MAY_PASS), ("judge", "yes"), ("check", "good")]);
            }
            Said::Answer(Answer::No(why)) => {
                self.words(&[
                    ("gate", MAY_PASS),
                    ("judge", "no"),
                    ("reason", why.as_str()),
                    ("check", "refused"),
                ]);
            }
            Said::Refused(refusal) => {
                write!(self.page, ",\"gate\":\"refused\",\"why\":\"{refusal}\"");
                self.word("check", "refused");
            }
            Said::Wrapped(_) => self.words(&[
                ("gate", "refused"),
                ("why", "OtherTag"),
                ("check", "refused"),
            ]),
            Said::Stops(fault) => {
                write!(self.page, ",\"gate\":\"stops\",\"why\":\"{fault}\"");
                self.word("check", NOT_MADE);
            }
            Said::Part(wrong) => {
                let fault = wrong.fault;
                self.word("part", wrong.name.as_str());
                write!(self.page, ",\"part_fault\":\"{fault}\"");
            }
            Said::Untagged => self.word("untagged", UNTAGGED),
            Said::Shortest => self.page.write_str(",\"shortest\":true"),
            Said::Differs(difference, place) => write!(
                self.page,
                ",\"shortest\":false,\"excess\":\"{difference}\",\"excess_offset\":{place}"
            ),
            Said::AllCovered => {
                self.name("covered");
                self.open();
            }
            Said::Covered(_, _, covered) => {
                self.next();
                self.hex(covered);
            }
            Said::LastCovered => self.close(),
            Said::End => self.page.write_str("}\n"),
            Said::Damaged(number, offset) => {
                write!(self.page, "{{\"number\":{number},\"offset\":{offset}");
            }
            Said::Fault(fault, offset, held) => {
                if let Some(held) = held {
                    self.noted(View::open(held));
                }
                let (why, place) = (fault.why, offset.saturating_add(fault.at));
                write!(self.page, ",\"fault\":\"{why}\",\"fault_offset\":{place}");
                if let Some(held) = held {
                    let (before, behind) = around(held, fault.at);
                    self.name("bytes_before");
                    self.hex(View::open(before));
                    self.name("bytes_from");
                    self.hex(View::open(behind));
                }
                self.page.write_str("}\n");
            }
        }
        self.page.end()
    }
}
