//! The run of the gate that asks by the rules: a block for each item.
ghost use Rattle.std.specs.Prelude.{◌≡◌, ◌++◌, ◌<◌, List, [], OnOk, OnErr, map, option_map};
ghost use Rattle.std.specs.Io.KnownBytes.{Appends};
ghost use Rattle.ciborium_ll.specs.Device.{AppendsFront, write_failures};
ghost use Rattle.coset_keys.specs.View.{key_view};
ghost use Rattle.cose_gate_core.specs.Terms.{limits_of};
ghost use Rattle.cose_gate_core.specs.declared.report.Entry.{Entry};
ghost use Rattle.cose_gate_program.specs.Telling.{tells};
ghost use Rattle.cose_rules.specs.TokenView.{terms_view};
ghost use Rattle.cose_ruled.specs.Asking.{asked_by, item_of};
ghost use Rattle.cose_ruled.specs.Blocks.{IsBlock, Part};
ghost use Rattle.cose_ruled.specs.Running.{AskedItems, BlockHanded, RanAsking, reading_into};

use crate::asker::RuledAsker;
use ciborium::Spare;
use ciborium_ll::{Decoder, Read, Write};
use cose_gate_core::{Counts, Entry, GateFault, ItemTerms, Report, Terms, Verdict, gate_next};
use cose_gate_program::{Input, InputFault, Notice, Teller, last_of, status_after};
use cose_gate_records::Nowhere;
use cose_rules::TokenTerms;
use coset_keys::CoseKey;
use std::alloc::{AllocError, Global};

/// By which rules the gate asks.
#[derive(Clone, Copy)]
pub struct Rules<'a> {
    /// The keys of a set.
    pub keys: &'a [CoseKey],
    /// If items have to be tokens, which of them pass.
    pub token: Option<TokenTerms<'a>>,
}

/// A report that keeps the last entry, or at first one of no item.
#[derive(Drop)]
struct LastEntry {
    entry: Entry,
}

impl LastEntry {
    /// No entry was noted.
    fn new() -> LastEntry {
        LastEntry {
            entry: Entry {
                number: 0,
                offset: 0,
                verdict: Verdict::Passed,
            },
        }
    }
}

impl Report for LastEntry {
    ghost State = { Entry };

    ghost state = { λ last. last.entry };

    ghost folded = { λ _ entry. entry };

    fn note(&mut self, entry: &Entry) -> Result<(), AllocError> {
        self.entry = *entry;
        Ok(())
    }
}

/// Writes a block and hands it on.
fn write_block<W: Write>(block: &[u8], out: &mut W) -> Result<(), W::Error>
    ensures ok { OnOk result (Appends (W.written out.old) (W.written out.new) block.now) }
    ensures err { OnErr result
        (AppendsFront (W.written out.old) (W.written out.new) block.now) }
    ensures failed { W.failed out.new ≡ write_failures result (W.failed out.old) }
    ensures lent { W.handle out.new ≡ W.handle out.old }
{
    out.write_all(block)?;
    out.flush()
}

/// Writes the block of the item at hand, which has this entry and ends at this offset, and tells
/// the item.
fn ask_item<W: Write, T: Teller>(
    alloc: Global,
    asker: &RuledAsker<'_>,
    token: Option<TokenTerms<'_>>,
    entry: &Entry,
    end: usize,
    out: &mut W,
    teller: &mut T,
) -> Result<(), GateFault<InputFault>>
    ensures handed { (ps : List Part) → (asked_by asker.now).told ≡ (item_of asker.now).before ++ ps
        → BlockHanded W.Write T.Teller out.old out.new teller.old teller.new entry.now
        (IsBlock (option_map terms_view token.entry) entry.now end ps) result }
    ensures lent { W.handle out.new ≡ W.handle out.old }
{
    let block = asker.block(alloc, entry, end, token)?;
    let handed = write_block(&block, out);
    teller.tell(&Notice::Item(*entry));
    match handed {
        Ok(()) => {
            teller.rest();
            Ok(())
        }
        Err(_) => Err(GateFault::Write),
    }
}

/// Asks about all items, and tells each.
fn ask_items<R: Read, W: Write, T: Teller>(
    alloc: Global,
    terms: Terms,
    rules: Rules<'_>,
    aad: &[u8],
    input: &mut R,
    out: &mut W,
    teller: &mut T,
) -> Result<Counts, GateFault<InputFault>>
    ensures ran { AskedItems W.Write (limits_of terms)
        (option_map terms_view rules.entry.token) (map key_view rules.entry.keys.now) aad.now
        (reading_into R.Read W.Write input.old out.old)
        (reading_into R.Read W.Write input.new out.new) out.old out.new result
        (tells T.Teller teller.old teller.new) }
    ensures kept { R.handle input.new ≡ R.handle input.old }
    ensures lent { W.handle out.new ≡ W.handle out.old }
{
    let mut decoder = Decoder::from(Input { reader: input });
    let mut asker = RuledAsker::new(alloc, rules.keys);
    let mut last = LastEntry::new();
    let mut spare = Spare::new(alloc);
    let mut counts = Counts {
        passed: 0,
        refused: 0,
    };
    'items: loop {
        asker.next_item();
        let item = ItemTerms { terms, aad, counts };
        let Some(next) = gate_next(
            alloc,
            item,
            &mut decoder,
            &mut Nowhere,
            &mut last,
            &mut asker,
            &mut spare,
        )?
        else {
            return Ok(counts);
        };
        counts = next;
        ask_item(
            alloc,
            &asker,
            rules.token,
            &last.entry,
            decoder.offset(),
            out,
            teller,
        )?;
    }
}

/// Asks, by these rules, about the items of the input, as the gate does by these terms with `aad`
/// as external data, and checks no signature. Of each item a block is written to `out` and handed
/// on, which shows the questions, if the rules allow them all, and if the item has to be a token
/// that passes and is one; then the item is told, and the teller rests, before more input is read.
/// A block is linear in its item, and one item is held at a time.
///
/// The status is 0 if the rules refused no item, 1 if they refused some, and 4 if the gate
/// stopped, if a block could not be handed on, or if it is out of memory. What a block says of a
/// token changes neither status nor what is told. Blocks were written, and items
/// told, up to where it stopped; if out of memory for a block, its item has none and isn't told. If
/// a block could not be handed on, its item is told, and a beginning of the blocks was written.
pub fn ask_ruled<R: Read, W: Write, T: Teller>(
    alloc: Global,
    terms: Terms,
    rules: Rules<'_>,
    aad: &[u8],
    input: &mut R,
    out: &mut W,
    teller: &mut T,
) -> u8
    ensures ran { RanAsking W.Write (limits_of terms)
        (option_map terms_view rules.entry.token) (map key_view rules.entry.keys.now) aad.now
        (reading_into R.Read W.Write input.old out.old)
        (reading_into R.Read W.Write input.new out.new) out.old out.new result
        (tells T.Teller teller.old teller.new) }
    ensures kept { R.handle input.new ≡ R.handle input.old }
    ensures lent { W.handle out.new ≡ W.handle out.old }
    ensures handed { result < 2 → W.held out.new ≡ [] }
{
    let asked = ask_items(alloc, terms, rules, aad, input, out, teller);
    let last = last_of(asked, out.flush().is_ok());
    teller.tell(&last);
    status_after(&last)
}
