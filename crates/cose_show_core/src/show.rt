//! The items, one after another.
use crate::asking::Asking;
use crate::looks::Looks;
use crate::said::{AROUND, Said, Says};
use crate::source::{Found, Source};
use crate::verdict::say_verdict;
use crate::words::Options;
use cbor_diag::Fault;
use cose_gate_program::CoseKeySet;
use cose_notation::{Json, Look, Text, keys_in, mask, show_keys, show_message};
use cose_reasons::{Stop, read_keys};
use std::alloc::Global;
use std::io::BufReader;
use std::{fmt, io};

/// What is asked for.
#[derive(Clone, Copy)]
pub struct Request<'a> {
    /// As the command line says it.
    pub options: Options<'a>,
    /// The external data.
    pub aad: &'a [u8],
}

/// An item of the input.
#[derive(Clone, Copy)]
pub struct Item<'a> {
    /// From 1.
    pub number: u64,
    /// Where it begins in the input.
    pub offset: usize,
    /// All of it.
    pub bytes: &'a [u8],
    /// The number of the item before it at which the gate stops.
    pub stopped: Option<u64>,
}

/// Shows all items of the input, as the options say, and returns the number of the first one at
/// which the gate stops. `keys` are the bytes of the file of keys, if the judge is to be asked.
///
/// # Errors
/// `NotHex` of external data, `NoKeys`, `TextKeys` and `OneKey`, and `Text` of an input that may be
/// a secret in text, and nothing is shown; `Input`, `NoFile`, `NoDigit`, `HalfByte`, `Memory`,
/// `Output` and `Damaged`, and what was read before is shown.
pub fn show_as<R: io::Read + Drop, P: fmt::Write>(
    alloc: Global,
    options: Options<'_>,
    keys: Option<&[u8]>,
    input: BufReader<R>,
    out: &mut P,
) -> Result<Option<u64>, Stop> {
    let aad = match hex::decode(alloc, options.aad) {
        Ok(aad) => aad,
        Err(hex::FromHexError::OutOfMemory) => return Err(Stop::Memory),
        Err(_) => return Err(Stop::NotHex),
    };
    let request = Request {
        options,
        aad: aad.as_slice(),
    };
    let mut source = Source::new(alloc, input, options.encoding);
    let set = match keys {
        Some(bytes) => Some(keys_of(alloc, bytes)?),
        None => None,
    };
    let mut asking = match &set {
        Some(set) => Some(Asking::new(alloc, options.look, set)?),
        None => None,
    };
    if options.json {
        show(
            alloc,
            request,
            &mut asking,
            &mut source,
            &mut Json::new(alloc, out),
        )
    } else {
        let mut text = Text::new(alloc, options.look, out);
        show(alloc, request, &mut asking, &mut source, &mut text)
    }
}

/// The key set that a file holds.
fn keys_of(alloc: Global, bytes: &[u8]) -> Result<CoseKeySet, Stop> {
    match read_keys(alloc, bytes) {
        Err(Stop::NoKeys(error)) => match Looks::of(bytes) {
            Some(kind) => Err(Stop::TextKeys(kind)),
            None => Err(Stop::NoKeys(error)),
        },
        read => read,
    }
}

fn show<R: io::Read + Drop, S: Says>(
    alloc: Global,
    request: Request<'_>,
    asking: &mut Option<Asking<'_>>,
    source: &mut Source<R>,
    to: &mut S,
) -> Result<Option<u64>, Stop> {
    let look = request.options.look;
    let mut stopped = None;
    for number in 1..u64::MAX {
        let found = source.find()?;
        if number == 1 && !look.secrets {
            if let Some(kind) = source.text(found)? {
                return Err(Stop::Text(kind));
            }
        }
        match found {
            Found::Item(len) => {
                let item = Item {
                    number,
                    offset: source.offset(),
                    bytes: source.held().get(..len).unwrap_or(&[]),
                    stopped,
                };
                to.said(Said::Item(item))?;
                show_content(alloc, look, item.bytes, to)?;
                if say_verdict(alloc, request, asking, item, to)? {
                    stopped = Some(number);
                }
                to.said(Said::End)?;
                source.leave(len);
            }
            Found::End => break,
            Found::Damaged(fault) => {
                show_damage(look, number, fault, source, to)?;
                return Err(Stop::of_fault(fault, source.offset()));
            }
        }
    }
    Ok(stopped)
}

/// Shows what an item holds: keys, the parts of a message, or its notation.
fn show_content<S: Says>(alloc: Global, look: Look, item: &[u8], to: &mut S) -> Result<(), Stop> {
    let masked = mask(alloc, look, item)?;
    let item = masked.view();
    let keys = keys_in(alloc, item.bytes())?;
    to.said(Said::Content(item, keys))?;
    match keys {
        Some(keys) => show_keys(alloc, keys, item, to)?,
        None => show_message(alloc, item, to)?,
    }
    Ok(())
}

/// Shows the fault of the item at hand, and if secrets are asked for what could be read of it, and
/// the bytes around the fault.
fn show_damage<R: io::Read + Drop, S: Says>(
    look: Look,
    number: u64,
    fault: Fault,
    source: &mut Source<R>,
    to: &mut S,
) -> Result<(), Stop> {
    let offset = source.offset();
    to.said(Said::Damaged(number, offset))?;
    if !look.secrets {
        return Ok(to.said(Said::Fault(fault, offset, None))?);
    }
    source.hold(fault.at.saturating_add(AROUND))?;
    Ok(to.said(Said::Fault(fault, offset, Some(source.held())))?)
}
