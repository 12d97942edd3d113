//! What is said of KEYS.
ghost use Rattle.std.specs.Prelude.{◌≡◌, option_copied, true};
ghost use Rattle.std.specs.List.{list_all};
ghost use Rattle.cose_gate_program.specs.Writing.{Wrote};
ghost use Rattle.cose_gate_command.specs.KeyFiles as spec;
ghost use Rattle.cose_gate_command.specs.RunLines.{AddsReasons};
ghost use Rattle.cose_reasons.specs.Texts.{is_of_base64, is_of_hex};

use crate::more::{write_indented, write_more};
use ciborium_ll::Write;
use cose_gate_program::{NotBegun, hand_on};
use cose_reasons::{Page, is_of_base64, is_of_hex, write_char};
use coset_labels::CoseError;
use std::alloc::Global;
use std::fmt;

/// The file KEYS.
#[derive(Debug, Clone, Copy, PartialEq, Eq)]
pub struct KeyFile<'a> {
    /// Its name.
    pub name: &'a str,
    /// Its bytes; none if it can't be read.
    pub bytes: Option<&'a [u8]>,
    /// Why it can't be read, if it can't.
    pub fault: &'a str,
}

/// Writes why KEYS can't be used, in a line that begins with two blanks, if that is why a run
/// doesn't begin, and flushes the writer. Of the file it says only what kind it looks like.
pub fn write_reason<W: Write>(why: NotBegun, file: KeyFile<'_>, out: &mut W)
    ensures { Wrote W.Write out.old out.new
        (spec.reason_line file.entry.fault.now (option_copied file.entry.bytes) why) }
{
    match why {
        NotBegun::NoFile => write_line(file.fault, out),
        NotBegun::NoKeys(error) => write_line(what_is(bytes_of(file), error), out),
        NotBegun::NotHex | NotBegun::Memory => {}
    }
}

/// The bytes of the file, which are none if it can't be read.
fn bytes_of(file: KeyFile<'_>) -> &[u8]
    ensures { result.now ≡ spec.bytes_or_none (option_copied file.entry.bytes) }
{
    file.bytes.unwrap_or(&[])
}

/// Writes a line that begins with two blanks, and flushes the writer. A fault of it is ignored.
fn write_line<W: Write>(text: &str, out: &mut W)
    ensures { Wrote W.Write out.old out.new (spec.indented text.now) }
{
    write_indented(text, "", out);
    let _ = out.flush();
}

/// Says more of a run that doesn't begin with these arguments. Out of memory it may say less.
pub fn say_not_begun<W: Write>(
    alloc: Global,
    why: NotBegun,
    file: KeyFile<'_>,
    aad: Option<&str>,
    out: &mut W,
)
    ensures { AddsReasons W.Write true out.old out.new }
{
    let mut text = String::new(alloc);
    put_not_begun(why, file, aad, &mut Page::new(&mut text));
    write_more(text.as_str(), "", out);
    write_more(rule(why), "", out);
    hand_on(out);
}

/// Writes why a run with these arguments doesn't begin.
fn put_not_begun<P: fmt::Write>(
    why: NotBegun,
    file: KeyFile<'_>,
    aad: Option<&str>,
    page: &mut Page<'_, P>,
) {
    match why {
        NotBegun::NoFile => {
            put_name(file.name, page);
            page.write_str(file.fault);
        }
        NotBegun::NotHex => put_not_hex(aad.unwrap_or(""), page),
        NotBegun::NoKeys(error) => {
            put_name(file.name, page);
            page.write_str(what_is(bytes_of(file), error));
        }
        NotBegun::Memory => {}
    }
}

/// What KEYS has to be, if it is something else.
fn rule(why: NotBegun) -> &'static str {
    match why {
        NotBegun::NoKeys(_) => { "KEYS has to be a COSE_KeySet (RFC 9052, section 7), in binary" }
        NotBegun::NoFile | NotBegun::NotHex | NotBegun::Memory => "",
    }
}

/// The name of a file.
fn put_name<P: fmt::Write>(name: &str, page: &mut Page<'_, P>) {
    put_word(name, page);
    page.write_str(": ");
}

/// An argument, escaped, so that it can't steer a terminal or look like another line.
pub(crate) fn put_word<P: fmt::Write>(word: &str, page: &mut Page<'_, P>) {
    for c in word.chars() {
        write_char(c, false, page);
    }
}

/// Why a string isn't bytes in hex: its first character that is no digit, or how many it has.
fn put_not_hex<P: fmt::Write>(text: &str, page: &mut Page<'_, P>) {
    for (index, c) in text.chars().enumerate() {
        if !c.is_ascii_hexdigit() {
            let place = index.saturating_add(1);
            write!(page, "AADHEX: character {place}, '");
            write_char(c, false, page);
            page.write_str("', isn't a hex digit");
            return;
        }
    }
    page.write_str("AADHEX: an odd number of digits");
}

/// What a file looks like that is no key set for this reason.
fn what_is(bytes: &[u8], error: CoseError) -> &'static str
    ensures { result.now ≡ spec.what_is bytes.now error }
{
    if bytes.is_empty() {
        return "the file is empty";
    }
    if bytes.starts_with(b"{") {
        return "it begins with {, as a JSON Web Key does";
    }
    if bytes.starts_with(b"-----BEGIN") {
        return "it begins with -----BEGIN, as a PEM file does";
    }
    text_or_fault(bytes, error)
}

/// Which text it is, or what the fault says of it.
fn text_or_fault(bytes: &[u8], error: CoseError) -> &'static str
    ensures { result.now ≡ spec.text_or_fault bytes.now error }
{
    if is_hex(bytes) {
        return "it is text in hex, not binary";
    }
    if is_base64(bytes) {
        return "it is text in base64, not binary";
    }
    by_fault(bytes, error)
}

/// What the fault says of it.
fn by_fault(bytes: &[u8], error: CoseError) -> &'static str
    ensures { result.now ≡ spec.by_fault error bytes.now }
{
    match error {
        CoseError::DecodeFailed(_) => "it isn't CBOR",
        CoseError::ExtraneousData => "it goes on after its first item",
        _ => map_or_other(bytes),
    }
}

/// Whether it is a map, and if not who tells more.
fn map_or_other(bytes: &[u8]) -> &'static str
    ensures { result.now ≡ spec.map_or_other bytes.now }
{
    if is_map(bytes) {
        return "it is a map, as one COSE_Key is; a key set is an array of keys";
    }
    "cose-show shows what it holds"
}

fn is_hex(bytes: &[u8]) -> bool
    ensures { result ≡ list_all is_of_hex bytes.now }
{
    bytes.iter().all(|byte| is_of_hex(*byte))
}

fn is_base64(bytes: &[u8]) -> bool
    ensures { result ≡ list_all is_of_base64 bytes.now }
{
    bytes.iter().all(|byte| is_of_base64(*byte))
}

/// Whether an item begins as a map does (RFC 8949, section 3.1: major type 5).
fn is_map(bytes: &[u8]) -> bool
    ensures { result ≡ spec.is_map bytes.now }
{
    matches!(bytes, [160..=191, ..])
}
