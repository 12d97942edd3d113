//! What is told of a run that ends early, with the words and the names of the command line.
use crate::words::{Options, Wrong};
use cbor_diag::{Page, write_char};
use cose_reasons::{Stop, TextKind, fault_of};
use std::fmt;

/// Writes what is wrong with the arguments.
pub fn write_wrong<P: fmt::Write>(wrong: Wrong<'_>, page: &mut Page<'_, P>) {
    page.write_str("cose-show: ");
    match wrong {
        Wrong::NoOption(word) => {
            write_name(word, page);
            page.write_str(": no such option");
        }
        Wrong::Missing(option) => write!(page, "{option}: a word is missing"),
        Wrong::Second(word) => {
            write_name(word, page);
            page.write_str(": one word too many; FILE is named already");
        }
        Wrong::NoSize(word) => {
            page.write_str("--cut: ");
            write_name(word, page);
            page.write_str(" is no number of bytes");
        }
        Wrong::CutText => page.write_str("--cut takes no text: no --hex, no --base64"),
    }
    page.write_str("\n  cose-show --help has all options\n");
}

/// Writes why a run with these options ends early; nothing if nobody reads the output any more.
pub fn write_stop<P: fmt::Write>(stop: Stop, options: Options<'_>, page: &mut Page<'_, P>) {
    if stop == Stop::Closed {
        return;
    }
    page.write_str("cose-show: ");
    let keys = options.keys.unwrap_or("KEYS");
    match stop {
        Stop::NoFile(kind) => {
            write_input(options, page);
            write!(page, ": {}", fault_of(kind));
        }
        Stop::NoKeyFile(kind) => {
            write_name(keys, page);
            write!(page, ": {}", fault_of(kind));
        }
        Stop::NoKeys(error) => {
            write_name(keys, page);
            write!(page, " is no key set: {error}");
        }
        Stop::OneKey => {
            write_name(keys, page);
            page.write_str(" is one key, and a key set is an array of keys, even of one");
            write_command(": cose-key ", keys, " > keys.cbor", page);
        }
        Stop::TextKeys(kind) => {
            write_name(keys, page);
            page.write_str(" is no key set: ");
            write_text_keys(kind, keys, page);
        }
        Stop::Text(kind) => {
            write_input(options, page);
            write!(page, " looks like {kind}");
            write_way_on(kind, options, page);
        }
        _ => write!(page, "{stop}"),
    }
    page.write_str("\n");
}

/// What KEYS is that is text, and what makes a key set of it.
fn write_text_keys<P: fmt::Write>(kind: TextKind, keys: &str, page: &mut Page<'_, P>) {
    let (what, program) = match kind {
        TextKind::Json => ("it begins with {, as a JSON Web Key does", "cose-key"),
        TextKind::Pem => ("it begins with -----BEGIN, as a PEM file does", "cose-key"),
        TextKind::Hex => ("it is text in hex, not binary", "xxd -r -p"),
        TextKind::Base64 => ("it is text in base64, not binary", "base64 -d"),
        TextKind::Jwt | TextKind::Other => ("it is text, not binary", ""),
    };
    page.write_str(what);
    if !program.is_empty() {
        write!(page, ": {program} ");
        write_command("", keys, " > keys.cbor", page);
    }
}

/// How to go on with an input that is text.
fn write_way_on<P: fmt::Write>(kind: TextKind, options: Options<'_>, page: &mut Page<'_, P>) {
    let (option, program) = match kind {
        TextKind::Hex => ("--hex", "xxd -r -p "),
        TextKind::Base64 => ("--base64", "base64 -d "),
        TextKind::Pem | TextKind::Json => {
            page.write_str(", which isn't CBOR; cose-key reads keys of that kind");
            return;
        }
        TextKind::Jwt => {
            page.write_str(", which isn't COSE");
            return;
        }
        TextKind::Other => {
            page.write_str(", which isn't CBOR");
            return;
        }
    };
    write!(page, "; {option} reads it");
    if let Some(path) = options.path {
        page.write_str(" (or: ");
        write_command(program, path, " | cose-show)", page);
    }
}

fn write_command<P: fmt::Write>(before: &str, name: &str, behind: &str, page: &mut Page<'_, P>) {
    page.write_str(before);
    write_name(name, page);
    page.write_str(behind);
}

fn write_input<P: fmt::Write>(options: Options<'_>, page: &mut Page<'_, P>) {
    write_name(options.path.unwrap_or("the input"), page);
}

/// A word of the command line, escaped, so that it can't steer a terminal or look like another
/// line.
fn write_name<P: fmt::Write>(name: &str, page: &mut Page<'_, P>) {
    for c in name.chars() {
        write_char(c, false, page);
    }
}
