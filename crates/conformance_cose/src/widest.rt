//! Messages in which as much lies inside one another as limits let through.
use crate::limits;
use coset::{Limits, bytes_title, read_to_value};
use std::alloc::Global;
use test_tools::{NoAnswer, Out};

/// The length of a message of some kind, in whose unprotected header as many counter signatures lie
/// inside one another as a nesting and layers let through, if a copy of it is written back as the
/// same bytes.
pub fn written_back(to: &mut Out, nesting: &str, layers: &str, kind: &str) {
    match limits::limits(to, nesting, layers) {
        Some(limits) => of_kind(to, kind, limits),
        None => to.refuse(NoAnswer::NoArgument),
    }
}

fn of_kind(to: &mut Out, kind: &str, limits: Limits) {
    let hex = message(to.alloc(), kind, limits);
    let bytes = to.bytes(hex.as_str());
    let value = read_to_value(to.alloc(), &bytes, limits.nesting());
    if let Some(value) = to.value(value) {
        let mut written = Out::new(to.alloc());
        limits::of_kind(&mut written, kind, value, limits);
        if written.as_str() == hex.as_str() {
            to.show(&bytes.len());
            to.text(" bytes");
        } else {
            to.append(&written);
        }
    }
}

/// What is before and after the unprotected header of a message, in hex. Of a header nothing does.
fn frame(kind: &str) -> (&'static str, &'static str) {
    match kind {
        "sign1" | "mac0" => ("8440", "4040"),
        "sign" | "encrypt" => ("8440", "40818340a040"),
        "mac" => ("8540", "4040818340a040"),
        "encrypt0" | "signature" | "recipient" => ("8340", "40"),
        _ => ("", ""),
    }
}

/// The message in hex.
fn message(alloc: Global, kind: &str, limits: Limits) -> Out {
    let (before, behind) = frame(kind);
    let inside = protected(alloc, limits);
    let mut message = Out::new(alloc);
    message.text(before);
    header(
        &mut message,
        limits.nesting().saturating_sub(2) / 2,
        inside.as_str(),
    );
    message.text(behind);
    message
}

/// As many protected headers inside one another as the limit, in hex. The innermost is empty.
fn protected(alloc: Global, limits: Limits) -> Out {
    let count = limits.nesting().saturating_sub(1) / 2;
    let mut inside = Out::new(alloc);
    inside.text("40");
    for _ in 1..limits.layers() {
        let mut whole = Out::new(alloc);
        header(&mut whole, count, inside.as_str());
        let length = whole.as_str().len() / 2;
        inside = Out::new(alloc);
        inside.hex(bytes_title(length).as_slice());
        inside.text(whole.as_str());
    }
    inside
}

/// Appends a header with so many counter signatures inside one another, each in the unprotected
/// header of the one around it, and in the innermost this protected header.
fn header(to: &mut Out, count: usize, protected: &str) {
    for _ in 1..count {
        to.text("a1078340");
    }
    to.text("a10783");
    to.text(protected);
    to.text("a040");
    for _ in 1..count {
        to.text("40");
    }
}
