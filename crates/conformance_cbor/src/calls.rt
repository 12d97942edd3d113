//! Calls by name.
use crate::typed::{self, Route};
use crate::{accessors, heads, items, labels, notation, orders, pieces, registries, shown, values};
use cbor_diag::Style;
use test_tools::{NoAnswer, Out};

/// What the call returns that the first word of a row names.
pub fn answer(to: &mut Out, row: &str) {
    let words = to.words(row);
    match words.as_slice() {
        [call @ ("rising" | "distinct"), order, items @ ..] => {
            orders::in_place(to, call, order, items)
        }
        [call, a] => of_one(to, call, a),
        [call, a, b] => of_two(to, call, a, b),
        [call @ ("within" | "by-buffer"), number, name, item] => {
            let number = to.number(number);
            let bytes = to.bytes(item);
            of_route(to, call, number, name, &bytes);
        }
        _ => to.refuse(NoAnswer::NoCall),
    }
}

/// A call with one argument.
fn of_one(to: &mut Out, call: &str, argument: &str) {
    match call {
        "entries" => registries::entry(to, argument, None),
        "cast" => registries::cast(to, argument),
        "kinds" => values::kinds(to, argument),
        "accessors" => accessors::accessors(to, argument),
        _ => {
            let bytes = to.bytes(argument);
            of_bytes(to, call, &bytes);
        }
    }
}

/// A call with bytes alone.
fn of_bytes(to: &mut Out, call: &str, bytes: &[u8]) {
    match call {
        "pull" => heads::pulled(to, bytes),
        "push" => heads::pushed(to, bytes),
        "shortest" => heads::shortest(to, bytes),
        "exact" => items::exact(to, bytes),
        "sequence" => items::sequence(to, bytes),
        "bignum" => values::bignum(to, bytes),
        "diag" => shown::noted(to, bytes, Style::appendix()),
        "diag-widths" => shown::noted(to, bytes, Style::line()),
        "diag-full" => shown::noted_in_full(to, bytes),
        "members" => shown::members(to, bytes),
        "excess" => shown::excess(to, bytes),
        _ => to.refuse(NoAnswer::NoCall),
    }
}

/// A call with two arguments.
fn of_two(to: &mut Out, call: &str, a: &str, b: &str) {
    match call {
        "entry" => registries::named(to, a, b),
        "private" => registries::private(to, a, b),
        "integer" => values::integer(to, a, b),
        "value-from" => values::made_from(to, a, b),
        "try-as" => labels::taken(to, a, b),
        "fold" => values::folded(to, a, b),
        _ => {
            let bytes = to.bytes(b);
            of_name(to, call, a, &bytes);
        }
    }
}

/// A call with a name and bytes.
fn of_name(to: &mut Out, call: &str, name: &str, bytes: &[u8]) {
    match call {
        "from-reader" => typed::typed(to, Route::Reader, name, bytes),
        "rest" => typed::typed(to, Route::Rest, name, bytes),
        "take" => typed::typed(to, Route::Take, name, bytes),
        "deserialized" => typed::typed(to, Route::Deserialized, name, bytes),
        "label" => labels::label(to, name, bytes),
        "label-item" => labels::item(to, name, bytes),
        "string-head" => heads::string_head(to, name, bytes),
        "byte-string" => heads::byte_string(to, name, bytes),
        "text-string" => heads::text_string(to, name, bytes),
        _ => {
            let number = to.number(name);
            of_size(to, call, number, bytes);
        }
    }
}

/// A call that reads bytes as a type, with a number.
fn of_route(to: &mut Out, call: &str, number: usize, name: &str, bytes: &[u8]) {
    match call {
        "within" => typed::typed(to, Route::Within(number), name, bytes),
        _ => typed::typed(to, Route::Buffer(number), name, bytes),
    }
}

/// A call with a number and bytes.
fn of_size(to: &mut Out, call: &str, number: usize, bytes: &[u8]) {
    match call {
        "item" => items::item(to, bytes, number),
        "diagnostic" => notation::diagnostic(to, bytes, number),
        "byte-pieces" => pieces::of_bytes(to, bytes, number),
        "text-pieces" => pieces::of_text(to, bytes, number),
        "recode" => heads::recoded(to, bytes, number),
        "ends" => shown::ends(to, bytes, number),
        _ => to.refuse(NoAnswer::NoCall),
    }
}
