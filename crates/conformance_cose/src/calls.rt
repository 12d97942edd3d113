//! Calls by name.
use crate::{
    errors, exact, items, keys, limits, messages, parts, protected, received, rules, structures,
    tags, widest,
};
use test_tools::{NoAnswer, Out};

/// What the call returns that the first word of a row names.
pub fn answer(to: &mut Out, row: &str) {
    let words = to.words(row);
    match words.as_slice() {
        ["okp-key"] => keys::octet_pair(to),
        [call, a] => one(to, call, a),
        [call, a, b] => two(to, call, a, b),
        [call, a, b, c] => three(to, call, a, b, c),
        [call, a, b, c, d] => four(to, call, [a, b, c, d]),
        [call, a, b, c, d, e] => five(to, call, a, [b, c, d, e]),
        _ => to.refuse(NoAnswer::NoCall),
    }
}

fn one(to: &mut Out, call: &str, word: &str) {
    match call {
        "new" => items::new(to, word),
        "error" => errors::text(to, word),
        "error-debug" => errors::debug_text(to, word),
        "prefix" => structures::prefix(to, word),
        "signer-prefix" => structures::signer_prefix(to, word),
        "bytes-title" => structures::title(to, word),
        "ml-dsa-algorithm" => keys::ml_dsa_algorithm(to, word),
        "ml-dsa-variant" => keys::ml_dsa_variant(to, word),
        "symmetric-key" => keys::symmetric(to, word),
        "untagged" => rules::inside(to, word),
        _ => of_item(to, call, word),
    }
}

fn of_item(to: &mut Out, call: &str, item: &str) {
    match call {
        "empty-header" => items::is_empty_header(to, item),
        "protected-header" => protected::bstr(to, item),
        "empty-protected-header" => protected::is_empty(to, item),
        "received-bytes" => protected::received(to, item),
        "is-received-protected-header" => received::is_protected(to, item),
        "point-of-key" => keys::point_of_key(to, item),
        "expiration-time" => parts::expiration(to, item),
        "timestamp" => parts::time(to, item),
        "nonce" => parts::nonce(to, item),
        "key-data-length" => parts::key_data_length(to, item),
        _ => items::written_back(to, call, item),
    }
}

fn two(to: &mut Out, call: &str, first: &str, second: &str) {
    match call {
        "canonical-key" => keys::canonical(to, first, second),
        "limits" => limits::new(to, first, second),
        "key-of-point" => keys::key_of_point(to, first, second),
        "ml-dsa-key" => keys::ml_dsa(to, first, second),
        "same-error" => errors::are_same(to, first, second),
        "same-context" => structures::are_same(to, first, second),
        "same-order" => keys::are_same_orders(to, first, second),
        "same-ml-dsa-variant" => keys::are_same_variants(to, first, second),
        "as-written" => exact::is_as_written(to, first, second),
        "timestamp-against" => parts::against(to, first, second),
        _ => of_two_items(to, call, first, second),
    }
}

fn of_two_items(to: &mut Out, call: &str, first: &str, second: &str) {
    match call {
        "same-protected-header" => protected::are_same(to, first, second),
        "is-received-header" => received::is_header(to, first, second),
        "is-received-signature" => received::is_signature(to, first, second),
        "sign1-tbs" => messages::sign1_covered(to, first, second),
        "hmac" => tags::whole(to, first, second),
        "hmac-of-clone" => tags::of_clone(to, first, second),
        "same-tag" => tags::are_same(to, first, second),
        _ => messages::of_call(to, call, first, second),
    }
}

fn three(to: &mut Out, call: &str, first: &str, second: &str, third: &str) {
    match call {
        "enc-structure" => structures::encryption(to, first, second, third),
        "ec2-key" => keys::public(to, first, second, third),
        "ec2-key-by-sign" => keys::public_by_sign(to, first, second, third),
        "recipient-cipher" => messages::recipient_handed(to, first, second, third),
        "hmac-in-pieces" => tags::in_pieces(to, first, second, third),
        "sign1-tbs-detached" => messages::sign1_covered_detached(to, first, second, third),
        "sign-tbs" => messages::sign_covered(to, first, second, third),
        "widest" => widest::written_back(to, first, second, third),
        "refilled" => items::refilled(to, first, second, third),
        _ => to.refuse(NoAnswer::NoCall),
    }
}

fn four(to: &mut Out, call: &str, words: [&str; 4]) {
    let [first, second, third, fourth] = words;
    match call {
        "mac-structure" => structures::mac(to, first, second, third, fourth),
        "within" => limits::written_back(to, words),
        "ec2-private-key" => keys::private(to, first, second, third, fourth),
        "sign-tbs-detached" => messages::sign_covered_detached(to, words),
        "rule" => rules::of_message(to, words),
        "claims-rule" => rules::of_claims(to, words),
        _ => to.refuse(NoAnswer::NoCall),
    }
}

fn five(to: &mut Out, call: &str, first: &str, others: [&str; 4]) {
    match call {
        "sig-structure" => structures::signature(to, first, others),
        "signer-rule" => rules::of_signer(to, first, others),
        _ => to.refuse(NoAnswer::NoCall),
    }
}
