//! Whether items are as they would be written.
use coset::{
    AsWritten, CoseMac, CoseMac0, CoseRecipient, CoseSign, CoseSign1, CoseSignature, Header,
    read_to_value,
};
use test_tools::{NoAnswer, Out};

/// Whether the value of an item is already the one that would be written of what it is read as.
pub fn is_as_written(to: &mut Out, kind: &str, item: &str) {
    match kind {
        "header" => of_kind::<Header>(to, item),
        "signature" => of_kind::<CoseSignature>(to, item),
        "recipient" => of_kind::<CoseRecipient>(to, item),
        "sign1" => of_kind::<CoseSign1>(to, item),
        "sign" => of_kind::<CoseSign>(to, item),
        "mac0" => of_kind::<CoseMac0>(to, item),
        "mac" => of_kind::<CoseMac>(to, item),
        _ => to.refuse(NoAnswer::NoArgument),
    }
}

fn of_kind<T: AsWritten>(to: &mut Out, item: &str) {
    let item = to.bytes(item);
    let value = read_to_value(to.alloc(), &item, 256);
    if let Some(value) = to.value(value) {
        to.yes_or_no(T::is_as_written(&value));
    }
}
