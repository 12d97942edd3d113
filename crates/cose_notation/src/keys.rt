//! Keys and sets of keys (RFC 9052, section 7).
use crate::parts::{entries, items};
use crate::shows::{Done, Group, Labels, PartIs, Shows, show_entries};
use crate::signs::{is_key_set, key_in, type_in};
use cbor_diag::{NotWritten, View};
use std::alloc::Global;

/// What an item is that holds keys.
#[derive(Debug, Clone, Copy, PartialEq, Eq)]
pub enum Keys {
    /// One key.
    One,
    /// An array with a key in it.
    Set,
}

/// Whether an item is a key, or an array with a key in it, as `key_in` says.
///
/// # Errors
/// `Memory`.
pub fn keys_in(alloc: Global, item: &[u8]) -> Result<Option<Keys>, NotWritten> {
    if key_in(alloc, item)?.is_some() {
        Ok(Some(Keys::One))
    } else if is_key_set(alloc, item)? {
        Ok(Some(Keys::Set))
    } else {
        Ok(None)
    }
}

/// Tells the entries of keys.
///
/// # Errors
/// `Output` and `Memory`.
pub fn show_keys<S: Shows>(alloc: Global, keys: Keys, item: View<'_>, to: &mut S) -> Done {
    to.begin(Group::Keys(keys))?;
    match (keys, items(alloc, item)) {
        (Keys::Set, Some(mut list)) => {
            for number in 1..u64::MAX {
                let Some(one) = list.next()? else {
                    break;
                };
                show_key(alloc, number, one, to)?;
            }
        }
        _ => show_key(alloc, 0, item, to)?,
    }
    to.end(Group::Keys(keys))
}

fn show_key<S: Shows>(alloc: Global, number: u64, item: View<'_>, to: &mut S) -> Done {
    let Some(map) = entries(alloc, item) else {
        return to.part("not a map", PartIs::NoKey(number, item));
    };
    let labels = Labels::Key(type_in(alloc, item.bytes())?);
    show_entries(alloc, Group::Key(number), labels, map, to)
}
