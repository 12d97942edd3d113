//! What a COSE message holds (RFC 9052), as lines of text and as members of a JSON object, with the
//! registered names.
#![tactic(auto)]

mod blanks;
mod json;
mod key_labels;
mod keys;
mod look;
mod message;
mod names;
mod parts;
mod search;
mod shows;
mod signs;
mod text;
mod time;

pub use crate::blanks::{Masked, mask};
pub use crate::json::Json;
pub use crate::keys::{Keys, keys_in, show_keys};
pub use crate::look::Look;
pub use crate::message::{
    Form, Message, OuterTags, Part, is_message, lacks_tag, message_of, show_message,
};
pub use crate::names::{algorithm, key_operation, key_type, parameter};
pub use crate::parts::{Content, Members, entries, integer, is_bytes, items, joined};
pub use crate::shows::{Done, Entry, Group, Labels, PartIs, Seen, Shows};
pub use crate::text::{Text, write_len, write_shown, write_shown_id};
pub use cbor_diag::View;
