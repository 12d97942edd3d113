//! The diagnostic notation of CBOR items (RFC 8949, section 8), from their heads, so that it shows
//! how they are encoded. Items of any depth and any claimed length are walked in a loop: what is
//! kept is a list of the levels that are open.
#![tactic(auto)]

mod bignum;
mod ends;
mod escape;
mod excess;
mod float;
mod head;
mod notation;
mod page;
mod role;
mod view;
mod walk;

pub use crate::bignum::Bignum;
pub use crate::ends::Ends;
pub use crate::escape::{write_char, write_text};
pub use crate::excess::{Excess, first_excess};
pub use crate::float::whole_part;
pub use crate::head::{Head, HeadFault, head_of};
pub use crate::notation::{CUT, NotWritten, Style, front_text, write_hex, write_item, write_view};
pub use crate::page::Page;
pub use crate::role::{CWT, Role, SELF_DESCRIBED, content_role};
pub use crate::view::{Span, View};
pub use crate::walk::{Event, Fault, LevelKind, Place, Step, Walk, Why, item_len};
