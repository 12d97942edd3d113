//! Writes the parts that each message and each recipient begins with.
ghost use Rattle.std.specs.Prelude.{◌≡◌, true, option_map, OnOk, OnErr};
ghost use Rattle.ciborium_traits.specs.Events.{events, Puts, Stops};
ghost use Rattle.coset_recipients.specs.PartsView.{parts_in};
ghost use Rattle.coset_recipients.specs.PartsWritten.{optional_tree};
ghost use Rattle.coset_recipients.specs.Put.{begun, are_received_parts};

use ciborium_traits::ser::Sink;
use coset_base::{put_header, put_protected};
use coset_headers::{Header, ProtectedHeader};

/// What is carried, or null if nothing is.
fn put_content<S: Sink>(content: &Option<Vec<u8>>, to: &mut S) -> Result<(), S::Error>
    ensures ok { OnOk result (Puts S.due to.old
        (events (optional_tree (option_map (λ v. v.items) content.now))) to.new) }
    ensures err { OnErr result (Stops S.due S.torn to.old
        (events (optional_tree (option_map (λ v. v.items) content.now))) to.new) }
{
    match content {
        Some(bytes) => to.bytes(bytes),
        None => to.null(),
    }
}

/// Writes the beginning of an array of so many items, and the three that come first.
///
/// # Errors
/// The sink's; it took a beginning of the events then, and refused the next.
#[inline(never)]
pub fn begin_parts<S: Sink>(
    count: usize,
    protected: &ProtectedHeader,
    unprotected: &Header,
    content: &Option<Vec<u8>>,
    to: &mut S,
) -> Result<(), S::Error>
    requires { are_received_parts (parts_in protected.now unprotected.now content.now) ≡ true }
    ensures ok { OnOk result (Puts S.due to.old
        (begun count (parts_in protected.now unprotected.now content.now)) to.new) }
    ensures err { OnErr result (Stops S.due S.torn to.old
        (begun count (parts_in protected.now unprotected.now content.now)) to.new) }
{
    to.array(count)?;
    put_protected(protected, to)?;
    put_header(unprotected, to)?;
    put_content(content, to)
}
