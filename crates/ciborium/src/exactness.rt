//! Whether the bytes so far are canonical encoding, if that is asked.
ghost use Rattle.std.specs.Prelude.{◌≡◌, ◌&&◌, Some};
ghost use Rattle.ciborium_ll.specs.Views.{shortest_of, last_head};
ghost use Rattle.ciborium_value.specs.Folding.{tagged};
ghost use Rattle.ciborium_value.specs.Tree.{Tree};
ghost use Rattle.ciborium_value.specs.View.{view};
ghost use Rattle.ciborium.specs.Exact.{encoded};
ghost use Rattle.ciborium.specs.Frames.{IsKept, IsLengthOf};

use crate::reader::{is_encoded, is_over};
use crate::value::Value;
use ciborium_ll::{Decoder, Header, Read};

/// Whether the bytes so far are canonical encoding. Once this is false it stays false; if nobody
/// asks for it, it is false from the start.
#[derive(Drop)]
pub struct Exactness {
    pub holds: bool,
}

impl Exactness {
    /// Takes in the title that was read.
    pub fn title<R: Read>(&mut self, decoder: &Decoder<R>, header: Header)
        ensures { self.new.holds
            ≡ (self.old.holds && (shortest_of decoder.now && encoded header)) }
    {
        if self.holds {
            self.holds = is_shortest(decoder, header);
        }
    }

    /// Takes in the head that was read.
    #[inline(always)]
    pub fn head<R: Read>(&mut self, decoder: &Decoder<R>)
        ensures { self.new.holds
            ≡ (self.old.holds && (shortest_of decoder.now && encoded (last_head decoder.now))) }
    {
        if self.holds {
            self.holds = is_shortest(decoder, decoder.head());
        }
    }

    /// Whether the bytes so far are canonical encoding; false if that wasn't asked.
    pub fn holds_if(&self, asked: bool) -> bool
        ensures { result ≡ (asked && self.now.holds) }
    {
        asked && self.holds
    }

    /// Takes in what a tag over a content became: if the fold changed a byte string, the bytes were
    /// not canonical encoding. `length` is that of the content, if it was a byte string.
    pub fn fold(&mut self, whole: &Value, tag: u64, length: Option<usize>)
        ensures { (c : Tree) → IsLengthOf length c → tagged tag c ≡ Some (view whole.now)
            → IsKept tag c (view whole.now) self.old.holds self.new.holds }
    {
        if self.holds {
            self.holds = is_over(whole, tag, length);
        }
    }
}

/// Whether the title that was read is the shortest, of a header that an encoding may have.
fn is_shortest<R: Read>(decoder: &Decoder<R>, header: Header) -> bool
    ensures { result ≡ (shortest_of decoder.now && encoded header) }
{
    decoder.was_shortest() && is_encoded(header)
}
