//! Recipients as they are in memory.
ghost use Rattle.std.specs.Prelude.{◌≡◌};
ghost use Rattle.coset_recipients.specs.Builders.{no_recipient};
ghost use Rattle.coset_recipients.specs.View.{recipient_view};

use coset_headers::{Header, ProtectedHeader};
use std::alloc::Global;

/// A recipient of a message (RFC 9052, section 5.1).
#[derive(Debug, PartialEq, Eq, Drop)]
pub struct CoseRecipient {
    /// The protected header.
    pub protected: ProtectedHeader,
    /// The unprotected header.
    pub unprotected: Header,
    /// The encrypted key; `None` if none is carried.
    pub ciphertext: Option<Vec<u8>>,
    /// The recipients who can find the key that encrypts this one's.
    pub recipients: Vec<CoseRecipient>,
}

impl CoseRecipient {
    /// A recipient with no field. It takes no memory.
    pub fn new(alloc: Global) -> CoseRecipient
        ensures { recipient_view result ≡ no_recipient }
    {
        CoseRecipient {
            protected: ProtectedHeader::new(alloc),
            unprotected: Header::new(alloc),
            ciphertext: None,
            recipients: Vec::new(alloc),
        }
    }
}
