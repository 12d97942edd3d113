//! Headers and signatures as they are in memory.
ghost use Rattle.std.specs.Prelude.{◌≡◌, []};
ghost use Rattle.coset_headers.specs.Fields as fields;
ghost use Rattle.coset_headers.specs.View.{header_view, protected_view, signature_view};

use ciborium_value::Value;
use coset_labels::{Algorithm, ContentType, Label, RegisteredLabelWithPrivate, iana};

/// A header map (RFC 9052, section 3.1). An empty field is an absent one.
#[cycle(header)]
#[derive(Debug, Drop)]
pub struct Header {
    /// The algorithm, label 1.
    pub alg: Option<Algorithm>,
    /// The labels that have to be understood, label 2.
    pub crit: Vec<RegisteredLabelWithPrivate<iana::HeaderParameter>>,
    /// The type of the content, label 3.
    pub content_type: Option<ContentType>,
    /// The key id, label 4.
    pub key_id: Vec<u8>,
    /// The initialization vector, label 5.
    pub iv: Vec<u8>,
    /// The partial initialization vector, label 6.
    pub partial_iv: Vec<u8>,
    /// The counter signatures, label 7.
    pub counter_signatures: Vec<CoseSignature>,
    /// The other entries, in their order.
    pub rest: Vec<(Label, Value)>,
}

/// A protected header, with its bytes if they were received (RFC 9052, section 3).
#[cycle(header)]
#[derive(Debug, Drop)]
pub struct ProtectedHeader {
    /// The bytes as they were received.
    pub original_data: Option<Vec<u8>>,
    /// The header that they are.
    pub header: Header,
}

/// A signature with its headers (RFC 9052, section 4.1).
///
/// Dropping it takes little stack, however many counter signatures lie inside one another in its
/// headers. So it can't be taken apart by a pattern outside of this crate:
/// [`CoseSignature::into_parts`] does that.
#[cycle(header)]
#[derive(Debug)]
pub struct CoseSignature {
    /// The protected header.
    pub protected: ProtectedHeader,
    /// The unprotected header.
    pub unprotected: Header,
    /// The signature.
    pub signature: Vec<u8>,
}

/// Lets go of signatures and of those in their headers, the innermost first. What a level keeps on
/// the stack is small.
#[cycle(drops)]
fn let_go(signatures: &mut Vec<CoseSignature>)
    ensures { signatures.new.items ≡ [] }
{
    'each: for signature in signatures.iter_mut() {
        let_go(&mut signature.protected.header.counter_signatures);
        let_go(&mut signature.unprotected.counter_signatures);
    }
    drain(signatures);
}

#[cycle(drops)]
#[inline(never)]
fn drain(signatures: &mut Vec<CoseSignature>)
    ensures { signatures.new.items ≡ [] }
{
    'signatures: while let Some(_signature) = signatures.pop() {}
}

impl Drop for CoseSignature {
    #[cycle(drops)]
    fn drop(mut self) {
        let_go(&mut self.protected.header.counter_signatures);
        let_go(&mut self.unprotected.counter_signatures);
        let CoseSignature {
            protected: _,
            unprotected: _,
            signature: _,
        } = self;
    }
}

impl CoseSignature {
    /// A signature of its parts, as `into_parts` gives them.
    pub fn from_parts(
        protected: ProtectedHeader,
        unprotected: Header,
        signature: Vec<u8>,
    ) -> CoseSignature
        ensures { signature_view result ≡ fields.signature (protected_view protected)
            (header_view unprotected) signature.items }
    {
        CoseSignature {
            protected,
            unprotected,
            signature,
        }
    }

    /// The protected header, the unprotected one, and the signature.
    pub fn into_parts(self) -> (ProtectedHeader, Header, Vec<u8>)
        ensures { signature_view self
            ≡ fields.signature (protected_view result.0) (header_view result.1) result.2.items }
    {
        let CoseSignature {
            protected,
            unprotected,
            signature,
        } = self;
        (protected, unprotected, signature)
    }
}
