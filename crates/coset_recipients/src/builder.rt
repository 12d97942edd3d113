//! The builder of recipients.
ghost use Rattle.std.specs.Prelude.{◌≡◌, Some, MatchResult};
ghost use Rattle.coset_labels.specs.declared.error.CoseError.TheVariants.{Memory};
ghost use Rattle.coset_headers.specs.View.{header_view};
ghost use Rattle.coset_recipients.specs.Calls.{TakesPairWhere, BuiltPairWhere, MadePairWhere};
ghost use Rattle.coset_recipients.specs.Builders.{no_recipient, recipient_so_far};
ghost use Rattle.coset_recipients.specs.Builders.{with_protected, with_unprotected};
ghost use Rattle.coset_recipients.specs.Builders.{with_ciphertext, with_one_more};
ghost use Rattle.coset_recipients.specs.Fields.{ciphertext_of};
ghost use Rattle.coset_recipients.specs.Structure.{IsRecipientContext, recipient_structure};
ghost use Rattle.coset_recipients.specs.View.{recipient_view};

use crate::recipient::CoseRecipient;
use coset_base::{EncryptionContext, enc_structure_data};
use coset_headers::{Header, ProtectedHeader};
use coset_labels::{CoseError, Fault};
use std::alloc::Global;

/// A COSE_recipient (RFC 9052, section 5.1) while it is built. Plain setters take no memory.
#[derive(Drop)]
pub struct CoseRecipientBuilder {
    protected: ProtectedHeader,
    unprotected: Header,
    ciphertext: Option<Vec<u8>>,
    recipients: Vec<CoseRecipient>,
}

impl CoseRecipientBuilder {
    /// A builder of a recipient with no field. It takes no memory.
    pub fn new(alloc: Global) -> CoseRecipientBuilder
        ensures { recipient_so_far result ≡ no_recipient }
    {
        CoseRecipientBuilder {
            protected: ProtectedHeader::new(alloc),
            unprotected: Header::new(alloc),
            ciphertext: None,
            recipients: Vec::new(alloc),
        }
    }

    /// The recipient.
    pub fn build(self) -> CoseRecipient
        ensures { recipient_view result ≡ recipient_so_far self }
    {
        CoseRecipient {
            protected: self.protected,
            unprotected: self.unprotected,
            ciphertext: self.ciphertext,
            recipients: self.recipients,
        }
    }

    /// Sets the protected header. It has no received bytes.
    pub fn protected(mut self, header: Header) -> CoseRecipientBuilder
        ensures { recipient_so_far result
            ≡ with_protected (header_view header) (recipient_so_far self) }
    {
        self.protected.original_data = None;
        self.protected.header = header;
        self
    }

    /// Sets the unprotected header.
    pub fn unprotected(mut self, header: Header) -> CoseRecipientBuilder
        ensures { recipient_so_far result
            ≡ with_unprotected (header_view header) (recipient_so_far self) }
    {
        self.unprotected = header;
        self
    }

    /// Sets the ciphertext.
    pub fn ciphertext(mut self, ciphertext: Vec<u8>) -> CoseRecipientBuilder
        ensures built { recipient_so_far result
            ≡ with_ciphertext (Some ciphertext.items) (recipient_so_far self) }
        ensures given { result.ciphertext ≡ Some ciphertext }
    {
        self.ciphertext = Some(ciphertext);
        self
    }

    /// Appends a recipient of this one.
    ///
    /// # Errors
    /// Only if out of memory.
    pub fn add_recipient(
        mut self,
        recipient: CoseRecipient,
    ) -> Result<CoseRecipientBuilder, CoseError>
        ensures { MatchResult result
            (λ b. recipient_so_far b
            ≡ with_one_more (recipient_view recipient) (recipient_so_far self))
            (λ e. e ≡ Memory) }
    {
        self.recipients.push(recipient)?;
        Ok(self)
    }

    /// Sets the ciphertext that the cipher gives for a plaintext (RFC 9052, section 5.3). The
    /// cipher is handed the plaintext and the Enc_structure of this context, the protected header
    /// and the external data. The context is one of recipients.
    ///
    /// # Errors
    /// Before the cipher is asked: `DuplicateMapKey` exactly when a label is repeated in the
    /// protected header, or `Memory`.
    pub fn create_ciphertext<C: FnOnce(&[u8], &[u8]) -> Vec<u8>>(
        self,
        alloc: Global,
        context: EncryptionContext,
        plaintext: &[u8],
        aad: &[u8],
        cipher: C,
    ) -> Result<CoseRecipientBuilder, CoseError>
        requires context { IsRecipientContext context }
        requires cipher { TakesPairWhere C.FnOnce cipher plaintext.now
            (recipient_structure context (recipient_so_far self) aad.now) }
        ensures { BuiltPairWhere C.FnOnce cipher plaintext.now
            (recipient_structure context (recipient_so_far self) aad.now)
            (λ b. b.ciphertext)
            (λ b. recipient_so_far b
            ≡ with_ciphertext (ciphertext_of (recipient_so_far b)) (recipient_so_far self))
            result }
    {
        let data = enc_structure_data(alloc, context, &self.protected, aad)?;
        let ciphertext = cipher(plaintext, data.as_slice());
        Ok(self.ciphertext(ciphertext))
    }

    /// As `create_ciphertext`, with a cipher that may fail. The context is one of recipients.
    ///
    /// # Errors
    /// `Caller` with the cipher's error; `Cose` with an error of `create_ciphertext`.
    pub fn try_create_ciphertext<E, C: FnOnce(&[u8], &[u8]) -> Result<Vec<u8>, E>>(
        self,
        alloc: Global,
        context: EncryptionContext,
        plaintext: &[u8],
        aad: &[u8],
        cipher: C,
    ) -> Result<CoseRecipientBuilder, Fault<E>>
        requires context { IsRecipientContext context }
        requires cipher { TakesPairWhere C.FnOnce cipher plaintext.now
            (recipient_structure context (recipient_so_far self) aad.now) }
        ensures { MadePairWhere C.FnOnce cipher plaintext.now
            (recipient_structure context (recipient_so_far self) aad.now)
            (λ b. b.ciphertext)
            (λ b. recipient_so_far b
            ≡ with_ciphertext (ciphertext_of (recipient_so_far b)) (recipient_so_far self))
            result }
    {
        let data = enc_structure_data(alloc, context, &self.protected, aad)?;
        let ciphertext = cipher(plaintext, data.as_slice()).map_err(Fault::Caller)?;
        Ok(self.ciphertext(ciphertext))
    }
}
