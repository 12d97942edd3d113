//! The builder of the COSE_Encrypt message.
ghost use Rattle.std.specs.Prelude.{◌≡◌, Some, None, MatchResult};
ghost use Rattle.coset_labels.specs.declared.error.CoseError.TheVariants.{Memory};
ghost use Rattle.coset_headers.specs.Fields.{protected};
ghost use Rattle.coset_headers.specs.View.{header_view};
ghost use Rattle.coset_recipients.specs.Calls.{TakesPairWhere, BuiltPairWhere, MadePairWhere};
ghost use Rattle.coset_recipients.specs.Builders.{recipients_and};
ghost use Rattle.coset_recipients.specs.View.{recipient_view};
ghost use Rattle.coset_encrypted.specs.Builders.{encrypt_so_far, encrypt_ciphertext};
ghost use Rattle.coset_encrypted.specs.Fields.{no_encrypt};
ghost use Rattle.coset_encrypted.specs.Structure.{encrypt_covered};
ghost use Rattle.coset_encrypted.specs.View.{encrypt_view};

use crate::encrypt::CoseEncrypt;
use coset_headers::Header;
use coset_labels::{CoseError, Fault};
use coset_recipients::CoseRecipient;
use std::alloc::Global;

/// A COSE_Encrypt (RFC 9052, section 5.1) while it is built. Plain setters take no memory.
#[derive(Drop)]
pub struct CoseEncryptBuilder {
    message: CoseEncrypt,
}

impl CoseEncryptBuilder {
    /// A builder of a message with no field. It takes no memory.
    pub fn new(alloc: Global) -> CoseEncryptBuilder
        ensures { encrypt_so_far result ≡ no_encrypt }
    {
        CoseEncryptBuilder {
            message: CoseEncrypt::new(alloc),
        }
    }

    /// The message.
    pub fn build(self) -> CoseEncrypt
        ensures { encrypt_view result ≡ encrypt_so_far self }
    {
        self.message
    }

    /// Sets the protected header. It has no received bytes.
    pub fn protected(mut self, header: Header) -> CoseEncryptBuilder
        ensures { encrypt_so_far result
            ≡ record (encrypt_so_far self) { protected = protected None (header_view header) } }
    {
        self.message.protected.original_data = None;
        self.message.protected.header = header;
        self
    }

    /// Sets the unprotected header.
    pub fn unprotected(mut self, header: Header) -> CoseEncryptBuilder
        ensures { encrypt_so_far result
            ≡ record (encrypt_so_far self) { unprotected = header_view header } }
    {
        self.message.unprotected = header;
        self
    }

    /// Sets the ciphertext.
    pub fn ciphertext(mut self, ciphertext: Vec<u8>) -> CoseEncryptBuilder
        ensures built { encrypt_so_far result
            ≡ record (encrypt_so_far self) { ciphertext = Some ciphertext.items } }
        ensures given { encrypt_ciphertext result ≡ Some ciphertext }
    {
        self.message.ciphertext = Some(ciphertext);
        self
    }

    /// Appends a recipient.
    ///
    /// # Errors
    /// Only if out of memory.
    pub fn add_recipient(
        mut self,
        recipient: CoseRecipient,
    ) -> Result<CoseEncryptBuilder, CoseError>
        ensures { MatchResult result
            (λ b. encrypt_so_far b
            ≡ record (encrypt_so_far self) {
              recipients = recipients_and (recipient_view recipient)
                  (encrypt_so_far self).recipients;
            })
            (λ e. e ≡ Memory) }
    {
        self.message.recipients.push(recipient)?;
        Ok(self)
    }

    /// Sets the ciphertext that the cipher gives for a plaintext (RFC 9052, section 5.3). The
    /// cipher is handed the plaintext and the Enc_structure of the protected header and the
    /// external data.
    ///
    /// # Errors
    /// Before the cipher is asked: `DuplicateMapKey` exactly when a label is repeated in the
    /// protected header, or `Memory`.
    pub fn create_ciphertext<C: FnOnce(&[u8], &[u8]) -> Vec<u8>>(
        self,
        alloc: Global,
        plaintext: &[u8],
        aad: &[u8],
        cipher: C,
    ) -> Result<CoseEncryptBuilder, CoseError>
        requires { TakesPairWhere C.FnOnce cipher plaintext.now
            (encrypt_covered (encrypt_so_far self) aad.now) }
        ensures { BuiltPairWhere C.FnOnce cipher plaintext.now
            (encrypt_covered (encrypt_so_far self) aad.now)
            encrypt_ciphertext
            (λ b. encrypt_so_far b
            ≡ record (encrypt_so_far self) { ciphertext = (encrypt_so_far b).ciphertext }) result }
    {
        let data = self.message.covered(alloc, aad)?;
        let ciphertext = cipher(plaintext, data.as_slice());
        Ok(self.ciphertext(ciphertext))
    }

    /// As `create_ciphertext`, with a cipher that may fail.
    ///
    /// # Errors
    /// `Caller` with the cipher's error; `Cose` with an error of `create_ciphertext`.
    pub fn try_create_ciphertext<E, C: FnOnce(&[u8], &[u8]) -> Result<Vec<u8>, E>>(
        self,
        alloc: Global,
        plaintext: &[u8],
        aad: &[u8],
        cipher: C,
    ) -> Result<CoseEncryptBuilder, Fault<E>>
        requires { TakesPairWhere C.FnOnce cipher plaintext.now
            (encrypt_covered (encrypt_so_far self) aad.now) }
        ensures { MadePairWhere C.FnOnce cipher plaintext.now
            (encrypt_covered (encrypt_so_far self) aad.now)
            encrypt_ciphertext
            (λ b. encrypt_so_far b
            ≡ record (encrypt_so_far self) { ciphertext = (encrypt_so_far b).ciphertext }) result }
    {
        let data = self.message.covered(alloc, aad)?;
        let ciphertext = cipher(plaintext, data.as_slice()).map_err(Fault::Caller)?;
        Ok(self.ciphertext(ciphertext))
    }
}
