//! The COSE_Encrypt message.
ghost use Rattle.std.specs.Prelude.{◌≡◌, IsSome, IfSome, IfNone, IsSomeAnd, IfOk, MatchOption};
ghost use Rattle.coset_recipients.specs.Calls.{TakesPairWhere, AnswersWhere, AnswersMissing};
ghost use Rattle.coset_recipients.specs.Results.{Writes};
ghost use Rattle.coset_encrypted.specs.Fields.{no_encrypt};
ghost use Rattle.coset_encrypted.specs.Structure.{encrypt_covered};
ghost use Rattle.coset_encrypted.specs.View.{encrypt_view};

use coset_base::{EncryptionContext, enc_structure_data};
use coset_headers::{Header, ProtectedHeader};
use coset_labels::{CoseError, Fault, clone_bytes};
use coset_recipients::{CoseRecipient, clone_recipients, content_bytes};
use std::alloc::{AllocError, Global};

/// A message that is encrypted under a key that its recipients find (RFC 9052, section 5.1).
#[derive(Debug, PartialEq, Eq, Drop)]
pub struct CoseEncrypt {
    /// The protected header.
    pub protected: ProtectedHeader,
    /// The unprotected header.
    pub unprotected: Header,
    /// The ciphertext; `None` if it is carried elsewhere.
    pub ciphertext: Option<Vec<u8>>,
    /// The recipients who can find the key.
    pub recipients: Vec<CoseRecipient>,
}

impl CoseEncrypt {
    /// A message with no field. It takes no memory.
    pub fn new(alloc: Global) -> CoseEncrypt
        ensures { encrypt_view result ≡ no_encrypt }
    {
        CoseEncrypt {
            protected: ProtectedHeader::new(alloc),
            unprotected: Header::new(alloc),
            ciphertext: None,
            recipients: Vec::new(alloc),
        }
    }

    /// A message equal to this one.
    ///
    /// # Errors
    /// Only if out of memory.
    pub fn clone(&self, alloc: Global) -> Result<CoseEncrypt, AllocError>
        ensures { IfOk result (λ copy. encrypt_view copy ≡ encrypt_view self.now) }
    {
        Ok(CoseEncrypt {
            protected: self.protected.clone(alloc)?,
            unprotected: self.unprotected.clone(alloc)?,
            ciphertext: clone_bytes(alloc, &self.ciphertext)?,
            recipients: clone_recipients(alloc, &self.recipients)?,
        })
    }

    /// The bytes that the ciphertext covers beside the plaintext, the Enc_structure (RFC 9052,
    /// section 5.3).
    ///
    /// # Errors
    /// `DuplicateMapKey` exactly when a label is repeated in a protected header that has to be
    /// encoded, or `Memory`.
    pub fn covered(&self, alloc: Global, aad: &[u8]) -> Result<Vec<u8>, CoseError>
        ensures { Writes (encrypt_covered (encrypt_view self.now) aad.now) (λ v. v.items) result }
    {
        enc_structure_data(alloc, EncryptionContext::CoseEncrypt, &self.protected, aad)
    }

    /// Asks the cipher for the plaintext (RFC 9052, section 5.3). The cipher is handed the
    /// ciphertext and the Enc_structure of the protected header and the external data. A ciphertext
    /// is carried.
    ///
    /// # Errors
    /// `Caller` with the cipher's error. `Cose`, before the cipher is asked, with `DuplicateMapKey`
    /// exactly when a label is repeated in a protected header that has to be encoded, or with
    /// `Memory`.
    pub fn decrypt<E, C: FnOnce(&[u8], &[u8]) -> Result<Vec<u8>, E>>(
        &self,
        alloc: Global,
        aad: &[u8],
        cipher: C,
    ) -> Result<Vec<u8>, Fault<E>>
        requires present { IsSome self.now.ciphertext }
        requires cipher { IfSome self.now.ciphertext
            (λ b. TakesPairWhere C.FnOnce cipher b.items
            (encrypt_covered (encrypt_view self.now) aad.now)) }
        ensures { IsSomeAnd self.now.ciphertext
            (λ b. AnswersWhere C.FnOnce cipher b.items
            (encrypt_covered (encrypt_view self.now) aad.now) result) }
    {
        let ciphertext = content_bytes(&self.ciphertext);
        let data = self.covered(alloc, aad)?;
        cipher(ciphertext, data.as_slice()).map_err(Fault::Caller)
    }

    /// As `decrypt`, also if no ciphertext is carried.
    ///
    /// # Errors
    /// `Caller` with the error of a missing ciphertext, before anything else; else as of `decrypt`.
    pub fn decrypt_ciphertext<E, M: FnOnce() -> E, C: FnOnce(&[u8], &[u8]) -> Result<Vec<u8>, E>>(
        &self,
        alloc: Global,
        aad: &[u8],
        missing: M,
        cipher: C,
    ) -> Result<Vec<u8>, Fault<E>>
        requires missing { IfNone self.now.ciphertext (M.IsAlwaysCallable missing) }
        requires cipher { IfSome self.now.ciphertext
            (λ b. TakesPairWhere C.FnOnce cipher b.items
            (encrypt_covered (encrypt_view self.now) aad.now)) }
        ensures { MatchOption self.now.ciphertext (AnswersMissing M.FnOnce missing result)
            (λ b. AnswersWhere C.FnOnce cipher b.items
            (encrypt_covered (encrypt_view self.now) aad.now) result) }
    {
        match &self.ciphertext {
            None => Err(Fault::Caller(missing())),
            Some(ciphertext) => {
                let covered = self.covered(alloc, aad)?;
                cipher(ciphertext.as_slice(), covered.as_slice()).map_err(Fault::Caller)
            }
        }
    }
}
