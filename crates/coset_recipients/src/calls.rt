//! Calls that decrypt what a recipient carries.
ghost use Rattle.std.specs.Prelude.{IsSome, IfSome, IfNone, IsSomeAnd, MatchOption};
ghost use Rattle.coset_recipients.specs.Calls.{TakesPairWhere, AnswersWhere, AnswersMissing};
ghost use Rattle.coset_recipients.specs.Fields.{ciphertext_of};
ghost use Rattle.coset_recipients.specs.Structure.{IsRecipientContext, recipient_structure};
ghost use Rattle.coset_recipients.specs.View.{opened};

use crate::parts::content_bytes;
use crate::recipient::CoseRecipient;
use coset_base::{EncryptionContext, enc_structure_data};
use coset_labels::Fault;
use std::alloc::Global;

impl CoseRecipient {
    /// Asks the cipher for the plaintext (RFC 9052, section 5.3). The cipher is handed the
    /// ciphertext and the Enc_structure of this context, the protected header and the external
    /// data. A ciphertext is carried, and the context is one of recipients.
    ///
    /// # Errors
    /// `Caller` with the cipher's error. `Cose`, before the cipher is asked, with `DuplicateMapKey`
    /// exactly when a label is repeated in a protected header that has to be encoded, or with
    /// `Memory`.
    pub fn decrypt<E, C: FnOnce(&[u8], &[u8]) -> Result<Vec<u8>, E>>(
        &self,
        alloc: Global,
        context: EncryptionContext,
        aad: &[u8],
        cipher: C,
    ) -> Result<Vec<u8>, Fault<E>>
        requires context { IsRecipientContext context }
        requires present { IsSome (ciphertext_of (opened self.now)) }
        requires cipher { IfSome (ciphertext_of (opened self.now))
            (λ b. TakesPairWhere C.FnOnce cipher b
            (recipient_structure context (opened self.now) aad.now)) }
        ensures { IsSomeAnd (ciphertext_of (opened self.now))
            (λ b. AnswersWhere C.FnOnce cipher b
            (recipient_structure context (opened self.now) aad.now) result) }
    {
        let ciphertext = content_bytes(&self.ciphertext);
        let data = enc_structure_data(alloc, context, &self.protected, aad)?;
        cipher(ciphertext, data.as_slice()).map_err(Fault::Caller)
    }

    /// As `decrypt`, also if no ciphertext is carried. The context is one of recipients.
    ///
    /// # Errors
    /// `Caller` with the error of a missing ciphertext, before anything else; else as of `decrypt`.
    pub fn decrypt_ciphertext<E, M: FnOnce() -> E, C: FnOnce(&[u8], &[u8]) -> Result<Vec<u8>, E>>(
        &self,
        alloc: Global,
        context: EncryptionContext,
        aad: &[u8],
        missing: M,
        cipher: C,
    ) -> Result<Vec<u8>, Fault<E>>
        requires context { IsRecipientContext context }
        requires missing { IfNone (ciphertext_of (opened self.now)) (M.IsAlwaysCallable missing) }
        requires cipher { IfSome (ciphertext_of (opened self.now))
            (λ b. TakesPairWhere C.FnOnce cipher b
            (recipient_structure context (opened self.now) aad.now)) }
        ensures { MatchOption (ciphertext_of (opened self.now))
            (AnswersMissing M.FnOnce missing result)
            (λ b. AnswersWhere C.FnOnce cipher b
            (recipient_structure context (opened self.now) aad.now) result) }
    {
        match &self.ciphertext {
            None => Err(Fault::Caller(missing())),
            Some(ciphertext) => {
                let covered = enc_structure_data(alloc, context, &self.protected, aad)?;
                cipher(ciphertext.as_slice(), covered.as_slice()).map_err(Fault::Caller)
            }
        }
    }
}
