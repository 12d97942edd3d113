//! Encrypted messages and recipients by builders, and what their ciphers are handed. Expected bytes
//! are written out by hand.
ghost use Rattle.coset_recipients.specs.Structure.{IsRecipientContext};

use crate::checks::{
    LONG, MISMATCH, Met, fails, flat, give, in_order, is_long_between, is_tagged_long, join,
    missing, repeated, watched, with_algorithm,
};
use coset_base::{EncryptionContext, HeaderBuilder};
use coset_encrypted::{CoseEncrypt0Builder, CoseEncryptBuilder};
use coset_labels::{CborSerializable, CoseError, Fault, iana};
use coset_recipients::{CoseRecipient, CoseRecipientBuilder};
use std::alloc::Global;

/// What a call returns whose cipher gives what it is handed: `joined!(MESSAGE.CALL(alloc, ..))`.
macro_rules! joined {
    ($message:ident.$call:ident($alloc:ident $(, $word:expr)*)) => {
        watched!(
            asked,
            $message.$call($alloc, $($word,)* move |text, data| join($alloc, text, data, asked))
        )
    };
}

/// Whether ciphers that give what they are handed were handed this structure three times: `LONG` is
/// encrypted by this builder, in this context if there is one, what comes of it is decrypted, and
/// what comes of that is decrypted again.
macro_rules! is_decrypted {
    ($alloc:ident, $builder:expr, [$($context:expr)?], $thrice:expr) => {{
        let builder = $builder;
        let built = joined!(builder.try_create_ciphertext($alloc $(, $context)?, LONG, b"a"))?;
        let mut message = built.build();
        let opened =
            joined!(message.decrypt_ciphertext($alloc $(, $context)?, b"a", missing))?;
        message.ciphertext = Some(opened);
        let again = match &message.ciphertext {
            Some(_) => joined!(message.decrypt($alloc $(, $context)?, b"a"))?,
            None => return Ok(false),
        };
        Ok(is_long_between($alloc, &again, b"", $thrice)?)
    }};
}

/// The plaintext of `sealed`.
const PLAIN: &[u8] = b"hi";

/// What is built with the ciphertext of a cipher that can't fail, for `PLAIN` and the external data
/// h'09', in this context if there is one, if the cipher is handed `PLAIN` and this structure.
macro_rules! sealed {
    ($alloc:ident, $builder:expr, [$($context:expr)?], $structure:expr) => {{
        let builder = $builder;
        let made = LONG.to_vec($alloc)?;
        let built = watched!(
            asked,
            builder
                .create_ciphertext(
                    $alloc,
                    $($context,)?
                    PLAIN,
                    &[9],
                    move |plain, data| give(made, plain == PLAIN && data == $structure, asked),
                )
                .map_err(Fault::Cose)
        )?;
        built.build()
    }};
}

/// Three times the structure that each of the ciphers is handed.
const THRICE0: &[u8] =
    b"\x83\x68Encrypt0\x40\x41a\x83\x68Encrypt0\x40\x41a\x83\x68Encrypt0\x40\x41a";

/// Whether a message is encrypted, decrypted, and decrypted again.
fn encrypt0_is_decrypted(alloc: Global) -> Result<bool, Met> {
    is_decrypted!(alloc, CoseEncrypt0Builder::new(alloc), [], THRICE0)
}

/// As `THRICE0`.
const THRICE: &[u8] = b"\x83\x67Encrypt\x40\x41a\x83\x67Encrypt\x40\x41a\x83\x67Encrypt\x40\x41a";

/// As `encrypt0_is_decrypted`, of a message with a recipient. The ciphertext takes the place of
/// another.
fn encrypt_is_decrypted(alloc: Global) -> Result<bool, Met> {
    let builder = CoseEncryptBuilder::new(alloc)
        .ciphertext(Vec::new(alloc))
        .add_recipient(CoseRecipient::new(alloc))?;
    is_decrypted!(alloc, builder, [], THRICE)
}

/// What the cipher of `encrypt0_is_written` is handed.
const COVERED0: &[u8] = b"\x83\x68Encrypt0\x43\xa1\x01\x01\x41\x09";

/// Whether a message with the algorithm A128GCM and the IV h'05' is written with the ciphertext of
/// a cipher that can't fail.
fn encrypt0_is_written(alloc: Global) -> Result<bool, Met> {
    let iv = [5].to_vec(alloc)?;
    let builder = CoseEncrypt0Builder::new(alloc)
        .protected(with_algorithm(alloc, iana::Algorithm::A128GCM))
        .unprotected(HeaderBuilder::new(alloc).iv(iv).build());
    let message = sealed!(alloc, builder, [], COVERED0);
    let covered = message.covered(alloc, &[9])?;
    let front = b"\xd0\x83\x43\xa1\x01\x01\xa1\x05\x41\x05\x59\x01\x2c";
    let is_written = is_tagged_long(alloc, message, front, b"")?;
    Ok(is_written && covered.as_slice() == COVERED0)
}

/// What the cipher of `encrypt_is_written` is handed.
const COVERED: &[u8] = b"\x83\x67Encrypt\x43\xa1\x01\x01\x41\x09";

/// As `encrypt0_is_written`, of a message with a recipient and without an IV.
fn encrypt_is_written(alloc: Global) -> Result<bool, Met> {
    let builder = CoseEncryptBuilder::new(alloc)
        .add_recipient(CoseRecipient::new(alloc))?
        .protected(with_algorithm(alloc, iana::Algorithm::A128GCM))
        .unprotected(HeaderBuilder::new(alloc).build());
    let message = sealed!(alloc, builder, [], COVERED);
    let covered = message.covered(alloc, &[9])?;
    let front = b"\xd8\x60\x84\x43\xa1\x01\x01\xa0\x59\x01\x2c";
    let is_written = is_tagged_long(alloc, message, front, b"\x81\x83\x40\xa0\xf6")?;
    Ok(is_written && covered.as_slice() == COVERED)
}

/// What calls of encrypted messages return.
pub(crate) fn of_encrypted(alloc: Global) -> [Result<bool, CoseError>; 4] {
    [
        flat(encrypt0_is_decrypted(alloc)),
        flat(encrypt_is_decrypted(alloc)),
        flat(encrypt0_is_written(alloc)),
        flat(encrypt_is_written(alloc)),
    ]
}

/// As `encrypt0_is_decrypted`, of a recipient with a recipient of its own, in this context.
fn is_decrypted_in(alloc: Global, context: EncryptionContext, thrice: &[u8]) -> Result<bool, Met>
    requires { IsRecipientContext context }
{
    let builder = CoseRecipientBuilder::new(alloc).add_recipient(CoseRecipient::new(alloc))?;
    is_decrypted!(alloc, builder, [context], thrice)
}

/// As `THRICE0`, of a recipient in each context.
const THRICE_ENC: &[u8] =
    b"\x83\x6dEnc_Recipient\x40\x41a\x83\x6dEnc_Recipient\x40\x41a\x83\x6dEnc_Recipient\x40\x41a";

const THRICE_MAC: &[u8] =
    b"\x83\x6dMac_Recipient\x40\x41a\x83\x6dMac_Recipient\x40\x41a\x83\x6dMac_Recipient\x40\x41a";

const THRICE_REC: &[u8] =
    b"\x83\x6dRec_Recipient\x40\x41a\x83\x6dRec_Recipient\x40\x41a\x83\x6dRec_Recipient\x40\x41a";

/// What the cipher of `recipient_is_written` is handed.
const COVERED_IN: &[u8] = b"\x83\x6dMac_Recipient\x43\xa1\x01\x22\x41\x09";

/// Whether a recipient with the algorithm A128KW, the key id h'31', and a recipient of its own is
/// written with the ciphertext of a cipher that can't fail.
fn recipient_is_written(alloc: Global) -> Result<bool, Met> {
    let key_id = b"1".to_vec(alloc)?;
    let ciphertext = [0x0a].to_vec(alloc)?;
    let inner = CoseRecipientBuilder::new(alloc)
        .ciphertext(ciphertext)
        .build();
    let builder = CoseRecipientBuilder::new(alloc)
        .protected(with_algorithm(alloc, iana::Algorithm::A128KW))
        .unprotected(HeaderBuilder::new(alloc).key_id(key_id).build())
        .add_recipient(inner)?;
    let context = EncryptionContext::MacRecipient;
    let bytes = sealed!(alloc, builder, [context], COVERED_IN).to_vec(alloc)?;
    let front = b"\x84\x43\xa1\x01\x22\xa1\x04\x411\x59\x01\x2c";
    let back = b"\x81\x83\x40\xa0\x41\x0a";
    Ok(is_long_between(alloc, &bytes, front, back)?)
}

/// What calls of recipients return that take a cipher.
pub(crate) fn of_ciphers(alloc: Global) -> [Result<bool, CoseError>; 4] {
    [
        flat(is_decrypted_in(alloc, EncryptionContext::EncRecipient, THRICE_ENC)),
        flat(is_decrypted_in(alloc, EncryptionContext::MacRecipient, THRICE_MAC)),
        flat(is_decrypted_in(alloc, EncryptionContext::RecRecipient, THRICE_REC)),
        flat(recipient_is_written(alloc)),
    ]
}

#[test]
fn a_missing_ciphertext_is_met_first(rt: HostRuntime) {
    let alloc = rt.alloc();
    let header = repeated(&rt, alloc);
    let mut message = CoseEncrypt0Builder::new(alloc).protected(header).build();
    in_order!(
        rt,
        message.ciphertext,
        message.decrypt_ciphertext(alloc, &[], missing, fails)
    );
    let header = repeated(&rt, alloc);
    let mut message = CoseEncryptBuilder::new(alloc).protected(header).build();
    in_order!(
        rt,
        message.ciphertext,
        message.decrypt_ciphertext(alloc, &[], missing, fails)
    );
    let header = repeated(&rt, alloc);
    let mut recipient = CoseRecipientBuilder::new(alloc).protected(header).build();
    let context = EncryptionContext::EncRecipient;
    in_order!(
        rt,
        recipient.ciphertext,
        recipient.decrypt_ciphertext(alloc, context, &[], missing, fails)
    );
}

#[test]
fn the_error_of_a_cipher_is_kept(rt: HostRuntime) {
    let alloc = rt.alloc();
    let failed = CoseEncrypt0Builder::new(alloc)
        .ciphertext(Vec::new(alloc))
        .try_create_ciphertext(alloc, PLAIN, &[], fails)
        .err();
    assert_eq!(rt; failed, Some(Fault::Caller(MISMATCH)));
}
