//! What signatures and tags of messages cover, and what verifiers and ciphers are handed.
ghost use Rattle.coset_recipients.specs.Structure.{IsRecipientContext};

use crate::items::{self, read};
use coset::{
    CoseEncrypt, CoseEncrypt0, CoseMac, CoseMac0, CoseRecipient, CoseSign, CoseSign1,
    CoseSignature, EncryptionContext, Fault,
};
use std::alloc::Global;
use test_tools::{NoAnswer, Out};

/// What the signature of a COSE_Sign1 covers.
pub fn sign1_covered(to: &mut Out, message: &str, aad: &str) {
    let aad = to.bytes(aad);
    if let Some(message) = read::<CoseSign1>(to, message) {
        to.made(message.tbs_data(to.alloc(), &aad));
    }
}

/// As `sign1_covered`, of a payload that is carried elsewhere.
pub fn sign1_covered_detached(to: &mut Out, message: &str, payload: &str, aad: &str) {
    let payload = to.bytes(payload);
    let aad = to.bytes(aad);
    if let Some(message) = read::<CoseSign1>(to, message) {
        match &message.payload {
            Some(_) => to.text("attached"),
            None => to.made(message.tbs_detached_data(to.alloc(), &payload, &aad)),
        }
    }
}

/// What a signature of a COSE_Sign covers.
pub fn sign_covered(to: &mut Out, message: &str, signature: &str, aad: &str) {
    let aad = to.bytes(aad);
    if let Some(message) = read::<CoseSign>(to, message) {
        if let Some(signature) = read::<CoseSignature>(to, signature) {
            to.made(message.tbs_data(to.alloc(), &aad, &signature));
        }
    }
}

/// As `sign_covered`, of a payload that is carried elsewhere.
pub fn sign_covered_detached(to: &mut Out, [message, signature, payload, aad]: [&str; 4]) {
    let payload = to.bytes(payload);
    let aad = to.bytes(aad);
    if let Some(message) = read::<CoseSign>(to, message) {
        if let Some(signature) = read::<CoseSignature>(to, signature) {
            match &message.payload {
                Some(_) => to.text("attached"),
                None => {
                    to.made(message.tbs_detached_data(to.alloc(), &payload, &aad, &signature));
                }
            }
        }
    }
}

/// This text.
fn noted(alloc: Global, text: &str) -> Out {
    let mut out = Out::new(alloc);
    out.text(text);
    out
}

/// What a verifier or a cipher is handed.
fn handed(alloc: Global, first: &[u8], data: &[u8]) -> Out {
    let mut out = Out::new(alloc);
    out.hex(first);
    out.text(" ");
    out.hex(data);
    out
}

/// What a verifier or a cipher told that fails with what it was handed.
fn told<T: Drop>(to: &mut Out, outcome: Result<T, Fault<Out>>) {
    match outcome {
        Ok(_) => to.text("not asked"),
        Err(Fault::Caller(told)) => to.append(&told),
        Err(Fault::Cose(error)) => to.failure(&error),
    }
}

/// What is handed of a message of this kind to the verifier or the cipher of this call.
macro_rules! hand {
    (
        $to:ident, $message:ident, $aad:ident, $kind:ident.$call:ident($($word:expr)?),
        $missing:expr
    ) => {{
        let alloc = $to.alloc();
        let aad = $to.bytes($aad);
        if let Some(message) = read::<$kind>($to, $message) {
            let outcome = message.$call(
                alloc,
                $($word,)?
                &aad,
                move || noted(alloc, $missing),
                move |first, data| Err(handed(alloc, first, data)),
            );
            told($to, outcome);
        }
    }};
}

/// What the verifier or the cipher of a message is handed. Of a COSE_Sign that of the first
/// signature.
pub fn of_call(to: &mut Out, call: &str, message: &str, aad: &str) {
    match call {
        "sign1-verifier" => sign1_handed(to, message, aad),
        "sign-verifier" => sign_handed(to, message, aad),
        "mac0-verifier" => hand!(
            to,
            message,
            aad,
            CoseMac0.verify_payload_tag(),
            "no payload"
        ),
        "mac-verifier" => hand!(to, message, aad, CoseMac.verify_payload_tag(), "no payload"),
        "encrypt0-cipher" => hand!(
            to,
            message,
            aad,
            CoseEncrypt0.decrypt_ciphertext(),
            "no ciphertext"
        ),
        "encrypt-cipher" => hand!(
            to,
            message,
            aad,
            CoseEncrypt.decrypt_ciphertext(),
            "no ciphertext"
        ),
        _ => items::same(to, call, message, aad),
    }
}

fn sign1_handed(to: &mut Out, message: &str, aad: &str) {
    let alloc = to.alloc();
    let aad = to.bytes(aad);
    if let Some(message) = read::<CoseSign1>(to, message) {
        let outcome = message.verify_signature(alloc, &aad, move |signature, data| {
            Err(handed(alloc, signature, data))
        });
        told(to, outcome);
    }
}

fn sign_handed(to: &mut Out, message: &str, aad: &str) {
    let alloc = to.alloc();
    let aad = to.bytes(aad);
    if let Some(message) = read::<CoseSign>(to, message) {
        if message.signatures.is_empty() {
            to.text("no signature");
            return;
        }
        let outcome = message.verify_signature(alloc, 0, &aad, move |signature, data| {
            Err(handed(alloc, signature, data))
        });
        told(to, outcome);
    }
}

/// What the cipher of a recipient is handed in this context.
pub fn recipient_handed(to: &mut Out, context: &str, recipient: &str, aad: &str) {
    match context {
        "Enc_Recipient" => in_context(to, recipient, EncryptionContext::EncRecipient, aad),
        "Mac_Recipient" => in_context(to, recipient, EncryptionContext::MacRecipient, aad),
        "Rec_Recipient" => in_context(to, recipient, EncryptionContext::RecRecipient, aad),
        _ => to.refuse(NoAnswer::NoArgument),
    }
}

fn in_context(to: &mut Out, recipient: &str, context: EncryptionContext, aad: &str)
    requires { IsRecipientContext context }
{
    hand!(
        to,
        recipient,
        aad,
        CoseRecipient.decrypt_ciphertext(context),
        "no ciphertext"
    )
}
