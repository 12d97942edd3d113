//! The structures that signatures, tags and encryptions cover. A context is named by its text.
use crate::protected::read;
use coset::{
    EncryptionContext, MacContext, SignatureContext, bytes_title, enc_structure_data,
    mac_structure_data, sig_structure_data,
};
use test_tools::{NoAnswer, Out};

fn signature_context(text: &str) -> Option<SignatureContext> {
    match text {
        "Signature" => Some(SignatureContext::CoseSignature),
        "Signature1" => Some(SignatureContext::CoseSign1),
        "CounterSignature" => Some(SignatureContext::CounterSignature),
        _ => None,
    }
}

fn mac_context(text: &str) -> Option<MacContext> {
    match text {
        "MAC" => Some(MacContext::CoseMac),
        "MAC0" => Some(MacContext::CoseMac0),
        _ => None,
    }
}

fn encryption_context(text: &str) -> Option<EncryptionContext> {
    match text {
        "Encrypt" => Some(EncryptionContext::CoseEncrypt),
        "Encrypt0" => Some(EncryptionContext::CoseEncrypt0),
        "Enc_Recipient" => Some(EncryptionContext::EncRecipient),
        "Mac_Recipient" => Some(EncryptionContext::MacRecipient),
        "Rec_Recipient" => Some(EncryptionContext::RecRecipient),
        _ => None,
    }
}

/// Whether two contexts of one kind are the same.
pub fn are_same(to: &mut Out, first: &str, second: &str) {
    if let (Some(a), Some(b)) = (signature_context(first), signature_context(second)) {
        to.yes_or_no(a == b);
    } else if let (Some(a), Some(b)) = (mac_context(first), mac_context(second)) {
        to.yes_or_no(a == b);
    } else if let (Some(a), Some(b)) = (encryption_context(first), encryption_context(second)) {
        to.yes_or_no(a == b);
    } else {
        to.refuse(NoAnswer::NoArgument);
    }
}

/// A Sig_structure. The signer's protected header is `none` if there is no signer.
pub fn signature(to: &mut Out, context: &str, [body, signer, aad, payload]: [&str; 4]) {
    let aad = to.bytes(aad);
    let payload = to.bytes(payload);
    match signature_context(context) {
        None => to.refuse(NoAnswer::NoArgument),
        Some(context) if signer == "none" => of_body(to, context, body, &aad, &payload),
        Some(context) => of_signer(to, context, [body, signer], &aad, &payload),
    }
}

fn of_body(to: &mut Out, context: SignatureContext, body: &str, aad: &[u8], payload: &[u8]) {
    if let Some(body) = read(to, body) {
        let structure = sig_structure_data(to.alloc(), context, &body, None, aad, payload);
        to.made(structure);
    }
}

fn of_signer(
    to: &mut Out,
    context: SignatureContext,
    [body, signer]: [&str; 2],
    aad: &[u8],
    payload: &[u8],
) {
    if let Some(body) = read(to, body) {
        if let Some(signer) = read(to, signer) {
            let signer = Some(&signer);
            let structure = sig_structure_data(to.alloc(), context, &body, signer, aad, payload);
            to.made(structure);
        }
    }
}

/// A MAC_structure.
pub fn mac(to: &mut Out, context: &str, body: &str, aad: &str, payload: &str) {
    match mac_context(context) {
        Some(context) => of_tag(to, context, body, aad, payload),
        None => to.refuse(NoAnswer::NoArgument),
    }
}

fn of_tag(to: &mut Out, context: MacContext, body: &str, aad: &str, payload: &str) {
    let aad = to.bytes(aad);
    let payload = to.bytes(payload);
    if let Some(body) = read(to, body) {
        let structure = mac_structure_data(to.alloc(), context, &body, &aad, &payload);
        to.made(structure);
    }
}

/// An Enc_structure.
pub fn encryption(to: &mut Out, context: &str, body: &str, aad: &str) {
    match encryption_context(context) {
        Some(context) => of_ciphertext(to, context, body, aad),
        None => to.refuse(NoAnswer::NoArgument),
    }
}

fn of_ciphertext(to: &mut Out, context: EncryptionContext, body: &str, aad: &str) {
    let aad = to.bytes(aad);
    if let Some(body) = read(to, body) {
        let structure = enc_structure_data(to.alloc(), context, &body, &aad);
        to.made(structure);
    }
}

/// How a structure of the context begins, without a signer.
pub fn prefix(to: &mut Out, context: &str) {
    if let Some(context) = signature_context(context) {
        to.hex(context.prefix(false));
    } else if let Some(context) = mac_context(context) {
        to.hex(context.prefix());
    } else if let Some(context) = encryption_context(context) {
        to.hex(context.prefix());
    } else {
        to.refuse(NoAnswer::NoArgument);
    }
}

/// How a Sig_structure with a signer begins.
pub fn signer_prefix(to: &mut Out, context: &str) {
    match signature_context(context) {
        Some(context) => to.hex(context.prefix(true)),
        None => to.refuse(NoAnswer::NoArgument),
    }
}

/// The title of a byte string of that length.
pub fn title(to: &mut Out, length: &str) {
    let length = to.number(length);
    to.hex(bytes_title(length).as_slice());
}
