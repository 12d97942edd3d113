//! The contexts of structures.
ghost use Rattle.std.specs.Prelude.{◌≡◌};
ghost use Rattle.coset_base.specs.Contexts.{signature_text, mac_text, encryption_text};

/// Which Sig_structure it is (RFC 9052, section 4.4).
#[derive(Debug, Clone, Copy, PartialEq, Eq)]
pub enum SignatureContext {
    /// A signature of a COSE_Sign, "Signature".
    CoseSignature,
    /// The signature of a COSE_Sign1, "Signature1".
    CoseSign1,
    /// A counter signature, "CounterSignature".
    CounterSignature,
}

/// Which MAC_structure it is (RFC 9052, section 6.3).
#[derive(Debug, Clone, Copy, PartialEq, Eq)]
pub enum MacContext {
    /// The tag of a COSE_Mac, "MAC".
    CoseMac,
    /// The tag of a COSE_Mac0, "MAC0".
    CoseMac0,
}

/// Which Enc_structure it is (RFC 9052, section 5.3).
#[derive(Debug, Clone, Copy, PartialEq, Eq)]
pub enum EncryptionContext {
    /// The content of a COSE_Encrypt, "Encrypt".
    CoseEncrypt,
    /// The content of a COSE_Encrypt0, "Encrypt0".
    CoseEncrypt0,
    /// A recipient of a COSE_Encrypt, "Enc_Recipient".
    EncRecipient,
    /// A recipient of a COSE_Mac, "Mac_Recipient".
    MacRecipient,
    /// A recipient of a recipient, "Rec_Recipient".
    RecRecipient,
}

impl SignatureContext {
    /// The text that is first in the structure.
    pub fn text(self) -> &'static str
        ensures { result.now ≡ signature_text self }
    {
        match self {
            SignatureContext::CoseSignature => "Signature",
            SignatureContext::CoseSign1 => "Signature1",
            SignatureContext::CounterSignature => "CounterSignature",
        }
    }
}

impl MacContext {
    /// The text that is first in the structure.
    pub fn text(self) -> &'static str
        ensures { result.now ≡ mac_text self }
    {
        match self {
            MacContext::CoseMac => "MAC",
            MacContext::CoseMac0 => "MAC0",
        }
    }
}

impl EncryptionContext {
    /// The text that is first in the structure.
    pub fn text(self) -> &'static str
        ensures { result.now ≡ encryption_text self }
    {
        match self {
            EncryptionContext::CoseEncrypt => "Encrypt",
            EncryptionContext::CoseEncrypt0 => "Encrypt0",
            EncryptionContext::EncRecipient => "Enc_Recipient",
            EncryptionContext::MacRecipient => "Mac_Recipient",
            EncryptionContext::RecRecipient => "Rec_Recipient",
        }
    }
}
