//! How structures begin.
ghost use Rattle.std.specs.Prelude.{◌≡◌, ◌++◌, ℕ, List, Option, None, is_some};
ghost use Rattle.coset_base.specs.Contexts.{signature_text, mac_text, encryption_text};
ghost use Rattle.coset_base.specs.Structure.{structure, enc_structure, behind_prefix};
ghost use Rattle.coset_base.specs.Structure.{behind_enc_prefix};

use crate::context::{EncryptionContext, MacContext, SignatureContext};

impl SignatureContext {
    /// How a structure of this context begins, with or without the header of a signer: the title of
    /// its array and the context's text (RFC 9052, section 4.4). The byte strings of the protected
    /// headers, of the external data and of the payload follow.
    #[tactic(auto, unfolding(ciborium_ll::specs::Title::shortest))]
    pub fn prefix(self, signer: bool) -> &'static [u8]
        ensures { (body aad payload : List ℕ) (sign : Option (List ℕ)) → is_some sign ≡ signer
            → structure (signature_text self) body sign aad payload
            ≡ result.now ++ behind_prefix body sign aad payload }
    {
        match self {
            SignatureContext::CoseSignature => {
                if signer {
                    b"\x85iSignature"
                } else {
                    b"\x84iSignature"
                }
            }
            SignatureContext::CoseSign1 => {
                if signer {
                    b"\x85jSignature1"
                } else {
                    b"\x84jSignature1"
                }
            }
            SignatureContext::CounterSignature => {
                if signer {
                    b"\x85pCounterSignature"
                } else {
                    b"\x84pCounterSignature"
                }
            }
        }
    }
}

impl MacContext {
    /// How a structure of this context begins: the title of its array and the context's text (RFC
    /// 9052, section 6.3). The byte strings of the protected header, of the external data and of
    /// the payload follow.
    #[tactic(auto, unfolding(ciborium_ll::specs::Title::shortest))]
    pub fn prefix(self) -> &'static [u8]
        ensures { (body aad payload : List ℕ)
            → structure (mac_text self) body None aad payload
            ≡ result.now ++ behind_prefix body None aad payload }
    {
        match self {
            MacContext::CoseMac => b"\x84cMAC",
            MacContext::CoseMac0 => b"\x84dMAC0",
        }
    }
}

impl EncryptionContext {
    /// How a structure of this context begins: the title of its array and the context's text (RFC
    /// 9052, section 5.3). The byte strings of the protected header and of the external data
    /// follow.
    #[tactic(auto, unfolding(ciborium_ll::specs::Title::shortest))]
    pub fn prefix(self) -> &'static [u8]
        ensures { (body aad : List ℕ)
            → enc_structure (encryption_text self) body aad
            ≡ result.now ++ behind_enc_prefix body aad }
    {
        match self {
            EncryptionContext::CoseEncrypt => b"\x83gEncrypt",
            EncryptionContext::CoseEncrypt0 => b"\x83hEncrypt0",
            EncryptionContext::EncRecipient => b"\x83mEnc_Recipient",
            EncryptionContext::MacRecipient => b"\x83mMac_Recipient",
            EncryptionContext::RecRecipient => b"\x83mRec_Recipient",
        }
    }
}
