//! A COSE_Sign, as it is judged.
ghost use Rattle.std.specs.Prelude.{◌≡◌, OnOk, OnErr, IfOk};
ghost use Rattle.coset_headers.specs.View.{protected_view, signature_view};
ghost use Rattle.coset_signed.specs.Fields.{no_sign, signer_of};
ghost use Rattle.coset_signed.specs.View.{sign_view};
ghost use Rattle.cose_gate_core.specs.Questions.{one_question, sign};
ghost use Rattle.cose_gate_core.specs.Received.{IsReceived};

use crate::about::{About, MessageKind};
use crate::asking::{ask, received};
use crate::judge::Judge;
use crate::message::Message;
use crate::terms::Terms;
use ciborium::Value;
use ciborium::ser::Sink;
use coset_base::SignatureContext;
use coset_headers::CoseSignature;
use coset_labels::{AsWritten, CoseError};
use coset_recipients::content_bytes;
use coset_signed::{CoseSign, put_tagged_sign};
use std::alloc::{AllocError, Global};

impl Message for CoseSign {
    ghost use Rattle.cose_gate_core.specs.declared.about.MessageKind.TheVariants.{Sign};

    ghost kind = { Sign };

    ghost message = { λ m. sign (sign_view m) };

    ghost nothing = { sign no_sign };

    fn empty(alloc: Global) -> CoseSign {
        CoseSign::new(alloc)
    }

    fn read(&mut self, alloc: Global, terms: Terms, content: Value) -> Result<(), CoseError> {
        self.fill(alloc, content, terms.limits)
    }

    fn is_as_written(content: &Value) -> bool {
        <CoseSign as AsWritten>::is_as_written(content)
    }

    fn is_carried(&self) -> bool {
        self.payload.is_some()
    }

    fn is_unsigned(&self) -> bool {
        self.signatures.is_empty()
    }

    /// One question about each signature, in order.
    fn ask<'a, J: Judge>(
        &'a self,
        aad: &'a [u8],
        judge: &mut J,
    ) -> Result<Option<usize>, AllocError> {
        for (index, signature) in self.signatures.iter().enumerate() {
            if !ask_signature(self, signature, aad, judge)? {
                return Ok(Some(index));
            }
        }
        Ok(None)
    }

    fn put<S: Sink>(&self, to: &mut S) -> Result<(), S::Error> {
        put_tagged_sign(self, to)
    }
}

/// Asks about one signature of a COSE_Sign that was received.
fn ask_signature<'a, J: Judge>(
    message: &'a CoseSign,
    signature: &'a CoseSignature,
    aad: &'a [u8],
    judge: &mut J,
) -> Result<bool, AllocError>
    requires body { IsReceived (protected_view message.now.protected) }
    requires signer { IsReceived (signer_of (signature_view signature.now)) }
    ensures answer { IfOk result (λ yes. yes ≡ J.yes (J.who judge.old)
        (one_question (sign_view message.now) aad.now (signature_view signature.now))) }
    ensures told { OnOk result (J.told judge.new ≡ J.decided (J.told judge.old)
        (one_question (sign_view message.now) aad.now (signature_view signature.now))) }
    ensures err { OnErr result (J.told judge.new ≡ J.told judge.old) }
    ensures who { J.who judge.new ≡ J.who judge.old }
{
    let about = About::with_signer(
        MessageKind::Sign,
        &message.protected,
        &message.unprotected,
        (&signature.protected, &signature.unprotected),
    );
    let prefix = SignatureContext::CoseSignature.prefix(true);
    let body = received(&message.protected);
    let signer = received(&signature.protected);
    let strings = [body, signer, aad, content_bytes(&message.payload)];
    ask(judge, &about, prefix, &strings, &signature.signature)
}
