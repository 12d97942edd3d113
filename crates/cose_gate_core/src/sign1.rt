//! A COSE_Sign1, as it is judged.
ghost use Rattle.coset_signed.specs.Fields.{no_sign1};
ghost use Rattle.coset_signed.specs.View.{sign1_view};
ghost use Rattle.cose_gate_core.specs.Questions.{sign1};

use crate::about::{About, MessageKind};
use crate::asking::ask_alone;
use crate::judge::Judge;
use crate::message::{Four, Message};
use crate::terms::Terms;
use ciborium::ser::Sink;
use ciborium::{Spare, Value, de};
use ciborium_ll::{Decoder, Read};
use coset_base::SignatureContext;
use coset_labels::{AsWritten, CoseError};
use coset_signed::{CoseSign1, put_tagged_sign1};
use std::alloc::{AllocError, Global};

impl Message for CoseSign1 {
    ghost use Rattle.cose_gate_core.specs.declared.about.MessageKind.TheVariants.{Sign1};

    ghost kind = { Sign1 };

    ghost message = { λ m. sign1 (sign1_view m) };

    ghost nothing = { sign1 no_sign1 };

    fn empty(alloc: Global) -> CoseSign1 {
        CoseSign1::new(alloc)
    }

    fn read(&mut self, alloc: Global, terms: Terms, content: Value) -> Result<(), CoseError> {
        self.fill(alloc, content, terms.limits)
    }

    fn is_as_written(content: &Value) -> bool {
        <CoseSign1 as AsWritten>::is_as_written(content)
    }

    fn is_carried(&self) -> bool {
        self.payload.is_some()
    }

    fn is_unsigned(&self) -> bool {
        false
    }

    /// One question, about the signature.
    fn ask<'a, J: Judge>(
        &'a self,
        aad: &'a [u8],
        judge: &mut J,
    ) -> Result<Option<usize>, AllocError> {
        let about = About::alone(MessageKind::Sign1, &self.protected, &self.unprotected);
        let prefix = SignatureContext::CoseSign1.prefix(false);
        ask_alone(judge, &about, prefix, aad, &self.payload, &self.signature)
    }

    fn put<S: Sink>(&self, to: &mut S) -> Result<(), S::Error> {
        put_tagged_sign1(self, to)
    }
}

impl Four for CoseSign1 {
    fn walk<R: Read>(
        &mut self,
        alloc: Global,
        terms: Terms,
        limit: usize,
        decoder: &mut Decoder<R>,
        spare: &mut Spare,
    ) -> Result<Result<(), CoseError>, de::Error<R::Error>> {
        CoseSign1::walk(self, alloc, decoder, limit, terms.limits, spare)
    }
}
