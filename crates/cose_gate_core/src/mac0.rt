//! A COSE_Mac0, as it is judged.
ghost use Rattle.coset_maced.specs.Fields.{no_mac0};
ghost use Rattle.coset_maced.specs.View.{mac0_view};
ghost use Rattle.cose_gate_core.specs.Questions.{mac0};

use crate::about::{About, MessageKind};
use crate::asking::ask_alone;
use crate::judge::Judge;
use crate::message::{Four, Message};
use crate::terms::Terms;
use ciborium::ser::Sink;
use ciborium::{Spare, Value, de};
use ciborium_ll::{Decoder, Read};
use coset_base::MacContext;
use coset_labels::{AsWritten, CoseError};
use coset_maced::{CoseMac0, put_tagged_mac0};
use std::alloc::{AllocError, Global};

impl Message for CoseMac0 {
    ghost use Rattle.cose_gate_core.specs.declared.about.MessageKind.TheVariants.{Mac0};

    ghost kind = { Mac0 };

    ghost message = { λ m. mac0 (mac0_view m) };

    ghost nothing = { mac0 no_mac0 };

    fn empty(alloc: Global) -> CoseMac0 {
        CoseMac0::new(alloc)
    }

    fn read(&mut self, alloc: Global, terms: Terms, content: Value) -> Result<(), CoseError> {
        self.fill(alloc, content, terms.limits)
    }

    fn is_as_written(content: &Value) -> bool {
        <CoseMac0 as AsWritten>::is_as_written(content)
    }

    fn is_carried(&self) -> bool {
        self.payload.is_some()
    }

    fn is_unsigned(&self) -> bool {
        false
    }

    /// One question, about the tag.
    fn ask<'a, J: Judge>(
        &'a self,
        aad: &'a [u8],
        judge: &mut J,
    ) -> Result<Option<usize>, AllocError> {
        let about = About::alone(MessageKind::Mac0, &self.protected, &self.unprotected);
        let prefix = MacContext::CoseMac0.prefix();
        ask_alone(judge, &about, prefix, aad, &self.payload, &self.tag)
    }

    fn put<S: Sink>(&self, to: &mut S) -> Result<(), S::Error> {
        put_tagged_mac0(self, to)
    }
}

impl Four for CoseMac0 {
    fn walk<R: Read>(
        &mut self,
        alloc: Global,
        terms: Terms,
        limit: usize,
        decoder: &mut Decoder<R>,
        spare: &mut Spare,
    ) -> Result<Result<(), CoseError>, de::Error<R::Error>> {
        CoseMac0::walk(self, alloc, decoder, limit, terms.limits, spare)
    }
}
