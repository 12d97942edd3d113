//! A COSE_Mac, as it is judged.
ghost use Rattle.coset_maced.specs.Fields.{no_mac};
ghost use Rattle.coset_maced.specs.View.{mac_view};
ghost use Rattle.cose_gate_core.specs.Questions.{mac};

use crate::about::{About, MessageKind};
use crate::asking::ask_alone;
use crate::judge::Judge;
use crate::message::Message;
use crate::terms::Terms;
use ciborium::Value;
use ciborium::ser::Sink;
use coset_base::MacContext;
use coset_labels::{AsWritten, CoseError};
use coset_maced::{CoseMac, put_tagged_mac};
use std::alloc::{AllocError, Global};

impl Message for CoseMac {
    ghost use Rattle.cose_gate_core.specs.declared.about.MessageKind.TheVariants.{Mac};

    ghost kind = { Mac };

    ghost message = { λ m. mac (mac_view m) };

    ghost nothing = { mac no_mac };

    fn empty(alloc: Global) -> CoseMac {
        CoseMac::new(alloc)
    }

    fn read(&mut self, alloc: Global, terms: Terms, content: Value) -> Result<(), CoseError> {
        self.fill(alloc, content, terms.limits)
    }

    fn is_as_written(content: &Value) -> bool {
        <CoseMac as AsWritten>::is_as_written(content)
    }

    fn is_carried(&self) -> bool {
        self.payload.is_some()
    }

    fn is_unsigned(&self) -> bool {
        false
    }

    /// One question, about the tag.
    fn ask<'a, J: Judge>(
        &'a self,
        aad: &'a [u8],
        judge: &mut J,
    ) -> Result<Option<usize>, AllocError> {
        let about = About::with_recipients(
            MessageKind::Mac,
            &self.protected,
            &self.unprotected,
            &self.recipients,
        );
        let prefix = MacContext::CoseMac.prefix();
        ask_alone(judge, &about, prefix, aad, &self.payload, &self.tag)
    }

    fn put<S: Sink>(&self, to: &mut S) -> Result<(), S::Error> {
        put_tagged_mac(self, to)
    }
}
