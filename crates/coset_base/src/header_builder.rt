//! Builders of headers (RFC 9052, section 3.1).
ghost use Rattle.std.specs.Prelude.{◌≡◌, ◌++◌, ◌∷◌, [], false, Some, MatchResult, string_bytes};
ghost use Rattle.cose_iana.specs.Algorithms.{algorithm_number};
ghost use Rattle.cose_iana.specs.Formats.{coap_content_formats};
ghost use Rattle.cose_iana.specs.Headers.{header_parameters};
ghost use Rattle.ciborium_value.specs.View.{view};
ghost use Rattle.coset_labels.specs.Fields.{number, words, assigned, named};
ghost use Rattle.coset_labels.specs.View.{named_view};
ghost use Rattle.coset_labels.specs.declared.error.CoseError.TheVariants.{Memory};
ghost use Rattle.coset_headers.specs.Fields.{no_header};
ghost use Rattle.coset_headers.specs.Headers.{is_core};
ghost use Rattle.coset_headers.specs.View.{header_view, signature_view};
ghost use Rattle.coset_base.specs.Builders.{header_so_far, given, also_signed};

use ciborium_value::Value;
use coset_headers::{CoseSignature, Header};
use coset_labels::{
    Algorithm, ContentType, CoseError, Label, RegisteredLabel, RegisteredLabelWithPrivate, iana,
};
use std::alloc::Global;

/// A header while it is built (RFC 9052, section 3.1), with one call for each field. Calls that
/// append can run out of memory; the others take none.
#[derive(Drop)]
pub struct HeaderBuilder {
    header: Header,
}

impl HeaderBuilder {
    /// A builder of a header with no field.
    pub fn new(alloc: Global) -> HeaderBuilder
        ensures { header_so_far result ≡ no_header }
    {
        HeaderBuilder {
            header: Header::new(alloc),
        }
    }

    /// The header.
    pub fn build(self) -> Header
        ensures { header_view result ≡ header_so_far self }
    {
        self.header
    }

    /// Sets the algorithm.
    pub fn algorithm(mut self, alg: iana::Algorithm) -> HeaderBuilder
        ensures { header_so_far result
            ≡ given (λ p. record p { alg = Some (assigned (algorithm_number alg)) })
            (header_so_far self) }
    {
        self.header.alg = Some(RegisteredLabelWithPrivate::Assigned(alg));
        self
    }

    /// Sets the algorithm, which may be for private use or a text.
    pub fn algorithm_label(mut self, alg: Algorithm) -> HeaderBuilder
        ensures { header_so_far result
            ≡ given (λ p. record p { alg = Some (named_view algorithm_number alg) })
            (header_so_far self) }
    {
        self.header.alg = Some(alg);
        self
    }

    /// Appends a label that has to be understood.
    ///
    /// # Errors
    /// Only if out of memory.
    pub fn add_critical(self, label: iana::HeaderParameter) -> Result<HeaderBuilder, CoseError>
        ensures { MatchResult result (λ b. header_so_far b
            ≡ given (λ p. record p
            { crit = p.crit ++ assigned (header_parameters.number label) ∷ [] })
            (header_so_far self))
            (λ e. e ≡ Memory) }
    {
        self.add_critical_label(RegisteredLabelWithPrivate::Assigned(label))
    }

    /// Appends a label that has to be understood, which may be for private use or a text.
    ///
    /// # Errors
    /// Only if out of memory.
    pub fn add_critical_label(
        mut self,
        label: RegisteredLabelWithPrivate<iana::HeaderParameter>,
    ) -> Result<HeaderBuilder, CoseError>
        ensures { MatchResult result (λ b. header_so_far b
            ≡ given (λ p. record p
            { crit = p.crit ++ named_view header_parameters.number label ∷ [] })
            (header_so_far self))
            (λ e. e ≡ Memory) }
    {
        self.header.crit.push(label)?;
        Ok(self)
    }

    /// Sets the type of the content, by its number.
    pub fn content_format(mut self, format: iana::CoapContentFormat) -> HeaderBuilder
        ensures { header_so_far result
            ≡ given
            (λ p. record p { content_type = Some (assigned (coap_content_formats.number format)) })
            (header_so_far self) }
    {
        self.header.content_type = Some(RegisteredLabel::Assigned(format));
        self
    }

    /// Sets the type of the content, by its text.
    pub fn content_type(mut self, text: String) -> HeaderBuilder
        ensures { header_so_far result
            ≡ given (λ p. record p { content_type = Some (named (string_bytes text)) })
            (header_so_far self) }
    {
        self.header.content_type = Some(RegisteredLabel::Text(text));
        self
    }

    /// Sets the key id.
    pub fn key_id(mut self, key_id: Vec<u8>) -> HeaderBuilder
        ensures { header_so_far result
            ≡ given (λ p. record p { key_id = key_id.items }) (header_so_far self) }
    {
        self.header.key_id = key_id;
        self
    }

    /// Sets the IV, and clears the partial IV: a header has one of them at most.
    pub fn iv(mut self, iv: Vec<u8>) -> HeaderBuilder
        ensures { header_so_far result
            ≡ given (λ p. record p { iv = iv.items; partial_iv = [] }) (header_so_far self) }
    {
        self.header.iv = iv;
        self.header.partial_iv.clear();
        self
    }

    /// Sets the partial IV, and clears the IV: a header has one of them at most.
    pub fn partial_iv(mut self, partial_iv: Vec<u8>) -> HeaderBuilder
        ensures { header_so_far result
            ≡ given (λ p. record p { iv = []; partial_iv = partial_iv.items })
            (header_so_far self) }
    {
        self.header.partial_iv = partial_iv;
        self.header.iv.clear();
        self
    }

    /// Appends a counter signature.
    ///
    /// # Errors
    /// Only if out of memory.
    pub fn add_counter_signature(
        mut self,
        signature: CoseSignature,
    ) -> Result<HeaderBuilder, CoseError>
        ensures { MatchResult result
            (λ b. header_so_far b ≡ also_signed (signature_view signature) (header_so_far self))
            (λ e. e ≡ Memory) }
    {
        self.header.counter_signatures.push(signature)?;
        Ok(self)
    }

    /// Appends an entry with a label outside 1 to 7, which have fields of their own (RFC 9052,
    /// section 3.1).
    ///
    /// # Errors
    /// Only if out of memory.
    pub fn value(mut self, label: i64, value: Value) -> Result<HeaderBuilder, CoseError>
        requires { is_core (number label) ≡ false }
        ensures { MatchResult result (λ b. header_so_far b
            ≡ given (λ p. record p { rest = p.rest ++ (number label, view value) ∷ [] })
            (header_so_far self)) (λ e. e ≡ Memory) }
    {
        self.header.rest.push((Label::Int(label), value))?;
        Ok(self)
    }

    /// Appends an entry with a text as its label.
    ///
    /// # Errors
    /// Only if out of memory.
    pub fn text_value(mut self, label: String, value: Value) -> Result<HeaderBuilder, CoseError>
        ensures { MatchResult result (λ b. header_so_far b
            ≡ given (λ p. record p
            { rest = p.rest ++ (words (string_bytes label), view value) ∷ [] })
            (header_so_far self))
            (λ e. e ≡ Memory) }
    {
        self.header.rest.push((Label::Text(label), value))?;
        Ok(self)
    }
}
