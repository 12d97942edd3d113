//! A judge that writes each question as it is asked.
ghost use Rattle.std.specs.Prelude.{◌≡◌, ◌∷◌, ◌++◌, [], IfOk, OnErr, OnOk, map, string_bytes, true};
ghost use Rattle.std.specs.Prelude.{◌+◌, if◌then◌else◌, length};
ghost use Rattle.cose_gate_core.specs.Lent.{subject_of};
ghost use Rattle.cose_gate_core.specs.Questions.{Question};
ghost use Rattle.cose_gate_command.specs.Lines.{fields_in, parts_of, told_as};
ghost use Rattle.cose_gate_command.specs.Written.{IsQuestionWritten, QuestionLog, AreOut, parts_in};
ghost use Rattle.cose_gate_command.specs.Written.{AreOut-prop, HandedIfOk, HandedIfOk-prop};
ghost use Rattle.cose_gate_records.specs.Kept.{IsHeld, pieces_of};

use crate::fields::key_fields;
use crate::lines::write_question;
use crate::not_run::NotRun;
use crate::options::Form;
use crate::parts::Parts;
use ciborium_ll::Write;
use ciborium_ll::log::Log;
use cose_gate_core::{About, Judge};
use cose_gate_records::Held;
use std::alloc::{AllocError, Global};

/// A question that is begun.
#[derive(Drop)]
pub(crate) struct Begun {
    held: Held,
    /// What its line says of its key.
    fields: String,
}

impl Begun {
    /// No question is begun.
    pub(crate) fn new(alloc: Global) -> Begun {
        Begun {
            held: Held::new(alloc),
            fields: String::new(alloc),
        }
    }
}

/// Says yes to each question, and writes it before the next one is asked.
#[derive(Drop)]
pub(crate) struct QuestionWriter<'a, W: Write> {
    alloc: Global,
    form: Form,
    /// It is lent, as is `told`, so that a clause can say what becomes of `out`.
    begun: &'a mut Begun,
    out: &'a mut W,
    /// Whether each question was written, and else why not.
    pub(crate) written: Result<(), NotRun>,
    /// What was told of the questions, and what the writer was at first. It is in contracts alone.
    told: &'a mut Log<Parts>,
    was: Log<W>,
    /// As many as were written.
    sent: Log<usize>,
    ghost are_out: { AreOut W.Write form was out.now written sent told.now } by { AreOut-prop W.Write _ _ _ _ _ _ },
    ghost handed: { HandedIfOk W.Write was.items out.now written } by { HandedIfOk-prop W.Write _ _ _ },
}

impl<'a, W: Write> QuestionWriter<'a, W> {
    /// Questions in this form on this writer, with a place for the one that is begun, and a log of
    /// what is told of them.
    pub(crate) fn new(
        alloc: Global,
        form: Form,
        begun: &'a mut Begun,
        out: &'a mut W,
        told: &'a mut Log<Parts>,
    ) -> QuestionWriter<'a, W>
        ensures form { result.form ≡ form }
        ensures was { result.was.items ≡ out.old ∷ [] }
        ensures told { result.told.now.items ≡ [] }
        ensures kept { result.out.ghost_name ≡ out.entry.ghost_name }
    {
        *told = Log::new();
        let was = Log::new().and(&*out);
        QuestionWriter {
            alloc,
            form,
            begun,
            out,
            written: Ok(()),
            told,
            was,
            sent: Log::new(),
        }
    }
}

/// What the line of a question says of its key.
fn fields_of(alloc: Global, form: Form, about: &About) -> Result<String, AllocError>
    ensures { IfOk result (λ fields. string_bytes fields ≡ fields_in form (subject_of about.now)) }
{
    match form {
        Form::Fields => key_fields(alloc, about),
        Form::Records | Form::Lines => Ok(String::new(alloc)),
    }
}

/// Counts one more, if there is one. It does nothing at run time.
fn count(sent: &mut Log<usize>, is_one: bool)
    ensures { length sent.new.items
        ≡ (if is_one then length sent.old.items + 1 else length sent.old.items) }
{
    if is_one {
        *sent = sent.and(&0);
    }
}

/// Writes a question by its record, if that was made, and hands it on, if all before it were
/// written.
fn write_next<W: Write>(
    written: Result<(), NotRun>,
    form: Form,
    fields: &[u8],
    made: Result<Vec<u8>, AllocError>,
    out: &mut W,
) -> Result<(), NotRun>
    ensures before { OnErr written ((result ≡ written) × (out.new ≡ out.old)) }
    ensures next { OnOk written ((q : Question)
        → IfOk made (λ r. (fields.now, r.items) ≡ parts_of form q)
        → IsQuestionWritten W.Write out.old out.new result (told_as form q)) }
    ensures handed { OnOk result (W.held out.new ≡ []) }
{
    written?;
    let Ok(record) = made else {
        return Err(NotRun::Memory);
    };
    if write_question(form, fields, &record, out).is_err() {
        return Err(NotRun::Output);
    }
    if out.flush().is_err() {
        return Err(NotRun::Output);
    }
    Ok(())
}

impl<'a, W: Write> Judge for QuestionWriter<'a, W> {
    ghost Who = { Unit {0} };

    ghost Told = { QuestionLog W };

    ghost who = { λ _. tt };

    ghost told = { λ j. record {
      name = j.out.ghost_name;
      was = j.was.items;
      form = j.form;
      told = map parts_in j.told.now.items;
    } };

    ghost holds = { λ j subject covered. IsHeld j.begun.now.held subject covered
        × (string_bytes j.begun.now.fields ≡ fields_in j.form subject) };

    ghost pieces = { λ j. pieces_of j.begun.now.held };

    ghost yes = { λ _ _. true };

    ghost decided = { λ s q. record s { told = s.told ++ parts_of s.form q ∷ [] } };

    /// Begins a question. Once one wasn't written, this fails.
    fn begin(&mut self, about: &About) -> Result<(), AllocError> {
        if self.written.is_err() {
            return Err(AllocError);
        }
        self.begun.fields = fields_of(self.alloc, self.form, about)?;
        self.begun.held.begin(self.alloc, about)
    }

    fn feed(&mut self, piece: &[u8]) -> Result<(), AllocError> {
        self.begun.held.feed(piece)
    }

    fn decide(&mut self, signature: &[u8]) -> bool {
        let (alloc, form, written) = (self.alloc, self.form, self.written);
        let begun = &*self.begun;
        let fields = begun.fields.as_bytes();
        let record = begun.held.record(alloc, signature);
        let parts = Parts::new(fields, &begun.held, signature);
        self.written = write_next(written, form, fields, record, self.out);
        count(&mut self.sent, self.written.is_ok());
        *self.told = self.told.and(&parts);
        true
    }
}
