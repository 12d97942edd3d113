//! Laws of the definitions.
ghost use Rattle.std.specs.Prelude.{◌≡◌, ◌<◌, ◌^◌, length};
ghost use Rattle.cose_gate_core.specs.Questions.{Question};
ghost use Rattle.cose_gate_records.specs.Records.{key_of, texts_of};

/// Two questions with one key have the same kind, the same encoded headers and recipients, the same
/// covered bytes and the same signature.
pub fn one_key()
    ensures { (q r : Question) → length (key_of q) < 2 ^ 64 → key_of q ≡ key_of r
        → (q.subject.kind ≡ r.subject.kind) × (texts_of q.subject ≡ texts_of r.subject)
        × (q.covered ≡ r.covered) × (q.signature ≡ r.signature) }
{}
