//! Laws of the output.
ghost use Rattle.std.specs.Prelude.{◌≡◌, ℕ, ◌^◌, ◌<◌, ◌≤◌, List, [], length, map, All, Bool, true};
ghost use Rattle.ciborium.specs.Items.{Item, ItemsWithin};
ghost use Rattle.cose_gate_core.specs.Questions.{Question};
ghost use Rattle.cose_gate_core.specs.Findings.{Bounds};
ghost use Rattle.cose_gate_core.specs.Run.{Step, Run, output_of};
ghost use Rattle.cose_gate_core.specs.Fixed.{FixedPoint};
ghost use Rattle.cose_gate_core.specs.Narrow.{PassedAreNarrow, passed_bytes};
ghost use Rattle.cose_gate_core.specs.Output.{passed_messages, AreMessages};

/// The output is a CBOR sequence of exactly the messages that pass (RFC 8742): it is read back item
/// by item as what they are written as, in order, each a message with the same fields, received
/// bytes included, and nothing is left. So for an input of fewer than 2^64 bytes.
pub fn output_is_passed_messages()
    ensures { (limits : Bounds) (allows : Question → Bool) (aad : List ℕ) (at : ℕ) (b : List ℕ)
        (ss : List Step) (rest : List ℕ) → Run limits allows aad at b ss rest → All (λ x. x < 256) b
        → length b < 2 ^ 64
        → (is : List Item) × ItemsWithin limits.nesting 0 (output_of allows aad ss) is []
        × AreMessages limits (map (λ i. i.value) is) (passed_messages allows aad ss) }
{}

/// If no item that passes has in it an open array or map of more than 255 entries, an open string
/// of 2^32 bytes or more, or a bignum encoded in 5 or 6 bytes, the output is never longer than the
/// items that pass. Such a bignum is written as an integer of nine bytes, and may be encoded in
/// seven or eight.
pub fn output_is_no_longer()
    ensures { (limits : Bounds) (allows : Question → Bool) (aad : List ℕ) (at : ℕ) (b : List ℕ)
        (ss : List Step) (rest : List ℕ) → Run limits allows aad at b ss rest → All (λ x. x < 256) b
        → PassedAreNarrow allows aad ss
        → length (output_of allows aad ss) ≤ length (passed_bytes allows aad ss) }
{}

/// The output is a fixed point: of an input of fewer than 2^64 bytes, the run over the output goes
/// through it to its end, writes the same, passes each message, and asks of it what was asked
/// before, though the input encoded it otherwise. So wherever the output is, and however long it
/// is. The limits may be others, strict or not, if they are as wide as the first or wider: so it
/// holds of the gate over the output of a gate, of the strict gate over it, and of either over the
/// output of a strict gate.
pub fn output_is_fixed()
    ensures there { (one two : Bounds) (allows : Question → Bool) (aad : List ℕ) (at to : ℕ)
        (b : List ℕ) (ss : List Step) (rest : List ℕ)
        → one.nesting ≤ two.nesting → one.layers ≤ two.layers
        → Run one allows aad at b ss rest → All (λ x. x < 256) b → length b < 2 ^ 64
        → (rs : List Step) × Run two allows aad to (output_of allows aad ss) rs [] }
    ensures fixed { (one two : Bounds) (allows : Question → Bool) (aad : List ℕ) (at to : ℕ)
        (b : List ℕ) (ss rs : List Step) (rest more : List ℕ)
        → one.nesting ≤ two.nesting → one.layers ≤ two.layers
        → Run one allows aad at b ss rest → All (λ x. x < 256) b → length b < 2 ^ 64
        → Run two allows aad to (output_of allows aad ss) rs more
        → FixedPoint two allows aad ss rs more }
{}

/// Of a strict gate the output is the received bytes of the messages that pass, joined.
pub fn output_is_received()
    ensures received { (limits : Bounds) (allows : Question → Bool) (aad : List ℕ) (at : ℕ)
        (b : List ℕ) (ss : List Step) (rest : List ℕ) → limits.strict ≡ true
        → Run limits allows aad at b ss rest
        → output_of allows aad ss ≡ passed_bytes allows aad ss }
{}
