//! Laws of runs.
ghost use Rattle.std.specs.Prelude.{◌≡◌, ◌≢◌, ◌+◌, ◌<◌, ◌^◌, ℕ, List, [], ◌∷◌, ◌++◌, length, map};
ghost use Rattle.std.specs.Prelude.{Bool, false, Some, Result, Err, IsOk};
ghost use Rattle.cose_gate_core.specs.Questions.{Question};
ghost use Rattle.cose_gate_core.specs.Findings.{Bounds};
ghost use Rattle.cose_gate_core.specs.GateRun.{Ran};
ghost use Rattle.cose_gate_core.specs.Outcome.{Rules, GateState, reader_failures};
ghost use Rattle.cose_gate_core.specs.Run.{Step, Course, Run, entries_of};
ghost use Rattle.cose_gate_core.specs.Anew.{bytes_of, entry_behind};
ghost use Rattle.cose_gate_core.specs.Runs.{BeginsRun, JoinsRuns, LeavesOut, SayTheSame};
ghost use Rattle.cose_gate_core.specs.Runs.{IfThrough, MadeRun, BeginsSteps};
ghost use Rattle.cose_gate_core.specs.declared.gating.Counts.{Counts};
ghost use Rattle.cose_gate_core.specs.declared.gating.GateFault.{GateFault};
ghost use Rattle.cose_gate_core.specs.declared.gating.GateFault.TheVariants.{Memory};

/// What a call of the gate says (`ran`) over bytes that are known. If it went through all items,
/// these were asked about, noted and written, and they are the run of the input, which is one: the
/// laws `one_run` and `every_input_run`. In any case what was asked, noted and written is a
/// beginning of what each run of the input says.
pub fn ran_is_run<T, S, E>()
    ensures whole { (ends : E → Bool) (live : Bool) (rules : Rules T S) (old new : GateState T S)
        (result : Result Counts (GateFault E)) (b : List ℕ)
        → Ran ends live rules old new result → old.left ≡ Some b
        → IfThrough ends result (MadeRun rules old new b result) }
    ensures begins { (ends : E → Bool) (live : Bool) (rules : Rules T S) (old new : GateState T S)
        (result : Result Counts (GateFault E)) (b : List ℕ) (ss : List Step) (rest : List ℕ)
        → (a : Ran ends live rules old new result) → old.left ≡ Some b
        → Run rules.limits rules.allows rules.aad old.offset b ss rest
        → BeginsSteps rules.allows rules.aad a.run ss }
{}

/// What a call of the gate says of no bytes: it ends with `Ok`, unless the reader fails or offsets
/// grow too long; and it is never out of memory.
pub fn nothing_is_whole<T, S, E>()
    ensures whole { (ends : E → Bool) (live : Bool) (rules : Rules T S) (old new : GateState T S)
        (result : Result Counts (GateFault E)) → Ran ends live rules old new result
        → old.left ≡ Some [] → reader_failures ends result ≡ 0 → old.offset + 4096 < 2 ^ 64
        → IsOk result }
    ensures memory { (ends : E → Bool) (live : Bool) (rules : Rules T S) (old new : GateState T S)
        (result : Result Counts (GateFault E)) → Ran ends live rules old new result
        → old.left ≡ Some [] → result ≢ Err Memory }
{}

/// The items that a gate has gone through when it meets a fault begin the run of the input, and so
/// do its questions, its output and its entries. Of an entry's `Shape` it isn't said which of the
/// value's faults it names.
pub fn course_begins_run()
    ensures { (limits : Bounds) (allows : Question → Bool) (aad : List ℕ) (at : ℕ)
        (b : List ℕ) (ss rs : List Step) (more rest : List ℕ)
        → Course limits allows aad at b ss more → Run limits allows aad at b rs rest
        → BeginsRun allows aad ss rs }
{}

/// If nothing is left after the items of `a`, the run of `a` and then `b` has the questions, the
/// output and the rest of the run of `a` and then of that of `b`. The entries of `b` are as many
/// items and bytes further on as `a` has.
pub fn joined_runs()
    ensures there { (limits : Bounds) (allows : Question → Bool) (aad : List ℕ) (at : ℕ)
        (a b : List ℕ) (ss rs : List Step) (rest : List ℕ) → Run limits allows aad at a ss []
        → Run limits allows aad at b rs rest → (ts : List Step)
        × Run limits allows aad at (a ++ b) ts rest
        × (entries_of ts
        ≡ entries_of ss ++ map (entry_behind (length ss) (length a)) (entries_of rs)) }
    ensures joined { (limits : Bounds) (allows : Question → Bool) (aad : List ℕ) (at : ℕ)
        (a b : List ℕ) (ss rs ts : List Step) (rest more : List ℕ)
        → Run limits allows aad at a ss [] → Run limits allows aad at b rs rest
        → Run limits allows aad at (a ++ b) ts more
        → JoinsRuns allows aad (length a) ss rs ts rest more }
{}

/// An input is the bytes of its items and then what is left. If a refused item is taken out of it,
/// the questions for the others, the output and what is left stay.
pub fn refused_taken_out()
    ensures whole { (limits : Bounds) (allows : Question → Bool) (aad : List ℕ) (at : ℕ)
        (b : List ℕ) (ss : List Step) (rest : List ℕ) → Run limits allows aad at b ss rest
        → b ≡ bytes_of ss ++ rest }
    ensures there { (limits : Bounds) (allows : Question → Bool) (aad : List ℕ) (at : ℕ)
        (b : List ℕ) (xs : List Step) (s : Step) (ys : List Step) (rest : List ℕ)
        → Run limits allows aad at b (xs ++ s ∷ ys) rest
        → (ts : List Step) × Run limits allows aad at (bytes_of (xs ++ ys) ++ rest) ts rest }
    ensures left_out { (limits : Bounds) (allows : Question → Bool) (aad : List ℕ) (at : ℕ)
        (b : List ℕ) (xs : List Step) (s : Step) (ys ts : List Step) (rest more : List ℕ)
        → Run limits allows aad at b (xs ++ s ∷ ys) rest
        → Run limits allows aad at (bytes_of (xs ++ ys) ++ rest) ts more
        → LeavesOut allows aad xs s ys ts rest more }
{}

/// Inputs with the same trees in the same order have the same questions, the same output and the
/// same verdicts, wherever their items are and however they are encoded, and whatever is left after
/// the items, if the gate isn't strict. Of a `Shape` it isn't said which of the value's faults it
/// names.
pub fn same_trees()
    ensures same { (limits : Bounds) (allows : Question → Bool) (aad : List ℕ) (at to : ℕ)
        (a b : List ℕ) (ss rs : List Step) (rest more : List ℕ) → limits.strict ≡ false
        → Run limits allows aad at a ss rest → Run limits allows aad to b rs more
        → map (λ s. s.item.value) ss ≡ map (λ s. s.item.value) rs
        → SayTheSame allows aad ss rs }
{}
