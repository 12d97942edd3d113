//! Laws of what is found of items: something always is, and nothing else.
ghost use Rattle.std.specs.Prelude.{◌≡◌, ◌≢◌, ℕ, ◌<◌, List, ◌++◌, All, Bool};
ghost use Rattle.ciborium_value.specs.Encoding.{Fits};
ghost use Rattle.ciborium_value.specs.Tree.{Tree};
ghost use Rattle.ciborium.specs.Front.{Reads};
ghost use Rattle.coset_labels.specs.Faults.{CoseFault, no_memory};
ghost use Rattle.cose_gate_core.specs.Questions.{Question};
ghost use Rattle.cose_gate_core.specs.Findings.{Bounds, Finding, Finds};
ghost use Rattle.cose_gate_core.specs.Misshapen.{IsMisshapen, NamesShapes};
ghost use Rattle.cose_gate_core.specs.Run.{Step, Course, Run, entries_of};
ghost use Rattle.cose_gate_core.specs.Anew.{SameEntries};

/// Of every item exactly one thing is found: of a value whose numbers, texts and lengths a head can
/// say, and so of what is read from bytes.
pub fn every_item_found()
    ensures fits { (limits : Bounds) (b : List ℕ) (t : Tree) → Fits t
        → (f : Finding) × Finds limits b t f × ((g : Finding) → Finds limits b t g → f ≡ g) }
    ensures reads { (limits : Bounds) (b : List ℕ) (nesting : ℕ) (t : Tree) → Reads b nesting t
        → All (λ x. x < 256) b → (f : Finding) × Finds limits b t f
        × ((g : Finding) → Finds limits b t g → f ≡ g) }
{}

/// What a value lacks as a message of its tag is never memory: so no `Shape` that is noted holds
/// being out of memory.
pub fn shape_holds_no_memory()
    ensures { (limits : Bounds) (t : Tree) (f : CoseFault) → IsMisshapen limits t f
        → f ≢ no_memory }
{}

/// Every input has a run, whatever the judge. All its runs say the same of each item, but that of a
/// `Shape` it isn't said which of the value's faults it names; that they ask and write the same is
/// the law `one_run`. The steps that were made when a fault was met can be continued to a run.
pub fn every_input_run()
    ensures there { (limits : Bounds) (allows : Question → Bool) (aad : List ℕ) (at : ℕ)
        (b : List ℕ) → All (λ x. x < 256) b → (ss : List Step) × (rest : List ℕ)
        × Run limits allows aad at b ss rest × NamesShapes limits ss }
    ensures entries { (limits : Bounds) (allows : Question → Bool) (aad : List ℕ) (at : ℕ)
        (b : List ℕ) (ss rs : List Step) (rest more : List ℕ) → Run limits allows aad at b ss rest
        → Run limits allows aad at b rs more → SameEntries (entries_of ss) (entries_of rs) }
    ensures goes_on { (limits : Bounds) (allows : Question → Bool) (aad : List ℕ) (at : ℕ)
        (b : List ℕ) (ss : List Step) (more : List ℕ) → Course limits allows aad at b ss more
        → All (λ x. x < 256) b → (rs : List Step) × (rest : List ℕ)
        × Run limits allows aad at b (ss ++ rs) rest × NamesShapes limits rs }
{}
