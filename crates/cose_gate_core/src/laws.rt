//! Laws of the definitions.
ghost use Rattle.std.specs.Prelude.{◌≡◌, ℕ, List, Bool, Some, option_map};
ghost use Rattle.ciborium_value.specs.Encoding.{enc};
ghost use Rattle.ciborium_value.specs.Tree.{Tree};
ghost use Rattle.cose_gate_core.specs.Questions.{Question, MessageFields, all_questions, questions};
ghost use Rattle.cose_gate_core.specs.Questions.{tagged_tree, message_text};
ghost use Rattle.cose_gate_core.specs.Findings.{Bounds, Finding, IsJudged, Finds};
ghost use Rattle.cose_gate_core.specs.Run.{Step, Run, questions_of, output_of};

pub use crate::findings::{every_input_run, every_item_found, shape_holds_no_memory};
pub use crate::output::{
    output_is_fixed, output_is_no_longer, output_is_passed_messages, output_is_received,
};
pub use crate::runs::{
    course_begins_run, joined_runs, nothing_is_whole, ran_is_run, refused_taken_out, same_trees,
};

/// An item has one finding at most.
pub fn one_finding()
    ensures { (limits : Bounds) (b : List ℕ) (t : Tree) (f g : Finding) → Finds limits b t f
        → Finds limits b t g → f ≡ g }
{}

/// A message that was read has all its questions, and an encoding to be written.
pub fn judged_can_be_written()
    ensures questions { (limits : Bounds) (t : Tree) (m : MessageFields) (aad : List ℕ)
        → IsJudged limits t m → all_questions m aad ≡ Some (questions m aad) }
    ensures text { (limits : Bounds) (t : Tree) (m : MessageFields) → IsJudged limits t m
        → option_map enc (tagged_tree m) ≡ Some (message_text m) }
{}

/// All runs over one input ask the same questions in the same order, and write the same bytes.
pub fn one_run()
    ensures { (limits : Bounds) (allows : Question → Bool) (aad : List ℕ) (at : ℕ) (b : List ℕ)
        (ss rs : List Step) (rest more : List ℕ) → Run limits allows aad at b ss rest
        → Run limits allows aad at b rs more
        → (questions_of allows aad ss ≡ questions_of allows aad rs)
        × (output_of allows aad ss ≡ output_of allows aad rs)
        × (rest ≡ more) }
{}
