//! Laws of the definitions that the contract of `gate` speaks of. The functions do nothing; a proof
//! calls one to have its law.
pub use cose_gate_core::laws::{
    course_begins_run, every_input_run, every_item_found, joined_runs, judged_can_be_written,
    nothing_is_whole, one_finding, one_run, output_is_fixed, output_is_no_longer,
    output_is_passed_messages, output_is_received, ran_is_run, refused_taken_out, same_trees,
    shape_holds_no_memory,
};
pub use cose_gate_records::laws::one_key;
