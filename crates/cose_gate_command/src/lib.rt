//! The command lines of `cose-gate`, `cose-ask` and `cose-pass`: how a program starts and ends, its
//! arguments and its run; what `--verbose` says more; questions as lines of text, and the file of
//! accepted records.
#![tactic(auto)]

mod accepted;
mod arguments;
mod asking;
mod command;
mod command_line;
mod counted;
mod ending;
mod explained;
mod fields;
mod input;
mod key_file;
mod line_writer;
mod lines;
mod more;
mod not_run;
mod options;
mod parts;
mod passing;
mod question;
mod question_writer;
mod starting;
mod tokens;
mod usage;
mod verbose;

pub use crate::arguments::{
    Arguments, Inputs, NO_KEYS, PassArguments, file_in, pass_arguments, read_arguments, read_inputs,
};
pub use crate::asking::ask;
pub use crate::command::{gate_usage, program};
pub use crate::command_line::{CommandLine, NOT_UTF8, Options, Word, Wrong};
pub use crate::explained::{Explained, Note, Reasons};
pub use crate::input::{Input, open_input};
pub use crate::key_file::{KeyFile, say_not_begun, write_reason};
pub use crate::more::{say_fault, say_keys, say_reason, write_indented, write_more};
pub use crate::not_run::NotRun;
pub use crate::options::{AskArguments, ask_arguments};
pub use crate::passing::pass;
pub use crate::starting::{
    Content, ended, page_for, read_in_blocks, words_of, write_in_blocks, write_page,
};
pub use crate::tokens::{TokenArguments, number_in};
pub use crate::usage::{Usage, say_wrong, visible_or};
