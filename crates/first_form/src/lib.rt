//! The form of program that is built, from its text to the judgement of its runs.
//!
//! The texts of a program and of its input come in, and what they stand for goes out. Of these the honest run and its file
//! are made; or a run comes in, and its verdict goes out, or the first part of an accepted run that fails. The tool calls
//! it. As the crates for types, gas, code and runs of whole programs are built, they take its parts over.
#![tactic(auto)]

mod accepted;
mod code;
mod honest;
mod input;
mod judgement;
mod laws;
mod operation;
mod program;
mod scan;
mod text;
mod verdict;

pub use accepted::{CheckFault, test};
pub use code::{code_words, entry_gas};
pub use honest::{honest_file, honest_run};
pub use input::{Input, read_input};
pub use judgement::{Judgement, judge};
pub use laws::{
    accepted_runs_have_verdicts, accepted_runs_mean, code_is_of_instructions,
    honest_runs_are_accepted, runs_have_one_cause,
};
pub use operation::Operation;
pub use program::{Program, read_program};
pub use text::verdict_text;
pub use verdict::{Outcome, Value, Values, Verdict};
