//! The texts of inputs and answers, and what main's values are made of them.
//!
//! Texts of inputs come in, and inputs or faults go out; values and answers come in, and their texts go out. The commands of the
//! tool read and print by these calls.
#![tactic(auto)]

mod fault;
mod input;
mod laws;
mod limits;
mod making;
mod marks;
mod outcome;
mod printing;
mod reading;
mod skimming;

pub use fault::{InputFault, ValueLimit};
pub use input::{Input, read_input};
pub use laws::{given_types, one_fault, one_text, refused_inputs, texts_of_inputs, told_faults};
pub use making::{beginning, without_builtins};
pub use outcome::{Outcome, Verdict};
pub use printing::{print_outcome, print_value, print_verdict};
