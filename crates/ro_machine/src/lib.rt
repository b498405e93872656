//! The Cairo machine with read-only memory: a step from one state to the next over cells that are fixed.
//! What comes in is a memory and a state, what goes out is the next state or the first part that fails.
//! The trace check and, later, the runner stand on it.
#![tactic(auto)]

mod laws;
mod listed_cells;
mod machine;
mod memory;
mod segment;

pub use laws::{
    insert_extends, one_step, one_stop, step_by_flags, step_extends, steps_or_stops,
    undefined_word_stops,
};
pub use listed_cells::ListedCells;
pub use machine::{State, StepFault, step};
pub use memory::{InsertFault, Memory};
