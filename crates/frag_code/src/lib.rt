//! Fragments: short lists of pieces that give cells, assert, check ranges and branch, and their code.
//!
//! A lowering makes a fragment for a libfunc; out go the instructions of the fragment at a place, with the hints that are
//! asked there. A piece says what it means for the cells of a run, and the laws join that to the steps of the code both
//! ways, so that no lowering has to look at an instruction. The layout of a program's code calls `emit`.
#![tactic(auto)]

mod emission;
mod frag;
mod instructions;
mod laws;
mod piece;

pub use emission::{Emitted, HintAt, emit};
pub use frag::Frag;
pub use laws::{
    evaluations_are_stretches, evaluations_extend, fillings_extend, one_evaluation, one_filling,
    steps_stay_or_exit, stretches_are_evaluations,
};
pub use piece::{Ask, Piece};
