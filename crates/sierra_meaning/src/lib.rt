//! What programs mean, and that every meaning ends.
//!
//! The definitions are in `specs/`: what one statement does (`Acts`), what a run of statements gives (`Mean`), what main gives
//! (`Main`), and the outcome on an input (`Outcome`). The laws say that an accepted program means one outcome on each input that
//! fits it and has the gas that its plan asks, after a number of statements that the gas bounds. All that runs a program or
//! checks a run stands on them.
//!
//! `eval` is the evaluator: an accepted program and an input that fits its main come in, and the outcome that they mean goes
//! out. `resolved` finds once each statement's signature, and which statements leave all values as they are (`specs/Idle`),
//! `variables` takes arguments out of what is held and adds results, and `turns` does one statement after another, with the
//! functions that wait in a list; `specs/Turns` says what a turn keeps.
#![tactic(auto)]

mod evaluating;
mod laws;
mod meanings;
mod resolved;
mod turns;
mod variables;

pub use evaluating::{EvalFault, eval};
pub use laws::{builtins_are_given_back, main_ends, one_run, results_are_known};
pub use meanings::{every_meaning_ends, gas_is_told, meanings_within_bound, one_meaning};
