//! The walk over the statements of a program.
//!
//! Functions are taken in declared order, and in each one always the least statement that is reached and not done. What
//! is known where a statement begins is given to it by the first branch that leads there. What is known, and what a
//! statement makes of it, is up to the rules: the types of variables for the linear check, cells for the places. The walk
//! gives each statement its function and what is known there, or the first fault.
#![tactic(auto)]

mod driver;
mod laws;
mod rules;
mod waiting;
mod walk;

pub use driver::run;
pub use laws::{one_list, same_shape_fails_by_its_own, stops_once, walk_gives_the_list};
pub use rules::{Branches, WalkFault, WalkRules};
