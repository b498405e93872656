//! The entry of a program: the function with which a run begins, and whether a run can give it its arguments and show its
//! results.
//!
//! A program comes in with its table of types; out goes the position of main, or why there is none. What checks, compiles
//! or evaluates a program calls it, behind the linear check and before the places.
#![tactic(auto)]

mod entry;
mod fault;
mod laws;

pub use entry::check_entry;
pub use fault::EntryFault;
pub use laws::entry_or_fault;
