//! The linear check: each statement of a program takes its arguments out of the held variables and adds its results.
//!
//! A program comes in with its table of types and the signatures of its libfuncs. What goes out gives each statement its
//! function and the variables that are held where it begins, each with its type; or the first fault of the walk over the
//! statements. The places, the gas plan, the meaning and the code go by it.
#![tactic(auto)]

mod check;
mod envs;
mod fault;
mod laws;
mod linear;
mod predecessors;
mod steps;

pub use check::annotate;
pub use envs::Envs;
pub use fault::LinearFault;
pub use laws::{
    never_both, never_memory, one_fault, one_list, one_way_in, typed_by_the_rules, typed_or_fault,
    types_in_table,
};
