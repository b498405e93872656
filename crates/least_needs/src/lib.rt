//! The least numbers that meet a system of equations, in which each statement's need is the largest, over its terms, of
//! the term's cost plus the needs of the term's targets.
//!
//! What comes in is each statement's terms in turn. What goes out is each statement's need, or why there are none that
//! are small enough: a cycle of statements, which is named by one list, or a need of `2^32` or more. The gas plan calls
//! it, with a term for each branch of a statement.
#![tactic(auto)]

mod cycle;
mod distances;
mod laws;
mod solving;
mod sources;
mod terms;

pub use laws::{
    a_cycle_is_named, adding_below, adding_free, exist_without_cycles, meeting_is_least,
    needs_or_fault, never_two, none_on_a_cycle, one_cycle, one_statement, one_system, rank_falls,
    terms_are_paid,
};
pub use solving::{Fault, solve};
pub use terms::{LIMIT, Targets, Term, Terms};
