//! Terms: words that are told by names of cells, which don't change as ap moves, and the expressions that they are.
//!
//! The table of costs tells the results of each libfunc by terms over the expressions of its arguments, and the lowerings
//! tell fragments so. A term and a distance of ap go in, and an expression goes out.
#![tactic(auto)]

mod resolving;
mod term;

pub use resolving::{lowered, resolve};
pub use term::{Second, Slot, Term};
