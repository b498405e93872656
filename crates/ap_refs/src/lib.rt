//! Places: in which cells each variable of a program is at each statement.
//!
//! A program comes in with its table of types, the signatures of its libfuncs and what the linear check gave. What goes out
//! gives each statement the expressions of its variables' cells, how far ap is from where it was at the function's begin, and
//! the state of the locals; or the first fault of the walk over the statements. The code of a program is laid by it.
#![tactic(auto)]

mod arguments;
mod cells;
mod check;
mod fault;
mod laws;
mod listed;
mod locals;
mod marks;
mod moves;
mod passing;
mod place;
mod placing;
mod same;
mod stored;

pub use cells::CellsAt;
pub use check::places;
pub use fault::RefFault;
pub use laws::{
    amounts_are_few, arguments_fit, cells_of_types, never_both, never_memory, one_fault, one_list,
    placed_by_the_rules, placed_or_fault, same_variables,
};
pub use listed::Places;
pub use place::Locals;
