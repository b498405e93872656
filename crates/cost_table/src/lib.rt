//! The table of costs: what each branch of a libfunc takes, and the expressions of its results.
//!
//! The signature of a libfunc and the types come in, for the results with the expressions of the arguments; costs and
//! expressions go out. The places and the gas plan read both, and each lowering keeps to them.
#![tactic(auto)]

mod arrays;
mod close;
mod control;
mod costing;
mod costs;
mod data;
mod dictionaries;
mod expressions;
mod felts;
mod gas;
mod integers;
mod laws;
mod mark;
mod part;
mod row;
mod sizes;

pub use close::{are_close, is_close};
pub use costing::cost;
pub use costs::{ApChange, Cost};
pub use expressions::results;
pub use laws::{
    free_or_ten, leaving_is_charged, moves_are_charged, moves_are_few, new_cells_are_last,
    results_are_in_field, results_have_their_cells,
};
pub use mark::Mark;
pub use sizes::cells_of;
