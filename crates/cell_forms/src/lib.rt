//! Values in cells: which value of a type stands in some cells of a memory.
//!
//! Cells of a memory and a type come in; the value that stands there goes out. Accepted runs, the verdict, and the contract of
//! every lowering speak of values in cells by these definitions.
#![tactic(auto)]

mod laws;
mod laying;
mod showing;

pub use laws::{
    one_value_stands, padding_is_free, snapshots_stand_alike, standing_lasts,
    standing_side_by_side, standing_takes_its_cells, what_stands_is_of_its_type,
};
pub use laying::lay;
pub use showing::{ShowFault, show};
