//! The lowerings of control and places, of felts and constants, and of enums, structs, snapshots and boxes.
//!
//! A libfunc and the expressions of its arguments come in, its fragment goes out. In `specs/`, a file for each
//! group has the plan of each libfunc, whose fragment the law says to meet the lowering contract. The layout of programs is to
//! stand on it.
#![tactic(auto)]

mod control;
mod data;
mod felts;
mod laws;
mod lowering;
mod sizes;

pub use laws::core_lowerings;
pub use lowering::{is_core, lower};
