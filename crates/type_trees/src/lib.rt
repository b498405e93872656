//! Types as trees: what a type is, apart from the ids that a program gives it. The definitions of sizes, abilities and
//! depths are in `specs/`; the code is the types of numbers alone.
//!
//! The table of types says which tree a declared type is. The signatures of libfuncs, and all that speaks of values of a
//! type, go by the tree.
#![tactic(auto)]

mod num;

pub use num::Num;
