//! The lowering contract, and what the proofs of all lowerings share.
//!
//! What is code here gives cells of names and rows of pieces. The lowerings state their contracts by `specs/Lowers`, and prove them
//! by the lemmas of `proofs/`, which are meant as theory for the crates above.
#![tactic(auto)]

mod cells;
mod laws;
mod rows;

pub use cells::cell_at;
pub use laws::{declared_families, terms_are_read};
pub use rows::{push_boxed, push_copied, push_laid};
