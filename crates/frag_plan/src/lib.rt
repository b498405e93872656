//! Plans: fragments as small trees over names of cells, and what they say of plain words.
//!
//! It has no code. A lowering writes its fragment as a plan; the laws turn an evaluation of the plan's fragment into
//! equations between words, branch by branch, and back, so that no lowering has to speak of addresses, of positions or of
//! where ap is.
#![tactic(auto)]

mod laws;

pub use laws::{plans_are_shaped, plans_evaluate, plans_meet_hints};
