//! How the cells of a fragment's run get their words: by the honest answers of hints, and by what the equations leave open.
//!
//! It has no code. The lowering contract states by `specs/Filling` that an honest run comes through each fragment, and the honest
//! runner is to stand on it. `specs/Lines` says the same of the lines of a plan, so that no lowering has to speak of pieces.
#![tactic(auto)]

mod laws;

pub use laws::{fillings_evaluate, fillings_keep_words, plans_fill};
