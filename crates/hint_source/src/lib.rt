//! Words that a run asks for because no equation gives them, and the sources that answer.
//!
//! Queries come in one by one, and words go out, or none. The runner asks; the code names what is asked, so fragments
//! stand on the kinds of query alone. Cairo calls such words hints: they are a prover's to choose, and nothing that a run
//! shows depends on them.
#![tactic(auto)]

mod honest;
mod kind;
mod laws;
mod note;
mod overlay;
mod source;

pub use honest::Honest;
pub use kind::Kind;
pub use laws::{answers_of_three_accesses, silent_sources};
pub use note::Note;
pub use overlay::Overlay;
pub use source::{HintSource, Query, TeachFault};
