//! Lists of held variables, each with a payload, in rising order of the variables.
//!
//! A statement of a Sierra program takes variables out of such a list and adds others. The payload is a type for the
//! linear check, cells for the places and a value for the meaning.
#![tactic(auto)]

mod held;
mod laws;
mod map;

pub use held::{AddFault, Held};
pub use laws::{differ_equal, differ_least};
pub use map::{HeldMap, HeldSteps, MANY};
