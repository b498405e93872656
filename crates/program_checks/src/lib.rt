//! What a program's tree has to pass before anything of it is run, compiled or evaluated, in the order of compiling: its
//! types and functions, then the signatures of its libfuncs, then its statements, which have to be linearly typed, then main, then the
//! places of its variables, and then its gas plan.
//!
//! A tree comes in, and what the checks found goes out, or the first refusal, whose line is printed here. The tool calls
//! it for each command that does more with a program than read it.
#![tactic(auto)]

mod checking;
mod laws;
mod lines;
mod refusal;

pub use checking::{Checked, check};
pub use laws::{one_accepted, one_gas_plan, one_refusal, passes_or_refused};
pub use lines::refusal_line;
pub use refusal::Refusal;
