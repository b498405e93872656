//! The gas plan: what each statement of a program needs before it runs, what each `withdraw_gas` takes, and what a run needs
//! to begin.
//!
//! A program comes in with its types, the signatures of its libfuncs and what the linear check found. What goes out is the
//! least plan, or why there is none. The command `gas` prints it; the meaning, the lowerings and the layout of the code go
//! by it.
#![tactic(auto)]

mod accepted;
mod costs;
mod fault;
mod laws;
mod plan;
mod printing;
mod solving;

pub use accepted::Accepted;
pub use fault::GasFault;
pub use laws::{
    builtins_balance, edges_are_branches, equations, needs_exist, never_both, one_fault, one_plan,
    one_text, plan_or_fault, plan_pays, terms_fit,
};
pub use plan::GasPlan;
pub use printing::print;
pub use solving::solve;
